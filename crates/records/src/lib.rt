// Constraint records, 4 bytes each: kind, then up to three arguments, unused ones 0. Refusals 7 and 8 of a file with s strings, t numbers and d automata.
// A record is decoded anew wherever it is wanted; `decode` alone knows how a kind is written. A reader goes over the records for refusal 7.
//
// Assumes nothing. `requires` asks what refusals 3 and 4 leave: whole records, at most 64.

#![tactic(auto)]

mod names;

ghost use Rattle.std.specs.Prelude.{◌≡◌, ◌&&◌, ◌++◌, List, map, ◌+◌, ◌*◌, ◌/◌, ◌<◌, ◌≤◌, ltb, length, take, IfSome};
ghost use Rattle.std.specs.Option.{option_to_list};
ghost use Rattle.std.proofs.Math.Option.{some};
ghost use Rattle.model.specs.Lists.{any, collect};
ghost use Rattle.model.specs.Domains.{str, num};
ghost use Rattle.model.specs.Constraints.{Constraint, variables};
ghost use Rattle.model.specs.Layout.{part};
ghost use Rattle.model.specs.Reading.{decode, repeats, pieces};
ghost use Rattle.refusals.specs.Numbers.{number_in};
ghost use Rattle.records.specs.Records.{constraint_of, decoded_of, repeating, standing, refusal_of};

use layout::Parts;
pub use names::Names;
use reader::Reader;
use refusals::Refusal;

// The kinds 1 to 7 with their arguments.
#[derive(Clone, Copy)]
pub enum Record {
    Eq(u8, u8),
    Neq(u8, u8),
    Rev(u8, u8),
    Cat(u8, u8, u8),
    Sub(u8, u8, u8),
    Len(u8, u8),
    Regular(u8, u8),
}

impl Record {
    // What the constraint names: its strings, and its number, if it has one.
    #[tactic(auto, unfolding(crate::specs::Records::constraint_of, model::specs::Constraints::variables))]
    pub fn names(&self) -> Names
        ensures { (variables (constraint_of self.now) ≡ map str (take result.count result.strings) ++ map num (option_to_list result.number)) × IfSome result.number (λ n. n < 256) }
    {
        match *self {
            Record::Eq(x, y) | Record::Neq(x, y) | Record::Rev(x, y) => named([x, y, 0], 2, None),
            Record::Cat(x, y, z) => named([x, y, z], 3, None),
            Record::Sub(x, y, n) => named([x, y, 0], 2, Some(n)),
            Record::Len(x, n) => named([x, 0, 0], 1, Some(n)),
            Record::Regular(x, _) => named([x, 0, 0], 1, None),
        }
    }
}

// The first so many of these strings, and the number.
fn named(strings: [u8; 3], count: usize, number: Option<u8>) -> Names
    requires { count ≤ 3 }
    ensures { (result.strings ≡ strings) × (result.count ≡ count) × (result.number ≡ number) × IfSome result.number (λ n. n < 256) }
{
    let [x, y, z] = strings;
    Names {
        strings: [x as usize, y as usize, z as usize],
        count,
        number: number.map(|n| n as usize),
    }
}

// What an unused argument is below: it is 0.
const UNUSED: usize = 1;

// Whether each argument is below its bound.
fn below(x: u8, a: usize, y: u8, b: usize, z: u8, c: usize) -> bool
    ensures { result ≡ (ltb x a && ltb y b && ltb z c) }
{
    (x as usize) < a && (y as usize) < b && (z as usize) < c
}

// The constraint that four bytes are, if they are one, in a file with these counts. Inlined, since a search decodes a record at each step.
#[inline]
pub fn decode(bytes: [u8; 4], p: &Parts) -> Option<Record>
    ensures { decoded_of result ≡ decode p.now.s p.now.t p.now.d bytes }
{
    let [kind, x, y, z] = bytes;
    let Parts { s, t, d, .. } = *p;
    match kind {
        1 => below(x, s, y, s, z, UNUSED).then_some(Record::Eq(x, y)),
        2 => below(x, s, y, s, z, UNUSED).then_some(Record::Neq(x, y)),
        3 => below(x, s, y, s, z, UNUSED).then_some(Record::Rev(x, y)),
        4 => below(x, s, y, s, z, s).then_some(Record::Cat(x, y, z)),
        5 => below(x, s, y, s, z, t).then_some(Record::Sub(x, y, z)),
        6 => below(x, s, y, t, z, UNUSED).then_some(Record::Len(x, y)),
        7 => below(x, s, y, d, z, UNUSED).then_some(Record::Regular(x, y)),
        _ => None,
    }
}

// Record j of the constraint bytes.
pub fn at(bytes: &[u8], j: usize, p: &Parts) -> Option<Record>
    requires { 4 * j + 4 ≤ length bytes.now }
    ensures { decoded_of result ≡ decode p.now.s p.now.t p.now.d (part (4 * j) 4 bytes.now) }
{
    let i = 4 * j;
    decode(bytes[i..i + 4].try_into().unwrap(), p)
}

// Whether a constraint names one string twice.
fn twice(r: Record) -> bool
    ensures { result ≡ repeats (variables (constraint_of r)) }
{
    match *r.names().strings() {
        [x, y] => x == y,
        [x, y, z] => (x == y) | (x == z) | (y == z),
        _ => false,
    }
}

// Refusal 7: a reader takes one whole record after the other while four bytes are left, and the first that is no constraint stops the reading. The paper asks for
// this reader.
fn all_stand(bytes: &[u8], p: &Parts) -> Result<(), Refusal>
    ensures { number_in result ≡ standing (collect (decode p.now.s p.now.t p.now.d) (pieces (length bytes.now / 4) 4 bytes.now)) }
{
    let mut reader = Reader { bytes, at: 0 };
    while reader.left() >= 4 {
        let Some(_) = decode(reader.record().to_le_bytes(), p) else {
            return Err(Refusal::Record);
        };
    }
    Ok(())
}

// Whether record j of the constraint bytes is a constraint that names one string twice.
fn twice_at(bytes: &[u8], j: usize, p: &Parts) -> bool
    requires { 4 * j + 4 ≤ length bytes.now }
    ensures { result ≡ repeating (decode p.now.s p.now.t p.now.d (part (4 * j) 4 bytes.now)) }
{
    at(bytes, j, p).is_some_and(twice)
}

// Whether a constraint names one string twice, where every record is one.
fn repeated(bytes: &[u8], p: &Parts) -> bool
    requires { (4 * p.now.c ≡ length bytes.now) × (p.now.c ≤ 64) }
    ensures { (cs : List Constraint) → collect (decode p.now.s p.now.t p.now.d) (pieces p.now.c 4 bytes.now) ≡ some cs → result ≡ any (λ c. repeats (variables c)) cs }
{
    (0..p.c).any(|j| twice_at(bytes, j, p))
}

// Refusals 7 and 8, in their order: "Refusal 8 is looked for only when every record has passed 7."
pub fn check(bytes: &[u8], p: &Parts) -> Result<(), Refusal>
    requires { (4 * p.now.c ≡ length bytes.now) × (p.now.c ≤ 64) }
    ensures { number_in result ≡ refusal_of p.now.s p.now.t p.now.d (pieces p.now.c 4 bytes.now) }
{
    all_stand(bytes, p)?;
    if repeated(bytes, p) {
        return Err(Refusal::Repeated);
    }
    Ok(())
}
