// One step on a lent table, in place. `narrow` asks tidy rows, as a search has them; `apply` takes any table: it makes the rows that its constraint names tidy
// first, and where no choice is left it strikes all their bits. `step` is `apply` with the count of the bits that it strikes.
//
// Assumes nothing. `requires` asks what refusals 9 and 10 leave, and that positions lie inside the table. That a table may be lent stays a clause, here and above: a
// struct that held the table would have to say of each step what else of it stays.

#![tactic(auto)]

ghost use Rattle.std.specs.Prelude.{◌≡◌, true, [], ◌∷◌, ◌+◌, ◌*◌, ◌<◌, ◌≤◌, length, replicate};
ghost use Rattle.model.specs.Words.{size};
ghost use Rattle.model.specs.Domains.{row};
ghost use Rattle.model.specs.Constraints as model;
ghost use Rattle.model.specs.Constraints.{width, always, regular};
ghost use Rattle.model.specs.Support.{narrowed};
ghost use Rattle.laws.specs.Inclusion.{In};
ghost use Rattle.laws.specs.Lent.{lendable};
ghost use Rattle.rows.specs.Rows.{trimmed, stored};
ghost use Rattle.records.specs.Records.{constraint_of};
ghost use Rattle.format.specs.Problems.{the_problem};
ghost use Rattle.inplace.specs.InTable.{Tidy};
ghost use Rattle.inplace.specs.InPlace.{taken};
ghost use Rattle.steps.specs.Step.{Step, Narrows, TidyIn, Leaves, KindsIn};
ghost use Rattle.steps.specs.Names.{texts, numbers, Naming, Inside, Tidies, Blanked};

use format::Problem;
pub use records::Names;
use records::Record;

// The kinds of the symbols of all automata of the file, made once for many steps, into 520 words that are 0.
pub fn kinds(p: &Problem, ks: &mut [u64])
    requires { ks.old ≡ replicate 520 0 }
    ensures { KindsIn p.now ks.new }
{
    automata::kinds(p.automata_bytes(), p.parts.k, p.parts.d, ks)
}

// Regular(X, D), with the automata of the file, and their kinds, where they are lent.
fn regular_at(
    p: &Problem,
    kinds: &[u64],
    table: &mut [u64],
    x: usize,
    d: usize,
) -> Option<inplace::Changed>
    requires { (lendable (the_problem p.now) table.old ≡ true) × KindsIn p.now kinds.now × (x < p.now.parts.s) × (d < p.now.parts.d) × Tidy (row table.old x) }
    ensures { Narrows (the_problem p.now) (regular x d) table.old table.new result }
{
    let k = p.parts.k;
    let bytes = p.automata_bytes();
    let at = automata::start(bytes, k, d);
    let automaton = automata::Automaton {
        bytes: &bytes[at..],
        k,
    };
    regular::narrow(automaton, automata::kinds_at(kinds, d), table, x)
}

// The step of the constraint that a record of the file is, on a table in which the rows that it names are tidy. A match: the relations differ in what they are given.
pub fn narrow(p: &Problem, kinds: &[u64], r: Record, table: &mut [u64]) -> Option<inplace::Changed>
    requires { (lendable (the_problem p.now) table.old ≡ true) × KindsIn p.now kinds.now × In (constraint_of r) (the_problem p.now).constraints
        × TidyIn (constraint_of r) table.old }
    ensures { Narrows (the_problem p.now) (constraint_of r) table.old table.new result }
{
    let s = p.parts.s;
    match r {
        Record::Eq(x, y) => eq::narrow(table, x as usize, y as usize),
        Record::Neq(x, y) => neq::narrow(table, x as usize, y as usize),
        Record::Rev(x, y) => rev::narrow(table, x as usize, y as usize),
        Record::Cat(x, y, z) => cat::narrow(table, x as usize, y as usize, z as usize),
        Record::Sub(x, y, n) => sub::narrow(table, x as usize, y as usize, 64 * s + n as usize),
        Record::Len(x, n) => len::narrow(table, x as usize, 64 * s + n as usize),
        Record::Regular(x, d) => regular_at(p, kinds, table, x as usize, d as usize),
    }
}

// What a record names, in a table of s strings: its strings, and the word of its number, if it has one.
pub fn of_record(r: Record, s: usize) -> Names
    requires { s ≤ 16 }
    ensures { Naming s (constraint_of r) result }
{
    let Names {
        strings,
        count,
        number,
    } = r.names();
    Names {
        strings,
        count,
        number: number.map(|n| 64 * s + n),
    }
}

// Makes the rows of these strings tidy, one after the other, as long as each has a value; whether all have.
fn tidy(table: &mut [u64], m: &Names) -> bool
    requires { Inside m.now table.old }
    ensures { Tidies (texts m.now) table.old table.new result }
{
    for &x in m.strings() {
        if !inplace::tidy(table, x) {
            return false;
        }
    }
    true
}

// Strikes every bit of string x.
fn blank(table: &mut [u64], x: usize)
    requires { 64 * x + 64 ≤ length table.old }
    ensures { Blanked (x ∷ []) [] table.old table.new }
{
    table[64 * x] = 0;
    inplace::clear(table, 64 * x, 0, 63);
}

// Strikes every bit of what is named.
pub fn clear(table: &mut [u64], m: &Names)
    requires { Inside m.now table.old }
    ensures { Blanked (texts m.now) (numbers m.now) table.old table.new }
{
    for &x in m.strings() {
        blank(table, x);
    }
    if let Some(i) = m.number {
        table[i] = 0;
    }
}

// How many bits string x has.
fn bits(table: &[u64], x: usize) -> u32
    requires { 64 * x + 64 ≤ length table.now }
    ensures { result ≡ size (row table.now x) }
{
    words::size(&table[64 * x..64 * x + 64])
}

// How many bits there are of what is named.
fn count(table: &[u64], m: &Names) -> u32
    requires { Inside m.now table.now }
    ensures { result ≡ size (taken (texts m.now) (numbers m.now) table.now) }
{
    let mut n = 0;
    for &x in m.strings() {
        n += bits(table, x);
    }
    if let Some(i) = m.number {
        n += words::count(table[i]);
    }
    n
}

// Trims string x: its row is made tidy, and where it has no value every bit of it is struck.
pub fn trim_row(table: &mut [u64], x: usize)
    requires { 64 * x + 64 ≤ length table.old }
    ensures { table.new ≡ stored table.old x (trimmed (row table.old x)) }
{
    if !inplace::tidy(table, x) {
        blank(table, x);
    }
}

// Trims string x; how many bits that strikes.
pub fn trim(table: &mut [u64], x: usize) -> u32
    requires { 64 * x + 64 ≤ length table.old }
    ensures { (P : model.Problem) → length table.old ≡ width P → x < P.strings → Step P (always x) table.old table.new result }
{
    let before = bits(table, x);
    trim_row(table, x);
    before - bits(table, x)
}

// Makes the rows that a record names tidy, and then its step in place; whether a choice is left.
fn narrow_any(p: &Problem, kinds: &[u64], r: Record, m: &Names, table: &mut [u64]) -> bool
    requires { (lendable (the_problem p.now) table.old ≡ true) × KindsIn p.now kinds.now × In (constraint_of r) (the_problem p.now).constraints
        × Naming p.now.parts.s (constraint_of r) m.now }
    ensures { Leaves (the_problem p.now) (constraint_of r) table.old table.new result }
{
    tidy(table, m) && narrow(p, kinds, r, table).is_some()
}

// The step of the constraint that a record of the file is, on any table: where no choice is left, every bit of what the record names is struck.
pub fn apply(p: &Problem, kinds: &[u64], r: Record, table: &mut [u64])
    requires { (lendable (the_problem p.now) table.old ≡ true) × KindsIn p.now kinds.now × In (constraint_of r) (the_problem p.now).constraints }
    ensures { table.new ≡ narrowed (the_problem p.now) (constraint_of r) table.old }
{
    let m = of_record(r, p.parts.s);
    if !narrow_any(p, kinds, r, &m, table) {
        clear(table, &m);
    }
}

// The same step; how many bits it strikes. Nothing but what the record names differs, so that alone is counted, before and after.
pub fn step(p: &Problem, r: Record, table: &mut [u64]) -> u32
    requires { (lendable (the_problem p.now) table.old ≡ true) × In (constraint_of r) (the_problem p.now).constraints }
    ensures { Step (the_problem p.now) (constraint_of r) table.old table.new result }
{
    let m = of_record(r, p.parts.s);
    let before = count(table, &m);
    apply(p, &[], r, table);
    before - count(table, &m)
}
