// How a problem file lays out its parts: the trailer of 24 bytes, and refusals 1 to 4. Nothing above this crate knows the trailer; where a part lies comes
// back as numbers.
//
// Assumes nothing. No field of the trailer is wider than 32 bits, so that in a `usize` no sum of distances wraps.

#![tactic(auto)]

ghost use Rattle.std.specs.Prelude.{◌≡◌, ◌+◌, ◌≤◌, length};
ghost use Rattle.model.specs.Lists.{same};
ghost use Rattle.model.specs.Layout.{little, part, trailer, tail, in_bounds, abutting, layout};
ghost use Rattle.layout.specs.Heads.{head_of, placed};
ghost use Rattle.layout.specs.Replied.{reply_of, Fitted};

use reader::Reader;
use refusals::Refusal;

// The counts of symbols, strings, numbers, automata and constraints, and where the parts lie: the table from byte 0 on, constraints and automata where said,
// and the trailer at `end`.
#[derive(Clone, Copy)]
pub struct Parts {
    pub k: usize,
    pub s: usize,
    pub t: usize,
    pub d: usize,
    pub c: usize,
    pub constraints_at: usize,
    pub automata_at: usize,
    pub end: usize,
}

// The numbers of the trailer, in its order. The last three are distances from its first byte back.
#[derive(Clone, Copy)]
struct Trailer {
    k: u32,
    s: u32,
    t: u32,
    d: u32,
    c: u32,
    spare: u32,
    table: u32,
    constraints: u32,
    automata: u32,
}

// Whether the file ends in the bytes `TAIL`.
fn marked(file: &[u8]) -> bool
    requires { 24 ≤ length file.now }
    ensures { result ≡ same (trailer file.now).mark tail }
{
    file.ends_with(b"TAIL")
}

impl Trailer {
    // The trailer's numbers, one after the other from its first byte on.
    fn read(file: &[u8]) -> Trailer
        requires { 24 ≤ length file.now }
        ensures { head_of (trailer file.now).mark result ≡ trailer file.now }
    {
        let mut reader = Reader {
            bytes: file,
            at: file.len() - 24,
        };
        Trailer {
            k: reader.next(1),
            s: reader.next(1),
            t: reader.next(1),
            d: reader.next(1),
            c: reader.next(2),
            spare: reader.next(2),
            table: reader.next(4),
            constraints: reader.next(4),
            automata: reader.next(4),
        }
    }

    // Whether the counts are in range, and bytes 6 and 7 are 0.
    #[tactic(auto, unfolding(model::specs::Layout::in_bounds, crate::specs::Heads::head_of))]
    fn in_bounds(&self) -> bool
        ensures { result ≡ in_bounds (head_of tail self.now) }
    {
        (1..=64).contains(&self.k)
            && self.s <= 16
            && self.t <= 16
            && self.d <= 8
            && self.c <= 64
            && self.spare == 0
    }

    // Whether each distance is that of parts that abut, in a file of this size.
    #[tactic(auto, unfolding(model::specs::Layout::abutting, crate::specs::Heads::head_of))]
    fn abuts(&self, size: usize) -> bool
        ensures { result ≡ abutting size (head_of tail self.now) }
    {
        let records = 4 * self.c as usize;
        let words = 64 * self.s as usize + self.t as usize;
        let back = self.automata as usize;
        self.constraints as usize == records + back
            && self.table as usize == 8 * words + records + back
            && size == self.table as usize + 24
    }

    // Where the parts lie, in a file whose trailer starts at `end`.
    #[tactic(auto, unfolding(crate::specs::Heads::placed))]
    fn place(&self, end: usize) -> Parts
        ensures { result ≡ placed self.now end }
    {
        let s = self.s as usize;
        let t = self.t as usize;
        let c = self.c as usize;
        let constraints_at = 8 * (64 * s + t);
        Parts {
            k: self.k as usize,
            s,
            t,
            d: self.d as usize,
            c,
            constraints_at,
            automata_at: constraints_at + 4 * c,
            end,
        }
    }
}

// The parts of a file, or the first of the refusals 1 to 4.
pub fn of_file(file: &[u8]) -> Result<Parts, Refusal>
    ensures result_value { reply_of file.now result ≡ layout file.now }
    ensures fitted { Fitted file.now result }
{
    if file.len() < 24 {
        return Err(Refusal::FileLength);
    }
    if !marked(file) {
        return Err(Refusal::Mark);
    }
    let h = Trailer::read(file);
    if !h.in_bounds() {
        return Err(Refusal::Counts);
    }
    if !h.abuts(file.len()) {
        return Err(Refusal::Layout);
    }
    Ok(h.place(file.len() - 24))
}
