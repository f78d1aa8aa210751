// Reads the text of a pattern: branch, item and group readers call one another, and the unread bytes fall.
//
// Assumes nothing. Each reader answers the first and last letters of what it read, and adds to the lent array which letters follow which.

#![tactic(auto)]

ghost use Rattle.std.specs.Prelude.{◌≡◌, ◌&&◌, ◌||◌, ℕ, ◌+◌, ◌-◌, ◌*◌, ◌<◌, ◌≤◌, length};
ghost use Rattle.model.specs.PatternText.{symbol_of, sees, ended, pattern_at, branch_at, item_at, parse};
ghost use Rattle.model.specs.PatternStates.{when};
ghost use Rattle.parser.specs.Reads.{EitherOf, BothOf, Linked, Starred, Says, Within};

// What was read: the place after it, whether the empty string is among its strings, and the letters that come first and last, as sets of places.
#[derive(Clone, Copy)]
pub struct Part {
    pub end: usize,
    pub nullable: bool,
    pub first: u64,
    pub last: u64,
}

// The symbol of a byte, 39 for a byte that is no letter: a number and no Option, since the definition `symbol_of`, which this promises, has 39 there.
#[tactic(auto, using(std::proofs::lemmas::Bool::Decides::nat_tests), unfolding(model::specs::PatternText::symbol_of))]
pub fn symbol_of(b: u8) -> u8
    ensures { result ≡ symbol_of b }
{
    match b {
        b'0'..=b'9' => b - b'0',
        b'.' => 10,
        b'a'..=b'z' => b - b'a' + 11,
        b'-' => 37,
        b'/' => 38,
        _ => 39,
    }
}

// After each letter of `last` the letters of `first` may come.
fn link(follow: &mut [u64; 64], last: u64, first: u64)
    ensures { Linked follow.old last first follow.new }
{
    for p in words::each_bit(last) {
        follow[p] |= first;
    }
}

// One of two parts.
fn either(a: Part, b: Part) -> Part
    ensures { EitherOf a b result }
{
    Part {
        end: b.end,
        nullable: a.nullable || b.nullable,
        first: a.first | b.first,
        last: a.last | b.last,
    }
}

// The set, if the test passes.
#[tactic(auto, unfolding(model::specs::PatternStates::when))]
fn taken(t: bool, w: u64) -> u64
    ensures { result ≡ when t w }
{
    if t { w } else { 0 }
}

// One part after the other.
fn both(a: Part, b: Part) -> Part
    ensures { BothOf a b result }
{
    Part {
        end: b.end,
        nullable: a.nullable && b.nullable,
        first: a.first | taken(a.nullable, b.first),
        last: taken(b.nullable, a.last) | b.last,
    }
}

// A text that is read; a set of its places is one word. The follow sets are lent beside it: where a struct holds a `&mut`, each method has to promise that the
// text and the reference stay.
#[derive(Clone, Copy)]
struct Text<'a> {
    bytes: &'a [u8],
    ghost short: { length bytes.now < 64 },
}

impl Text<'_> {
    // Whether byte b stands at place p.
    fn sees(&self, p: usize, b: u8) -> bool
        ensures { result ≡ sees self.now.bytes.now p b }
    {
        self.bytes.get(p) == Some(&b)
    }

    // Whether no item begins at place p.
    #[tactic(auto, using(std::proofs::lemmas::Bool::Decides::nat_tests), unfolding(model::specs::PatternText::ended))]
    fn is_end(&self, p: usize) -> bool
        ensures { result ≡ ended self.now.bytes.now p }
    {
        self.bytes.len() <= p || matches!(self.bytes[p], b'|' | b')')
    }

    // An item that ends at place p, with the `*` that may follow it.
    fn star(&self, p: usize, a: Part, follow: &mut [u64; 64]) -> Part
        requires { p ≤ length self.now.bytes.now }
        ensures { Starred self.now.bytes.now p a result follow.old follow.new }
    {
        if self.sees(p, b'*') {
            link(follow, a.last, a.first);
            return Part {
                end: p + 1,
                nullable: true,
                ..a
            };
        }
        Part { end: p, ..a }
    }

    // A pattern that begins at this place.
    #[cycle(branch_item_pattern)]
    #[tactic(auto, using(patterns::proofs::FuelLaws::sees_lt))]
    fn pattern(&self, at: usize, follow: &mut [u64; 64]) -> Option<Part>
        requires { at ≤ length self.now.bytes.now }
        ensures says { (n : ℕ) → 3 * (length self.now.bytes.now - at) + 2 < n → Says follow.old follow.new (pattern_at n self.now.bytes.now at) result }
        ensures within { Within at (length self.now.bytes.now) result }
    {
        let a = self.branch(at, follow)?;
        if self.sees(a.end, b'|') {
            let b = self.pattern(a.end + 1, follow)?;
            return Some(either(a, b));
        }
        Some(a)
    }

    // A branch: items up to `|`, `)` or the end.
    #[cycle(branch_item_pattern)]
    fn branch(&self, at: usize, follow: &mut [u64; 64]) -> Option<Part>
        requires { at ≤ length self.now.bytes.now }
        ensures says { (n : ℕ) → 3 * (length self.now.bytes.now - at) + 1 < n → Says follow.old follow.new (branch_at n self.now.bytes.now at) result }
        ensures within { Within at (length self.now.bytes.now) result }
    {
        if self.is_end(at) {
            return Some(Part {
                end: at,
                nullable: true,
                first: 0,
                last: 0,
            });
        }
        let a = self.item(at, follow)?;
        let b = self.branch(a.end, follow)?;
        link(follow, a.last, b.first);
        Some(both(a, b))
    }

    // A letter or a group, and the `*` after it.
    #[cycle(branch_item_pattern)]
    #[tactic(auto, using(patterns::proofs::FuelLaws::sees_lt))]
    fn item(&self, at: usize, follow: &mut [u64; 64]) -> Option<Part>
        requires { at < length self.now.bytes.now }
        ensures says { (n : ℕ) → 3 * (length self.now.bytes.now - at) < n → Says follow.old follow.new (item_at n self.now.bytes.now at) result }
        ensures within { Within (at + 1) (length self.now.bytes.now) result }
    {
        let b = self.bytes[at];
        if b == b'(' {
            let a = self.pattern(at + 1, follow)?;
            if self.sees(a.end, b')') {
                return Some(self.star(a.end + 1, a, follow));
            }
            return None;
        }
        if symbol_of(b) < 39 {
            let only = words::singleton(at);
            let letter = Part {
                end: at + 1,
                nullable: false,
                first: only,
                last: only,
            };
            return Some(self.star(at + 1, letter, follow));
        }
        None
    }
}

// The whole text is one pattern. The lent array gets, at each letter's place, the letters that may come right after it.
pub fn read_text(s: &[u8], follow: &mut [u64; 64]) -> Option<Part>
    requires { length s.now < 64 }
    ensures { Says follow.old follow.new (parse s.now) result }
{
    let a = Text { bytes: s }.pattern(0, follow)?;
    if a.end == s.len() { Some(a) } else { None }
}
