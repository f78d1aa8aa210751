// One word of 64 bits as a set of the numbers 0 to 63.
//
// Assumes nothing. A position is a `usize` below 64; a word that is asked for its lowest or highest bit has one.

#![tactic(auto)]

ghost use Rattle.std.specs.Prelude.{◌≡◌, true, ℕ, ◌<◌, ◌≤◌, ◌+◌, ◌-◌, ◌^◌, length};
ghost use Rattle.model.specs.Words.{bit, bits, size, several, none_from};
ghost use Rattle.words.specs.Ends.{Highest, Lowest};
ghost use Rattle.words.specs.Each.{TakesLowest};
ghost use Rattle.std.specs.Iterator.{at_most};

// Whether bit i of w is set.
pub fn has(w: u64, i: usize) -> bool
    requires { i < 64 }
    ensures { result ≡ bit w i }
{
    (w >> i) & 1 == 1
}

// The word with bit i alone.
pub fn singleton(i: usize) -> u64
    requires { i < 64 }
    ensures { result ≡ 2 ^ i }
{
    1 << i
}

// The word with the bits 0 to i: all 64 bits, shifted down until i + 1 are left. (1 << (i + 1)) - 1 would shift by 64 for i = 63.
pub fn low_mask(i: usize) -> u64
    requires { i < 64 }
    ensures { result ≡ 2 ^ (i + 1) - 1 }
{
    u64::MAX >> (63 - i)
}

// The word with the bits below n.
pub fn below(n: usize) -> u64
    requires { n ≤ 64 }
    ensures { ((j : ℕ) → bit result j ≡ true → j < n) × ((j : ℕ) → j < n → bit result j ≡ true) }
{
    if n == 0 {
        return 0;
    }
    low_mask(n - 1)
}

// Whether w has no bit at k or above.
pub fn none_from(w: u64, k: usize) -> bool
    requires { (1 ≤ k) × (k ≤ 64) }
    ensures { result ≡ none_from k w }
{
    w <= low_mask(k - 1)
}

// How many bits of w are set.
pub fn count(w: u64) -> u32
    ensures { result ≡ length (bits w) }
{
    u64::count_ones(w)
}

// How many bits of a table's words are set.
pub fn size(table: &[u64]) -> u32
    requires { length table.now ≤ 1040 }
    ensures { result ≡ size table.now }
{
    table.iter().map(|&w| count(w)).sum()
}

// The highest set bit of a word that has one.
pub fn highest(w: u64) -> usize
    requires { 0 < w }
    ensures { Highest w result }
{
    (63 - u64::leading_zeros(w)) as usize
}

// The lowest set bit of a word that has one.
pub fn lowest(w: u64) -> usize
    requires { 0 < w }
    ensures { Lowest w result }
{
    u64::trailing_zeros(w) as usize
}

// Whether w has more than one bit.
pub fn several(w: u64) -> bool
    ensures { result ≡ several w }
{
    if w == 0 {
        return false;
    }
    w != singleton(lowest(w))
}

// The bits of a word that are still to be given, from the lowest up: `for i in words::each_bit(w)` goes through the set bits of w.
#[derive(Clone, Copy)]
pub struct Bits {
    pub rest: u64,
}

impl Iterator for Bits {
    type Item = usize;

    ghost can_next = { λ s. Unit {0} };

    ghost next_gives = { TakesLowest };

    ghost remaining = { λ s. at_most s.rest };

    fn next(&mut self) -> Option<usize> {
        if self.rest == 0 {
            return None;
        }
        let i = lowest(self.rest);
        self.rest &= self.rest - 1;
        Some(i)
    }
}

// Each set bit of a word, from the lowest up.
pub fn each_bit(w: u64) -> Bits
    ensures { result.rest ≡ w }
{
    Bits { rest: w }
}
