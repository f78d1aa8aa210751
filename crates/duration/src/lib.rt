// The step for strings spelled as durations, which no kind of constraint uses yet: Duration(X, v), X is written as a duration in a playlist of version v. Both
// versions are one spelling with two arguments: digits, and optionally one point with digits before and behind it. `most` is the greatest length, and `points` the
// word of the symbols that may be the point: of no symbol where a duration has none.
//
// A place is known by its index, from 0. The first places that each allow a digit are the whole part. At the next one no digit can stand, so a longer string has
// its point there, and goes on as far as places allow a digit again; any other point stands within the whole part.
//
// Assumes nothing. Requires a string with a tidy row.

#![tactic(auto)]

ghost use Rattle.std.specs.Prelude.{◌≡◌, ◌<◌, ◌≤◌, ◌+◌, ◌*◌, length};
ghost use Rattle.std.specs.Int.Bits.{bit_and};
ghost use Rattle.model.specs.Domains.{row};
ghost use Rattle.inplace.specs.InTable.{Tidy};
ghost use Rattle.inplace.specs.Written.{Written};
ghost use Rattle.duration.specs.Durations.{DurationStep};
ghost use Rattle.duration.specs.Spelling.{Spells};
ghost use Rattle.duration.specs.Stretches.{places_after, Stretch, Fraction, Lengths, Longest, symbols_at};

// The word of the digits, symbols 0 to 9.
const DIGITS: u64 = 1023;

// The first index from `from` on, up to `lim`, whose place allows no digit; `lim` where each allows one.
fn stretch(t: &[u64], a: usize, from: usize, lim: usize) -> usize
    requires { (from ≤ lim) × (a + lim < length t.now) }
    ensures { Stretch (places_after t.now a) from lim result }
{
    (from..lim)
        .find(|&i| t[a + i + 1] & DIGITS == 0)
        .unwrap_or(lim)
}

// The greatest of these lengths that the whole part reaches; 0, which no duration has, where there is none: the caller compares it alone.
fn longest(lengths: u64, whole: usize) -> usize
    requires { whole < 64 }
    ensures { Longest lengths whole result }
{
    let reached = lengths & words::low_mask(whole);
    if reached == 0 {
        return 0;
    }
    words::highest(reached)
}

// A spelling: the greatest length, and the word of the symbols that may be the point.
#[derive(Clone, Copy)]
struct Spelling {
    most: usize,
    points: u64,
}

impl Spelling {
    // Where the digits behind a point at index `whole` end; `whole` where no point can stand there.
    fn fraction(self, t: &[u64], a: usize, whole: usize, lim: usize) -> usize
        requires { (whole ≤ lim) × (a + lim < length t.now) }
        ensures { Fraction (places_after t.now a) whole lim self.points result }
    {
        if whole == 0 || whole == lim || t[a + whole + 1] & self.points == 0 {
            return whole;
        }
        stretch(t, a, whole + 1, lim)
    }

    // The allowed lengths that a duration may have: up to the greatest, and as far as its digits go, but not such that it would end with its point.
    fn lengths(self, allowed: u64, whole: usize, end: usize) -> u64
        requires { (self.most < 64) × (whole ≤ end) × (end < 64) }
        ensures { Lengths allowed self.most whole end result }
    {
        let fit = allowed & words::low_mask(self.most) & words::low_mask(end) & !1;
        if whole == end {
            return fit;
        }
        fit & !words::singleton(whole + 1)
    }

    // The symbols that a duration may have at an index: digits; and the point behind the whole part, or within it, with a digit before and behind it in a string
    // of at most `low` symbols.
    #[tactic(auto, unfolding(crate::specs::Stretches::symbols_at))]
    fn symbols_at(self, i: usize, whole: usize, low: usize) -> u64
        requires { i < 64 }
        ensures { result ≡ symbols_at whole low self.points i }
    {
        if i == whole || (i > 0 && i + 1 < low) {
            return DIGITS | self.points;
        }
        DIGITS
    }

    // Keeps at the first n places after a what a duration may have there; whether one of them was another.
    fn keep(self, t: &mut [u64], a: usize, n: usize, whole: usize, low: usize) -> bool
        requires { (n < 64) × (a + n < length t.old) }
        ensures { Written t.old a (λ i. bit_and (places_after t.old a i) (symbols_at whole low self.points i)) n t.new result }
    {
        let mut changed = false;
        for i in 0..n {
            let w = t[a + i + 1] & self.symbols_at(i, whole, low);
            changed |= inplace::put(t, a + i + 1, w);
        }
        changed
    }

    // The step of every constraint that holds just of the strings of this spelling.
    fn narrow(self, t: &mut [u64], x: usize) -> Option<inplace::Changed>
        requires { (64 * x + 64 ≤ length t.old) × Tidy (row t.old x) × (self.most < 64) }
        ensures { Spells self.most self.points t.old x t.new result }
    {
        let a = 64 * x;
        let allowed = t[a];
        let lim = words::highest(allowed);
        let whole = stretch(t, a, 0, lim);
        let end = self.fraction(t, a, whole, lim);
        let lengths = self.lengths(allowed, whole, end);
        if lengths == 0 {
            return None;
        }
        let low = longest(lengths, whole);
        let mut changed = self.keep(t, a, words::highest(lengths), whole, low);
        changed |= inplace::shorten(t, x, lengths);
        Some(inplace::Changed {
            x: changed,
            y: false,
            z: false,
        })
    }
}

// Versions 1 and 2: 1 to 20 digits.
const WHOLE: Spelling = Spelling {
    most: 20,
    points: 0,
};

// From version 3 on: symbol 10 may be the point, and any length that a string can have will do.
const PARTED: Spelling = Spelling {
    most: 63,
    points: 1024,
};

// One narrowing step: "For 1 and 2, X is 1 to 20 digits. From 3 on, X is one or more digits, then optionally symbol 10 and one or more digits."
pub fn narrow(t: &mut [u64], x: usize, v: usize) -> Option<inplace::Changed>
    requires { (64 * x + 64 ≤ length t.old) × Tidy (row t.old x) }
    ensures { DurationStep v t.old x t.new result }
{
    if v < 3 {
        return WHOLE.narrow(t, x);
    }
    PARTED.narrow(t, x)
}
