// The kinds of an automaton's symbols. Two symbols are of one kind where every state moves alike by both; most automata have few kinds, so that the moves are
// asked by one symbol of each kind. An automaton has 65 words: word a, for symbol a, has symbols of its kind, and word 64 has the symbols by which some state has
// no move. That all of a kind are there is not said. Where no words are lent at all, each symbol is a kind of its own, and any move may be missing: for one step
// alone, words would cost more than they save.
//
// Assumes nothing. `requires` asks what refusals 3 and 5 leave: at most 64 symbols and 8 automata, automata that the bytes hold; and room for their words.
ghost use Rattle.std.specs.Prelude.{◌≡◌, ◌+◌, ◌*◌, ◌<◌, ◌≤◌, true, false, length, option_copied};
ghost use Rattle.automata.specs.Machine.{state_count, machine, Whole};
ghost use Rattle.automata.specs.Kinds.{Alike, Total, OneKind, Kinds, KindWords, lacking_of, words_at, Spread, Noted, Partly};
ghost use Rattle.automata.specs.Kinds.{AllHeld, AllKinds, Firsts, AllOf};

use crate::{Automaton, mark, start, states};

impl<'a> Automaton<'a> {
    // Whether every state moves alike by two symbols.
    fn same_column(self, a: usize, b: usize) -> bool
        requires { (a < self.k) × (b < self.k) }
        ensures { result ≡ true → Alike (machine self.entry.k self.entry.bytes.now) (state_count self.entry.bytes.now) a b }
    {
        for p in 0..states(self.bytes) {
            if mark(self.next(p, a)) != mark(self.next(p, b)) {
                return false;
            }
        }
        true
    }

    // Whether some state may have no move by the symbol.
    fn lacks(self, a: usize) -> bool
        requires { a < self.k }
        ensures { result ≡ false → Total (machine self.entry.k self.entry.bytes.now) (state_count self.entry.bytes.now) a }
    {
        for p in 0..states(self.bytes) {
            if self.next(p, a).is_none() {
                return true;
            }
        }
        false
    }

    // Symbol a, and the symbols past it by which every state moves as by a.
    fn alike(self, a: usize) -> u64
        requires { a < self.k }
        ensures { OneKind (machine self.entry.k self.entry.bytes.now) (state_count self.entry.bytes.now) self.entry.k a result }
    {
        let mut r = words::singleton(a);
        for b in a + 1..self.k {
            if self.same_column(a, b) {
                r |= words::singleton(b);
            }
        }
        r
    }

    // Finds the kind of symbol a, where it is none of a symbol before it.
    fn find(self, ks: &mut [u64; 65], a: usize)
        requires { (a < self.k) × (length ks.old ≡ 65) × Partly (machine self.k self.bytes.now) (state_count self.bytes.now) self.k ks.old a }
        ensures { Partly (machine self.entry.k self.entry.bytes.now) (state_count self.entry.bytes.now) self.entry.k ks.new (a + 1) }
    {
        if ks[a] != 0 {
            return;
        }
        let w = self.alike(a);
        spread(ks, w);
        note(ks, w, self.lacks(a));
    }

    // The kinds of the automaton.
    fn kinds(self) -> [u64; 65]
        ensures { KindWords (machine self.entry.k self.entry.bytes.now) (state_count self.entry.bytes.now) self.entry.k result }
    {
        let mut ks = [0; 65];
        for a in 0..self.k {
            self.find(&mut ks, a);
        }
        ks
    }
}

// Writes the word at each of its symbols.
fn spread(ks: &mut [u64; 65], w: u64)
    requires { length ks.old ≡ 65 }
    ensures { Spread ks.old w ks.new }
{
    for a in words::each_bit(w) {
        ks[a] = w;
    }
}

// Notes in word 64 that a move may be missing by the symbols of the word, if so.
fn note(ks: &mut [u64; 65], w: u64, missing: bool)
    requires { length ks.old ≡ 65 }
    ensures { Noted ks.old w missing ks.new }
{
    if missing {
        ks[64] |= w;
    }
}

// The kinds of all d automata, those of automaton i from 65 i on. They are lent: by value all would lie on the stack twice.
pub fn kinds(bytes: &[u8], k: usize, d: usize, ks: &mut [u64])
    requires { (k ≤ 64) × (d ≤ 8) × AllHeld k d bytes.now × (length ks.old ≡ 520) }
    ensures { AllKinds k d bytes.now ks.new × (length ks.new ≡ 520) }
{
    for i in 0..d {
        let at = start(bytes, k, i);
        let own = Automaton {
            bytes: &bytes[at..],
            k,
        }
        .kinds();
        ks[65 * i..65 * i + 65].copy_from_slice(&own);
    }
}

// The kinds of automaton i, if words are lent.
pub fn kinds_at(ks: &[u64], i: usize) -> Option<&[u64; 65]>
    requires { i < 8 }
    ensures { option_copied result ≡ words_at ks.now i }
{
    ks.get(65 * i..65 * i + 65)?.try_into().ok()
}

// One symbol of each kind that the word has.
pub fn firsts(kinds: Option<&[u64; 65]>, w: u64) -> u64
    ensures { Firsts (option_copied kinds.entry) w result }
{
    match kinds {
        Some(ks) => firsts_of(ks, w),
        None => w,
    }
}

// The same, by the words that are lent. Each turn takes a whole kind off, so that the symbols to come are not those of an iterator over the word.
fn firsts_of(ks: &[u64; 65], w: u64) -> u64
    ensures { Firsts (Some ks.now) w result }
{
    let mut rest = w;
    let mut r: u64 = 0;
    while rest != 0 {
        let a = words::lowest(rest);
        let alone = words::singleton(a);
        r |= alone;
        rest &= !(ks[a] | alone);
    }
    r
}

// These symbols, and all of their kinds.
pub fn all_of(kinds: Option<&[u64; 65]>, firsts: u64) -> u64
    ensures { AllOf (option_copied kinds.entry) firsts result }
{
    match kinds {
        Some(ks) => all_kinds_of(ks, firsts),
        None => firsts,
    }
}

// The same, by the words that are lent.
fn all_kinds_of(ks: &[u64; 65], firsts: u64) -> u64
    ensures { AllOf (Some ks.now) firsts result }
{
    let mut r = firsts;
    for a in words::each_bit(firsts) {
        r |= ks[a];
    }
    r
}

// The symbols by which a move may be missing.
pub fn lacking(kinds: Option<&[u64; 65]>) -> u64
    ensures { result ≡ lacking_of (option_copied kinds.entry) }
{
    match kinds {
        Some(ks) => ks[64],
        None => u64::MAX,
    }
}
