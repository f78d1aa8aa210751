// What each state moves to by the symbols of one word, kept from the first time on that a state is asked: 32 marked sets, set p for state p, and none where p was
// not asked. Every move leads to a state or leaves a mark, so that a state that was asked has a set with a bit, unless the word has no symbol.
//
// The word and its sets are lent side by side: the sets change and the word doesn't, and of a struct of both each contract would have to say so.
//
// Assumes nothing. `requires` asks that the sets belong to the word.
ghost use Rattle.std.specs.Prelude.{◌≡◌, ◌<◌, ◌≤◌, true, length, is_some, unwrap_or};
ghost use Rattle.model.specs.Words.{none_from};
ghost use Rattle.laws.specs.Inclusion.{Within};
ghost use Rattle.automata.specs.Machine.{state_count, machine, Whole};
ghost use Rattle.automata.specs.StateSets.{Moves, Successors, By, Added, Steps, Targets, Most, Forgotten};
ghost use Rattle.automata.specs.Kinds.{Lacks};

use crate::{Automaton, below, mark, only, states};

// The states that move into a set, and the symbols by which they do.
#[derive(Clone, Copy)]
pub struct Entrants {
    pub states: u32,
    pub symbols: u64,
}

impl<'a> Automaton<'a> {
    // The states that state p moves to by some symbol of the word; marked. A set without a bit says that p was not asked: 32 Options would take twice the words.
    fn asked(self, symbols: u64, tos: &mut [u64; 32], p: usize) -> u64
        requires { (p < state_count self.bytes.now) × Targets (machine self.k self.bytes.now) (state_count self.bytes.now) self.k symbols tos.old }
        ensures { Moves (machine self.entry.k self.entry.bytes.now) self.entry.k p symbols result
            × Targets (machine self.entry.k self.entry.bytes.now) (state_count self.entry.bytes.now) self.entry.k symbols tos.new }
    {
        let kept = tos[p];
        if kept != 0 {
            return kept;
        }
        let r = self.moves(p, symbols);
        tos[p] = r;
        r
    }

    // The states that some state of the set moves to by some symbol of the word; marked. Once all is found the rest need not be asked.
    pub fn steps_to(self, symbols: u64, lacking: u64, tos: &mut [u64; 32], set: u64) -> u64
        requires { Lacks (machine self.k self.bytes.now) (state_count self.bytes.now) self.k lacking
            × Targets (machine self.k self.bytes.now) (state_count self.bytes.now) self.k symbols tos.old }
        ensures { Successors (machine self.entry.k self.entry.bytes.now) (state_count self.entry.bytes.now) self.entry.k set symbols result
            × Targets (machine self.entry.k self.entry.bytes.now) (state_count self.entry.bytes.now) self.entry.k symbols tos.new }
    {
        let q = states(self.bytes);
        let all = most(q, symbols, lacking);
        let mut r: u64 = 0;
        for p in words::each_bit(below(set, q)) {
            r |= self.asked(symbols, tos, p);
            if r == all {
                return r;
            }
        }
        r
    }

    // The symbols of the word by which state p moves into the set.
    fn by(self, p: usize, into: u32, symbols: u64) -> u64
        requires { p < state_count self.bytes.now }
        ensures { By (machine self.entry.k self.entry.bytes.now) self.entry.k p into symbols result }
    {
        let mut r: u64 = 0;
        for a in words::each_bit(below(symbols, self.k)) {
            if words::has(into as u64, mark(self.next(p, a))) {
                r |= words::singleton(a);
            }
        }
        r
    }

    // If state p, which was not asked yet, moves into the set: by which symbols beside those found, and these. New symbols are tried first, and of those found the
    // first will do; only a state that does not enter is asked for all that it moves to.
    fn first_entry(
        self,
        symbols: u64,
        tos: &mut [u64; 32],
        p: usize,
        into: u32,
        found: u64,
    ) -> Option<u64>
        requires { (p < state_count self.bytes.now) × Within found symbols
            × Targets (machine self.k self.bytes.now) (state_count self.bytes.now) self.k symbols tos.old }
        ensures { Added (machine self.entry.k self.entry.bytes.now) self.entry.k p into symbols found (is_some result) (unwrap_or result found)
            × Targets (machine self.entry.k self.entry.bytes.now) (state_count self.entry.bytes.now) self.entry.k symbols tos.new }
    {
        let new = self.by(p, into, symbols & !found);
        if new != 0 {
            return Some(new | found);
        }
        if self.enters(p, into, found) {
            return Some(found);
        }
        let r = self.moves(p, symbols);
        tos[p] = r;
        None
    }

    // If state p moves into the set by the word's symbols: the symbols found, with those by which it does.
    fn entry(
        self,
        symbols: u64,
        tos: &mut [u64; 32],
        p: usize,
        into: u32,
        found: u64,
    ) -> Option<u64>
        requires { (p < state_count self.bytes.now) × Within found symbols × (none_from self.k symbols ≡ true)
            × Targets (machine self.k self.bytes.now) (state_count self.bytes.now) self.k symbols tos.old }
        ensures { Added (machine self.entry.k self.entry.bytes.now) self.entry.k p into symbols found (is_some result) (unwrap_or result found)
            × Targets (machine self.entry.k self.entry.bytes.now) (state_count self.entry.bytes.now) self.entry.k symbols tos.new }
    {
        let to = tos[p];
        if to == 0 {
            return self.first_entry(symbols, tos, p, into, found);
        }
        let set = into as u64;
        if to & set == 0 {
            return None;
        }
        if to & !set == 0 {
            return Some(symbols);
        }
        Some(self.by(p, into, symbols & !found) | found)
    }

    // The states of the first set that move into the second by the word's symbols, and the symbols by which they do.
    pub fn steps_back(self, symbols: u64, tos: &mut [u64; 32], from: u32, into: u32) -> Entrants
        requires { (none_from self.k symbols ≡ true) × Targets (machine self.k self.bytes.now) (state_count self.bytes.now) self.k symbols tos.old }
        ensures { Steps (machine self.entry.k self.entry.bytes.now) (state_count self.entry.bytes.now) self.entry.k symbols from into result.symbols result.states
            × Targets (machine self.entry.k self.entry.bytes.now) (state_count self.entry.bytes.now) self.entry.k symbols tos.new }
    {
        let mut r = Entrants {
            states: 0,
            symbols: 0,
        };
        for p in words::each_bit(below(from as u64, states(self.bytes))) {
            if let Some(symbols) = self.entry(symbols, tos, p, into, r.symbols) {
                r = Entrants {
                    states: r.states | only(p),
                    symbols,
                };
            }
        }
        r
    }
}

// All that a marked set of q states can have by the symbols of the word; the mark only where a move may be missing by one of them.
fn most(q: usize, symbols: u64, lacking: u64) -> u64
    requires { (1 ≤ q) × (q ≤ 32) }
    ensures { Most q symbols lacking result }
{
    let all = words::low_mask(q - 1);
    if symbols & lacking == 0 {
        return all;
    }
    words::singleton(63) | all
}

// Keeps nothing any more.
pub fn forget(tos: &mut [u64; 32])
    ensures { Forgotten tos.new }
{
    tos.fill(0);
}
