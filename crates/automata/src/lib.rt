// An automaton in its bytes: the state count q, four bytes of accepting states, then for each of the q states a row of k bytes, the next state for each
// symbol, or 255 where there is no move. A set of states is a `u32`, bit p for state p; states and symbols are `usize`. `next` alone follows a move; `walk` goes
// from automaton to automaton. `columns` finds the symbols by which every state moves alike, and `targets` keeps what the states move to by the symbols of one
// word.
//
// A set that is gathered from moves is a `u64`: bit 63, its mark, says that one of them is missing. So whoever goes on from the set knows whether a symbol led
// nowhere, and asks no move twice.
//
// `successors`, `entering` and `leads` go through the set bits of a word alone, the lowest first: most places allow few symbols, and most sets have few
// states.
//
// Assumes nothing. What refusals 3 and 5 leave, at most 64 symbols and an automaton's whole bytes, every `Automaton` has.

#![tactic(auto)]

mod columns;
mod targets;
mod walk;

ghost use Rattle.std.specs.Prelude.{◌≡◌, ◌^◌, ◌<◌, ◌≤◌, length};
ghost use Rattle.model.specs.Constraints.{move};
ghost use Rattle.model.specs.Layout.{little, part};
ghost use Rattle.automata.specs.Machine.{state_count, machine, move_of, mark_of, Whole};
ghost use Rattle.automata.specs.StateSets.{LowBits, Moves, Enters, Leads, Successors, Entering};

pub use columns::{all_of, firsts, kinds, kinds_at, lacking};
pub use targets::{Entrants, forget};
pub use walk::{all_whole, start};

// An automaton over k symbols, in the bytes that begin with it.
#[derive(Clone, Copy)]
pub struct Automaton<'a> {
    pub bytes: &'a [u8],
    pub k: usize,
    pub ghost few: { k ≤ 64 },
    pub ghost whole: { Whole k bytes.now },
}

// How many states there are.
pub fn states(d: &[u8]) -> usize
    requires { 1 ≤ length d.now }
    ensures { result ≡ state_count d.now }
{
    d[0] as usize
}

// The accepting states.
pub fn accepting(d: &[u8]) -> u32
    requires { 5 ≤ length d.now }
    ensures { result ≡ little (part 1 4 d.now) }
{
    little::four(d, 1)
}

// The bit that stands for a move in a set: that of its state, and 63, which no state has, for nothing.
fn mark(m: Option<usize>) -> usize
    ensures { result ≡ mark_of (move_of m) }
{
    m.unwrap_or(63)
}

// The set of state p alone.
fn only(p: usize) -> u32
    requires { p < 32 }
    ensures { result ≡ 2 ^ p }
{
    1 << p
}

// The bits of w below n: a word may have more bits than there are symbols, and a set more than there are states.
pub fn below(w: u64, n: usize) -> u64
    requires { n ≤ 64 }
    ensures { LowBits n w result }
{
    w & words::below(n)
}

// The states of a marked set.
pub fn states_in(set: u64) -> u32
    ensures { LowBits 32 set result }
{
    below(set, 32) as u32
}

impl<'a> Automaton<'a> {
    // The state that state p moves to by symbol a, if there is one. Of the bytes that refusal 5 leaves, 255 alone is 63 modulo 64: as `mark` makes 63 of nothing,
    // the compiler sees that the two together leave the byte as it is, and a move that may be missing costs no more than one that may not.
    pub fn next(self, p: usize, a: usize) -> Option<usize>
        requires { (p < state_count self.bytes.now) × (a < self.k) }
        ensures { (move_of result ≡ move (machine self.entry.k self.entry.bytes.now) p a) × (mark_of (move_of result) < 64) }
    {
        let to = (self.bytes[5 + p * self.k + a] % 64) as usize;
        if to == 63 {
            return None;
        }
        Some(to)
    }

    // The states that state p moves to by some symbol of the word; marked.
    fn moves(self, p: usize, symbols: u64) -> u64
        requires { p < state_count self.bytes.now }
        ensures { Moves (machine self.entry.k self.entry.bytes.now) self.entry.k p symbols result }
    {
        let mut r: u64 = 0;
        for a in words::each_bit(below(symbols, self.k)) {
            r |= words::singleton(mark(self.next(p, a)));
        }
        r
    }

    // Whether state p moves into the set by some symbol of the word. The first such symbol will do: where many are allowed, it is soon found.
    fn enters(self, p: usize, set: u32, symbols: u64) -> bool
        requires { p < state_count self.bytes.now }
        ensures { Enters (machine self.entry.k self.entry.bytes.now) self.entry.k p set symbols result }
    {
        for a in words::each_bit(below(symbols, self.k)) {
            if words::has(set as u64, mark(self.next(p, a))) {
                return true;
            }
        }
        false
    }

    // Whether some state of the first set moves into the second by symbol a. The first such state will do.
    pub fn leads(self, from: u32, into: u32, a: usize) -> bool
        requires { a < self.k }
        ensures { Leads (machine self.entry.k self.entry.bytes.now) (state_count self.entry.bytes.now) from into a result }
    {
        for p in words::each_bit(below(from as u64, states(self.bytes))) {
            if words::has(into as u64, mark(self.next(p, a))) {
                return true;
            }
        }
        false
    }

    // The states that some state of the set moves to by some symbol of the word; marked.
    pub fn successors(self, set: u64, symbols: u64) -> u64
        ensures { Successors (machine self.entry.k self.entry.bytes.now) (state_count self.entry.bytes.now) self.entry.k set symbols result }
    {
        let mut r: u64 = 0;
        for p in words::each_bit(below(set, states(self.bytes))) {
            r |= self.moves(p, symbols);
        }
        r
    }

    // The states of the first set that move into the second by some symbol of the word.
    pub fn entering(self, from: u32, into: u32, symbols: u64) -> u32
        ensures { Entering (machine self.entry.k self.entry.bytes.now) (state_count self.entry.bytes.now) self.entry.k from into symbols result }
    {
        let mut r: u32 = 0;
        for p in words::each_bit(below(from as u64, states(self.bytes))) {
            if self.enters(p, into, symbols) {
                r |= only(p);
            }
        }
        r
    }
}
