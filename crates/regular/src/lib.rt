// Regular(X, D): automaton D accepts X. A symbol stays at a place if a state that the places before it lead to moves by it to a state from which the places
// after it lead to an accepted end; a length stays if the places up to it lead to an accepting state. Sets of states are a `u32` each; those found going forwards
// are marked (crates/automata), so that a place at which some move is missing is known.
//
// The states that the places lead to are found going forwards, and then, going backwards, each place is left the symbols that lie on a way to an accepted end.
// A word of several symbols is asked by one symbol of each kind (crates/automata), and what states move to by the word last asked is kept in 32 sets, `tos`.
// What the place gone through last was asked is lent too, so that a level of the recursion hands on a set and nothing more.
//
// Assumes nothing. `requires` asks what refusals 6 and 10 leave, no bit at k or above at a place, the kinds of the automaton's symbols, and that the row is
// tidy. What refusals 3 and 5 leave, at most 64 symbols and an automaton's whole bytes, every `Automaton` has.

#![tactic(auto)]

ghost use Rattle.std.specs.Prelude.{◌≡◌, cond, true, false, [], ◌∷◌, ◌<◌, ◌≤◌, ◌+◌, ◌*◌, ◌/◌, ◌%◌, length, option_copied};
ghost use Rattle.std.specs.Int.Bits.{bit_and};
ghost use Rattle.model.specs.Words.{bit, word, none_from};
ghost use Rattle.model.specs.Domains.{row};
ghost use Rattle.model.specs.Constraints.{regular};
ghost use Rattle.model.specs.Layout.{little, part};
ghost use Rattle.automata.specs.Machine.{state_count, machine, Whole};
ghost use Rattle.automata.specs.StateSets.{Symbols, Steps, Forgotten};
ghost use Rattle.automata.specs.Kinds.{Kinds, Firsts};
ghost use Rattle.inplace.specs.InTable.{Tidy};
ghost use Rattle.inplace.specs.InPlace.{InPlace};
ghost use Rattle.regular.specs.PlaceSets.{Alphabet, Forward, Lengths};
ghost use Rattle.regular.specs.Asks.{machine_of, states_of, Asking, Turned, Keeps, Forwards, Kept};
ghost use Rattle.regular.specs.Backwards.{Going, Backward};

use automata::Automaton;

// The automaton, and the kinds of its symbols, where words are lent.
#[derive(Clone, Copy)]
struct Asked<'a> {
    automaton: Automaton<'a>,
    kinds: Option<&'a [u64; 65]>,
}

// The word of several symbols that was asked last, with one symbol of each kind that it has, and what states move to by these.
#[derive(Drop)]
struct Moved {
    word: u64,
    firsts: u64,
    tos: [u64; 32],
}

// What the automaton was asked at a place going forwards, and its answer: the states that the set moves to by the word.
#[derive(Clone, Copy)]
struct Reached {
    set: u64,
    symbols: u64,
    states: u64,
}

// What it was asked at a place going backwards: the symbols that are allowed there, the states before it and those after it; and what the place keeps, the
// symbols by which one of the first moves to one of the second, and the states of the first that do.
#[derive(Clone, Copy)]
struct Place {
    allowed: u64,
    from: u32,
    into: u32,
    symbols: u64,
    states: u32,
}

impl Moved {
    // Nothing was asked yet. Told by `firsts`, which has a bit once a word was asked: an Option of all this would be looked into at each place.
    const NONE: Moved = Moved {
        word: 0,
        firsts: 0,
        tos: [0; 32],
    };
}

impl Place {
    // Nothing is allowed, and nothing kept.
    const NONE: Place = Place {
        allowed: 0,
        from: 0,
        into: 0,
        symbols: 0,
        states: 0,
    };
}

// What the levels of the recursion read: for each i the states that the first i places lead to, and the accepted lengths.
#[derive(Drop)]
struct Way<'a> {
    asked: Asked<'a>,
    sets: &'a [u64; 64],
    ends: u64,
}

// What they hand on: the place that was asked last, what is kept of the states, and whether a symbol was struck.
#[derive(Drop)]
struct Memory {
    last: Place,
    moved: Moved,
    changed: bool,
}

// Takes the word for the one that was asked last. Where another was, what is kept of the states belongs to that one, and is forgotten; where none was, nothing
// is kept.
fn turn(kinds: Option<&[u64; 65]>, moved: &mut Moved, symbols: u64)
    requires { Firsts (option_copied kinds) moved.old.word moved.old.firsts }
    ensures { Turned (option_copied kinds.entry) symbols moved.old moved.new }
{
    if symbols == moved.word {
        return;
    }
    if moved.firsts != 0 {
        automata::forget(&mut moved.tos);
    }
    moved.word = symbols;
    moved.firsts = automata::firsts(kinds, symbols);
}

// The states that some state of the set moves to by some symbol of the word. Neighbouring places are often alike, and going through the moves is dear: if the
// place before asked the same, its answer is given again. A word of one symbol is asked as it is, so that what is kept for the last of several stays.
fn successors(asked: Asked<'_>, moved: &mut Moved, set: u64, symbols: u64, last: Reached) -> Reached
    requires { Asking asked × (none_from asked.automaton.k symbols ≡ true) × Forwards asked last moved.old }
    ensures { Forwards asked.entry result moved.new × (result.set ≡ set) × (result.symbols ≡ symbols) }
{
    if set == last.set && symbols == last.symbols {
        return last;
    }
    let automaton = asked.automaton;
    if !words::several(symbols) {
        return Reached {
            set,
            symbols,
            states: automaton.successors(set, symbols),
        };
    }
    turn(asked.kinds, moved, symbols);
    let lacking = automata::lacking(asked.kinds);
    Reached {
        set,
        symbols,
        states: automaton.steps_to(moved.firsts, lacking, &mut moved.tos, set),
    }
}

// For each i up to the longest length, the states that the first i places lead to.
fn forward(
    asked: Asked<'_>,
    moved: &mut Moved,
    t: &[u64],
    x: usize,
    longest: usize,
    sets: &mut [u64; 64],
)
    requires { Asking asked × (moved.old.firsts ≡ 0) × (moved.old.word ≡ 0) × Forgotten moved.old.tos × (64 * x + 64 ≤ length t.now) × Alphabet asked.automaton.k (row t.now x) × (longest < 64)
        × (length sets.old ≡ 64) }
    ensures { Forward (machine_of asked.entry) (row t.now x) (longest + 1) sets.new × Keeps asked.entry moved.new }
{
    sets[0] = 1;
    let mut last = Reached {
        set: 0,
        symbols: 0,
        states: 0,
    };
    for i in 0..longest {
        last = successors(asked, moved, sets[i], t[64 * x + i + 1], last);
        sets[i + 1] = last.states;
    }
}

// The lengths with which the places before lead to an accepting state.
fn lengths(allowed: u64, accepting: u32, before: &[u64; 64]) -> u64
    ensures { Lengths 64 allowed accepting before.now result }
{
    let mut r: u64 = 0;
    for l in words::each_bit(allowed) {
        if accepting as u64 & before[l] != 0 {
            r |= words::singleton(l);
        }
    }
    r
}

// The accepting states of the set that is reached past i places, where a string may end there.
fn ending(way: &Way<'_>, i: usize, set: u32) -> u32
    requires { i < 64 }
    ensures { result ≡ cond (bit way.now.ends i) (bit_and set (little (part 1 4 way.now.asked.automaton.bytes.now))) 0 }
{
    if words::has(way.ends, i) {
        set & automata::accepting(way.asked.automaton.bytes)
    } else {
        0
    }
}

// The symbols of a place by which a state reached before it moves to one from which an accepted end is reached after it. Only what the word allows is tried.
fn symbols(a: Automaton<'_>, allowed: u64, before: u32, after: u32) -> u64
    ensures { Symbols (machine a.entry.k a.entry.bytes.now) (state_count a.entry.bytes.now) a.entry.k allowed before after result }
{
    let mut r: u64 = 0;
    for s in words::each_bit(automata::below(allowed, a.k)) {
        if a.leads(before, after, s) {
            r |= words::singleton(s);
        }
    }
    r
}

// Asks at a place what it keeps. Where the place that was asked last is like it, that is known. A state that moves on does so by a symbol that is kept. Of a word
// of several symbols one of each kind is asked, and with it all of its kind are kept that are allowed.
fn keep(asked: Asked<'_>, last: &mut Place, moved: &mut Moved, allowed: u64, from: u32, into: u32)
    requires { Asking asked × (none_from asked.automaton.k allowed ≡ true) × Kept asked last.old moved.old }
    ensures { Kept asked.entry last.new moved.new
        × Steps (machine_of asked.entry) (states_of asked.entry) asked.entry.automaton.k allowed from into last.new.symbols last.new.states }
{
    if allowed == last.allowed && from == last.from && into == last.into {
        return;
    }
    let automaton = asked.automaton;
    if !words::several(allowed) {
        let symbols = symbols(automaton, allowed, from, into);
        let states = automaton.entering(from, into, symbols);
        *last = Place {
            allowed,
            from,
            into,
            symbols,
            states,
        };
        return;
    }
    turn(asked.kinds, moved, allowed);
    let steps = automaton.steps_back(moved.firsts, &mut moved.tos, from, into);
    let symbols = allowed & automata::all_of(asked.kinds, steps.symbols);
    *last = Place {
        allowed,
        from,
        into,
        symbols,
        states: steps.states,
    };
}

// Keeps at the r places after place n of the table the symbols by which an accepted end is reachable: n has the row and the place in it, and the last of them
// is at the longest accepted length. Gives the states that the places up to n lead to and from which it is; says in `changed` if a symbol was struck. Where an
// accepted end is reachable from all that is reached past the next place, no mark among it, no move is missing at that place, and nothing is struck there.
fn backward(way: &Way<'_>, memory: &mut Memory, t: &mut [u64], n: usize, r: usize) -> u32
    requires { Asking way.now.asked × Going way.now.asked.automaton.k way.now.asked.automaton.bytes.now t.old (n / 64) way.now.sets.now way.now.ends (n % 64 + r)
        × Kept way.now.asked memory.old.last memory.old.moved × (memory.old.changed ≡ false) }
    ensures { Backward (machine_of way.now.asked) t.old (n / 64) (n % 64) (n % 64 + r) t.new result memory.new.changed
        × Kept way.now.asked memory.new.last memory.new.moved }
{
    let i = n % 64;
    if r == 0 {
        return ending(way, i, automata::states_in(way.sets[i]));
    }
    let next = n + 1;
    let into = backward(way, memory, t, next, r - 1);
    let from = automata::states_in(way.sets[i]);
    if into as u64 == way.sets[i + 1] {
        return from;
    }
    keep(
        way.asked,
        &mut memory.last,
        &mut memory.moved,
        t[next],
        from,
        into,
    );
    memory.changed |= inplace::put(t, next, memory.last.symbols);
    ending(way, i, from) | memory.last.states
}

// One narrowing step, in place.
pub fn narrow(
    automaton: Automaton<'_>,
    kinds: Option<&[u64; 65]>,
    t: &mut [u64],
    x: usize,
) -> Option<inplace::Changed>
    requires { Kinds (machine automaton.k automaton.bytes.now) (state_count automaton.bytes.now) automaton.k (option_copied kinds)
        × (64 * x + 64 ≤ length t.old) × Alphabet automaton.k (row t.old x) × Tidy (row t.old x) }
    ensures { InPlace (machine automaton.entry.k automaton.entry.bytes.now ∷ []) (regular 0 0) (x ∷ []) [] t.old t.new result }
{
    let start = 64 * x;
    let allowed = t[start];
    let asked = Asked { automaton, kinds };
    let mut memory = Memory {
        last: Place::NONE,
        moved: Moved::NONE,
        changed: false,
    };
    let mut sets = [0; 64];
    forward(
        asked,
        &mut memory.moved,
        t,
        x,
        words::highest(allowed),
        &mut sets,
    );
    let ends = lengths(allowed, automata::accepting(automaton.bytes), &sets);
    if ends == 0 {
        return None;
    }
    let way = Way {
        asked,
        sets: &sets,
        ends,
    };
    backward(&way, &mut memory, t, start, words::highest(ends));
    memory.changed |= inplace::shorten(t, x, ends);
    Some(inplace::Changed {
        x: memory.changed,
        y: false,
        z: false,
    })
}
