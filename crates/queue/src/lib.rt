// Settling by a queue of steps: all wait in the order of their numbers, the front one runs, and where it struck anything, every other step that shares a variable
// with it and does not wait joins the back, the lowest number first. The queue is a ring of step numbers; two words say which steps wait, and the lent index which
// share a variable, so that no step is looked for among all of them.
//
// Assumes nothing. `requires` asks what refusals 9, 10, 18 and 19 leave, and within the crate that ring and words agree.

#![tactic(auto)]

ghost use Rattle.std.specs.Prelude.{◌≡◌, true, List, ℕ, ◌+◌, ◌*◌, ◌<◌, ◌≤◌, ltb, length};
ghost use Rattle.model.specs.Words.{bit};
ghost use Rattle.model.specs.StepIndex.{index_of};
ghost use Rattle.model.specs.Queue.{queueing};
ghost use Rattle.laws.specs.Lent.{lendable};
ghost use Rattle.format.specs.Problems.{the_problem};
ghost use Rattle.steps.specs.Step.{KindsIn};
ghost use Rattle.striking.specs.Strikes.{TrimmedIn};
ghost use Rattle.queue.specs.Ring.{Without, Below, After, Appended, Places, Joins, Ring, Full, Advanced, Turned};

use format::Problem;
use index::Positions;

// Steps as the bits of two words: bit j of the two together for step j.
#[derive(Clone, Copy)]
struct Steps {
    low: u64,
    high: u64,
}

// The steps that wait, twice: their numbers stand in a ring, from the front, which is how many steps were run, to the back; and which they are is looked up in two
// words. And which strings are known to be trimmed.
#[derive(Drop)]
struct Queue {
    ring: [u8; 128],
    head: usize,
    tail: usize,
    waiting: Steps,
    trimmed: u64,
}

// The word without step j, where its bits stand for the steps from 64 * half on.
fn without(w: u64, half: usize, j: usize) -> u64
    requires { j < 128 }
    ensures { Without w half j result }
{
    if j / 64 == half {
        return w & !words::singleton(j % 64);
    }
    w
}

// The word of the steps 64 * half to 64 * half + 63 that are below n.
fn below(n: usize, half: usize) -> u64
    requires { half < 2 }
    ensures { (b : ℕ) → b < 64 → bit result b ≡ ltb (64 * half + b) n }
{
    words::below(n.saturating_sub(64 * half).min(64))
}

// Where the variables stand that step j touches.
fn places(p: &Problem, j: usize) -> Positions
    requires { j < p.now.parts.c + p.now.parts.s }
    ensures { Places (the_problem p.now) j result }
{
    if j >= p.parts.c {
        return Positions {
            at: [j - p.parts.c, 0, 0],
            count: 1,
        };
    }
    index::positions_of(p.constraint(j), p.parts.s)
}

// The steps that join after step j: where it struck anything, those that share a variable with it and are not among those that waited before it ran, as it did
// itself.
fn joiners(p: &Problem, index: &[u64], waiting: Steps, j: usize, struck: bool) -> Steps
    requires { (index.now ≡ index_of (the_problem p.now)) × (j < p.now.parts.c + p.now.parts.s) }
    ensures { Joins (the_problem p.now) waiting j struck result }
{
    if !struck {
        return Steps { low: 0, high: 0 };
    }
    let m = places(p, j);
    Steps {
        low: index::joined_words(index, m, 0) & !waiting.low,
        high: index::joined_words(index, m, 1) & !waiting.high,
    }
}

impl Steps {
    // The steps below n.
    fn below(n: usize) -> Steps
        ensures { Below n result }
    {
        Steps {
            low: below(n, 0),
            high: below(n, 1),
        }
    }

    // These but for step j, and others.
    fn after(self, j: usize, more: Steps) -> Steps
        requires { j < 128 }
        ensures { After self j more result }
    {
        Steps {
            low: without(self.low, 0, j) | more.low,
            high: without(self.high, 1, j) | more.high,
        }
    }
}

impl Queue {
    // All of n steps, in the order of their numbers.
    fn all(n: usize) -> Queue
        requires { n ≤ 80 }
        ensures { Full n result }
    {
        let mut ring = [0u8; 128];
        for i in 0..n {
            ring[i] = i as u8;
        }
        Queue {
            ring,
            head: 0,
            tail: n,
            waiting: Steps::below(n),
            trimmed: 0,
        }
    }

    // Writes the numbers base + b, for the bits b of w upwards, behind the last that waits; the ring is free there again.
    fn append(&mut self, w: u64, base: usize)
        requires { (base ≤ 64) × (self.old.tail ≤ 4294967296) }
        ensures { Appended self.old w base self.new }
    {
        for b in words::each_bit(w) {
            self.ring[self.tail % 128] = (base + b) as u8;
            self.tail += 1;
        }
    }

    // Step j leaves the front, and others join the back.
    fn advance(&mut self, j: usize, more: Steps, trimmed: u64)
        requires { (j < 128) × (self.old.head < 4294960000) × (self.old.tail < 4294960128) }
        ensures { Advanced self.old j more trimmed self.new }
    {
        self.append(more.low, 0);
        self.append(more.high, 64);
        self.head += 1;
        self.waiting = self.waiting.after(j, more);
        self.trimmed = trimmed;
    }

    // Runs the front step, and lets others join.
    fn turn(&mut self, p: &Problem, index: &[u64], kinds: &[u64], table: &mut [u64])
        requires { (lendable (the_problem p.now) table.old ≡ true) × (index.now ≡ index_of (the_problem p.now))
            × KindsIn p.now kinds.now × TrimmedIn (the_problem p.now) self.old.trimmed table.old
            × ((js : List ℕ) × Ring (the_problem p.now) self.old js) × (self.old.head < self.old.tail) × (self.old.head < 4294960000) }
        ensures { Turned (the_problem p.now) table.old table.new self.old self.new }
    {
        let j = self.ring[self.head % 128] as usize;
        let s = striking::step(p, kinds, j, self.trimmed, table);
        let more = joiners(p, index, self.waiting, j, s.changed);
        self.advance(j, more, s.trimmed);
    }
}

// Runs steps until none waits; how many. The kinds of symbols are made once, for all of them.
pub fn settle(p: &Problem, index: &[u64], table: &mut [u64]) -> u32
    requires { (lendable (the_problem p.now) table.old ≡ true) × (index.now ≡ index_of (the_problem p.now)) }
    ensures value { result ≡ (queueing (the_problem p.now) table.old).steps }
    ensures table_after { table.new ≡ (queueing (the_problem p.now) table.old).table }
{
    let mut kinds = [0u64; 520];
    steps::kinds(p, &mut kinds);
    let mut q = Queue::all(p.parts.c + p.parts.s);
    while q.head < q.tail {
        q.turn(p, index, &kinds, table);
    }
    q.head as u32
}
