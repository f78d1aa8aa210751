// Settling the table of a search's node: only constraints that may strike are taken, and a node with a variable that has no value is left at once.
// What waits is a word, bit j for constraint j.
//
// Assumes nothing. `requires` asks what the search knows of the table.

#![tactic(auto)]

mod prepared;

ghost use Rattle.std.specs.Prelude.{◌≡◌, true, ℕ, ◌+◌, ◌*◌, ◌<◌, ◌≤◌, length, IfSome};
ghost use Rattle.model.specs.Words.{bit};
ghost use Rattle.laws.specs.Lent.{lendable};
ghost use Rattle.shortcuts.specs.Waiting.{Early};
ghost use Rattle.format.specs.Problems.{the_problem};
ghost use Rattle.waiting.specs.Beginnings.{ChildAt, Trims, Readies, Wakes, Lengths};
ghost use Rattle.waiting.specs.Turns.{Inside, TidyRows, Turned, Ends};

pub use prepared::Prepared;

// The step of constraint j, in a table of tidy rows: the constraints that wait because of it, or None where it left a variable without a value.
fn step(p: &Prepared, j: usize, table: &mut [u64]) -> Option<u64>
    requires { (lendable (the_problem p.now.problem) table.old ≡ true) × (j < p.now.problem.parts.c) × TidyRows (the_problem p.now.problem) table.old }
    ensures { Turned (the_problem p.now.problem) j table.old table.new result }
{
    let r = p.problem.constraint(j);
    let changed = steps::narrow(&p.problem, p.kinds, r, table)?;
    let woken = index::waking(p.index, p.problem.parts.s, r, changed);
    Some(woken & !words::singleton(j)) // its own step would strike nothing
}

// The constraint to take next: the lowest that waits from i on, or the lowest of all, so that they are taken in rounds.
fn next(pending: u64, i: usize) -> usize
    requires { (0 < pending) × (i < 64) }
    ensures { (bit pending result ≡ true) × (result < 64) }
{
    let later = pending >> i;
    if later == 0 {
        return words::lowest(pending);
    }
    i + words::lowest(later)
}

// Takes constraints until none waits, or a variable has no value.
fn run(p: &Prepared, start: u64, table: &mut [u64]) -> bool
    requires { (lendable (the_problem p.now.problem) table.old ≡ true) × Inside (the_problem p.now.problem) start
        × TidyRows (the_problem p.now.problem) table.old }
    ensures { Ends (the_problem p.now.problem) table.old start table.new result }
{
    let mut pending = start;
    let mut j: usize = 0;
    while pending != 0 {
        j = next(pending, j);
        pending -= words::singleton(j);
        let Some(woken) = step(p, j, table) else {
            return false;
        };
        pending |= woken;
    }
    true
}

// Makes every row tidy, as long as each has a value; whether all have.
fn tidy_all(table: &mut [u64], s: usize) -> bool
    requires { 64 * s ≤ length table.old }
    ensures { Trims s table.old table.new result }
{
    for x in 0..s {
        if !inplace::tidy(table, x) {
            return false;
        }
    }
    true
}

// Makes a table ready that is a child at a word, or, where there is none, any table: the rows that may hold bits which no string of theirs uses are made tidy. False
// where one has no value.
fn ready(table: &mut [u64], s: usize, from: Option<usize>) -> bool
    requires { 64 * s ≤ length table.old }
    ensures { Readies s from table.old table.new result }
{
    let Some(at) = from else {
        return tidy_all(table, s);
    };
    if at < 64 * s {
        return inplace::tidy(table, at / 64);
    }
    true
}

// Which constraints wait then.
fn first_waiting(p: &Prepared, from: Option<usize>) -> u64
    requires { IfSome from (λ at. at < 64 * p.now.problem.parts.s + 16) }
    ensures { Wakes p.now.problem.parts p.now.index.now from result }
{
    match from {
        Some(at) => index::touching(p.index, p.problem.parts.s, at),
        None => words::below(p.problem.parts.c),
    }
}

// Whether each of the s strings has a length.
fn has_lengths(table: &[u64], s: usize) -> bool
    requires { 64 * s ≤ length table.now }
    ensures { Lengths s table.now result }
{
    (0..s).all(|x| table[64 * x] != 0)
}

// Settles a table that is a child at a word, or, where there is none, any table; whether every variable then has a value. Where one has none the table is left as
// the last step made it: nobody looks at it again.
pub fn settle(p: &Prepared, table: &mut [u64], from: Option<usize>) -> bool
    requires { (lendable (the_problem p.now.problem) table.old ≡ true) × ChildAt (the_problem p.now.problem) table.old from }
    ensures { Early (the_problem p.now.problem) table.old table.new result }
{
    let s = p.problem.parts.s;
    let start = first_waiting(p, from);
    ready(table, s, from)
        && has_lengths(table, s)
        && run(p, start, table)
        && rounds::every_value(table, s)
}
