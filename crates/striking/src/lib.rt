// One step by its number, on any lent table: whether it struck anything. Which strings were trimmed is kept from step to step, since no step undoes it: then the
// rows that a constraint names are tidy, or empty, and its step says by itself whether it struck. Bits are counted where a string is trimmed for the first time.
//
// Assumes nothing. `requires` asks what refusals 9 to 11 leave, and what is known of trimmed strings; within the crate also that positions lie in the table.

#![tactic(auto)]

ghost use Rattle.std.specs.Prelude.{◌≡◌, true, [], ◌∷◌, ◌+◌, ◌*◌, ◌<◌, ◌≤◌, length};
ghost use Rattle.model.specs.Operations.{step_at};
ghost use Rattle.laws.specs.Inclusion.{In};
ghost use Rattle.laws.specs.Lent.{lendable};
ghost use Rattle.records.specs.Records.{constraint_of};
ghost use Rattle.format.specs.Problems.{the_problem};
ghost use Rattle.steps.specs.Step.{Narrows, KindsIn};
ghost use Rattle.steps.specs.Names.{texts, numbers, Naming, Inside};
ghost use Rattle.striking.specs.Strikes.{Strikes, TrimmedIn};
ghost use Rattle.striking.specs.Named.{Trimming, TrimmedOf, Lengths, firsts, Holds};

use format::Problem;
use inplace::Changed;
use records::Record;
use steps::Names;

// Whether a step struck anything, and the strings that are known to be trimmed after it, bit x for string x. No Option: both are read of every step.
#[derive(Clone, Copy)]
pub struct Struck {
    pub changed: bool,
    pub trimmed: u64,
}

// Trims string x, unless that is known to strike nothing. A table of at most 64 rows, so that x is a bit of a word.
fn trim(table: &mut [u64], x: usize, known: u64) -> Struck
    requires { (64 * x + 64 ≤ length table.old) × (length table.old ≤ 4096) }
    ensures { Trimming (x ∷ []) table.old known table.new result.changed result.trimmed }
{
    if words::has(known, x) {
        return Struck {
            changed: false,
            trimmed: known,
        };
    }
    let n = steps::trim(table, x);
    Struck {
        changed: n != 0,
        trimmed: known | words::singleton(x),
    }
}

// Trims the strings that are named.
fn trim_named(table: &mut [u64], m: &Names, known: u64) -> Struck
    requires { Inside m.now table.old × (length table.old ≤ 4096) }
    ensures { Trimming (texts m.now) table.old known table.new result.changed result.trimmed }
{
    let mut changed = false;
    let mut trimmed = known;
    for &x in m.strings() {
        let t = trim(table, x, trimmed);
        changed |= t.changed;
        trimmed = t.trimmed;
    }
    Struck { changed, trimmed }
}

// Whether each string that is named has a length.
fn have_lengths(table: &[u64], m: &Names) -> bool
    requires { Inside m.now table.now }
    ensures { Lengths (texts m.now) table.now result }
{
    for &x in m.strings() {
        if table[64 * x] == 0 {
            return false;
        }
    }
    true
}

// Whether a string that is named has a length, or the number a value.
fn holds(table: &[u64], m: &Names) -> bool
    requires { Inside m.now table.now }
    ensures { Holds (firsts (texts m.now) (numbers m.now)) table.now result }
{
    let mut some = false;
    for &x in m.strings() {
        some |= table[64 * x] != 0;
    }
    if let Some(i) = m.number {
        some |= table[i] != 0;
    }
    some
}

// The step of a constraint whose strings are trimmed. A string without a length has no value, so that no choice is left; the others are tidy.
fn narrow(p: &Problem, kinds: &[u64], r: Record, m: &Names, table: &mut [u64]) -> Option<Changed>
    requires { (lendable (the_problem p.now) table.old ≡ true) × KindsIn p.now kinds.now × In (constraint_of r) (the_problem p.now).constraints
        × Naming p.now.parts.s (constraint_of r) m.now × TrimmedOf (the_problem p.now) (constraint_of r) table.old }
    ensures { Narrows (the_problem p.now) (constraint_of r) table.old table.new result }
{
    if !have_lengths(table, m) {
        return None;
    }
    steps::narrow(p, kinds, r, table)
}

// The step of a constraint. Where no choice is left, every bit of what it names is struck: that is none just where nothing was there once the strings were trimmed.
fn constraint(p: &Problem, kinds: &[u64], r: Record, known: u64, table: &mut [u64]) -> Struck
    requires { (lendable (the_problem p.now) table.old ≡ true) × KindsIn p.now kinds.now × In (constraint_of r) (the_problem p.now).constraints
        × TrimmedIn (the_problem p.now) known table.old }
    ensures strikes { Strikes (the_problem p.now) (constraint_of r) table.old table.new result.changed }
    ensures trimmed_in { TrimmedIn (the_problem p.now) result.trimmed table.new }
{
    let m = steps::of_record(r, p.parts.s);
    let t = trim_named(table, &m, known);
    let held = holds(table, &m); // before the step, which where no choice is left leaves anything
    let Some(n) = narrow(p, kinds, r, &m, table) else {
        steps::clear(table, &m);
        return Struck {
            changed: t.changed | held,
            trimmed: t.trimmed,
        };
    };
    let moved = n.x | n.y | n.z;
    Struck {
        changed: t.changed | moved,
        trimmed: t.trimmed,
    }
}

// Step j: constraint j below c, else the trimming of string j - c.
pub fn step(p: &Problem, kinds: &[u64], j: usize, trimmed: u64, table: &mut [u64]) -> Struck
    requires { (lendable (the_problem p.now) table.old ≡ true) × KindsIn p.now kinds.now × (j < p.now.parts.c + p.now.parts.s)
        × TrimmedIn (the_problem p.now) trimmed table.old }
    ensures strikes { Strikes (the_problem p.now) (step_at (the_problem p.now) j) table.old table.new result.changed }
    ensures trimmed_in { TrimmedIn (the_problem p.now) result.trimmed table.new }
{
    if j >= p.parts.c {
        return trim(table, j - p.parts.c, trimmed);
    }
    constraint(p, kinds, p.constraint(j), trimmed, table)
}
