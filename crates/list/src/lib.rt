// The constraints as a list of records, in an array that is lent as a slice: the step of one of them, and the steps of all.
//
// Assumes nothing. `requires` asks what refusals 9 and 10 leave, and that the list is the file's.

#![tactic(auto)]

ghost use Rattle.std.specs.Prelude.{◌≡◌, true, ◌+◌, ◌<◌, get_or};
ghost use Rattle.model.specs.Constraints.{always};
ghost use Rattle.model.specs.Rounds.{run};
ghost use Rattle.model.specs.Operations.{step_at};
ghost use Rattle.laws.specs.Lent.{lendable};
ghost use Rattle.format.specs.Problems.{the_problem};
ghost use Rattle.steps.specs.Step.{Step, KindsIn};
ghost use Rattle.list.specs.Listed.{Listed};

use format::Problem;
use records::Record;

// The list of a file's constraints. What stands behind them is never looked at: the array is of the most constraints that a file has, since memory is fixed, and
// what is lent is a slice, as the paper has it, so that `Listed` stands in the contracts and not in a struct.
pub fn of_file(p: &Problem) -> [Record; 64]
    ensures { Listed p.now result }
{
    let mut records = [Record::Eq(0, 0); 64];
    for j in 0..p.parts.c {
        records[j] = p.constraint(j);
    }
    records
}

// The step of constraint j of the list.
pub fn lent_step(p: &Problem, records: &[Record], j: usize, table: &mut [u64]) -> u32
    requires { (lendable (the_problem p.now) table.old ≡ true) × Listed p.now records.now × (j < p.now.parts.c) }
    ensures { Step (the_problem p.now) (get_or (the_problem p.now).constraints j (always 0)) table.old table.new result }
{
    steps::step(p, records[j], table)
}

// Step j: constraint j below c, else the trimming of string j - c.
pub fn step(p: &Problem, j: usize, table: &mut [u64]) -> u32
    requires { (lendable (the_problem p.now) table.old ≡ true) × (j < p.now.parts.c + p.now.parts.s) }
    ensures { Step (the_problem p.now) (step_at (the_problem p.now) j) table.old table.new result }
{
    if j < p.parts.c {
        lent_step(p, &of_file(p), j, table)
    } else {
        steps::trim(table, j - p.parts.c)
    }
}

// The steps of all the file's constraints, in their order, not counted, with the kinds of symbols that are lent for all of them.
pub fn lent_steps(p: &Problem, records: &[Record], kinds: &[u64], table: &mut [u64])
    requires { (lendable (the_problem p.now) table.old ≡ true) × KindsIn p.now kinds.now × Listed p.now records.now }
    ensures { table.new ≡ run (the_problem p.now) (the_problem p.now).constraints table.old }
{
    for &r in &records[..p.parts.c] {
        steps::apply(p, kinds, r, table);
    }
}
