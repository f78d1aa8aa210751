ghost use Rattle.format.specs.Problems.{the_problem};
ghost use Rattle.steps.specs.Step.{KindsIn};
ghost use Rattle.index.specs.Index.{Marked};
ghost use Rattle.steps.proofs.KindsInLaws.{KindsIn-prop};

use format::Problem;

// A problem with what is made once of it, for the steps of a whole search: the index of its constraints, and the kinds of its symbols.
#[derive(Clone, Copy)]
pub struct Prepared<'a> {
    pub problem: Problem<'a>,
    pub index: &'a [u64; 32],
    pub kinds: &'a [u64],
    ghost indexed: { Marked (the_problem problem) index.now },
    ghost kinds_in: { KindsIn problem kinds.now } by { KindsIn-prop problem kinds.now },
}
