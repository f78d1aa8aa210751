// Rounds of steps on a lent table, until one strikes nothing: the table then has as many bits as before the round.
//
// Assumes nothing. `requires` asks what refusals 9 and 10 leave.

#![tactic(auto)]

ghost use Rattle.std.specs.Prelude.{◌≡◌, true, ◌*◌, ◌≤◌, length};
ghost use Rattle.model.specs.Constraints as model;
ghost use Rattle.model.specs.Constraints.{width};
ghost use Rattle.model.specs.Solutions.{WellFormed};
ghost use Rattle.model.specs.Rounds.{every_value, settling, settled};
ghost use Rattle.laws.specs.Lent.{Stable, lendable};
ghost use Rattle.format.specs.Problems.{the_problem};

use format::Problem;

// How many rounds there are, the last included, which is the first that leaves as many bits as there were: no step adds one, so it struck nothing. A variable
// that has lost its last value does not end them. The kinds of symbols are made once, for the steps of all rounds.
pub fn settle(p: &Problem, table: &mut [u64]) -> u32
    requires { lendable (the_problem p.now) table.old ≡ true }
    ensures value { result ≡ (settling (the_problem p.now) table.old).rounds }
    ensures table_after { table.new ≡ settled (the_problem p.now) table.old }
{
    let constraints = list::of_file(p);
    let mut kinds = [0u64; 520];
    steps::kinds(p, &mut kinds);
    let mut n: u32 = 1;
    let mut before = words::size(table);
    loop {
        for x in 0..p.parts.s {
            steps::trim_row(table, x);
        }
        list::lent_steps(p, &constraints, &kinds, table);
        let after = words::size(table);
        if after == before {
            return n;
        }
        before = after;
        n += 1;
    }
}

// Whether every variable has a value, in a table of s strings on which no step strikes: no length word and no number word is 0.
pub fn every_value(table: &[u64], s: usize) -> bool
    requires { 64 * s ≤ length table.now }
    ensures { (P : model.Problem) → WellFormed P → s ≡ P.strings → length table.now ≡ width P → Stable P table.now
        → result ≡ every_value P table.now }
{
    (0..s).all(|x| table[64 * x] != 0) && (64 * s..table.len()).all(|i| table[i] != 0)
}
