// What a problem file must be before anything works on it: refusals 1 to 8, in the paper's order. Each part is looked at as a part of the lent file; nothing
// above this crate looks for one of them.
//
// Assumes nothing.

#![tactic(auto)]

mod problem;

ghost use Rattle.std.specs.Prelude.{◌≡◌, ◌+◌, ◌-◌, ◌*◌, ◌<◌, get_or, take, drop, IfOk};
ghost use Rattle.model.specs.Constraints.{always, width};
ghost use Rattle.model.specs.Reading.{problem_of};
ghost use Rattle.refusals.specs.Numbers.{number_in};
ghost use Rattle.layout.specs.Replied.{parts_of, PartsFit};
ghost use Rattle.records.specs.Records.{constraint_of};
ghost use Rattle.format.specs.Accepting.{number_of, accepted};
ghost use Rattle.format.specs.Problems.{the_problem, parts_reply};

use layout::Parts;
pub use problem::Problem;
use records::Record;
use refusals::Refusal;

// The first of the refusals 5 to 8 that the parts meet.
fn check(file: &[u8], p: &Parts) -> Result<(), Refusal>
    requires { PartsFit file.now p.now }
    ensures { number_in result ≡ number_of (problem_of (parts_of file.now p.now)) }
{
    if !automata::all_whole(&file[p.automata_at..p.end], p.k, p.d) {
        return Err(Refusal::Automata);
    }
    if !tables::file_low(&file[..p.constraints_at], p.k, p.s) {
        return Err(Refusal::FileSymbols);
    }
    records::check(&file[p.constraints_at..p.automata_at], p)
}

// A file with its parts, or the first of the refusals 1 to 8.
pub fn accept(file: &[u8]) -> Result<Problem<'_>, Refusal>
    ensures result_value { parts_reply result ≡ accepted file.now }
    ensures of_file { IfOk result (λ p. p.file.now ≡ file.now) }
{
    let parts = layout::of_file(file)?;
    check(file, &parts)?;
    Ok(Problem { file, parts })
}

impl<'a> Problem<'a> {
    // How many words a table has: a row of 64 for each string, and a word for each number.
    pub fn words(&self) -> usize
        ensures { result ≡ width (the_problem self.now) }
    {
        64 * self.parts.s + self.parts.t
    }

    // The bytes of the file's table.
    pub fn table_bytes(&self) -> &[u8]
        ensures { result.now ≡ take self.now.parts.constraints_at self.now.file.now }
    {
        let end = self.parts.constraints_at;
        &self.file[..end]
    }

    // The bytes of the constraints.
    fn constraint_bytes(&self) -> &[u8]
        ensures { result.now ≡ take (self.now.parts.automata_at - self.now.parts.constraints_at) (drop self.now.parts.constraints_at self.now.file.now) }
    {
        let start = self.parts.constraints_at;
        let end = self.parts.automata_at;
        &self.file[start..end]
    }

    // The bytes of the automata.
    pub fn automata_bytes(&self) -> &[u8]
        ensures { result.now ≡ take (self.now.parts.end - self.now.parts.automata_at) (drop self.now.parts.automata_at self.now.file.now) }
    {
        let start = self.parts.automata_at;
        let end = self.parts.end;
        &self.file[start..end]
    }

    // Constraint j. Every record was looked at for refusal 7, so that each is one. Inlined, so that the record is not written and read again at each step.
    #[inline(always)]
    pub fn constraint(&self, j: usize) -> Record
        requires { j < self.now.parts.c }
        ensures { constraint_of result ≡ get_or (the_problem self.now).constraints j (always 0) }
    {
        records::at(self.constraint_bytes(), j, &self.parts).unwrap()
    }
}
