// Searches the problem files of standard input and prints how each search ends: bench/search.py counts and times the nodes.
//
// Standard input holds one case after another: two bytes that say how long the file is, four that say how often it is searched before the search that is
// printed, four with the budget, and the file.

#![tactic(auto)]

ghost use Rattle.std.specs.Iterator.{at_most};
ghost use Rattle.std.specs.Prelude.{length};

use cobleskeg::{Outcome, Refusal};

#[derive(Clone, Copy)]
struct Case<'a> {
    times: u32,
    budget: u32,
    file: &'a [u8],
}

// The cases that the input still holds.
#[derive(Drop)]
struct Cases<'a>(&'a [u8]);

impl<'a> Iterator for Cases<'a> {
    type Item = Case<'a>;

    ghost remaining = { λ s. at_most (length s.0.now) };

    // None too where less of a case is left than it says.
    fn next(&mut self) -> Option<Case<'a>> {
        let head = self.0.split_off(..10)?;
        let file = self.0.split_off(..little::two(head, 0) as usize)?;
        Some(Case {
            times: little::four(head, 2),
            budget: little::four(head, 6),
            file,
        })
    }
}

// Searches so many times, and once more for the line; room for the largest problem.
fn run(case: &Case, table: &mut [u64]) -> Result<Outcome, Refusal> {
    let mut room = [0u64; 3120];
    for _ in 0..case.times {
        cobleskeg::search(case.file, case.budget, &mut room, table)?;
    }
    cobleskeg::search(case.file, case.budget, &mut room, table)
}

// The outcome, and the nodes that were visited or the refusal's number. The answer table is as long as the file's.
fn report(rt: &impl Print, case: &Case) {
    let mut table = [0u64; 1040];
    let answer = match cobleskeg::read(case.file) {
        Ok(h) if h.strings <= 16 && h.numbers <= 16 => {
            run(case, &mut table[..64 * h.strings + h.numbers])
        }
        Ok(_) => return,
        Err(e) => Err(e),
    };
    let _ = match answer {
        Ok(outcome) => println!(rt; "{outcome}"),
        Err(e) => println!(rt; "refused {}", e.number()),
    };
}

fn main(rt: HostRuntime) {
    let mut input: [u8; 131072] = streams::zeros();
    let n = streams::read_full(&rt, &mut input);
    for case in Cases(&input[..n]) {
        report(&rt, &case);
    }
}
