// Settles the problem files of standard input by rounds or by an index, and prints what each settling answers: bench/settling.py counts what it costs.
//
// Standard input holds one case after another: two bytes that say how long the file is, two with the operation, four that say how often it is run before the
// run that is printed, and the file. Each run starts from the file's own table, unpacked anew; the index is built once for a case. The operations:
//
//     0   Settle
//     1   Settle by index
//     2   Unpack alone, to be taken off the first two
//     3   Index alone

#![tactic(auto)]

ghost use Rattle.std.specs.Iterator.{at_most};
ghost use Rattle.std.specs.Prelude.{length};

use cobleskeg::{Refusal, Settled};
use std::fmt;

#[derive(Clone, Copy)]
enum Operation {
    Settle,
    SettleByIndex,
    Unpack,
    Index,
}

// By the number of a case; each number from 3 on is Index's.
impl From<u16> for Operation {
    fn from(n: u16) -> Operation {
        match n {
            0 => Operation::Settle,
            1 => Operation::SettleByIndex,
            2 => Operation::Unpack,
            _ => Operation::Index,
        }
    }
}

#[derive(Clone, Copy)]
struct Case<'a> {
    operation: Operation,
    times: u32,
    file: &'a [u8],
}

// The cases that the input still holds.
#[derive(Drop)]
struct Cases<'a>(&'a [u8]);

impl<'a> Iterator for Cases<'a> {
    type Item = Case<'a>;

    ghost remaining = { λ s. at_most (length s.0.now) };

    // None too where less of a case is left than it says.
    fn next(&mut self) -> Option<Case<'a>> {
        let head = self.0.split_off(..8)?;
        let file = self.0.split_off(..little::two(head, 0) as usize)?;
        Some(Case {
            operation: Operation::from(little::two(head, 2)),
            times: little::four(head, 4),
            file,
        })
    }
}

// What a run that is not refused answers.
#[derive(Clone, Copy)]
enum Answer {
    Rounds(Settled),
    Steps(Settled),
    Done,
}

// How many rounds or steps there were, and 1 where every variable has a value after them, else 0.
impl fmt::Display for Answer {
    fn fmt<W: fmt::Write>(&self, f: &mut fmt::Formatter<W>) -> fmt::Result {
        match self {
            Answer::Rounds(s) => write!(f, "rounds {} {}", s.count, s.every_value as u8),
            Answer::Steps(s) => write!(f, "steps {} {}", s.count, s.every_value as u8),
            Answer::Done => write!(f, "done"),
        }
    }
}

// One run.
fn once(case: &Case, index: &mut [u64], table: &mut [u64]) -> Result<Answer, Refusal> {
    let file = case.file;
    match case.operation {
        Operation::Settle => {
            cobleskeg::unpack(file, table)?;
            cobleskeg::settle(file, table).map(Answer::Rounds)
        }
        Operation::SettleByIndex => {
            cobleskeg::unpack(file, table)?;
            cobleskeg::settle_by_index(file, index, table).map(Answer::Steps)
        }
        Operation::Unpack => cobleskeg::unpack(file, table).map(|_| Answer::Done),
        Operation::Index => cobleskeg::index(file, index).map(|_| Answer::Done),
    }
}

// Runs so many times, and once more for the line.
fn run(case: &Case, index: &mut [u64], table: &mut [u64]) -> Result<Answer, Refusal> {
    cobleskeg::index(case.file, index)?;
    for _ in 0..case.times {
        once(case, index, table)?;
    }
    once(case, index, table)
}

// Index and table are as long as the file's.
fn report(rt: &impl Print, case: &Case) {
    let mut index = [0u64; 64];
    let mut table = [0u64; 1040];
    let answer = match cobleskeg::read(case.file) {
        Ok(h) if h.strings <= 16 && h.numbers <= 16 => run(
            case,
            &mut index[..2 * (h.strings + h.numbers)],
            &mut table[..64 * h.strings + h.numbers],
        ),
        Ok(_) => return,
        Err(e) => Err(e),
    };
    let _ = match answer {
        Ok(a) => println!(rt; "{a}"),
        Err(e) => println!(rt; "refused {}", e.number()),
    };
}

fn main(rt: HostRuntime) {
    let mut input: [u8; 131072] = streams::zeros();
    let n = streams::read_full(&rt, &mut input);
    for case in Cases(&input[..n]) {
        report(&rt, &case);
    }
}
