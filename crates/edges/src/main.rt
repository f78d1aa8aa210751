// Runs the entries on the cases of standard input and prints what they answer and leave: tests/edges.py lists the cases and what the paper says of each.
//
// Standard input holds one case after another. A case is 18 bytes of numbers, the lent words that differ from the fill (2 bytes of place and 8 of word; the
// places of the room's words follow those of the longest table, 2048 words), the calls of a list (4 bytes each) and the file:
//
//     at 0    the operation: 0 Read and Unpack, 1 Step, 2 Settle, 3 Search, 4 a list of calls, 5 Compile, 6 Index, 7 Settle by index, 8 a list with an index
//     at 2    how many words of a table are lent
//     at 4    how many words of room are lent, or of an index, or bytes of a buffer
//     at 6    the fill: what every lent word holds before the call
//     at 8    the number of a step, the budget, or the number of symbols (4 bytes)
//     at 12   how many words differ from the fill
//     at 14   how many calls the list has
//     at 16   how many bytes the file has, or the text of a pattern in its place

#![tactic(auto)]

ghost use Rattle.std.specs.Counts.{IsPrefixLen};
ghost use Rattle.std.specs.Iterator.{at_most};
ghost use Rattle.std.specs.Prelude.{length};

use cobleskeg::{Header, Outcome, Refusal, Settled};
use std::fmt;

#[derive(Clone, Copy)]
enum Operation {
    ReadAndUnpack,
    Step,
    Settle,
    Search,
    Perform,
    Compile,
    Index,
    SettleByIndex,
    PerformByIndex,
}

// By the number of a case; each number from 8 on is that of a list with an index.
impl From<u16> for Operation {
    fn from(n: u16) -> Operation {
        match n {
            0 => Operation::ReadAndUnpack,
            1 => Operation::Step,
            2 => Operation::Settle,
            3 => Operation::Search,
            4 => Operation::Perform,
            5 => Operation::Compile,
            6 => Operation::Index,
            7 => Operation::SettleByIndex,
            _ => Operation::PerformByIndex,
        }
    }
}

// The numbers and parts of a case.
#[derive(Clone, Copy)]
struct Case<'a> {
    operation: Operation,
    lent: usize,
    room: usize,
    fill: u64,
    argument: u32,
    changes: &'a [u8],
    calls: &'a [u8],
    file: &'a [u8],
}

// The cases that the input still holds.
#[derive(Drop)]
struct Cases<'a>(&'a [u8]);

impl<'a> Iterator for Cases<'a> {
    type Item = Case<'a>;

    ghost remaining = { λ s. at_most (length s.0.now) };

    // None too where less of a case is left than it says.
    fn next(&mut self) -> Option<Case<'a>> {
        let head = self.0.split_off(..18)?;
        let changes = self.0.split_off(..10 * little::two(head, 12) as usize)?;
        let calls = self.0.split_off(..4 * little::two(head, 14) as usize)?;
        let file = self.0.split_off(..little::two(head, 16) as usize)?;
        Some(Case {
            operation: Operation::from(little::two(head, 0)),
            lent: little::two(head, 2) as usize,
            room: little::two(head, 4) as usize,
            fill: little::two(head, 6) as u64,
            argument: little::four(head, 8),
            changes,
            calls,
            file,
        })
    }
}

// What a call that is not refused answers.
#[derive(Clone, Copy)]
enum Answer {
    Counts(Header),
    Done,
    Struck(u32),
    Rounds(Settled),
    Steps(Settled),
    Ended(Outcome),
    Written(usize),
}

impl fmt::Display for Answer {
    fn fmt<W: fmt::Write>(&self, f: &mut fmt::Formatter<W>) -> fmt::Result {
        match self {
            Answer::Counts(h) => write!(
                f,
                "{} {} {} {} {}",
                h.symbols, h.strings, h.numbers, h.automata, h.constraints
            ),
            Answer::Done => write!(f, "done"),
            Answer::Struck(n) => write!(f, "struck {n}"),
            Answer::Rounds(s) => write!(f, "rounds {} {}", s.count, s.every_value),
            Answer::Steps(s) => write!(f, "steps {} {}", s.count, s.every_value),
            Answer::Ended(outcome) => write!(f, "{outcome}"),
            Answer::Written(n) => write!(f, "written {n}"),
        }
    }
}

// Printed is every word, a run of n equal ones as one word, `x` and n.
#[derive(Clone, Copy)]
struct Words<'a>(&'a [u64]);

impl<'a> fmt::Display for Words<'a> {
    fn fmt<W: fmt::Write>(&self, f: &mut fmt::Formatter<W>) -> fmt::Result {
        for run in self.0.chunk_by(|a, b| a == b) {
            match run {
                [] => {}
                [word] => write!(f, " {word}")?,
                [word, ..] => write!(f, " {word}x{}", run.len())?,
            }
        }
        Ok(())
    }
}

// What the call that was just named answers, or the refusal's number.
fn print_answer(rt: &impl Print, answer: Result<Answer, Refusal>) {
    let _ = match answer {
        Ok(a) => print!(rt; " {a}"),
        Err(e) => print!(rt; " refused {}", e.number()),
    };
}

// The end of a line: what the call left in the table.
fn print_left(rt: &impl Print, table: &[u64]) {
    let _ = println!(rt; " left{}", Words(table));
}

fn sum(table: &[u64]) -> u64 {
    table
        .iter()
        .fold(0, |total: u64, word| total.wrapping_add(*word))
}

// One line for both, with the sum of the table's words.
fn read_and_unpack(rt: &impl Print, file: &[u8], table: &mut [u64]) {
    let _ = print!(rt; "read");
    print_answer(rt, cobleskeg::read(file).map(Answer::Counts));
    let _ = print!(rt; " unpack");
    print_answer(rt, cobleskeg::unpack(file, table).map(|_| Answer::Done));
    let _ = println!(rt; " left {}", sum(table));
}

fn search(rt: &impl Print, case: &Case, room: &mut [u64], table: &mut [u64]) {
    let _ = print!(rt; "search");
    let outcome = cobleskeg::search(case.file, case.argument, room, table);
    print_answer(rt, outcome.map(Answer::Ended));
    let _ = print!(rt; " room{}", Words(room));
    print_left(rt, table);
}

// Puts the calls at the start of the list, and answers how many it took.
fn take_calls(bytes: &[u8], list: &mut [u32]) -> usize
    ensures { IsPrefixLen result list.new }
{
    let (calls, _) = bytes.as_chunks::<4>();
    for (n, call) in list.iter_mut().zip(calls) {
        *n = u32::from_le_bytes(*call);
    }
    calls.len().min(list.len())
}

fn perform(rt: &impl Print, case: &Case, table: &mut [u64]) {
    let mut list = [0u32; 8];
    let n = take_calls(case.calls, &mut list);
    cobleskeg::perform(case.file, &list[..n], table);
    let _ = print!(rt; "perform");
    print_left(rt, table);
}

fn perform_by_index(rt: &impl Print, case: &Case, index: &[u64], table: &mut [u64]) {
    let mut list = [0u32; 8];
    let n = take_calls(case.calls, &mut list);
    cobleskeg::perform_by_index(case.file, &list[..n], index, table);
    let _ = print!(rt; "perform by index");
    print_left(rt, table);
}

// A byte of each word, as far as there are bytes; answers how many.
fn to_bytes(words: &[u64], bytes: &mut [u8]) -> usize
    ensures { IsPrefixLen result bytes.new }
{
    for (byte, word) in bytes.iter_mut().zip(words) {
        *byte = (*word % 256) as u8;
    }
    words.len().min(bytes.len())
}

// A word of each byte, as far as there are words.
fn to_words(bytes: &[u8], words: &mut [u64]) {
    for (word, byte) in words.iter_mut().zip(bytes) {
        *word = u64::from(*byte);
    }
}

// The words stand for the bytes of the lent buffer, and get those that the call leaves.
fn compile(rt: &impl Print, case: &Case, words: &mut [u64]) {
    let mut bytes = [0u8; 4096];
    let n = to_bytes(words, &mut bytes);
    let buffer = &mut bytes[..n];
    let _ = print!(rt; "compile");
    let written = cobleskeg::compile(case.file, case.argument as usize, buffer);
    print_answer(rt, written.map(Answer::Written));
    to_words(buffer, words);
    print_left(rt, words);
}

// One line for a case. A call that answers is named before it is made, so that the output shows one that is cut off.
fn report(rt: &impl Print, case: &Case, room: &mut [u64], table: &mut [u64]) {
    let file = case.file;
    match case.operation {
        Operation::ReadAndUnpack => read_and_unpack(rt, file, table),
        Operation::Step => {
            let _ = print!(rt; "step");
            let struck = cobleskeg::step(file, case.argument as usize, table);
            print_answer(rt, struck.map(Answer::Struck));
            print_left(rt, table);
        }
        Operation::Settle => {
            let _ = print!(rt; "settle");
            let settled = cobleskeg::settle(file, table);
            print_answer(rt, settled.map(Answer::Rounds));
            print_left(rt, table);
        }
        Operation::Search => search(rt, case, room, table),
        Operation::Perform => perform(rt, case, table),
        Operation::Compile => compile(rt, case, room),
        Operation::Index => {
            let _ = print!(rt; "index");
            let indexed = cobleskeg::index(file, room);
            print_answer(rt, indexed.map(|_| Answer::Done));
            print_left(rt, room);
        }
        Operation::SettleByIndex => {
            let _ = print!(rt; "settle by index");
            let settled = cobleskeg::settle_by_index(file, room, table);
            print_answer(rt, settled.map(Answer::Steps));
            print_left(rt, table);
        }
        Operation::PerformByIndex => perform_by_index(rt, case, room, table),
    }
}

// Writes the words that differ from the fill; a place outside is passed over.
fn change(words: &mut [u64], changes: &[u8]) {
    for part in changes.as_chunks::<10>().0 {
        if let Some(word) = words.get_mut(little::two(part, 0) as usize) {
            *word = little::eight(part, 2);
        }
    }
}

// Lends the first words of the longest table and of the room, which follows it. Nothing is printed where more words are asked for than there are.
fn run(rt: &impl Print, case: &Case) {
    let fill = case.fill;
    let mut words = [fill; 6144];
    change(&mut words, case.changes);
    let (table, room) = words.split_at_mut(2048);
    if case.lent <= table.len() && case.room <= room.len() {
        report(rt, case, &mut room[..case.room], &mut table[..case.lent]);
    }
}

fn main(rt: HostRuntime) {
    let mut input: [u8; 524288] = streams::zeros();
    let n = streams::read_full(&rt, &mut input);
    for case in Cases(&input[..n]) {
        run(&rt, &case);
    }
}
