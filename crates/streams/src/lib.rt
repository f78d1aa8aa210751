// Standard input into a buffer, and a large buffer to read it into.
//
// A read that fails ends the input.

#![tactic(auto)]

ghost use Rattle.std.specs.Counts.{IsPrefixLen};
ghost use Rattle.std.specs.Prelude.{◌≡◌, length, slice_index, EachIndex};

use std::io::Read;

// A buffer of so many zeros: a literal of this size would be unrolled by the prover.
pub fn zeros<const N: usize>() -> [u8; N]
    ensures size { length result ≡ N }
    ensures zero { EachIndex result (λ k. slice_index result k ≡ 0) }
{
    [0; N]
}

// Reads until the buffer is full, the input ends or a read fails, and answers how many bytes stand at the buffer's start.
pub fn read_full(rt: &impl Input, buffer: &mut [u8]) -> usize
    ensures { IsPrefixLen result buffer.new }
{
    let mut input = rt.reader();
    let mut done: usize = 0;
    while done < buffer.len() {
        match input.read(&mut buffer[done..]) {
            Ok(0) => return done,
            Ok(n) => done += n,
            Err(_) => return done,
        }
    }
    done
}
