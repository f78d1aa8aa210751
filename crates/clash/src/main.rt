// The program: reads one problem from standard input and prints its listing.
//
// Assumes what std's reading and writing assume of the C library, the axioms that the crate's own check counts. What is printed for an input is
// crates/listing's promise.

#![tactic(auto)]

// One byte more than the largest file shows an input that is longer.
fn main(rt: HostRuntime) {
    let mut input = [0u8; 25025];
    let mut lines = [0u8; listing::LONGEST];
    let n = streams::read_full(&rt, &mut input);
    let length = listing::answer(&input[..n], &mut lines);
    let _ = rt.write_all(&lines[..length]);
}
