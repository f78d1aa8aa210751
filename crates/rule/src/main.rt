// The program for rules: a pattern from standard input, the bytes of its automaton to standard output.
//
// The first byte of standard input is k, the number of symbols; all bytes after it are the text of the pattern. Printed is one byte, the number of the refusal
// or 0, and after a 0 the bytes of the automaton. Nothing is printed for an input without a byte.
//
// Assumes what std's reading and writing assume of the C library, the axioms that the crate's own check counts. Which bytes these are is the promise of
// `compile` in crates/cobleskeg.

#![tactic(auto)]

// The refusal, or 0 and the automaton.
fn answer(rt: &impl Print, k: u8, text: &[u8], buffer: &mut [u8]) {
    match cobleskeg::compile(text, k as usize, buffer) {
        Err(e) => {
            let _ = rt.write_all(&[e.number()]);
        }
        Ok(size) => {
            let _ = rt.write_all(&[0]);
            let _ = rt.write_all(&buffer[..size]);
        }
    }
}

// One byte more than k and the longest text shows a text that is longer. The buffer has room for every automaton: 32 states over 64 symbols.
fn main(rt: HostRuntime) {
    let mut input = [0u8; 65];
    let mut buffer = [0u8; 2053];
    let n = streams::read_full(&rt, &mut input);
    if let Some((k, text)) = input[..n].split_first() {
        answer(&rt, *k, text, &mut buffer);
    }
}
