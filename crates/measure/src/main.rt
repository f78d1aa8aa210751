// Runs narrowing steps on domains made here, as often as it is asked, and prints how many bits are left: bench/steps.py counts the instructions.
//
// Standard input holds groups of three bytes: the kind of step (0 trims, 1 to 7 are the paper's kinds, any other does nothing), the domains (0 full, else
// typical), and how often. Each step works on what the last one left, so that none can be skipped. The table has the rows of three strings, X, Y and Z, and the
// word of a number, N; its rows are made tidy before the first step, as every step asks.

#![tactic(auto)]

ghost use Rattle.std.specs.Prelude.{◌≡◌, ◌+◌, ◌*◌, ◌≤◌, true, length};
ghost use Rattle.automata.specs.Machine.{Whole};
ghost use Rattle.measure.specs.TidyRows.{TidyRows};

// Gives string x the lengths of the word, and the symbols 0 to 2 at the first 8 places.
fn typical_row(t: &mut [u64], x: usize, lengths: u64)
    requires { 64 * x + 64 ≤ length t.old }
{
    t[64 * x] = lengths;
    t[64 * x + 1..64 * x + 9].fill(7);
}

// X has the lengths 2 to 4, Y 2 to 5, Z 4 to 8, and N the values 1 to 5.
fn typical() -> [u64; 193] {
    let mut t = [0u64; 193];
    typical_row(&mut t, 0, 28);
    typical_row(&mut t, 1, 60);
    typical_row(&mut t, 2, 496);
    t[192] = 62;
    t
}

// Every length, symbol and value, or the typical ones.
fn start(domains: u8) -> [u64; 193] {
    if domains == 0 {
        return [18446744073709551615u64; 193];
    }
    typical()
}

// Makes the three rows tidy, as long as each has a value; whether all have.
fn tidy(t: &mut [u64]) -> bool
    requires { length t.old ≡ 193 }
    ensures { result ≡ true → TidyRows 3 t.new }
{
    for x in 0..3 {
        if !inplace::tidy(t, x) {
            return false;
        }
    }
    true
}

// An automaton of two states over 64 symbols: symbol 0 changes the state, any other keeps it, and state 0 accepts.
fn parity() -> [u8; 133]
    ensures { Whole 64 result }
{
    let mut d = [0u8; 133];
    d[0] = 2;
    d[1] = 1;
    d[5] = 1;
    d[70..].fill(1);
    d
}

// The step of Regular on X with this automaton; whether a choice is left.
fn regular_step(t: &mut [u64]) -> bool
    requires { TidyRows 3 t.old }
    ensures { result ≡ true → TidyRows 3 t.new }
{
    let d = parity();
    let automaton = automata::Automaton { bytes: &d, k: 64 };
    regular::narrow(automaton, None, t, 0).is_some()
}

// What is run: trimming, or the step of one of the paper's kinds.
#[derive(Clone, Copy)]
enum Kind {
    Trim,
    Eq,
    Neq,
    Rev,
    Cat,
    Sub,
    Len,
    Regular,
}

// The kind that a byte of the input asks for, if it asks for one.
fn kind_of(number: u8) -> Option<Kind> {
    match number {
        0 => Some(Kind::Trim),
        1 => Some(Kind::Eq),
        2 => Some(Kind::Neq),
        3 => Some(Kind::Rev),
        4 => Some(Kind::Cat),
        5 => Some(Kind::Sub),
        6 => Some(Kind::Len),
        7 => Some(Kind::Regular),
        _ => None,
    }
}

// One step of this kind; whether a choice is left. Sub looks for X in Z from N on, and Len measures Z.
fn step(kind: Kind, t: &mut [u64]) -> bool
    requires { TidyRows 3 t.old }
    ensures { result ≡ true → TidyRows 3 t.new }
{
    match kind {
        Kind::Trim => inplace::tidy(t, 0),
        Kind::Eq => eq::narrow(t, 0, 1).is_some(),
        Kind::Neq => neq::narrow(t, 0, 1).is_some(),
        Kind::Rev => rev::narrow(t, 0, 1).is_some(),
        Kind::Cat => cat::narrow(t, 0, 1, 2).is_some(),
        Kind::Sub => sub::narrow(t, 2, 0, 192).is_some(),
        Kind::Len => len::narrow(t, 2, 192).is_some(),
        Kind::Regular => regular_step(t),
    }
}

// So many steps, or as many as leave a choice.
fn run(kind: Kind, times: u8, t: &mut [u64])
    requires { TidyRows 3 t.old }
{
    for _ in 0..times {
        if !step(kind, t) {
            return;
        }
    }
}

// How many bits a table has.
fn bits(t: &[u64; 193]) -> u64 {
    t.iter()
        .fold(0, |n, w| n.wrapping_add(words::count(*w) as u64))
}

// How many bits are left after so many steps.
fn left(kind: u8, domains: u8, times: u8) -> u64 {
    let mut t = start(domains);
    if tidy(&mut t) {
        if let Some(k) = kind_of(kind) {
            run(k, times, &mut t);
        }
    }
    bits(&t)
}

// One line: the kind, the domains, and the bits that are left.
fn report(rt: &impl Print, kind: u8, domains: u8, times: u8) {
    let _ = rt.print(kind as u64);
    let _ = rt.write_all(b" ");
    let _ = rt.print(domains as u64);
    let _ = rt.write_all(b" ");
    let _ = rt.print(left(kind, domains, times));
    let _ = rt.write_all(b"\n");
}

// A line for each group of three bytes.
fn main(rt: HostRuntime) {
    let mut input = [0u8; 300];
    let n = streams::read_full(&rt, &mut input);
    for group in input[..n].chunks_exact(3) {
        report(&rt, group[0], group[1], group[2]);
    }
}
