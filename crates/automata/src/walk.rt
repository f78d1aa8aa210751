// The automata of a file, one after the other from the first byte on: whether the bytes are exactly so many automata (refusal 5), and where each starts.
//
// Assumes nothing. `requires` asks what refusal 3 leaves, at most 64 symbols; `start` also what refusal 5 leaves, automata that the bytes hold.
ghost use Rattle.std.specs.Prelude.{◌≡◌, ◌+◌, ◌*◌, ◌≤◌, true, false, length, MatchOption};
ghost use Rattle.model.specs.Lists.{all};
ghost use Rattle.model.specs.Layout.{part};
ghost use Rattle.model.specs.Reading.{known, automaton, automata_in};
ghost use Rattle.automata.specs.Machine.{state_count, Whole};
ghost use Rattle.automata.specs.Walk.{present, Held, Starts};

use crate::{Automaton, accepting, states};

// Whether each of the n next states behind the accepting states is below q or 255: one more, as bytes count, is at most q. No byte ends the loop, so that many
// are compared at once.
fn moves_known(d: &[u8], n: usize, q: usize) -> bool
    requires { 5 + n ≤ length d.now }
    ensures { result ≡ all (known q) (part 5 n d.now) }
{
    let mut top: u8 = 0;
    for b in &d[5..5 + n] {
        top = top.max(b.wrapping_add(1));
    }
    top as usize <= q
}

// The automaton of k symbols at the head of the bytes, if one stands there.
fn head(bytes: &[u8], k: usize) -> Option<Automaton<'_>>
    requires { k ≤ 64 }
    ensures { MatchOption result (present (automaton k bytes.now) ≡ false)
        (λ a. (present (automaton k bytes.now) ≡ true) × (a.bytes.now ≡ bytes.now) × (a.k ≡ k)) }
{
    if bytes.len() < 5 {
        return None;
    }
    let q = states(bytes);
    if q < 1 || 32 < q {
        return None;
    }
    let n = q * k;
    if bytes.len() < 5 + n
        || !words::none_from(accepting(bytes) as u64, q)
        || !moves_known(bytes, n, q)
    {
        return None;
    }
    Some(Automaton { bytes, k })
}

impl<'a> Automaton<'a> {
    // How many bytes the automaton takes.
    fn size(self) -> usize
        ensures { result ≡ 5 + state_count self.entry.bytes.now * self.entry.k }
    {
        5 + states(self.bytes) * self.k
    }
}

// Whether the bytes are exactly d automata of k symbols.
pub fn all_whole(bytes: &[u8], k: usize, d: usize) -> bool
    requires { k ≤ 64 }
    ensures { result ≡ present (automata_in k d bytes.now) }
{
    let mut at: usize = 0;
    for i in 0..d {
        let Some(a) = head(&bytes[at..], k) else {
            return false;
        };
        at += a.size();
    }
    at == bytes.len()
}

// Where automaton i starts.
pub fn start(bytes: &[u8], k: usize, i: usize) -> usize
    requires { (k ≤ 64) × Held k bytes.now i }
    ensures { Starts k bytes.now i result }
{
    let mut at: usize = 0;
    for j in 0..i {
        let a = Automaton {
            bytes: &bytes[at..],
            k,
        };
        at += a.size();
    }
    at
}
