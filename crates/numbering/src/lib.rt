// Numbers the states of a pattern in the order in which they are first reached.
//
// Assumes nothing. The letters are what the readers leave, and the places of each symbol; a state is the set of the letters that were just passed.

#![tactic(auto)]

ghost use Rattle.std.specs.Prelude.{◌≡◌, ◌==◌, map, ℕ, ◌<◌, ◌≤◌, length, get_or, take, position, MatchOption};
ghost use Rattle.model.specs.Words.{bits, union};
ghost use Rattle.model.specs.PatternStates.{passed};
ghost use Rattle.model.specs.Numbering.{number_in, reach, reach_all};
ghost use Rattle.model.specs.Compile.{same_state};
ghost use Rattle.numbering.specs.Exploring.{state_at, listed, ahead_in, advance_in, successors_in, visited, states_in};

// What is known of a text for k symbols: the letters of each symbol, the letters that may follow each place, and the first letters.
#[derive(Drop)]
pub struct Letters {
    pub places: [u64; 64],
    pub follow: [u64; 64],
    pub first: u64,
    pub k: usize,
    ghost k_bound: { k ≤ 64 },
}

// The states that were reached, at most 32: the set of each, but for the start, which is state 0, and how many there are.
#[derive(Drop)]
pub struct States {
    pub sets: [u64; 32],
    pub count: usize,
    ghost some_state: { 1 ≤ count },
    ghost few: { count ≤ 32 },
}

// Where a set stands among others, if it is one of them.
fn find(sets: &[u64], w: u64) -> Option<usize>
    ensures { result ≡ position (λ v. v == w) sets.now }
{
    sets.iter().position(|set| *set == w)
}

impl States {
    // The start alone.
    fn new() -> States
        ensures { result.count ≡ 1 }
    {
        States {
            sets: [0; 32],
            count: 1,
        }
    }

    // The sets of the states; the start's means nothing.
    pub fn numbered(&self) -> &[u64]
        ensures { result.now ≡ take self.now.count self.now.sets }
    {
        &self.sets[..self.count]
    }

    // A set that was reached: a new one gets the next number, if there is one.
    fn add(&mut self, w: u64) -> Option<()>
        ensures { let Q = reach same_state (listed self.old.sets self.old.count) (passed w) in MatchOption result (32 < length Q) (λ u. Q ≡ listed self.new.sets self.new.count) }
    {
        if self.sets[1..self.count].contains(&w) {
            return Some(());
        }
        if self.count == 32 {
            return None;
        }
        self.sets[self.count] = w;
        self.count += 1;
        Some(())
    }
}

impl Letters {
    // The letters that may come after a letter of the set.
    fn gather(&self, w: u64) -> u64
        ensures { result ≡ union (map (λ (p : ℕ). get_or self.now.follow p 0) (bits w)) }
    {
        let mut r = 0;
        for p in words::each_bit(w) {
            r |= self.follow[p];
        }
        r
    }

    // The letters that may come in state i.
    fn ahead(&self, sets: &[u64], i: usize) -> u64
        requires { i < length sets.now }
        ensures { result ≡ ahead_in self.now.first self.now.follow (state_at sets.now i) }
    {
        if i == 0 {
            self.first
        } else {
            self.gather(sets[i])
        }
    }

    // State i taken, its symbols tried upwards, unless too many states are reached.
    fn take_state(&self, states: &mut States, i: usize) -> Option<()>
        requires { i < states.old.count }
        ensures { let Q = reach_all same_state (listed states.old.sets states.old.count) (successors_in self.now.k self.now.places self.now.first self.now.follow (state_at states.old.sets i)) in MatchOption result (32 < length Q) (λ u. Q ≡ listed states.new.sets states.new.count) }
    {
        let here = self.ahead(states.numbered(), i);
        for a in 0..self.k {
            states.add(here & self.places[a])?;
        }
        Some(())
    }

    // State i taken, if there is one.
    fn visit(&self, states: &mut States, i: usize) -> Option<()>
        ensures { let Q = visited self.now.k self.now.places self.now.first self.now.follow (listed states.old.sets states.old.count) i in MatchOption result (32 < length Q) (λ u. Q ≡ listed states.new.sets states.new.count) }
    {
        if states.count <= i {
            return Some(());
        }
        self.take_state(states, i)
    }

    // The states of the text, unless there are more than 32.
    pub fn number_states(&self) -> Option<States>
        ensures { let Q = states_in self.now.k self.now.places self.now.first self.now.follow in MatchOption result (32 < length Q) (λ states. Q ≡ listed states.sets states.count) }
    {
        let mut states = States::new();
        for i in 0..32 {
            self.visit(&mut states, i)?;
        }
        Some(states)
    }

    // The number of the state that symbol a leads to from state i, the number of states where it has none yet: no Option, since the definition `number_in`, which
    // this promises, has the length of the list there.
    pub fn move_of(&self, sets: &[u64], i: usize, a: usize) -> usize
        requires i_in_bounds { i < length sets.now }
        requires a_bound { a < 64 }
        ensures { result ≡ number_in same_state (listed sets.now (length sets.now)) (advance_in self.now.places self.now.first self.now.follow (state_at sets.now i) a) }
    {
        let here = self.ahead(sets, i);
        let next = here & self.places[a];
        match find(&sets[1..], next) {
            Some(j) => j + 1,
            None => sets.len(),
        }
    }
}
