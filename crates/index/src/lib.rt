// Which constraints of a file name a variable: a word for each variable, strings then numbers, in which bit j stands for constraint j. And the index that a
// caller lends: two words for each variable, in which bit j of the pair stands for step j, so that the trimmings, whose numbers follow the constraints', have
// bits too.
//
// Assumes nothing. `requires` asks sizes, and that positions lie inside the index.

#![tactic(auto)]

mod positions;

ghost use Rattle.std.specs.Prelude.{◌≡◌, ℕ, cond, [], ◌∷◌, map, ◌+◌, ◌*◌, ◌<◌, ◌≤◌, eqb, ltb, length};
ghost use Rattle.model.specs.Lists.{same};
ghost use Rattle.model.specs.Words.{word, union};
ghost use Rattle.model.specs.Domains.{owner};
ghost use Rattle.model.specs.Constraints.{variables};
ghost use Rattle.model.specs.StepIndex.{word_from, index_of};
ghost use Rattle.laws.specs.Inclusion.{In};
ghost use Rattle.records.specs.Records.{constraint_of};
ghost use Rattle.format.specs.Problems.{the_problem};
ghost use Rattle.index.specs.Index.{position, Index};
ghost use Rattle.index.specs.Joining.{Fits, Joined};
ghost use Rattle.index.specs.Waking.{moved};
ghost use Rattle.index.specs.Standing.{listed, Standing, Lent};

use format::Problem;
use inplace::Changed;
pub use positions::Positions;
use records::Record;

// Joins the bits of b into the words at these positions.
fn join(ix: &mut [u64; 32], positions: Positions, b: u64)
    requires { (i : ℕ) → In i (listed positions) → i < 32 }
    ensures { Joined (listed positions) b ix.old ix.new }
{
    for &i in positions.listed() {
        ix[i] |= b;
    }
}

// The index of a file: each constraint's bit joins the word of each variable that it names.
pub fn of_file(p: &Problem) -> [u64; 32]
    ensures { Index (the_problem p.now) result }
{
    let mut ix: [u64; 32] = [0; 32];
    for j in 0..p.parts.c {
        let r = p.constraint(j);
        join(&mut ix, positions_of(r, p.parts.s), words::singleton(j));
    }
    ix
}

// The constraints that name the variable of word `at`, in a table of s strings.
pub fn touching(ix: &[u64; 32], s: usize, at: usize) -> u64
    requires { (s ≤ 16) × (at < 64 * s + 16) }
    ensures { result ≡ word ix.now (position s (owner s at)) }
{
    if at < 64 * s {
        return ix[at / 64];
    }
    ix[s + (at - 64 * s)]
}

// The constraints that name a variable of r that changed, r among them where it is one of the file's and one did. The others have every word of theirs as it was,
// so the step of r gives them nothing to do.
pub fn waking(ix: &[u64; 32], s: usize, r: Record, changed: Changed) -> u64
    requires { (s ≤ 16) × Fits s r }
    ensures { result ≡ union (map (λ v. word ix.now (position s v))
        (moved (variables (constraint_of r)) (changed.x ∷ changed.y ∷ changed.z ∷ []))) }
{
    if !(changed.x | changed.y | changed.z) {
        return 0; // in a search most steps strike nothing
    }
    let flags = [changed.x, changed.y, changed.z];
    let mut woken: u64 = 0;
    for (&i, &changed) in positions_of(r, s).listed().iter().zip(&flags) {
        if changed {
            woken |= ix[i];
        }
    }
    woken
}

// ---- the lent index

impl Positions {
    // The positions, one after the other.
    fn listed(&self) -> &[usize]
        ensures { result.now ≡ listed self.now }
    {
        &self.at[..self.count]
    }
}

// Where the variables that r names stand: its strings, and its number behind them.
pub fn positions_of(r: Record, s: usize) -> Positions
    requires { s ≤ 16 }
    ensures { Standing s r result }
{
    let names = r.names();
    let mut at = names.strings;
    let mut count = names.count;
    if let Some(n) = names.number {
        at[count] = s + n;
        count += 1;
    }
    Positions { at, count }
}

// Half h, low or high, of the steps that touch one of these variables.
pub fn joined_words(index: &[u64], positions: Positions, h: usize) -> u64
    requires { (h < 2) × Lent positions (length index.now) }
    ensures { result ≡ union (map (λ i. word index.now (2 * i + h)) (listed positions)) }
{
    let mut w: u64 = 0;
    for &i in positions.listed() {
        w |= index[2 * i + h];
    }
    w
}

// Half h of the constraints that name variable v. There are at most 64, so the high half has none.
fn constraints_half(ix: &[u64; 32], v: usize, h: usize) -> u64
    requires { v < 32 }
    ensures { result ≡ cond (eqb h 0) (word ix.now v) 0 }
{
    if h == 0 {
        return ix[v];
    }
    0
}

// Half h of step j alone.
fn step_half(j: usize, h: usize) -> u64
    ensures { result ≡ word_from (64 * h) (j ∷ []) }
{
    if j / 64 == h {
        return words::singleton(j % 64);
    }
    0
}

// Half h of the trimming of variable v: the trimmings follow the constraints, and numbers, which follow the strings, have none.
fn trimming_half(p: &Problem, v: usize, h: usize) -> u64
    ensures { result ≡ cond (ltb v p.now.parts.s) (word_from (64 * h) ((p.now.parts.c + v) ∷ [])) 0 }
{
    if v < p.parts.s {
        return step_half(p.parts.c + v, h);
    }
    0
}

// Word i of the lent index: half i % 2 of the pair of variable i / 2.
fn lent_word(ix: &[u64; 32], p: &Problem, i: usize) -> u64
    requires { (i < 2 * (p.now.parts.s + p.now.parts.t)) × Index (the_problem p.now) ix.now }
    ensures { result ≡ word (index_of (the_problem p.now)) i }
{
    constraints_half(ix, i / 2, i % 2) | trimming_half(p, i / 2, i % 2)
}

// The index of a file, word by word, into the lent one.
pub fn write(p: &Problem, index: &mut [u64])
    requires { length index.old ≡ 2 * (p.now.parts.s + p.now.parts.t) }
    ensures { index.new ≡ index_of (the_problem p.now) }
{
    let ix = of_file(p);
    for i in 0..index.len() {
        index[i] = lent_word(&ix, p, i);
    }
}

// Whether the lent words are the index of the file: the first that differs decides.
pub fn is_of_file(p: &Problem, index: &[u64]) -> bool
    requires { length index.now ≡ 2 * (p.now.parts.s + p.now.parts.t) }
    ensures { result ≡ same index.now (index_of (the_problem p.now)) }
{
    let ix = of_file(p);
    (0..index.len()).all(|i| index[i] == lent_word(&ix, p, i))
}
