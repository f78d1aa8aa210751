// Rows of a lent table, in place: what every relation's step is made of. A row is tidy where it has a value and every bit of it is used by a string of the row.
//
// Assumes nothing. `requires` speaks of sizes, of different places, of a row past whose longest length there is nothing, and of tidy rows.

#![tactic(auto)]

ghost use Rattle.std.specs.Prelude.{◌≡◌, false, not, ◌||◌, suc, ◌<◌, ◌≤◌, ◌+◌, ◌*◌, eqb, length, set};
ghost use Rattle.model.specs.Words.{word};
ghost use Rattle.model.specs.Domains.{row};
ghost use Rattle.inplace.specs.InTable.{Ran, Cleared, Ready, Shortened, Trimmed, Apart, Meet, Meets};
ghost use Rattle.inplace.specs.Adding.{Added};
ghost use Rattle.inplace.specs.Written.{Written, Replacing, Replaced};

// How many places after a, of at most lim, each allow a symbol. `meets` asks the same of two rows together: one function that both hand a closure for the word is as
// long as these two loops.
pub fn run(t: &[u64], a: usize, lim: usize) -> usize
    requires { a + lim < length t.now }
    ensures { Ran t.now a lim result }
{
    for m in 0..lim {
        if t[a + m + 1] == 0 {
            return m;
        }
    }
    lim
}

// Strikes every symbol at the places after a from top on, up to end.
pub fn clear(t: &mut [u64], a: usize, top: usize, end: usize)
    requires { (top ≤ end) × (a + end < length t.old) }
    ensures { Cleared t.old a top end t.new }
{
    t[a + top + 1..a + end + 1].fill(0);
}

// Leaves string x these lengths alone; whether it had others.
pub fn shorten(t: &mut [u64], x: usize, ls: u64) -> bool
    requires { Ready t.old x ls }
    ensures { Shortened t.old x ls t.new result }
{
    let a = 64 * x;
    let old = t[a];
    if old == ls {
        return false;
    }
    t[a] = ls;
    clear(t, a, words::highest(ls), words::highest(old));
    true
}

// Trims string x; whether it has a value. Where it has none the table stays.
pub fn tidy(t: &mut [u64], x: usize) -> bool
    requires { 64 * x + 64 ≤ length t.old }
    ensures { Trimmed t.old x t.new result }
{
    let a = 64 * x;
    let old = t[a];
    if old == 0 {
        return false;
    }
    let ls = old & words::low_mask(run(t, a, words::highest(old)));
    if ls == 0 {
        return false;
    }
    t[a] = ls;
    clear(t, a, words::highest(ls), 63);
    true
}

// Writes a word; whether it was another.
pub fn put(t: &mut [u64], i: usize, w: u64) -> bool
    requires { i < length t.old }
    ensures { (t.new ≡ set t.old i w) × (result ≡ not (eqb (word t.old i) w)) }
{
    if t[i] == w {
        return false;
    }
    t[i] = w;
    true
}

// How many places met, and which side lost a bit. No Option: where the places stop meeting, Eq keeps the lengths up to there.
#[derive(Clone, Copy)]
pub struct Met {
    pub m: usize,
    pub x: bool,
    pub y: bool,
}

// The places after a and after b, up to lim, become what both allow, as far as that is something.
pub fn meet(t: &mut [u64], a: usize, b: usize, lim: usize) -> Met
    requires { (a + lim < length t.old) × (b + lim < length t.old) × Apart a b lim }
    ensures { Meet t.old a b lim t.new result.m result.x result.y }
{
    let mut x = false;
    let mut y = false;
    for m in 0..lim {
        let w = t[a + m + 1] & t[b + m + 1];
        if w == 0 {
            return Met { m, x, y };
        }
        x |= put(t, a + m + 1, w);
        y |= put(t, b + m + 1, w);
    }
    Met { m: lim, x, y }
}

// How many places after a and after b, of at most lim, allow a symbol together.
pub fn meets(t: &[u64], a: usize, b: usize, lim: usize) -> usize
    requires { (a + lim < length t.now) × (b + lim < length t.now) }
    ensures { Meets t.now a b lim result }
{
    for m in 0..lim {
        if t[a + m + 1] & t[b + m + 1] == 0 {
            return m;
        }
    }
    lim
}

// Adds to n places after c of a row beside the table what the places after a and after b both allow.
pub fn add(r: &mut [u64; 64], c: usize, t: &[u64], a: usize, b: usize, n: usize)
    requires { (c + n < 64) × (a + n < length t.now) × (b + n < length t.now) }
    ensures { Added r.old c t.now a b n r.new }
{
    for i in 0..n {
        r[c + i + 1] |= t[a + i + 1] & t[b + i + 1];
    }
}

// Makes n places after a those of r after b; whether one of them was another.
fn write(t: &mut [u64], a: usize, r: &[u64], b: usize, n: usize) -> bool
    requires { (a + n < length t.old) × (b + n < length r.now) }
    ensures { Written t.old a (λ i. word r.now (suc (b + i))) n t.new result }
{
    let mut changed = false;
    for i in 0..n {
        changed |= put(t, a + i + 1, r[b + i + 1]);
    }
    changed
}

// Makes the row of string x row j of r; whether it differs.
pub fn replace(t: &mut [u64], x: usize, r: &[u64], j: usize) -> bool
    requires { Replacing t.old x r.now j }
    ensures { Replaced t.old x (row r.now j) t.new result }
{
    let lengths = r[64 * j];
    let mut changed = write(t, 64 * x, r, 64 * j, words::highest(lengths));
    changed |= shorten(t, x, lengths);
    changed
}

// Which arguments of the constraint lost a bit by a step in place, in their order. An argument that is no variable loses none. A step answers None where it leaves no
// choice.
#[derive(Clone, Copy)]
pub struct Changed {
    pub x: bool,
    pub y: bool,
    pub z: bool,
}
