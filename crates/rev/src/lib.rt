// Rev(X, Y): X is Y read backwards.
//
// Assumes nothing. Requires two strings with tidy rows.

#![tactic(auto)]

ghost use Rattle.std.specs.Prelude.{◌≡◌, ◌≢◌, false, [], ◌∷◌, ◌<◌, ◌≤◌, ◌+◌, ◌*◌, length, replicate};
ghost use Rattle.model.specs.Words.{several};
ghost use Rattle.model.specs.Domains.{row};
ghost use Rattle.model.specs.Constraints.{rev};
ghost use Rattle.model.specs.Solutions.{text_bit};
ghost use Rattle.laws.specs.Supported.{Supports};
ghost use Rattle.inplace.specs.InTable.{Tidy, Apart};
ghost use Rattle.inplace.specs.InPlace.{InPlace};
ghost use Rattle.rev.specs.Turned.{Turn, Turns, Added, Mirrored, Common, Allowed, Widened, Pair};

// `turn`, `turns` and `add` read the places after b backwards, and else are like `meet`, `meets` and `add` of inplace: shared, they would take the index as a
// closure, and each call would be as long as the loop here.

// The places after a, up to l, become what they allow together with those after b read backwards, and whether one lost a symbol; None where that is nothing once.
fn turn(t: &mut [u64], a: usize, b: usize, l: usize) -> Option<bool>
    requires { (a + l < length t.old) × (b + l < length t.old) × Apart a b l }
    ensures { Turn t.old a b l t.new result }
{
    let mut changed = false;
    for m in 0..l {
        let w = t[a + m + 1] & t[b + l - m];
        if w == 0 {
            return None;
        }
        changed |= inplace::put(t, a + m + 1, w);
    }
    Some(changed)
}

// Whether the places after a, up to l, each allow a symbol together with those after b read backwards.
fn turns(t: &[u64], a: usize, b: usize, l: usize) -> bool
    requires { (a + l < length t.now) × (b + l < length t.now) }
    ensures { Turns t.now a b l result }
{
    (0..l).all(|i| t[a + i + 1] & t[b + l - i] != 0)
}

// Adds to a row's places, up to l, what the places after a allow together with those after b read backwards.
fn add(r: &mut [u64; 64], t: &[u64], a: usize, b: usize, l: usize)
    requires { (l < 64) × (a + l < length t.now) × (b + l < length t.now) }
    ensures { Added t.now a b l r.old l r.new }
{
    for i in 0..l {
        r[i + 1] |= t[a + i + 1] & t[b + l - i];
    }
}

// Adds to a row what the strings of x use that have l symbols and are a string of y read backwards.
fn widen(r: &mut [u64; 64], t: &[u64], x: usize, y: usize, l: usize)
    requires { Allowed t.now x y l }
    ensures { Widened t.now x y l r.old r.new }
{
    let a = 64 * x;
    let b = 64 * y;
    if turns(t, a, b, l) {
        add(r, t, a, b, l);
        r[0] |= words::singleton(l);
    }
}

// What y read backwards leaves of x, where both have these lengths, in the row r, which is empty before.
fn half(t: &[u64], x: usize, y: usize, ls: u64, r: &mut [u64; 64])
    requires { (64 * x + 64 ≤ length t.now) × (64 * y + 64 ≤ length t.now) × Common t.now x y ls × (r.old ≡ replicate 64 0) }
    ensures { Supports (Mirrored (row t.now x) (row t.now y) 0) text_bit 64 r.new }
{
    for l in words::each_bit(ls) {
        widen(r, t, x, y, l);
    }
}

// The step where the word of the lengths that both allow has one bit, in place.
fn one_length(t: &mut [u64], x: usize, y: usize, ls: u64) -> Option<inplace::Changed>
    requires { Pair t.old x y ls × (several ls ≡ false) }
    ensures { InPlace [] (rev 0 1) (x ∷ y ∷ []) [] t.old t.new result }
{
    let l = words::highest(ls);
    let mut changed_x = turn(t, 64 * x, 64 * y, l)?;
    // What is left at a place of x, the place of y that faces it allows.
    let mut changed_y = turn(t, 64 * y, 64 * x, l).unwrap();
    changed_x |= inplace::shorten(t, x, ls);
    changed_y |= inplace::shorten(t, y, ls);
    Some(inplace::Changed {
        x: changed_x,
        y: changed_y,
        z: false,
    })
}

// The step where both allow these lengths: what they leave of either side is found first, and then written.
fn any_length(t: &mut [u64], x: usize, y: usize, ls: u64) -> Option<inplace::Changed>
    requires { Pair t.old x y ls }
    ensures { InPlace [] (rev 0 1) (x ∷ y ∷ []) [] t.old t.new result }
{
    let mut of_x = [0; 64];
    half(t, x, y, ls, &mut of_x);
    if of_x[0] == 0 {
        return None;
    }
    let mut of_y = [0; 64];
    half(t, y, x, ls, &mut of_y);
    Some(inplace::Changed {
        x: inplace::replace(t, x, &of_x, 0),
        y: inplace::replace(t, y, &of_y, 0),
        z: false,
    })
}

// One narrowing step: Y is also X read backwards, so either row is narrowed by the other in the same way. Rows by their positions, as in crates/eq.
pub fn narrow(t: &mut [u64], x: usize, y: usize) -> Option<inplace::Changed>
    requires { (64 * x + 64 ≤ length t.old) × (64 * y + 64 ≤ length t.old) × (y ≢ x) × Tidy (row t.old x) × Tidy (row t.old y) }
    ensures { InPlace [] (rev 0 1) (x ∷ y ∷ []) [] t.old t.new result }
{
    let common = t[64 * x] & t[64 * y];
    if common == 0 {
        return None;
    }
    if words::several(common) {
        return any_length(t, x, y, common);
    }
    one_length(t, x, y, common)
}
