// Sub(X, Y, N): Y is the part of X starting at place N.
//
// Assumes nothing. A step in place on rows that are tidy. `off` is N - 1, the symbols of X before the part; a start is left where Y's least length fits there.

#![tactic(auto)]

ghost use Rattle.std.specs.Prelude.{◌≡◌, ◌≢◌, [], ◌∷◌, ◌+◌, ◌*◌, ◌≤◌, ◌<◌, length, replicate};
ghost use Rattle.model.specs.Domains.{row};
ghost use Rattle.model.specs.Constraints.{sub};
ghost use Rattle.inplace.specs.InTable.{Tidy};
ghost use Rattle.inplace.specs.InPlace.{InPlace};
ghost use Rattle.sub.specs.Substrings.{Room, Entered, Started, Reaching, Over, Covered, Fixed, Written, Left, Wholes};

// What bounds a part: the least and the greatest length of Y, and the greatest of X.
#[derive(Clone, Copy)]
struct Bounds {
    least: usize,
    most: usize,
    longest: usize,
}

// Adds to the row r the parts that start after off symbols; the word of that start, or of none where there is no such part.
fn at_start(t: &[u64], x: usize, y: usize, off: usize, bounds: Bounds, r: &mut [u64; 64]) -> u64
    requires { (off < 63) × Room t.now x y bounds.least bounds.most bounds.longest }
    ensures { Entered (row t.now x) (row t.now y) off bounds.least bounds.longest r.old r.new result }
{
    if bounds.longest < off + bounds.least {
        return 0;
    }
    let m = inplace::meets(
        t,
        64 * x + off,
        64 * y,
        bounds.most.min(bounds.longest - off),
    );
    if m < bounds.least {
        return 0;
    }
    let ls = t[64 * y] & words::low_mask(m);
    r[0] |= ls;
    inplace::add(r, 0, t, 64 * x + off, 64 * y, words::highest(ls));
    words::singleton(off + 1)
}

// The starts of n that are left, and in the row r, which is empty before, all parts that start there.
fn starts(t: &[u64], x: usize, y: usize, n: u64, bounds: Bounds, r: &mut [u64; 64]) -> u64
    requires { Room t.now x y bounds.least bounds.most bounds.longest × (r.old ≡ replicate 64 0) }
    ensures { Started (row t.now x) (row t.now y) n bounds.least bounds.longest 0 result r.new }
{
    let mut found = 0;
    for off in words::each_bit(n >> 1) {
        found |= at_start(t, x, y, off, bounds, r);
    }
    found
}

// What Y, whose row begins at b, allows at X's place after i by one of the starts n.
fn over(t: &[u64], b: usize, n: u64, i: usize) -> u64
    requires { Reaching (length t.now) b n i }
    ensures { Over t.now b n i 0 result }
{
    let mut w = 0;
    for off in words::each_bit(n >> 1) {
        w |= t[b + (i - off) + 1];
    }
    w
}

// Leaves X's places from `from` up to `to`, which lie in the part by every one of the starts n, what Y allows there by one of them; whether one differs.
fn fix(t: &mut [u64], x: usize, y: usize, n: u64, from: usize, to: usize) -> bool
    requires { Covered t.old x y n from to }
    ensures { Written (Fixed (row t.old x) (row t.old y) n) t.old (64 * x) from to to t.new result }
{
    let mut changed = false;
    for i in from..to {
        let w = t[64 * x + i + 1] & over(t, 64 * y, n, i);
        changed |= inplace::put(t, 64 * x + i + 1, w);
    }
    changed
}

// Leaves X what the choices by the starts n use; whether it differs. A place that one of them leaves outside the part stays, and the first asks least of X.
fn wholes(t: &mut [u64], x: usize, y: usize, n: u64, least: usize) -> bool
    requires { Left t.old x y n least }
    ensures { Wholes t.old x y n least t.new result }
{
    let first = words::lowest(n) - 1;
    let end = first + least;
    let ls = (t[64 * x] >> end) << end;
    let mut changed = fix(t, x, y, n, words::highest(n) - 1, end);
    changed |= inplace::shorten(t, x, ls);
    changed
}

// One narrowing step in place; word i is N's. Rows by their positions, as in crates/eq.
pub fn narrow(t: &mut [u64], x: usize, y: usize, i: usize) -> Option<inplace::Changed>
    requires { (64 * x + 64 ≤ i) × (64 * y + 64 ≤ i) × (i < length t.old) × (y ≢ x) × Tidy (row t.old x) × Tidy (row t.old y) }
    ensures { InPlace [] (sub 0 1 0) (x ∷ y ∷ []) (i ∷ []) t.old t.new result }
{
    let bounds = Bounds {
        least: words::lowest(t[64 * y]),
        most: words::highest(t[64 * y]),
        longest: words::highest(t[64 * x]),
    };
    let mut r = [0u64; 64];
    let n = starts(t, x, y, t[i], bounds, &mut r);
    if n == 0 {
        return None;
    }
    Some(inplace::Changed {
        x: wholes(t, x, y, n, bounds.least),
        y: inplace::replace(t, y, &r, 0),
        z: inplace::put(t, i, n),
    })
}
