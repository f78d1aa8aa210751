// Cat(X, Y, Z): Z is X followed by Y.
//
// Assumes nothing. A step requires that the three strings it names are different and tidy. Where X has one length, places meet in the table itself; where it
// has several, the choices of each length are gathered in three rows beside the table, which are then written where they differ.

#![tactic(auto)]

ghost use Rattle.std.specs.Prelude.{◌≡◌, [], ◌∷◌, ◌<◌, ◌≤◌, ◌+◌, ◌*◌, length};
ghost use Rattle.model.specs.Constraints.{cat};
ghost use Rattle.inplace.specs.InPlace.{InPlace};
ghost use Rattle.inplace.specs.Adding.{Added};
ghost use Rattle.cat.specs.Strings.{Strings, Decided};
ghost use Rattle.cat.specs.Gathering.{Gathered, Complete, Advanced};

// X, Y and Z stay three arguments here and below, as `narrow` is given them: a struct would be made there, and say `s.x` for x in every line.

// The step where X has p symbols: its places are met with Z's first ones, and Y's with those after them.
fn decided(t: &mut [u64], x: usize, y: usize, z: usize, p: usize) -> Option<inplace::Changed>
    requires { Decided t.old x y z p }
    ensures { InPlace [] (cat 0 1 2) (x ∷ y ∷ z ∷ []) [] t.old t.new result }
{
    let lengths = (t[64 * z] >> p) & t[64 * y];
    if lengths == 0 {
        return None;
    }
    let u = inplace::meet(t, 64 * z, 64 * x, p);
    if u.m < p {
        return None;
    }
    let v = inplace::meet(t, 64 * z + p, 64 * y, words::highest(lengths));
    let kept = lengths & words::low_mask(v.m);
    if kept == 0 {
        return None;
    }
    Some(inplace::Changed {
        x: u.y,
        y: v.y | inplace::shorten(t, y, kept),
        z: u.x | v.x | inplace::shorten(t, z, kept << p),
    })
}

// A row for each string, beside the table, in which choices are gathered.
#[derive(Drop)]
struct Rows {
    x: [u64; 64],
    y: [u64; 64],
    z: [u64; 64],
}

// Adds to n places after c of one row, and to those after d of another, what the places after a and after b both allow. One loop for both: with `add` of inplace for
// each there are twice the loops, and most are short.
fn add_to_both(
    r: &mut [u64; 64],
    c: usize,
    s: &mut [u64; 64],
    d: usize,
    t: &[u64],
    a: usize,
    b: usize,
    n: usize,
)
    requires { (c + n < 64) × (d + n < 64) × (a + n < length t.now) × (b + n < length t.now) }
    ensures { Added r.old c t.now a b n r.new × Added s.old d t.now a b n s.new }
{
    for i in 0..n {
        let w = t[a + i + 1] & t[b + i + 1];
        r[c + i + 1] |= w;
        s[d + i + 1] |= w;
    }
}

// Gathers the choices in which X has p symbols, and gives the greatest length of X so far that has some. The places up to the last such length before p are
// gathered already, in X's row and in Z's: lengths come in their order, and what X and Z both allow there is the same for each of them.
fn split(t: &[u64], x: usize, y: usize, z: usize, last: usize, p: usize, r: &mut Rows) -> usize
    requires { Strings t.now x y z × (last ≤ p) × (p < 64) }
    ensures { Advanced t.now x y z last p r.old result r.new }
{
    let a = 64 * z + p;
    let b = 64 * y;
    let lengths = (t[64 * z] >> p) & t[b];
    if lengths == 0 {
        return last;
    }
    let kept = lengths & words::low_mask(inplace::meets(t, a, b, words::highest(lengths)));
    if kept == 0 {
        return last;
    }
    let top = words::highest(kept);
    let from_z = 64 * z + last;
    let from_x = 64 * x + last;
    r.x[0] |= words::singleton(p);
    r.y[0] |= kept;
    r.z[0] |= kept << p;
    add_to_both(&mut r.x, last, &mut r.z, last, t, from_z, from_x, p - last);
    add_to_both(&mut r.y, 0, &mut r.z, p, t, a, b, top);
    p
}

// Gathers the choices of every length of X that is given.
fn gather(t: &[u64], x: usize, y: usize, z: usize, lengths: u64, r: &mut Rows)
    requires { Strings t.now x y z × Gathered t.now x y z lengths 0 r.old }
    ensures { Complete t.now x y z r.new }
{
    let mut last = 0;
    for p in words::each_bit(lengths) {
        last = split(t, x, y, z, last, p, r);
    }
}

// The step where X has several lengths, of which those count up to which places of X and Z meet.
fn undecided(t: &mut [u64], x: usize, y: usize, z: usize) -> Option<inplace::Changed>
    requires { Strings t.old x y z }
    ensures { InPlace [] (cat 0 1 2) (x ∷ y ∷ z ∷ []) [] t.old t.new result }
{
    let lengths = t[64 * x];
    let seen = inplace::meets(t, 64 * z, 64 * x, words::highest(lengths));
    let mut r = Rows {
        x: [0; 64],
        y: [0; 64],
        z: [0; 64],
    };
    gather(t, x, y, z, lengths & words::low_mask(seen), &mut r);
    if r.x[0] == 0 {
        return None;
    }
    Some(inplace::Changed {
        x: inplace::replace(t, x, &r.x, 0),
        y: inplace::replace(t, y, &r.y, 0),
        z: inplace::replace(t, z, &r.z, 0),
    })
}

// One narrowing step.
pub fn narrow(t: &mut [u64], x: usize, y: usize, z: usize) -> Option<inplace::Changed>
    requires { Strings t.old x y z }
    ensures { InPlace [] (cat 0 1 2) (x ∷ y ∷ z ∷ []) [] t.old t.new result }
{
    let lengths = t[64 * x];
    let p = words::highest(lengths);
    if lengths == words::singleton(p) {
        return decided(t, x, y, z, p);
    }
    undecided(t, x, y, z)
}
