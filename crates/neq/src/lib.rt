// Neq(X, Y): some difference in length or at some place.
//
// Assumes nothing. Requires two strings with tidy rows.

#![tactic(auto)]

ghost use Rattle.std.specs.Prelude.{◌≡◌, ◌≢◌, not, [], ◌∷◌, ◌<◌, ◌≤◌, ◌+◌, ◌*◌, length};
ghost use Rattle.model.specs.Lists.{any};
ghost use Rattle.model.specs.Words.{several};
ghost use Rattle.model.specs.Domains.{row};
ghost use Rattle.model.specs.Constraints.{neq};
ghost use Rattle.inplace.specs.InTable.{Tidy};
ghost use Rattle.inplace.specs.InPlace.{InPlace};
ghost use Rattle.neq.specs.Others.{Alike, Without, OneOther};

// Whether no word of string x's row has two bits: the row, being tidy, stands for one string then.
fn one_string(t: &[u64], x: usize) -> bool
    requires { (64 * x + 64 ≤ length t.now) × Tidy (row t.now x) }
    ensures { result ≡ not (any several (row t.now x)) }
{
    let a = 64 * x;
    let lengths = t[a];
    if words::several(lengths) {
        return false;
    }
    let top = words::highest(lengths);
    for i in 0..top {
        if words::several(t[a + i + 1]) {
            return false;
        }
    }
    true
}

// The first place from start on, of at most l, at which the words after a and after b differ; l where there is none.
fn alike(t: &[u64], a: usize, b: usize, start: usize, l: usize) -> usize
    requires { (start ≤ l) × (a + l < length t.now) × (b + l < length t.now) }
    ensures { Alike t.now a b start l result }
{
    for i in start..l {
        if t[a + i + 1] != t[b + i + 1] {
            return i;
        }
    }
    l
}

// Takes the one string of y from string x; whether the row of x lost a bit, and None where it keeps no string. It takes a bit only where all else is decided: the
// length, where x allows just that string's symbols; its symbol at the one place where x allows others too, if no other length reaches that place.
fn without(t: &mut [u64], x: usize, y: usize) -> Option<bool>
    requires { OneOther t.old x y }
    ensures { Without t.old x y t.new result }
{
    let a = 64 * x;
    let b = 64 * y;
    let l = words::highest(t[b]);
    let lengths = t[a];
    if !words::has(lengths, l) {
        return Some(false);
    }
    let others = lengths & !words::singleton(l);
    let at = alike(t, a, b, 0, l);
    if at == l {
        if others == 0 {
            return None;
        }
        return Some(inplace::shorten(t, x, others));
    }
    let w = t[a + at + 1];
    let v = t[b + at + 1];
    let longer = others >> (at + 1);
    if w & v == 0 || longer != 0 || alike(t, a, b, at + 1, l) < l {
        return Some(false);
    }
    t[a + at + 1] = w & !v;
    Some(true)
}

// One narrowing step: a side loses something only where the other stands for one string. Rows by their positions, as in crates/eq.
pub fn narrow(t: &mut [u64], x: usize, y: usize) -> Option<inplace::Changed>
    requires { (64 * x + 64 ≤ length t.old) × (64 * y + 64 ≤ length t.old) × (y ≢ x) × Tidy (row t.old x) × Tidy (row t.old y) }
    ensures { InPlace [] (neq 0 1) (x ∷ y ∷ []) [] t.old t.new result }
{
    let mut changed = inplace::Changed {
        x: false,
        y: false,
        z: false,
    };
    if one_string(t, y) {
        changed.x = without(t, x, y)?;
    } else if one_string(t, x) {
        changed.y = without(t, y, x)?;
    }
    Some(changed)
}
