// Len(X, N): N is the length of X.
//
// Assumes nothing. Requires a string with a tidy row, and a word after it for the number.

#![tactic(auto)]

ghost use Rattle.std.specs.Prelude.{[], ◌∷◌, ◌<◌, ◌≤◌, ◌+◌, ◌*◌, length};
ghost use Rattle.model.specs.Domains.{row};
ghost use Rattle.model.specs.Constraints.{len};
ghost use Rattle.inplace.specs.InTable.{Tidy};
ghost use Rattle.inplace.specs.InPlace.{InPlace};

// One narrowing step, where N has word i: a length of X is a value of N. Of a tidy row each length has a string, so both words become what both allow.
pub fn narrow(t: &mut [u64], x: usize, i: usize) -> Option<inplace::Changed>
    requires { (64 * x + 64 ≤ i) × (i < length t.old) × Tidy (row t.old x) }
    ensures { InPlace [] (len 0 0) (x ∷ []) (i ∷ []) t.old t.new result }
{
    let lengths = t[64 * x] & t[i];
    if lengths == 0 {
        return None;
    }
    let fewer = inplace::put(t, i, lengths);
    let shorter = inplace::shorten(t, x, lengths);
    Some(inplace::Changed {
        x: shorter,
        y: fewer,
        z: false,
    })
}
