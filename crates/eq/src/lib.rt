// Eq(X, Y): same length, same symbols.
//
// Assumes nothing. Requires two strings with tidy rows.

#![tactic(auto)]

ghost use Rattle.std.specs.Prelude.{◌≢◌, [], ◌∷◌, ◌≤◌, ◌+◌, ◌*◌, length};
ghost use Rattle.model.specs.Domains.{row};
ghost use Rattle.model.specs.Constraints.{eq};
ghost use Rattle.inplace.specs.InTable.{Tidy};
ghost use Rattle.inplace.specs.InPlace.{InPlace};

// One narrowing step: both strings are one string of both rows, so places and lengths become what both allow, as far as the places go.
//
// Rows are given by their positions, here and in the other relations: x and y come in either order and Cat names three, so that to part the table into the rows would
// take a case for each order, and what a step leaves is said of places of the one table.
pub fn narrow(t: &mut [u64], x: usize, y: usize) -> Option<inplace::Changed>
    requires { (64 * x + 64 ≤ length t.old) × (64 * y + 64 ≤ length t.old) × (y ≢ x) × Tidy (row t.old x) × Tidy (row t.old y) }
    ensures { InPlace [] (eq 0 1) (x ∷ y ∷ []) [] t.old t.new result }
{
    let a = 64 * x;
    let b = 64 * y;
    let common = t[a] & t[b];
    if common == 0 {
        return None;
    }
    let met = inplace::meet(t, a, b, words::highest(common));
    let lengths = common & words::low_mask(met.m);
    if lengths == 0 {
        return None;
    }
    let shorter_x = inplace::shorten(t, x, lengths);
    let shorter_y = inplace::shorten(t, y, lengths);
    Some(inplace::Changed {
        x: met.x | shorter_x,
        y: met.y | shorter_y,
        z: false,
    })
}
