//! Groups of rows that are the same as the group before them.

ghost use Rattle.std.specs.Prelude.{◌≡◌, ℕ, ◌+◌, ◌-◌, ◌*◌, ◌<◌, ◌≤◌, length, if◌then◌else◌};
ghost use Rattle.std.specs.Bool.{OnTrue};
ghost use Rattle.vp9_types.specs.Maps.{is_within};
ghost use Rattle.inverse_transforms.specs.Flow.{at};
ghost use Rattle.residue_transforms.specs.SquareBlocks.{row, col, HasPiece};

use crate::group::row_at;

/// Whether a group of rows is the one before it.
pub fn is_repeated(from: &[i32], n: usize, first: usize, width: usize) -> bool
    requires size { length from.now ≡ n * n }
    requires most { n ≤ 32 }
    requires before { width ≤ first }
    requires rows { first + width ≤ n }
    ensures { OnTrue result ((j : ℕ) → j < width → row n (first + j) from.now ≡ row n (first - width + j) from.now) }
{
    for j in 0..width {
        if row_at(from, n, first + j) != row_at(from, n, first - width + j) {
            return false;
        }
    }
    true
}

/// Values that are those of as many places before them.
fn repeat_values(to: &mut [i32], place: usize, width: usize)
    requires before { width ≤ place }
    requires room { place + width ≤ length to.old }
    ensures { HasPiece place width (λ j. at to.old (place - width + j)) to.old to.new }
{
    for j in 0..width {
        let value = to[place - width + j];
        to[place + j] = value;
    }
}

/// The columns of a group become those of the group before it.
pub fn repeat_columns(to: &mut [i32], n: usize, first: usize, width: usize)
    requires size { length to.old ≡ n * n }
    requires most { n ≤ 32 }
    requires before { width ≤ first }
    requires columns { first + width ≤ n }
    ensures { (j : ℕ) → j < n → col n j to.new ≡ (if is_within first width j then col n (j - width) to.old else col n j to.old) }
{
    for k in 0..n {
        repeat_values(to, k * n + first, width);
    }
}
