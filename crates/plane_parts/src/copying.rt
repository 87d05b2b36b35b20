//! The rows of a part, copied one after another.

ghost use Rattle.std.specs.Prelude.{◌≡◌, ℕ, slice_index};
ghost use Rattle.vp9_types.specs.Maps.{IsAtMost, row_of, with_block};
ghost use Rattle.planes.specs.Planes.{HasRow, plane_map};
ghost use Rattle.plane_parts.specs.PlaneParts.{HasPart, LiesIn};

use planes::{Area, SamplePlane};
use vp9_types::Sample;

/// Copies so many samples of a row, from a column on.
#[inline(always)]
fn copy_row<P: Sample>(
    to: &mut SamplePlane<P>,
    from: &SamplePlane<P>,
    row: usize,
    column: usize,
    count: usize,
)
    requires there { HasRow from.now.area row column count }
    requires room { HasRow to.old.area row column count }
    ensures area { to.new.area ≡ to.old.area }
    ensures map { plane_map to.new ≡ with_block (plane_map to.old) row column 1 count (λ _ j. slice_index (row_of (plane_map from.now) row column count) j) }
{
    let samples = from.row(row, column, count);
    to.row_mut(row, column, count).copy_from_slice(samples);
}

/// Copies a part of a plane to the same rows and columns of another one. It may be empty.
pub fn copy_part<P: Sample>(to: &mut SamplePlane<P>, from: &SamplePlane<P>, part: &Area)
    requires there { LiesIn part.now from.now.area }
    requires room { LiesIn part.now to.old.area }
    ensures area { to.new.area ≡ to.old.area }
    ensures part { HasPart part.now (plane_map from.now) (plane_map to.old) (plane_map to.new) }
    ensures range { (most : ℕ) → IsAtMost most (plane_map from.now) → IsAtMost most (plane_map to.old) → IsAtMost most (plane_map to.new) }
{
    // The ends of a plane's area bound those of the part.
    let _all = to.area();
    for row in part.first_row..part.lower_end() {
        copy_row(to, from, row, part.first_column, part.columns);
    }
}
