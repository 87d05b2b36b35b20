//! Blocks predicted from a reference.

ghost use Rattle.std.specs.Prelude.{◌≡◌, ℕ, ◌*◌, ◌≤◌, length, map};
ghost use Rattle.vp9_types.specs.Maps.{HoldsRows, IsAtMost};
ghost use Rattle.inter_places.specs.Axes.{IsPlace, first_place, last_place};
ghost use Rattle.inter_predict.specs.InterSamples.{predicted_at};

use crate::down::filter_down;
use crate::filter::{Interpolation, filter_of};
use crate::places::is_whole;
use crate::rows::fill_lines;
use inter_places::{Place, offset_of};
use tap_filter::FilterSample;
use vp9_types::{InterpFilter, Samples};

/// The samples of the lines that a block is filtered from: 134 of 64 at the greatest step.
pub const LINES: usize = 8576;

/// Predicts a block of a plane: rows of `place.columns` samples. Rows of the reference are asked for from the block's first
/// place to its last alone. The lines are room for what is made on the way.
pub fn predict<P: FilterSample, S: Samples<Kept = P>>(
    view: &S,
    place: &Place,
    kind: InterpFilter,
    most: u16,
    lines: &mut [P],
    out: &mut [P],
)
    requires place { IsPlace place.now }
    requires most { P.takes most }
    requires lines { LINES ≤ length lines.old }
    requires out { place.now.rows * place.now.columns ≤ length out.old }
    requires held { (r : ℕ) → first_place place.now.down ≤ r → r ≤ last_place place.now.down place.now.rows → S.holds view.now place.now.plane r }
    requires wide { place.now.across.size ≤ S.width view.now place.now.plane }
    requires samples { IsAtMost most (S.map view.now place.now.plane) }
    ensures { HoldsRows (map P.value out.new) place.now.columns place.now.rows (predicted_at most kind place.now (S.map view.now)) }
{
    let by = Interpolation { kind, most };
    if is_whole(&place.down) {
        fill_lines::<P, S>(out, view, place, by, 3, place.rows);
    } else {
        let count = offset_of(&place.down, place.rows - 1) / 16 + 8;
        fill_lines::<P, S>(lines, view, place, by, 0, count);
        let end = count * place.columns;
        let down = filter_of::<P>(&place.down, kind, most);
        filter_down::<P>(out, place.rows, place.columns, &lines[..end], &down);
    }
}
