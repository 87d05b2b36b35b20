//! Rows of eight samples of a plane, loaded by eights.

ghost use Rattle.std.specs.Prelude.{◌≡◌, ℕ, ◌+◌, ◌-◌, ◌*◌, ◌^◌, ◌<◌, ◌≤◌, true, slice_index, length, map};
ghost use Rattle.planes.specs.Planes.{StartsIn, plane_map, lower_end, right_end};
ghost use Rattle.line_filter.specs.Code.{AreLanes, HasSquare, IsAcrossBy, IsAlongBy};

use crate::lanes::{Lanes, Row, loaded};
use planes::SamplePlane;
use std::simd::prelude::*;
use vp9_types::Sample;

/// The numbers of samples.
#[inline(always)]
fn widen_into<P: Sample>(to: &mut [u16], samples: &[P])
    requires long { length to.old ≡ length samples.now }
    ensures long { length to.new ≡ length to.old }
    ensures value { (j : ℕ) → j < length to.old → slice_index to.new j ≡ slice_index (map P.value samples.now) j }
{
    for j in 0..to.len() {
        to[j] = samples[j].widen();
    }
}

/// Eight samples from a place on.
#[inline(always)]
#[tactic(auto, using(crate::proofs::SquareLemmas::eight_at))]
fn row_from<P: Sample>(samples: &[P], at: usize) -> u16x8
    requires long { at + 8 ≤ length samples.now }
    ensures { (j : ℕ) → j < 8 → slice_index result j ≡ slice_index (map P.value samples.now) (at + j) }
{
    let mut line = [0; 8];
    widen_into(&mut line, &samples[at..at + 8]);
    loaded(&line)
}

/// Eight rows of eight samples, the first from a place on, each `width` samples behind the one above.
#[inline(always)]
fn square_from<P: Sample>(samples: &[P], at: usize, width: usize) -> Lanes
    requires apart { width ≤ 65536 }
    requires near { at ≤ 2 ^ 20 }
    requires long { at + 7 * width + 8 ≤ length samples.now }
    ensures { AreLanes result (λ i j. slice_index (map P.value samples.now) (i * width + (at + j))) }
{
    Lanes {
        r0: row_from(samples, at),
        r1: row_from(samples, at + width),
        r2: row_from(samples, at + 2 * width),
        r3: row_from(samples, at + 3 * width),
        r4: row_from(samples, at + 4 * width),
        r5: row_from(samples, at + 5 * width),
        r6: row_from(samples, at + 6 * width),
        r7: row_from(samples, at + 7 * width),
    }
}

/// Eight samples of a row, with 0 for those right of the plane.
#[inline(never)]
fn row_part<P: Sample>(plane: &SamplePlane<P>, row: usize, column: usize) -> Row
    requires above { plane.now.area.first_row ≤ row }
    requires below { row < lower_end plane.now.area }
    requires left { plane.now.area.first_column ≤ column }
    requires right { column ≤ right_end plane.now.area }
    ensures { (j : ℕ) → j < 8 → slice_index result j ≡ plane_map plane.now row (column + j) }
{
    let mut line = [0; 8];
    let count = (plane.area().right_end() - column).min(8);
    widen_into(&mut line[..count], plane.row(row, column, count));
    line
}

/// The same, with 0 for a row below the plane.
#[inline(never)]
fn row_at_end<P: Sample>(plane: &SamplePlane<P>, row: usize, column: usize) -> Row
    requires above { plane.now.area.first_row ≤ row }
    requires left { plane.now.area.first_column ≤ column }
    requires right { column ≤ right_end plane.now.area }
    ensures { (j : ℕ) → j < 8 → slice_index result j ≡ plane_map plane.now row (column + j) }
{
    plane.zero_below();
    if row < plane.area().lower_end() {
        row_part(plane, row, column)
    } else {
        [0; 8]
    }
}

#[inline(always)]
fn lanes_inside<P: Sample>(plane: &SamplePlane<P>, row: usize, column: usize) -> Lanes
    requires inside { HasSquare plane.now.area row column }
    ensures { AreLanes result (λ i j. plane_map plane.now (row + i) (column + j)) }
{
    let (samples, width) = plane.part(row, column, 8, 8);
    square_from(samples, 0, width)
}

#[inline(never)]
fn lanes_at_end<P: Sample>(plane: &SamplePlane<P>, row: usize, column: usize) -> Lanes
    requires inside { StartsIn plane.now.area row column }
    ensures { AreLanes result (λ i j. plane_map plane.now (row + i) (column + j)) }
{
    // a plane has few rows, so that those below this one can be counted
    let _area = plane.area();
    Lanes {
        r0: loaded(&row_at_end(plane, row, column)),
        r1: loaded(&row_at_end(plane, row + 1, column)),
        r2: loaded(&row_at_end(plane, row + 2, column)),
        r3: loaded(&row_at_end(plane, row + 3, column)),
        r4: loaded(&row_at_end(plane, row + 4, column)),
        r5: loaded(&row_at_end(plane, row + 5, column)),
        r6: loaded(&row_at_end(plane, row + 6, column)),
        r7: loaded(&row_at_end(plane, row + 7, column)),
    }
}

/// Whether eight rows from one on are inside of the plane.
#[inline(always)]
pub fn has_eight_rows<P: Sample>(plane: &SamplePlane<P>, row: usize) -> bool
    requires { row ≤ lower_end plane.now.area }
    ensures { result ≡ true → row + 8 ≤ lower_end plane.now.area }
{
    let area = plane.area();
    row + 8 <= area.lower_end()
}

/// Whether eight columns from one on are inside of the plane.
#[inline(always)]
pub fn has_eight_columns<P: Sample>(plane: &SamplePlane<P>, column: usize) -> bool
    requires { column ≤ right_end plane.now.area }
    ensures { result ≡ true → column + 8 ≤ right_end plane.now.area }
{
    let area = plane.area();
    column + 8 <= area.right_end()
}

/// Eight rows of eight samples from a row and column on, with 0 for those outside of the plane: where it is known that all
/// are `inside`, there are none.
#[inline(always)]
pub fn lanes_at<P: Sample>(plane: &SamplePlane<P>, row: usize, column: usize, inside: bool) -> Lanes
    requires starts { StartsIn plane.now.area row column }
    requires known { inside ≡ true → HasSquare plane.now.area row column }
    ensures { AreLanes result (λ i j. plane_map plane.now (row + i) (column + j)) }
{
    if inside {
        lanes_inside(plane, row, column)
    } else {
        lanes_at_end(plane, row, column)
    }
}

#[inline(always)]
fn around_inside<P: Sample>(plane: &SamplePlane<P>, row: usize, column: usize) -> (Lanes, Lanes)
    requires across { IsAcrossBy 8 plane.now.area row column }
    requires inside { column + 8 ≤ right_end plane.now.area }
    ensures above { AreLanes result.0 (λ i j. plane_map plane.now (row - 8 + i) (column + j)) }
    ensures below { AreLanes result.1 (λ i j. plane_map plane.now (row + i) (column + j)) }
{
    let (samples, width) = plane.part(row - 8, column, 16, 8);
    (
        square_from(samples, 0, width),
        square_from(samples, 8 * width, width),
    )
}

/// The eight rows above an edge and the eight below it, as `lanes_at`.
#[inline(always)]
pub fn around<P: Sample>(
    plane: &SamplePlane<P>,
    row: usize,
    column: usize,
    inside: bool,
) -> (Lanes, Lanes)
    requires across { IsAcrossBy 8 plane.now.area row column }
    requires known { inside ≡ true → column + 8 ≤ right_end plane.now.area }
    ensures above { AreLanes result.0 (λ i j. plane_map plane.now (row - 8 + i) (column + j)) }
    ensures below { AreLanes result.1 (λ i j. plane_map plane.now (row + i) (column + j)) }
{
    if inside {
        around_inside(plane, row, column)
    } else {
        (
            lanes_at_end(plane, row - 8, column),
            lanes_at_end(plane, row, column),
        )
    }
}

#[inline(always)]
fn beside_inside<P: Sample>(plane: &SamplePlane<P>, row: usize, column: usize) -> (Lanes, Lanes)
    requires along { IsAlongBy 8 plane.now.area row column }
    requires inside { row + 8 ≤ lower_end plane.now.area }
    ensures left { AreLanes result.0 (λ i j. plane_map plane.now (row + i) (column - 8 + j)) }
    ensures right { AreLanes result.1 (λ i j. plane_map plane.now (row + i) (column + j)) }
{
    let (samples, width) = plane.part(row, column - 8, 8, 16);
    (
        square_from(samples, 0, width),
        square_from(samples, 8, width),
    )
}

/// The eight columns left of an edge and the eight right of it, as `lanes_at`.
#[inline(always)]
pub fn beside<P: Sample>(
    plane: &SamplePlane<P>,
    row: usize,
    column: usize,
    inside: bool,
) -> (Lanes, Lanes)
    requires along { IsAlongBy 8 plane.now.area row column }
    requires known { inside ≡ true → row + 8 ≤ lower_end plane.now.area }
    ensures left { AreLanes result.0 (λ i j. plane_map plane.now (row + i) (column - 8 + j)) }
    ensures right { AreLanes result.1 (λ i j. plane_map plane.now (row + i) (column + j)) }
{
    if inside {
        beside_inside(plane, row, column)
    } else {
        (
            lanes_at_end(plane, row, column - 8),
            lanes_at_end(plane, row, column),
        )
    }
}
