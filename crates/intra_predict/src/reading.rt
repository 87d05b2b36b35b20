//! Edges as a plane has them.

ghost use Rattle.std.specs.Prelude.{◌≡◌, ℕ, ◌+◌, ◌*◌, ◌<◌, ◌≤◌, length, slice_index, if◌then◌else◌};
ghost use Rattle.vp9_types.specs.Maps.{IsAtMost};
ghost use Rattle.vp9_types.specs.Sizes.{side, greatest};
ghost use Rattle.planes.specs.Planes.{lower_end, right_end, plane_map};
ghost use Rattle.intra_predict.specs.BlockEdges.{edges_in, above_sample, left_sample, corner_sample, reads_right};
ghost use Rattle.intra_predict.specs.Laws.{IsUpTo};
ghost use Rattle.intra_predict.specs.Code.{LiesIn, samples_of};

use crate::edges::Edges;
use crate::kept::{extend, extend_samples, widen_twice};
use crate::lines::fill_from;
use crate::place::IntraPlace;
use crate::sizes::middle_of;
use planes::SamplePlane;
use vp9_types::{Depth, Sample, TxSize};

/// Reads the edges of a block in a plane, whose lower and right end are multiples of 8 luma samples (4 in subsampled
/// chroma).
pub fn read_edges<P: Sample>(
    edges: &mut Edges,
    plane: &SamplePlane<P>,
    place: &IntraPlace,
    size: TxSize,
    depth: Depth,
)
    requires inside { LiesIn plane.now.area place.now }
    ensures value { samples_of (side size) edges.new
        ≡ edges_in (right_end plane.now.area) (lower_end plane.now.area) depth (side size) place.now (plane_map plane.now) }
    ensures small { IsAtMost (greatest depth) (plane_map plane.now) → IsUpTo (greatest depth) (samples_of (side size) edges.new) }
{
    match size {
        TxSize::T4x4 => read_sized::<P, 4>(edges, plane, place, depth),
        TxSize::T8x8 => read_sized::<P, 8>(edges, plane, place, depth),
        TxSize::T16x16 => read_sized::<P, 16>(edges, plane, place, depth),
        TxSize::T32x32 => read_sized::<P, 32>(edges, plane, place, depth),
    }
}

#[inline(always)]
pub(crate) fn read_sized<P: Sample, const N: usize>(
    edges: &mut Edges,
    plane: &SamplePlane<P>,
    place: &IntraPlace,
    depth: Depth,
)
    requires some { 4 ≤ N }
    requires few { N ≤ 32 }
    requires inside { LiesIn plane.now.area place.now }
    ensures { samples_of N edges.new
        ≡ edges_in (right_end plane.now.area) (lower_end plane.now.area) depth N place.now (plane_map plane.now) }
{
    read_above::<P, N>(&mut edges.above, plane, place, depth);
    read_left(&mut edges.left, plane, place, N, depth);
    edges.corner = read_corner(plane, place, depth);
    edges.has_above = place.row > 0;
    edges.has_left = place.column > place.tile_from;
}

#[inline(always)]
fn read_above<P: Sample, const N: usize>(
    above: &mut [u16],
    plane: &SamplePlane<P>,
    place: &IntraPlace,
    depth: Depth,
)
    requires some { 4 ≤ N }
    requires few { N ≤ 32 }
    requires room { 2 * N ≤ length above.old }
    requires inside { LiesIn plane.now.area place.now }
    ensures { (j : ℕ) → j < 2 * N →
        slice_index above.new j ≡ above_sample (right_end plane.now.area) depth N place.now (plane_map plane.now) j }
{
    if place.row == 0 {
        fill_from(above, 0, 2 * N, middle_of(depth) - 1);
        return;
    }
    let across = plane.area().right_end() - place.column;
    let count = wanted(place, N).min(across);
    // The numbers of samples that are frequent are then known where this is compiled.
    if count == N {
        extend_samples::<P, N>(above, 2 * N, plane.row_above(place.row, place.column, N));
    } else if across >= 2 * N {
        widen_twice::<P, N>(above, plane.row_above(place.row, place.column, 2 * N));
    } else {
        extend(
            above,
            2 * N,
            plane.row_above(place.row, place.column, count),
        );
    }
}

/// How many samples of the row above a block are read, where the plane has them.
#[inline(always)]
fn wanted(place: &IntraPlace, size: usize) -> usize
    requires wide { place.now.column ≤ 65536 }
    requires few { size ≤ 32 }
    ensures { result ≡ (if reads_right size place.now then 2 * size else size) }
{
    if size == 4 && place.column + 4 < place.block_end {
        2 * size
    } else {
        size
    }
}

#[inline(always)]
fn read_left<P: Sample>(
    left: &mut [u16],
    plane: &SamplePlane<P>,
    place: &IntraPlace,
    size: usize,
    depth: Depth,
)
    requires few { size ≤ 32 }
    requires room { size ≤ length left.old }
    requires inside { LiesIn plane.now.area place.now }
    ensures { (i : ℕ) → i < size →
        slice_index left.new i ≡ left_sample (lower_end plane.now.area) depth place.now (plane_map plane.now) i }
{
    if place.column <= place.tile_from {
        fill_from(left, 0, size, middle_of(depth) + 1);
        return;
    }
    let rows = plane.area().lower_end() - place.row;
    let column = place.column - 1;
    if size <= rows {
        plane.read_column(place.row, column, size, left);
    } else {
        plane.read_column(place.row, column, rows, left);
        let last = left[rows - 1];
        fill_from(left, rows, size, last);
    }
}

#[inline(always)]
fn read_corner<P: Sample>(plane: &SamplePlane<P>, place: &IntraPlace, depth: Depth) -> u16
    requires { LiesIn plane.now.area place.now }
    ensures { result ≡ corner_sample depth place.now (plane_map plane.now) }
{
    if place.row == 0 {
        return middle_of(depth) - 1;
    }
    if place.column <= place.tile_from {
        return middle_of(depth) + 1;
    }
    plane.row_above(place.row, place.column - 1, 1)[0].widen()
}
