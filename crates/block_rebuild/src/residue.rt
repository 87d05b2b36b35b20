//! Residue added to the samples that stand in a plane (8.6.2 of the standard).

ghost use Rattle.std.specs.Prelude.{◌≡◌, ◌<◌, ◌≤◌, ◌+◌, ◌*◌, ◌^◌, ℕ, pos, get_or, length, map, slice_index, slice_index_or, unsigned_abs};
ghost use Rattle.std.specs.List.{All, fold};
ghost use Rattle.std.specs.Option.{option_copied};
ghost use Rattle.vp9_types.specs.Maps.{IsAtMost, with_block};
ghost use Rattle.vp9_types.specs.Sizes.{clip, greatest, side};
ghost use Rattle.vp9_tables.specs.Scans.{area};
ghost use Rattle.block_geometry.specs.TransformBlocks.{grid_blocks, place_at, tx_step};
ghost use Rattle.block_geometry.specs.Code.{IsSmallGrid};
ghost use Rattle.block_plan.specs.Code.{IsSmall, AreSmall};
ghost use Rattle.intra_predict.specs.Residue.{IsResidue, with_residue};
ghost use Rattle.intra_predict.specs.Steps.{plus_residue, with_square};
ghost use Rattle.planes.specs.Planes.{HasRow, lower_end, right_end, plane_map};
ghost use Rattle.block_rebuild.specs.InterBlocks.{tx_row, tx_column, samples_from, add_residue};
ghost use Rattle.block_rebuild.specs.Code.{add_more};
ghost use Rattle.block_rebuild.specs.Residues.{IsWhole, residues_at};

use crate::residues::TransformResidues;
use block_geometry::{PlaneBlock, TransformGrid, TransformPlace};
use intra_predict::side_of;
use planes::{SamplePlane, copy_short};
use vp9_tables::area_of;
use vp9_types::{Depth, Plane, Sample, TxSize, halved};

#[inline(always)]
fn clipped(sum: i32, most: u16) -> u16
    ensures { result ≡ clip most sum }
{
    sum.max(0).min(i32::from(most)) as u16
}

/// A sample with residue added to it, clipped.
#[inline(always)]
fn with_residue(sample: u16, change: i32, most: u16) -> u16
    requires { unsigned_abs change < 2 ^ 24 }
    ensures { result ≡ with_residue most sample change }
{
    clipped(i32::from(sample) + change, most)
}

/// Adds residue to the sample at a place, and clips the sum.
#[inline(always)]
fn add_at<P: Sample>(line: &mut [P], k: usize, change: i32, most: u16)
    requires inside { k < length line.old }
    requires small { unsigned_abs change < 2 ^ 24 }
    requires fits { most ≤ P.greatest }
    ensures value { slice_index (map P.value line.new) k ≡ with_residue most (slice_index (map P.value line.old) k) change }
    ensures others { (i : ℕ) → i < k → slice_index (map P.value line.new) i ≡ slice_index (map P.value line.old) i }
    ensures rest { (i : ℕ) → k < i → slice_index (map P.value line.new) i ≡ slice_index (map P.value line.old) i }
{
    let sum = with_residue(line[k].widen(), change, most);
    line[k] = P::narrow(sum);
}

/// Adds residue to as many samples, and clips them.
#[inline(always)]
fn add_line<P: Sample>(line: &mut [P], residue: &[i32], most: u16)
    requires room { length line.old ≡ length residue.now }
    requires residue { IsResidue (length residue.now) residue.now }
    requires fits { most ≤ P.greatest }
    ensures { (k : ℕ) → k < length residue.now →
        slice_index (map P.value line.new) k ≡ with_residue most (slice_index (map P.value line.old) k) (slice_index_or residue.now k (pos 0)) }
{
    for k in 0..residue.len() {
        add_at(line, k, residue[k], most);
    }
}

/// Adds residue to the samples of a row, from a column on.
#[inline(always)]
fn add_row<P: Sample>(
    samples: &mut SamplePlane<P>,
    row: usize,
    column: usize,
    residue: &[i32],
    most: u16,
)
    requires fits { most ≤ P.greatest }
    requires inside { HasRow samples.old.area row column (length residue.now) }
    requires residue { IsResidue (length residue.now) residue.now }
    ensures map { plane_map samples.new ≡ with_block (plane_map samples.old) row column 1 (length residue.now)
        (λ _ j. with_residue most (plane_map samples.old row (column + j)) (slice_index_or residue.now j (pos 0))) }
    ensures area { samples.new.area ≡ samples.old.area }
{
    let line = samples.row_mut(row, column, residue.len());
    add_line(line, residue, most);
}

/// Adds the residue of a transform block that goes past an end of the plane to the samples at a row and column. What lies
/// below or right of the plane is left out.
fn add_at_end<P: Sample>(
    samples: &mut SamplePlane<P>,
    row: usize,
    column: usize,
    tx: TxSize,
    depth: Depth,
    values: &[i32],
)
    requires fits { greatest depth ≤ P.greatest }
    requires inside { HasRow samples.old.area row column 1 }
    requires long { length values.now ≡ area tx }
    requires small { All (λ x. unsigned_abs x < 2 ^ 24) values.now }
    ensures map { plane_map samples.new ≡ with_square (right_end samples.old.area) (lower_end samples.old.area) (plane_map samples.old) row column (side tx)
        (plus_residue depth (side tx) (samples_from (plane_map samples.old) row column) values.now) }
    ensures area { samples.new.area ≡ samples.old.area }
{
    let area = samples.area();
    let side = side_of(tx);
    let rows = side.min(area.lower_end() - row);
    let columns = side.min(area.right_end() - column);
    let most = depth.greatest();
    for i in 0..rows {
        let from = i * side;
        add_row(
            samples,
            row + i,
            column,
            &values[from..from + columns],
            most,
        );
    }
}

/// Adds residue to N samples of a row. The sums are made in a line of their own, since what is read by reference might be
/// what is written.
#[inline(always)]
fn add_short<P: Sample, const N: usize>(
    samples: &mut SamplePlane<P>,
    row: usize,
    column: usize,
    residue: &[i32],
    most: u16,
)
    requires fits { most ≤ P.greatest }
    requires inside { HasRow samples.old.area row column N }
    requires long { length residue.now ≡ N }
    requires residue { IsResidue N residue.now }
    ensures map { plane_map samples.new ≡ with_block (plane_map samples.old) row column 1 N
        (λ _ j. with_residue most (plane_map samples.old row (column + j)) (slice_index_or residue.now j (pos 0))) }
    ensures area { samples.new.area ≡ samples.old.area }
{
    let line = samples.row_mut(row, column, N);
    let mut sums = [P::narrow(0); N];
    copy_short::<P, N>(&mut sums, line);
    add_line(&mut sums, residue, most);
    copy_short::<P, N>(line, &sums);
}

/// Adds the residue of a transform block of N rows of N samples, all of them inside of the plane.
#[inline(always)]
fn add_inside<P: Sample, const N: usize>(
    samples: &mut SamplePlane<P>,
    row: usize,
    column: usize,
    depth: Depth,
    values: &[i32],
)
    requires fits { greatest depth ≤ P.greatest }
    requires low { N ≤ 32 }
    requires inside { HasRow samples.old.area row column N }
    requires below { row + N ≤ lower_end samples.old.area }
    requires high { lower_end samples.old.area ≤ 65536 }
    requires long { length values.now ≡ N * N }
    requires small { All (λ x. unsigned_abs x < 2 ^ 24) values.now }
    ensures map { plane_map samples.new ≡ with_square (right_end samples.old.area) (lower_end samples.old.area) (plane_map samples.old) row column N
        (plus_residue depth N (samples_from (plane_map samples.old) row column) values.now) }
    ensures area { samples.new.area ≡ samples.old.area }
{
    let most = depth.greatest();
    for i in 0..N {
        let from = i * N;
        add_short::<P, N>(samples, row + i, column, &values[from..from + N], most);
    }
}

/// Adds the residue of a transform block to the samples at a row and column. What lies below or right of the plane is left
/// out.
#[inline(never)]
fn add_square<P: Sample>(
    samples: &mut SamplePlane<P>,
    row: usize,
    column: usize,
    tx: TxSize,
    depth: Depth,
    values: &[i32],
)
    requires fits { greatest depth ≤ P.greatest }
    requires inside { HasRow samples.old.area row column 1 }
    requires long { length values.now ≡ area tx }
    requires small { All (λ x. unsigned_abs x < 2 ^ 24) values.now }
    ensures map { plane_map samples.new ≡ with_square (right_end samples.old.area) (lower_end samples.old.area) (plane_map samples.old) row column (side tx)
        (plus_residue depth (side tx) (samples_from (plane_map samples.old) row column) values.now) }
    ensures area { samples.new.area ≡ samples.old.area }
{
    let area = samples.area();
    let side = side_of(tx);
    if side > area.lower_end() - row || side > area.right_end() - column {
        add_at_end(samples, row, column, tx, depth, values);
        return;
    }
    match tx {
        TxSize::T4x4 => add_inside::<P, 4>(samples, row, column, depth, values),
        TxSize::T8x8 => add_inside::<P, 8>(samples, row, column, depth, values),
        TxSize::T16x16 => add_inside::<P, 16>(samples, row, column, depth, values),
        TxSize::T32x32 => add_inside::<P, 32>(samples, row, column, depth, values),
    }
}

/// The row and column of the first sample of the transform block at a place.
fn first_sample(block: &PlaneBlock, at: TransformPlace) -> (usize, usize)
    requires low { block.now.row ≤ 8192 }
    requires near { block.now.col ≤ 8192 }
    requires down { at.row < 16 }
    requires across { at.column < 16 }
    ensures { result ≡ (tx_row block.now at.row, tx_column block.now at.column) }
{
    let row = 8 * block.row as usize;
    let column = 8 * block.col as usize;
    (
        halved(block.ss_y, row) + 4 * at.row,
        halved(block.ss_x, column) + 4 * at.column,
    )
}

/// Adds the residue of the k-th transform block of a grid, if it has any, to the samples at its place.
#[inline(always)]
fn add_any<P: Sample>(
    samples: &mut SamplePlane<P>,
    block: &PlaneBlock,
    grid: &TransformGrid,
    k: u32,
    depth: Depth,
    residue: Option<&[i32]>,
)
    requires low { block.now.row ≤ 8192 }
    requires near { block.now.col ≤ 8192 }
    requires small_grid { IsSmallGrid grid.now }
    requires count { k < grid.now.rows * grid.now.columns }
    requires fits { greatest depth ≤ P.greatest }
    requires inside { HasRow samples.old.area (tx_row block.now (get_or (grid_blocks grid.now) k (place_at 0 0)).row) (tx_column block.now (get_or (grid_blocks grid.now) k (place_at 0 0)).column) 1 }
    requires range { IsAtMost (greatest depth) (plane_map samples.old) }
    requires whole { IsWhole (area block.now.tx) (option_copied residue) }
    requires small { IsSmall (option_copied residue) }
    ensures map { plane_map samples.new ≡ add_residue (right_end samples.old.area) (lower_end samples.old.area) depth block.now (get_or (grid_blocks grid.now) k (place_at 0 0)) (option_copied residue.entry) (plane_map samples.old) }
    ensures area { samples.new.area ≡ samples.old.area }
    ensures range { IsAtMost (greatest depth) (plane_map samples.new) }
{
    if let Some(values) = residue {
        let (row, column) = first_sample(block, grid.place(k));
        add_square(samples, row, column, block.tx, depth, values);
    }
}

/// Adds the residue of all transform blocks of a block in a plane.
pub(crate) fn add_residues<P: Sample, R: TransformResidues>(
    samples: &mut SamplePlane<P>,
    block: &PlaneBlock,
    grid: &TransformGrid,
    plane: Plane,
    residues: &R,
    depth: Depth,
)
    requires fits { greatest depth ≤ P.greatest }
    requires small_grid { IsSmallGrid grid.now }
    requires step { grid.now.step ≡ tx_step block.now.tx }
    requires low { block.now.row ≤ 8192 }
    requires near { block.now.col ≤ 8192 }
    requires inside { All (λ at. HasRow samples.old.area (tx_row block.now at.row) (tx_column block.now at.column) 1) (grid_blocks grid.now) }
    requires range { IsAtMost (greatest depth) (plane_map samples.old) }
    requires held { (k : ℕ) → k < length (grid_blocks grid.now) → R.holds residues.now plane (area block.now.tx) k }
    requires small { AreSmall (residues_at (R.residue residues.now plane (area block.now.tx)) (grid_blocks grid.now)) }
    ensures map { plane_map samples.new ≡ fold (add_more samples.old.area depth block.now) (plane_map samples.old) (residues_at (R.residue residues.now plane (area block.now.tx)) (grid_blocks grid.now)) }
    ensures area { samples.new.area ≡ samples.old.area }
    ensures range { IsAtMost (greatest depth) (plane_map samples.new) }
{
    let area = area_of(block.tx);
    for k in 0..grid.count() {
        let residue = residues.get(plane, area, k as usize);
        add_any(samples, block, grid, k, depth, residue);
    }
}
