//! Residue added to a block, and a block put into a plane.

ghost use Rattle.std.specs.Prelude.{◌≡◌, ℕ, pos, ◌+◌, ◌*◌, ◌/◌, ◌<◌, ◌≤◌, ◌⊎◌, length, slice_index, slice_index_or};
ghost use Rattle.vp9_types.specs.Maps.{rows_of};
ghost use Rattle.vp9_types.specs.Sizes.{side};
ghost use Rattle.planes.specs.Planes.{StartsIn, lower_end, right_end, plane_map};
ghost use Rattle.intra_predict.specs.Residue.{IsResidue, with_residue};
ghost use Rattle.vp9_types.specs.Sizes.{clip};
ghost use Rattle.intra_predict.specs.Steps.{with_square};

use crate::square::put_square;
use planes::SamplePlane;
use vp9_types::{Sample, TxSize};

/// Adds the residue of a block to its samples, and clips them.
#[inline(always)]
pub(crate) fn add_clipped(block: &mut [u16], residue: &[i32], n: usize, most: u16)
    requires room { length block.old ≡ n }
    requires sixteens { n ≡ n / 16 * 16 }
    requires residue { IsResidue n residue.now }
    ensures { (k : ℕ) → k < n →
        slice_index block.new k ≡ with_residue most (slice_index block.old k) (slice_index_or residue.now k (pos 0)) }
{
    for i in 0..n / 16 {
        add_sixteen(block, residue, i * 16, most);
    }
}

/// Sixteen sums, the first of them at a place. They are made in a line of their own, since what is read by reference
/// might be what is written.
#[inline(always)]
fn add_sixteen(block: &mut [u16], residue: &[i32], at: usize, most: u16)
    requires room { at + 16 ≤ length block.old }
    requires residue { IsResidue (at + 16) residue.now }
    ensures sums { (k : ℕ) → at ≤ k → k < at + 16 →
        slice_index block.new k ≡ with_residue most (slice_index block.old k) (slice_index_or residue.now k (pos 0)) }
    ensures others { (k : ℕ) → (k < at) ⊎ (at + 16 ≤ k) → slice_index block.new k ≡ slice_index block.old k }
{
    let mut sums = [0; 16];
    sum_up(&mut sums, &block[at..at + 16], &residue[at..at + 16], most);
    block[at..at + 16].copy_from_slice(&sums);
}

#[inline(always)]
fn sum_up(sums: &mut [u16], samples: &[u16], residue: &[i32], most: u16)
    requires room { length sums.old ≡ 16 }
    requires samples { length samples.now ≡ 16 }
    requires residue { IsResidue 16 residue.now }
    ensures { (k : ℕ) → k < 16 →
        slice_index sums.new k ≡ with_residue most (slice_index samples.now k) (slice_index_or residue.now k (pos 0)) }
{
    for k in 0..16usize {
        let change = residue[k];
        sums[k] = clipped(i32::from(samples[k]) + change, most);
    }
}

#[inline(always)]
fn clipped(sum: i32, most: u16) -> u16
    ensures { result ≡ clip most sum }
{
    sum.max(0).min(i32::from(most)) as u16
}

/// Puts a block at a row and column of a plane. What lies below or right of the plane is left out.
pub fn put_block<P: Sample>(
    plane: &mut SamplePlane<P>,
    row: usize,
    column: usize,
    size: TxSize,
    block: &[u16],
)
    requires inside { StartsIn plane.old.area row column }
    requires block { side size * side size ≤ length block.now }
    requires fits { (k : ℕ) → k < side size * side size → slice_index block.now k ≤ P.greatest }
    ensures area { plane.new.area ≡ plane.old.area }
    ensures map { plane_map plane.new ≡ with_square (right_end plane.old.area) (lower_end plane.old.area) (plane_map plane.old) row column (side size) (rows_of (side size) block.now) }
{
    match size {
        TxSize::T4x4 => put_square::<P, 4>(plane, row, column, block),
        TxSize::T8x8 => put_square::<P, 8>(plane, row, column, block),
        TxSize::T16x16 => put_square::<P, 16>(plane, row, column, block),
        TxSize::T32x32 => put_square::<P, 32>(plane, row, column, block),
    }
}
