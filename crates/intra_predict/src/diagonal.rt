//! The directional modes. Each has a line, or two, that all rows of the block are parts of.

ghost use Rattle.std.specs.Prelude.{◌≡◌, ℕ, ◌*◌, ◌/◌, ◌≤◌, ◌∷◌, length, slice_index};
ghost use Rattle.vp9_types.specs.Maps.{Holds};
ghost use Rattle.intra_predict.specs.PredictedModes.{d45, d63, d117, d135, d153, d207};

use crate::lines::{average, extend_lanes, interleave, join, smooth, smooth_every_other};
use crate::rows::{pairs_backward, pairs_forward, rows_backward, rows_forward};

/// Samples above, left and in the corner, joined: 65 at most.
const JOINED: usize = 66;

#[inline(always)]
pub(crate) fn predict_d45<const N: usize>(block: &mut [u16], above: &[u16])
    requires some { 4 ≤ N }
    requires few { N ≤ 32 }
    requires room { length block.old ≡ N * N }
    requires long { length above.now ≡ 2 * N }
    requires small { (k : ℕ) → slice_index above.now k ≤ 4095 }
    ensures { Holds block.new N (d45 N above.now) }
{
    let mut line = [0; 64];
    smooth(&mut line, 0, above, 0, 2 * N - 2);
    line[2 * N - 2] = above[2 * N - 1];
    rows_forward::<N>(block, &line, 1);
}

#[inline(always)]
pub(crate) fn predict_d63<const N: usize>(block: &mut [u16], above: &[u16])
    requires some { 4 ≤ N }
    requires few { N ≤ 32 }
    requires twos { N ≡ 2 * (N / 2) }
    requires room { length block.old ≡ N * N }
    requires long { length above.now ≡ 2 * N }
    requires small { (k : ℕ) → slice_index above.now k ≤ 4095 }
    ensures { Holds block.new N (d63 above.now) }
{
    let mut even = [0; 48];
    let mut odd = [0; 48];
    average(&mut even, 0, above, 0, N / 2 + N);
    smooth(&mut odd, 0, above, 0, N / 2 + N);
    pairs_forward::<N>(block, &even, &odd);
}

#[inline(always)]
pub(crate) fn predict_d117<const N: usize>(
    block: &mut [u16],
    above: &[u16],
    left: &[u16],
    corner: u16,
)
    requires some { 4 ≤ N }
    requires few { N ≤ 32 }
    requires twos { N ≡ 2 * (N / 2) }
    requires room { length block.old ≡ N * N }
    requires above { N ≤ length above.now }
    requires left { N ≤ length left.now }
    requires small_above { (k : ℕ) → slice_index above.now k ≤ 4095 }
    requires small_left { (k : ℕ) → slice_index left.now k ≤ 4095 }
    requires small_corner { corner ≤ 4095 }
    ensures { Holds block.new N (d117 (corner ∷ above.now) (corner ∷ left.now)) }
{
    let half = N / 2;
    let mut edge = [0; JOINED];
    join::<N>(&mut edge, left, corner, above);
    let mut even = [0; 48];
    smooth_every_other(&mut even, 0, &edge, 0, half);
    average(&mut even, half, &edge, N, N);
    let mut odd = [0; 48];
    smooth_every_other(&mut odd, 1, &edge, 1, half - 1);
    smooth(&mut odd, half, &edge, N - 1, N);
    pairs_backward::<N>(block, &even, &odd);
}

#[inline(always)]
pub(crate) fn predict_d135<const N: usize>(
    block: &mut [u16],
    above: &[u16],
    left: &[u16],
    corner: u16,
)
    requires some { 4 ≤ N }
    requires few { N ≤ 32 }
    requires room { length block.old ≡ N * N }
    requires above { N ≤ length above.now }
    requires left { N ≤ length left.now }
    requires small_above { (k : ℕ) → slice_index above.now k ≤ 4095 }
    requires small_left { (k : ℕ) → slice_index left.now k ≤ 4095 }
    requires small_corner { corner ≤ 4095 }
    ensures { Holds block.new N (d135 (corner ∷ above.now) (corner ∷ left.now)) }
{
    let mut edge = [0; JOINED];
    join::<N>(&mut edge, left, corner, above);
    let mut line = [0; 64];
    smooth(&mut line, 0, &edge, 0, 2 * N - 1);
    rows_backward::<N>(block, &line, 1);
}

#[inline(always)]
pub(crate) fn predict_d153<const N: usize>(
    block: &mut [u16],
    above: &[u16],
    left: &[u16],
    corner: u16,
)
    requires some { 4 ≤ N }
    requires few { N ≤ 32 }
    requires room { length block.old ≡ N * N }
    requires above { N ≤ length above.now }
    requires left { N ≤ length left.now }
    requires small_above { (k : ℕ) → slice_index above.now k ≤ 4095 }
    requires small_left { (k : ℕ) → slice_index left.now k ≤ 4095 }
    requires small_corner { corner ≤ 4095 }
    ensures { Holds block.new N (d153 (corner ∷ above.now) (corner ∷ left.now)) }
{
    let mut edge = [0; JOINED];
    join::<N>(&mut edge, left, corner, above);
    let mut line = [0; 96];
    interleave(&mut line, &edge, N);
    smooth(&mut line, 2 * N, &edge, N, N - 1);
    rows_backward::<N>(block, &line, 2);
}

#[inline(always)]
pub(crate) fn predict_d207<const N: usize>(block: &mut [u16], left: &[u16])
    requires some { 4 ≤ N }
    requires few { N ≤ 32 }
    requires twos { N ≡ 2 * (N / 2) }
    requires room { length block.old ≡ N * N }
    requires long { length left.now ≡ N }
    requires small { (k : ℕ) → slice_index left.now k ≤ 4095 }
    ensures { Holds block.new N (d207 N left.now) }
{
    let mut edge = [0; 64];
    extend_lanes::<N>(&mut edge, 2 * N, left);
    let mut line = [0; 96];
    interleave(&mut line, &edge, N / 2 * 3);
    rows_forward::<N>(block, &line, 2);
}
