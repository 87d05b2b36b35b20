//! The modes without a slant: DC, vertical, horizontal and true motion.

ghost use Rattle.std.specs.Prelude.{◌≡◌, ℕ, ◌+◌, ◌-◌, ◌*◌, ◌<◌, ◌≤◌, length, min, sum, slice_index};
ghost use Rattle.vp9_types.specs.Maps.{Holds};
ghost use Rattle.intra_predict.specs.PredictedModes.{vertical, horizontal, true_motion, rounded_mean};

use crate::lines::{copy_lanes, fill_from};
use crate::rows::rows_forward;

/// One value at each place.
#[inline(always)]
pub(crate) fn predict_value(block: &mut [u16], size: usize, value: u16)
    requires few { size ≤ 32 }
    requires room { length block.old ≡ size * size }
    ensures { Holds block.new size (λ i j. value) }
{
    fill_from(block, 0, size * size, value);
}

#[inline(always)]
pub(crate) fn predict_v<const N: usize>(block: &mut [u16], above: &[u16])
    requires few { N ≤ 32 }
    requires room { length block.old ≡ N * N }
    requires enough { N ≤ length above.now }
    ensures { Holds block.new N (vertical above.now) }
{
    rows_forward::<N>(block, above, 0);
}

#[inline(always)]
pub(crate) fn predict_h(block: &mut [u16], size: usize, left: &[u16])
    requires few { size ≤ 32 }
    requires room { length block.old ≡ size * size }
    requires enough { size ≤ length left.now }
    ensures { Holds block.new size (horizontal left.now) }
{
    for i in 0..size {
        let at = i * size;
        fill_from(block, at, at + size, left[i]);
    }
}

#[inline(always)]
pub(crate) fn predict_tm<const N: usize>(
    block: &mut [u16],
    most: u16,
    above: &[u16],
    left: &[u16],
    corner: u16,
)
    requires some { 1 ≤ N }
    requires few { N ≤ 32 }
    requires room { length block.old ≡ N * N }
    requires above { N ≤ length above.now }
    requires left { N ≤ length left.now }
    requires small_above { (k : ℕ) → slice_index above.now k ≤ 4095 }
    requires small_left { (k : ℕ) → slice_index left.now k ≤ 4095 }
    ensures { Holds block.new N (true_motion most above.now left.now corner) }
{
    // A copy, since what is read by reference might be what is written.
    let mut line = [0; 32];
    copy_lanes::<N>(&mut line[..N], &above[..N]);
    for i in 0..N {
        true_motion_row::<N>(block, i * N, most, &line, left[i], corner);
    }
}

/// One row, which begins at place `at` of the block.
#[inline(always)]
fn true_motion_row<const N: usize>(
    block: &mut [u16],
    at: usize,
    most: u16,
    above: &[u16],
    left: u16,
    corner: u16,
)
    requires room { at + N ≤ length block.old }
    requires above { N ≤ length above.now }
    requires small_above { (k : ℕ) → k < N → slice_index above.now k ≤ 4095 }
    requires small_left { left ≤ 4095 }
    ensures row { (j : ℕ) → j < N → slice_index block.new (at + j) ≡ min most (left + slice_index above.now j - corner) }
    ensures before { (k : ℕ) → k < at → slice_index block.new k ≡ slice_index block.old k }
{
    for j in 0..N {
        block[at + j] = (left + above[j]).saturating_sub(corner).min(most);
    }
}

/// The sum of samples.
#[inline(always)]
pub(crate) fn total(samples: &[u16]) -> usize
    requires few { length samples.now ≤ 64 }
    requires small { (k : ℕ) → slice_index samples.now k ≤ 4095 }
    ensures value { result ≡ sum samples.now }
    ensures most { result ≤ length samples.now * 4095 }
{
    let mut total = 0;
    for sample in samples {
        total += usize::from(*sample);
    }
    total
}

/// The mean of n samples with this sum.
#[inline(always)]
pub(crate) fn mean_of(n: usize, total: usize) -> u16
    requires some { 0 < n }
    requires few { n ≤ 64 }
    requires small { total ≤ n * 4095 }
    ensures { result ≡ rounded_mean n total }
{
    ((total + n / 2) / n) as u16
}
