//! Rows of a block copied into rows of samples.

ghost use Rattle.std.specs.Prelude.{◌≡◌, ◌+◌, ◌*◌, ◌^◌, ◌≤◌, ◌<◌, ℕ, length, map, slice_index};
ghost use Rattle.vp9_types.specs.Maps.{rows_of, with_block};

use crate::area::Area;
use vp9_types::Sample;

/// Copies the rows of a block, `stride` samples apart, to a place in rows of `width` samples.
#[inline(always)]
pub(crate) fn copy_rows<P: Sample>(
    samples: &mut [P],
    width: usize,
    to: &Area,
    block: &[P],
    stride: usize,
)
    requires wide { to.now.first_column + to.now.columns ≤ width }
    requires near { to.now.first_row + to.now.rows ≤ 65536 }
    requires apart { width ≤ 65536 }
    requires high { (to.now.first_row + to.now.rows) * width ≤ length samples.old }
    requires narrow { to.now.columns ≤ stride }
    requires whole { to.now.rows * stride ≤ length block.now }
    ensures { rows_of width (map P.value samples.new)
        ≡ with_block (rows_of width (map P.value samples.old)) to.now.first_row to.now.first_column to.now.rows to.now.columns (rows_of stride (map P.value block.now)) }
{
    for i in 0..to.rows {
        let at = (to.first_row + i) * width + to.first_column;
        let from = i * stride;
        samples[at..at + to.columns].copy_from_slice(&block[from..from + to.columns]);
    }
}

/// Copies N samples, by a loop of known length, which stays in registers. What is read and what is written by it may not be known to lie
/// apart: then a line of their own between them keeps the compiler from testing whether they do.
#[inline(always)]
pub fn copy_short<P: Sample, const N: usize>(to: &mut [P], samples: &[P])
    requires room { length to.old ≡ N }
    requires long { length samples.now ≡ N }
    ensures { (j : ℕ) → j < N → slice_index (map P.value to.new) j ≡ slice_index (map P.value samples.now) j }
{
    for j in 0..N {
        to[j] = samples[j];
    }
}

/// Copies N samples by way of a line of their own, since what is read by reference might be what is written.
#[inline(always)]
fn copy_row<P: Sample, const N: usize>(to: &mut [P], samples: &[P])
    requires room { length to.old ≡ N }
    requires long { length samples.now ≡ N }
    ensures { (j : ℕ) → j < N → slice_index (map P.value to.new) j ≡ slice_index (map P.value samples.now) j }
{
    let mut line = [P::narrow(0); N];
    copy_short::<P, N>(&mut line, samples);
    copy_short::<P, N>(to, &line);
}

/// Copies rows of N samples to a row and column of rows of `width` samples.
#[inline(always)]
pub(crate) fn copy_columns<P: Sample, const N: usize>(
    samples: &mut [P],
    width: usize,
    row: usize,
    column: usize,
    rows: usize,
    block: &[P],
)
    requires few { N ≤ 64 }
    requires low { rows ≤ 64 }
    requires wide { column + N ≤ width }
    requires near { row + rows ≤ 65536 }
    requires apart { width ≤ 65536 }
    requires high { (row + rows) * width ≤ length samples.old }
    requires whole { rows * N ≤ length block.now }
    ensures { rows_of width (map P.value samples.new) ≡ with_block (rows_of width (map P.value samples.old)) row column rows N (rows_of N (map P.value block.now)) }
{
    let mut place = row * width + column;
    for i in 0..rows {
        copy_row::<P, N>(&mut samples[place..place + N], &block[i * N..i * N + N]);
        place += width;
    }
}

/// Reads so many samples, each `apart` places after the one before it, the first of them at place `at`.
#[inline(always)]
pub(crate) fn read_apart<P: Sample>(
    samples: &[P],
    at: usize,
    apart: usize,
    count: usize,
    to: &mut [u16],
)
    requires room { count ≤ length to.old }
    requires near { at ≤ 2 ^ 40 }
    requires apart { apart ≤ 65536 }
    requires few { count ≤ 65536 }
    requires inside { (k : ℕ) → k < count → at + k * apart < length samples.now }
    ensures read { (k : ℕ) → k < count → slice_index to.new k ≡ slice_index (map P.value samples.now) (at + k * apart) }
    ensures after { (k : ℕ) → count ≤ k → slice_index to.new k ≡ slice_index to.old k }
{
    let mut place = at;
    for k in 0..count {
        to[k] = samples[place].widen();
        place += apart;
    }
}
