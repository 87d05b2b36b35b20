//! How large the values of columns are together.

ghost use Rattle.std.specs.Prelude.{◌≡◌, ℕ, ◌+◌, ◌^◌, ◌≤◌, ◌<◌, length, slice_index_or, unsigned_abs, All};
ghost use Rattle.inverse_transforms.specs.Flow.{at, magnitude};
ghost use Rattle.inverse_transforms.specs.LaneColumns.{column};
ghost use Rattle.inverse_transforms.specs.Ranges.{IsSmall};

use crate::lanes::Lanes;
use std::simd::prelude::*;

#[inline(always)]
fn magnitudes(row: &Lanes) -> [u32; 8]
    ensures { (j : ℕ) → j < 8 → slice_index_or result j 0 ≡ unsigned_abs (at row.now j) }
{
    let mut sizes = [0; 8];
    for j in 0..8usize {
        sizes[j] = row[j].unsigned_abs();
    }
    sizes
}

/// Adds the magnitude of each lane.
#[inline(always)]
fn with_magnitudes(sums: u32x8, row: &Lanes) -> u32x8
    requires small { All IsSmall row.now }
    requires room { (j : ℕ) → j < 8 → slice_index_or sums j 0 ≤ 2 ^ 30 }
    ensures { (j : ℕ) → j < 8 → slice_index_or result j 0 ≡ slice_index_or sums j 0 + unsigned_abs (at row.now j) }
{
    sums + u32x8::from_array(magnitudes(row))
}

/// The sum of the magnitudes of each column.
#[inline(always)]
fn column_sums(t: &[Lanes]) -> u32x8
    requires size { length t.now ≤ 32 }
    requires small { All (All IsSmall) t.now }
    ensures { (j : ℕ) → j < 8 → slice_index_or result j 0 ≡ magnitude (column j t.now) }
{
    let mut sums = u32x8::splat(0);
    for row in t {
        sums = with_magnitudes(sums, row);
    }
    sums
}

#[inline(always)]
fn greatest(sums: &[u32; 8]) -> u32
    ensures { (j : ℕ) → j < 8 → slice_index_or sums.now j 0 ≤ result }
{
    let mut most = 0;
    for sum in sums {
        most = most.max(*sum);
    }
    most
}

/// What the magnitudes of each column add up to at most.
#[inline(always)]
pub fn heaviest(t: &[Lanes]) -> u32
    requires size { length t.now ≤ 32 }
    requires small { All (All IsSmall) t.now }
    ensures { (j : ℕ) → j < 8 → magnitude (column j t.now) ≤ result }
{
    greatest(&column_sums(t).to_array())
}
