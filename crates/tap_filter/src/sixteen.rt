//! The steps by which sixteen values are filtered at once.

ghost use Rattle.std.specs.Prelude.{◌≡◌, ℕ, ◌+◌, ◌*◌, ◌^◌, ◌<◌, ◌≤◌, pos, ◌+ℤ◌, ◌*ℤ◌, slice_index, length};
ghost use Rattle.tap_filter.specs.Filter.{rounded};
ghost use Rattle.tap_filter.specs.Code.{AreLanes, IsTurned, at, low_lane, high_lane};

use crate::numbers::rounded;
use crate::vectors::{
    least_by_fours, least_by_turns, load, load_eight, pair_sums, pair_sums_of_eight, plus,
    plus_of_four, woven,
};
use std::simd::prelude::*;

/// Sixteen sums of two weighted samples, `step` places from each other.
#[inline(always)]
pub(crate) fn pair_at(samples: &[u16], place: usize, step: usize, taps: i16x16) -> (i32x8, i32x8)
    requires near { place ≤ 2 ^ 18 }
    requires narrow { step ≤ 64 }
    requires room { place + step + 16 ≤ length samples.now }
    requires small { (k : ℕ) → slice_index samples.now k ≤ 4095 }
    requires taps { IsTurned 8 taps }
    ensures first { AreLanes 8 (2 ^ 20) result.0 }
    ensures second { AreLanes 8 (2 ^ 20) result.1 }
    ensures first_value { (j : ℕ) → j < 8 → at result.0 j
        ≡ ((at taps 0 *ℤ pos (slice_index samples.now (place + low_lane j))) +ℤ (at taps 1 *ℤ pos (slice_index samples.now (place + step + low_lane j)))) }
    ensures second_value { (j : ℕ) → j < 8 → at result.1 j
        ≡ ((at taps 0 *ℤ pos (slice_index samples.now (place + high_lane j))) +ℤ (at taps 1 *ℤ pos (slice_index samples.now (place + step + high_lane j)))) }
{
    let p = load(samples, place);
    let q = load(samples, place + step);
    let (low, high) = woven(p, q);
    let first = pair_sums(low, taps);
    let second = pair_sums(high, taps);
    (first, second)
}

/// Eight sums of two weighted neighbours, every second of those along a row.
#[inline(always)]
pub(crate) fn neighbours_at(samples: &[u16], place: usize, taps: i16x16) -> i32x8
    requires near { place ≤ 2 ^ 18 }
    requires room { place + 16 ≤ length samples.now }
    requires small { (k : ℕ) → slice_index samples.now k ≤ 4095 }
    requires taps { IsTurned 8 taps }
    ensures lanes { AreLanes 8 (2 ^ 20) result }
    ensures value { (j : ℕ) → j < 8 → at result j
        ≡ ((at taps 0 *ℤ pos (slice_index samples.now (place + 2 * j))) +ℤ (at taps 1 *ℤ pos (slice_index samples.now (place + (2 * j + 1))))) }
{
    let p = load(samples, place);
    pair_sums(p, taps)
}

/// Four such sums.
#[inline(always)]
pub(crate) fn four_neighbours_at(samples: &[u16], place: usize, taps: i16x8) -> i32x4
    requires near { place ≤ 2 ^ 18 }
    requires room { place + 8 ≤ length samples.now }
    requires small { (k : ℕ) → slice_index samples.now k ≤ 4095 }
    requires taps { IsTurned 4 taps }
    ensures lanes { AreLanes 4 (2 ^ 20) result }
    ensures value { (j : ℕ) → j < 4 → at result j
        ≡ ((at taps 0 *ℤ pos (slice_index samples.now (place + 2 * j))) +ℤ (at taps 1 *ℤ pos (slice_index samples.now (place + (2 * j + 1))))) }
{
    let p = load_eight(samples, place);
    pair_sums_of_eight(p, taps)
}

/// Eight sums of four values.
#[inline(always)]
pub(crate) fn four_sums(p: i32x8, q: i32x8, r: i32x8, s: i32x8) -> i32x8
    requires p { AreLanes 8 (2 ^ 20) p }
    requires q { AreLanes 8 (2 ^ 20) q }
    requires r { AreLanes 8 (2 ^ 20) r }
    requires s { AreLanes 8 (2 ^ 20) s }
    ensures lanes { AreLanes 8 (2 ^ 22) result }
    ensures value { (j : ℕ) → j < 8 → at result j ≡ ((at p j +ℤ at q j) +ℤ (at r j +ℤ at s j)) }
{
    let first = plus::<1048576>(p, q);
    let second = plus::<1048576>(r, s);
    plus::<2097152>(first, second)
}

/// Four sums of four values.
#[inline(always)]
pub(crate) fn four_sums_of_four(p: i32x4, q: i32x4, r: i32x4, s: i32x4) -> i32x4
    requires p { AreLanes 4 (2 ^ 20) p }
    requires q { AreLanes 4 (2 ^ 20) q }
    requires r { AreLanes 4 (2 ^ 20) r }
    requires s { AreLanes 4 (2 ^ 20) s }
    ensures lanes { AreLanes 4 (2 ^ 22) result }
    ensures value { (j : ℕ) → j < 4 → at result j ≡ ((at p j +ℤ at q j) +ℤ (at r j +ℤ at s j)) }
{
    let first = plus_of_four::<1048576>(p, q);
    let second = plus_of_four::<1048576>(r, s);
    plus_of_four::<2097152>(first, second)
}

/// Eight sums, rounded and not below 0.
#[inline(always)]
fn saturated(sums: &[i32; 8]) -> [u16; 8]
    requires { AreLanes 8 (2 ^ 22) sums.now }
    ensures { (j : ℕ) → j < 8 → slice_index result j ≡ rounded 65535 (at sums.now j) }
{
    let mut values = [0; 8];
    for j in 0..8usize {
        let sum = sums[j];
        values[j] = rounded(sum, 65535);
    }
    values
}

/// Values of two vectors, four of each by turns.
#[inline(always)]
pub(crate) fn rounded_lanes(low: &[i32; 8], high: &[i32; 8], most: u16) -> [u16; 16]
    requires low { AreLanes 8 (2 ^ 22) low.now }
    requires high { AreLanes 8 (2 ^ 22) high.now }
    ensures low { (j : ℕ) → j < 8 → slice_index result (low_lane j) ≡ rounded most (at low.now j) }
    ensures high { (j : ℕ) → j < 8 → slice_index result (high_lane j) ≡ rounded most (at high.now j) }
{
    let p = saturated(low);
    let q = saturated(high);
    least_by_fours(&p, &q, most)
}

/// Values of two vectors by turns.
#[inline(always)]
pub(crate) fn rounded_turns(even: &[i32; 8], odd: &[i32; 8], most: u16) -> [u16; 16]
    requires even { AreLanes 8 (2 ^ 22) even.now }
    requires odd { AreLanes 8 (2 ^ 22) odd.now }
    ensures even { (j : ℕ) → j < 8 → slice_index result (2 * j) ≡ rounded most (at even.now j) }
    ensures odd { (j : ℕ) → j < 8 → slice_index result (2 * j + 1) ≡ rounded most (at odd.now j) }
{
    let p = saturated(even);
    let q = saturated(odd);
    least_by_turns(&p, &q, most)
}

/// The same of half as many.
#[inline(always)]
pub(crate) fn rounded_turns_of_eight(even: &[i32; 4], odd: &[i32; 4], most: u16) -> [u16; 8]
    requires even { AreLanes 4 (2 ^ 22) even.now }
    requires odd { AreLanes 4 (2 ^ 22) odd.now }
    ensures even { (j : ℕ) → j < 4 → slice_index result (2 * j) ≡ rounded most (at even.now j) }
    ensures odd { (j : ℕ) → j < 4 → slice_index result (2 * j + 1) ≡ rounded most (at odd.now j) }
{
    let mut values = [0; 8];
    for j in 0..4usize {
        let (a, b) = (even[j], odd[j]);
        values[2 * j] = rounded(a, most);
        values[2 * j + 1] = rounded(b, most);
    }
    values
}
