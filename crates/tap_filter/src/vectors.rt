//! Vectors of samples, and of sums of weighted samples.

ghost use Rattle.std.specs.Prelude.{◌≡◌, ℕ, ℤ, ◌+◌, ◌*◌, ◌^◌, ◌<◌, ◌≤◌, pos, ◌+ℤ◌, ◌*ℤ◌, slice_index, length, min};
ghost use Rattle.tap_filter.specs.Code.{AreLanes, IsTurned, at, low_lane, high_lane};

use std::simd::prelude::*;

/// Sixteen samples.
#[inline(always)]
pub(crate) fn load(samples: &[u16], place: usize) -> i16x16
    requires room { place + 16 ≤ length samples.now }
    requires small { (k : ℕ) → slice_index samples.now k ≤ 4095 }
    ensures lanes { AreLanes 16 4095 result }
    ensures value { (j : ℕ) → j < 16 → at result j ≡ pos (slice_index samples.now (place + j)) }
{
    u16x16::from_slice(&samples[place..]).cast()
}

/// Eight samples.
#[inline(always)]
pub(crate) fn load_eight(samples: &[u16], place: usize) -> i16x8
    requires room { place + 8 ≤ length samples.now }
    requires small { (k : ℕ) → slice_index samples.now k ≤ 4095 }
    ensures lanes { AreLanes 8 4095 result }
    ensures value { (j : ℕ) → j < 8 → at result j ≡ pos (slice_index samples.now (place + j)) }
{
    u16x8::from_slice(&samples[place..]).cast()
}

/// The lanes of two vectors by turns, four of each half of the vectors: what one instruction weaves without crossing the halves.
#[inline(always)]
pub(crate) fn woven(p: i16x16, q: i16x16) -> (i16x16, i16x16)
    requires p { AreLanes 16 4095 p }
    requires q { AreLanes 16 4095 q }
    ensures first { AreLanes 16 4095 result.0 }
    ensures second { AreLanes 16 4095 result.1 }
    ensures first_even { (j : ℕ) → j < 8 → at result.0 (2 * j) ≡ at p (low_lane j) }
    ensures first_odd { (j : ℕ) → j < 8 → at result.0 (2 * j + 1) ≡ at q (low_lane j) }
    ensures second_even { (j : ℕ) → j < 8 → at result.1 (2 * j) ≡ at p (high_lane j) }
    ensures second_odd { (j : ℕ) → j < 8 → at result.1 (2 * j + 1) ≡ at q (high_lane j) }
{
    let low = p.shuffle(
        q,
        [0, 16, 1, 17, 2, 18, 3, 19, 8, 24, 9, 25, 10, 26, 11, 27],
    );
    let high = p.shuffle(
        q,
        [4, 20, 5, 21, 6, 22, 7, 23, 12, 28, 13, 29, 14, 30, 15, 31],
    );
    (low, high)
}

/// Values of two vectors, four of each by turns, or `most` where it is less.
#[inline(always)]
pub(crate) fn least_by_fours(low: &[u16; 8], high: &[u16; 8], most: u16) -> [u16; 16]
    ensures low { (j : ℕ) → j < 8 → slice_index result (low_lane j) ≡ min most (slice_index low.now j) }
    ensures high { (j : ℕ) → j < 8 → slice_index result (high_lane j) ≡ min most (slice_index high.now j) }
{
    let p = u16x8::from_array(*low);
    let q = u16x8::from_array(*high);
    let values: u16x16 = p.shuffle(q, [0, 1, 2, 3, 8, 9, 10, 11, 4, 5, 6, 7, 12, 13, 14, 15]);
    values.simd_min(u16x16::splat(most)).to_array()
}

/// The same with one of each by turns.
#[inline(always)]
pub(crate) fn least_by_turns(even: &[u16; 8], odd: &[u16; 8], most: u16) -> [u16; 16]
    ensures even { (j : ℕ) → j < 8 → slice_index result (2 * j) ≡ min most (slice_index even.now j) }
    ensures odd { (j : ℕ) → j < 8 → slice_index result (2 * j + 1) ≡ min most (slice_index odd.now j) }
{
    let p = u16x8::from_array(*even);
    let q = u16x8::from_array(*odd);
    let values: u16x16 = p.shuffle(q, [0, 8, 1, 9, 2, 10, 3, 11, 4, 12, 5, 13, 6, 14, 7, 15]);
    values.simd_min(u16x16::splat(most)).to_array()
}

/// Sums of two neighbours, each weighted by its lane of `taps`. LLVM makes of it one instruction that multiplies and adds.
#[inline(always)]
pub(crate) fn pair_sums(p: i16x16, taps: i16x16) -> i32x8
    requires p { AreLanes 16 4095 p }
    requires taps { AreLanes 16 128 taps }
    ensures lanes { AreLanes 8 (2 ^ 20) result }
    ensures value { (j : ℕ) → j < 8 → at result j ≡ ((at taps (2 * j) *ℤ at p (2 * j)) +ℤ (at taps (2 * j + 1) *ℤ at p (2 * j + 1))) }
{
    let products: i32x16 = taps.cast::<i32>() * p.cast::<i32>();
    let even: i32x8 = products.swizzle([0, 2, 4, 6, 8, 10, 12, 14]);
    let odd: i32x8 = products.swizzle([1, 3, 5, 7, 9, 11, 13, 15]);
    even + odd
}

/// The same of half as many.
#[inline(always)]
pub(crate) fn pair_sums_of_eight(p: i16x8, taps: i16x8) -> i32x4
    requires p { AreLanes 8 4095 p }
    requires taps { AreLanes 8 128 taps }
    ensures lanes { AreLanes 4 (2 ^ 20) result }
    ensures value { (j : ℕ) → j < 4 → at result j ≡ ((at taps (2 * j) *ℤ at p (2 * j)) +ℤ (at taps (2 * j + 1) *ℤ at p (2 * j + 1))) }
{
    let products: i32x8 = taps.cast::<i32>() * p.cast::<i32>();
    let even: i32x4 = products.swizzle([0, 2, 4, 6]);
    let odd: i32x4 = products.swizzle([1, 3, 5, 7]);
    even + odd
}

/// The first eight lanes of two taps by turns.
#[inline(always)]
pub(crate) fn half_of(taps: i16x16) -> i16x8
    requires { IsTurned 8 taps }
    ensures turned { IsTurned 4 result }
    ensures first { at result 0 ≡ at taps 0 }
    ensures second { at result 1 ≡ at taps 1 }
{
    taps.extract::<0, 8>()
}

/// Sums of two vectors.
#[inline(always)]
pub(crate) fn plus<const MOST: usize>(a: i32x8, b: i32x8) -> i32x8
    requires few { MOST ≤ 2 ^ 21 }
    requires a { AreLanes 8 MOST a }
    requires b { AreLanes 8 MOST b }
    ensures lanes { AreLanes 8 (2 * MOST) result }
    ensures value { (j : ℕ) → j < 8 → at result j ≡ (at a j +ℤ at b j) }
{
    a + b
}

/// The same of half as many.
#[inline(always)]
pub(crate) fn plus_of_four<const MOST: usize>(a: i32x4, b: i32x4) -> i32x4
    requires few { MOST ≤ 2 ^ 21 }
    requires a { AreLanes 4 MOST a }
    requires b { AreLanes 4 MOST b }
    ensures lanes { AreLanes 4 (2 * MOST) result }
    ensures value { (j : ℕ) → j < 4 → at result j ≡ (at a j +ℤ at b j) }
{
    a + b
}
