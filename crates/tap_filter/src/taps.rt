//! The taps of a filter in lanes.

ghost use Rattle.std.specs.Prelude.{◌≡◌, ℕ, ◌+◌, ◌*◌, ◌^◌, ◌<◌, ◌≤◌, ℤ, pos, List, slice_index, slice_index_or, length};
ghost use Rattle.tap_filter.specs.Filter.{IsTap, filtered, weighted};
ghost use Rattle.tap_filter.specs.Code.{AreLanes, AreTurns, IsTurned, at, taps_in};

use crate::sixteen::{
    four_neighbours_at, four_sums, four_sums_of_four, neighbours_at, pair_at, rounded_lanes,
    rounded_turns, rounded_turns_of_eight,
};
use crate::vectors::half_of;
use std::marker::Model;
use std::simd::prelude::*;

/// The eight taps of a filter: in each vector two of them by turns.
#[derive(Drop)]
pub struct TapLanes {
    first: i16x16,
    second: i16x16,
    third: i16x16,
    fourth: i16x16,
}

impl Model for TapLanes {
    ghost Value = { List ℤ };

    ghost view = { λ t. taps_in t.first t.second t.third t.fourth };

    ghost invariant = { λ t. IsTurned 8 t.first × IsTurned 8 t.second × IsTurned 8 t.third × IsTurned 8 t.fourth };
}

#[inline(always)]
fn turns(s: i16, t: i16) -> i16x16
    requires s { IsTap s }
    requires t { IsTap t }
    ensures { AreTurns 8 s t result }
{
    i16x16::from_array([s, t, s, t, s, t, s, t, s, t, s, t, s, t, s, t])
}

impl TapLanes {
    /// The lanes of eight taps.
    #[inline(always)]
    pub fn new(taps: &[i16; 8]) -> TapLanes
        requires { (k : ℕ) → IsTap (slice_index_or taps.now k (pos 0)) }
        ensures { result ≡ taps.now }
    {
        let (p, q, r, s) = (taps[0], taps[1], taps[2], taps[3]);
        let (t, u, v, w) = (taps[4], taps[5], taps[6], taps[7]);
        TapLanes {
            first: turns(p, q),
            second: turns(r, s),
            third: turns(t, u),
            fourth: turns(v, w),
        }
    }

    /// Sixteen filtered values, tap k standing at place `place + k * step` of the samples for the first of them.
    #[inline(always)]
    pub(crate) fn filter_sixteen(
        &self,
        samples: &[u16],
        place: usize,
        step: usize,
        most: u16,
    ) -> [u16; 16]
        requires near { place ≤ 2 ^ 17 }
        requires narrow { step ≤ 64 }
        requires room { place + 7 * step + 16 ≤ length samples.now }
        requires small { (k : ℕ) → slice_index samples.now k ≤ 4095 }
        ensures { (j : ℕ) → j < 16 → slice_index result j ≡ filtered most self.now (λ k. slice_index samples.now (place + k * step + j)) }
    {
        let p = pair_at(samples, place, step, self.first);
        let q = pair_at(samples, place + 2 * step, step, self.second);
        let r = pair_at(samples, place + 4 * step, step, self.third);
        let s = pair_at(samples, place + 6 * step, step, self.fourth);
        let low = four_sums(p.0, q.0, r.0, s.0);
        let high = four_sums(p.1, q.1, r.1, s.1);
        rounded_lanes(&low.to_array(), &high.to_array(), most)
    }

    /// Eight sums of eight weighted samples, from every second place of a row on.
    #[inline(always)]
    fn sums_along(&self, samples: &[u16], place: usize) -> i32x8
        requires near { place ≤ 2 ^ 17 + 1 }
        requires room { place + 22 ≤ length samples.now }
        requires small { (k : ℕ) → slice_index samples.now k ≤ 4095 }
        ensures lanes { AreLanes 8 (2 ^ 22) result }
        ensures value { (j : ℕ) → j < 8 → at result j ≡ weighted self.now (λ k. slice_index samples.now (place + (2 * j + k))) }
    {
        let p = neighbours_at(samples, place, self.first);
        let q = neighbours_at(samples, place + 2, self.second);
        let r = neighbours_at(samples, place + 4, self.third);
        let s = neighbours_at(samples, place + 6, self.fourth);
        four_sums(p, q, r, s)
    }

    /// Sixteen values filtered along a row, from a place on: tap k stands k places after a value's own.
    #[inline(always)]
    pub(crate) fn filter_along(&self, samples: &[u16], place: usize, most: u16) -> [u16; 16]
        requires near { place ≤ 2 ^ 17 }
        requires room { place + 23 ≤ length samples.now }
        requires small { (k : ℕ) → slice_index samples.now k ≤ 4095 }
        ensures { (j : ℕ) → j < 16 → slice_index result j ≡ filtered most self.now (λ k. slice_index samples.now (place + (j + k))) }
    {
        let even = self.sums_along(samples, place);
        let odd = self.sums_along(samples, place + 1);
        rounded_turns(&even.to_array(), &odd.to_array(), most)
    }

    /// Four sums of eight weighted samples, from every second place of a row on.
    #[inline(always)]
    fn four_sums_along(&self, samples: &[u16], place: usize) -> i32x4
        requires near { place ≤ 2 ^ 17 + 1 }
        requires room { place + 14 ≤ length samples.now }
        requires small { (k : ℕ) → slice_index samples.now k ≤ 4095 }
        ensures lanes { AreLanes 4 (2 ^ 22) result }
        ensures value { (j : ℕ) → j < 4 → at result j ≡ weighted self.now (λ k. slice_index samples.now (place + (2 * j + k))) }
    {
        let a = half_of(self.first);
        let b = half_of(self.second);
        let c = half_of(self.third);
        let d = half_of(self.fourth);
        let p = four_neighbours_at(samples, place, a);
        let q = four_neighbours_at(samples, place + 2, b);
        let r = four_neighbours_at(samples, place + 4, c);
        let s = four_neighbours_at(samples, place + 6, d);
        four_sums_of_four(p, q, r, s)
    }

    /// Eight values filtered along a row, as `filter_along` does sixteen.
    #[inline(always)]
    pub(crate) fn filter_eight_along(&self, samples: &[u16], place: usize, most: u16) -> [u16; 8]
        requires near { place ≤ 2 ^ 17 }
        requires room { place + 15 ≤ length samples.now }
        requires small { (k : ℕ) → slice_index samples.now k ≤ 4095 }
        ensures { (j : ℕ) → j < 8 → slice_index result j ≡ filtered most self.now (λ k. slice_index samples.now (place + (j + k))) }
    {
        let even = self.four_sums_along(samples, place);
        let odd = self.four_sums_along(samples, place + 1);
        rounded_turns_of_eight(&even.to_array(), &odd.to_array(), most)
    }
}
