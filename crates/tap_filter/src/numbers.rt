//! One filtered value.

ghost use Rattle.std.specs.Prelude.{◌≡◌, ℕ, ◌+◌, ◌*◌, ◌^◌, ◌≤◌, ◌<◌, pos, ◌+ℤ◌, ◌*ℤ◌, unsigned_abs, slice_index, slice_index_or, length};
ghost use Rattle.tap_filter.specs.Filter.{IsTap, weighted, rounded};

use crate::vectors::{load_eight, pair_sums_of_eight};
use std::simd::prelude::*;

#[inline(always)]
fn plus(x: i32, y: i32) -> i32
    requires first { unsigned_abs x ≤ 2 ^ 21 }
    requires second { unsigned_abs y ≤ 2 ^ 21 }
    ensures value { result ≡ (x +ℤ y) }
    ensures size { unsigned_abs result ≤ unsigned_abs x + unsigned_abs y }
{
    x + y
}

/// The sum of four sums of two weighted samples.
#[inline(always)]
fn four_of(a: i32, b: i32, c: i32, d: i32) -> i32
    requires a { unsigned_abs a ≤ 2 ^ 20 }
    requires b { unsigned_abs b ≤ 2 ^ 20 }
    requires c { unsigned_abs c ≤ 2 ^ 20 }
    requires d { unsigned_abs d ≤ 2 ^ 20 }
    ensures value { result ≡ ((a +ℤ b) +ℤ (c +ℤ d)) }
    ensures size { unsigned_abs result ≤ 2 ^ 22 }
{
    plus(plus(a, b), plus(c, d))
}

/// The sum of eight weighted samples that follow one another from a place on.
#[inline(always)]
pub fn weighted_run(samples: &[u16], place: usize, taps: &[i16; 8]) -> i32
    requires room { place + 8 ≤ length samples.now }
    requires small { (k : ℕ) → slice_index samples.now k ≤ 4095 }
    requires taps { (k : ℕ) → IsTap (slice_index_or taps.now k (pos 0)) }
    ensures value { result ≡ weighted taps.now (λ k. slice_index samples.now (place + k)) }
    ensures size { unsigned_abs result ≤ 2 ^ 22 }
{
    let lanes = i16x8::from_array(*taps);
    let run = load_eight(samples, place);
    let sums = pair_sums_of_eight(run, lanes).to_array();
    let (p, q) = (sums[0], sums[1]);
    let (r, s) = (sums[2], sums[3]);
    four_of(p, q, r, s)
}

/// A sum of weighted samples, rounded by 7 bits and clipped.
#[inline(always)]
#[tactic(auto, unfolding(crate::specs::Filter::rounded))]
pub fn rounded(sum: i32, most: u16) -> u16
    requires { unsigned_abs sum ≤ 2 ^ 22 }
    ensures { result ≡ rounded most sum }
{
    let value = ((sum + 64) >> 7).max(0).min(65535) as u16;
    value.min(most)
}
