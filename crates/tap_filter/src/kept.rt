//! How lines are filtered, by what a plane keeps a sample as.

ghost use Rattle.std.specs.Prelude.{◌≡◌, ℕ, ◌+◌, ◌*◌, ◌/◌, ◌<◌, ◌≤◌, length, slice_index, map, ⊤};
ghost use Rattle.tap_filter.specs.Filter.{filtered};
ghost use Rattle.vp9_tables.specs.Filters.{AreTaps};
ghost use Rattle.std.proofs.Common.{rules};

use crate::bytes::{bytes_of, filter_byte_line, filter_byte_run};
use crate::runs::{filter_line, filter_run};
use crate::taps::TapLanes;
use vp9_types::Sample;

/// A sample that lines are filtered of.
pub trait FilterSample: Sample {
    ghost use Rattle.std.specs.Prelude.{List, ℤ};

    /// The taps of a filter, as they are used.
    type Taps: Drop;

    /// Which greatest samples there may be.
    ghost takes: { ℕ → Type 0 };

    /// The taps that these are.
    ghost stand_for: { Self.Taps → List ℤ };

    /// Whether these are eight taps of a filter.
    ghost hold: { Self.Taps → Type 0 };

    fn taps_of(taps: &[i16; 8]) -> Self::Taps
        requires { AreTaps taps.now }
        ensures taps { stand_for result ≡ taps.now }
        ensures hold { hold result };

    /// n values filtered along a row, from a place on: tap k stands k places after a value's own.
    fn filter_along(
        out: &mut [Self],
        n: usize,
        samples: &[Self],
        from: usize,
        taps: &Self::Taps,
        most: u16,
    )
        requires few { n ≤ 64 }
        requires room { n ≤ length out.old }
        requires near { from ≤ 65536 }
        requires enough { from + 16 * ((n + 15) / 16) + 7 ≤ length samples.now }
        requires most { takes most }
        requires small { (k : ℕ) → slice_index (map Self.value samples.now) k ≤ most }
        requires taps { hold taps.now }
        ensures value { (j : ℕ) → j < n → slice_index (map Self.value out.new) j ≡ filtered most (stand_for taps.now) (λ k. slice_index (map Self.value samples.now) (from + (j + k))) }
        ensures after { (j : ℕ) → n ≤ j → slice_index (map Self.value out.new) j ≡ slice_index (map Self.value out.old) j };

    /// So many values filtered down columns: for the value at place j tap k stands at `from + k * step + j`.
    fn filter_down(
        out: &mut [Self],
        count: usize,
        samples: &[Self],
        from: usize,
        step: usize,
        taps: &Self::Taps,
        most: u16,
    )
        requires few { count ≤ 4096 }
        requires sixteens { count ≡ 16 * (count / 16) }
        requires room { count ≤ length out.old }
        requires near { from ≤ 65536 }
        requires narrow { step ≤ 64 }
        requires enough { from + count + 7 * step ≤ length samples.now }
        requires most { takes most }
        requires small { (k : ℕ) → slice_index (map Self.value samples.now) k ≤ most }
        requires taps { hold taps.now }
        ensures value { (j : ℕ) → j < count → slice_index (map Self.value out.new) j ≡ filtered most (stand_for taps.now) (λ k. slice_index (map Self.value samples.now) (from + k * step + j)) }
        ensures after { (j : ℕ) → count ≤ j → slice_index (map Self.value out.new) j ≡ slice_index (map Self.value out.old) j };

    /// n values filtered along samples that are given as numbers, from the first on.
    fn filter_numbers(out: &mut [Self], n: usize, numbers: &[u16; 71], taps: &Self::Taps, most: u16)
        requires few { n ≤ 64 }
        requires room { n ≤ length out.old }
        requires most { takes most }
        requires small { (k : ℕ) → slice_index numbers.now k ≤ most }
        requires taps { hold taps.now }
        ensures value { (j : ℕ) → j < n → slice_index (map Self.value out.new) j ≡ filtered most (stand_for taps.now) (λ k. slice_index numbers.now (j + k)) }
        ensures after { (j : ℕ) → n ≤ j → slice_index (map Self.value out.new) j ≡ slice_index (map Self.value out.old) j };

    /// The rounded mean of two.
    fn mean(self, other: Self) -> Self
        ensures { Self.value result ≡ (Self.value self + Self.value other + 1) / 2 };

    ghost are_few: { (most : ℕ) → takes most → most ≤ 4095 };

    ghost are_kept: { (most : ℕ) → takes most → most ≤ Self.greatest };
}

impl FilterSample for u8 {
    type Taps = [i16; 8];

    ghost takes = { λ most. most ≡ 255 };

    ghost stand_for = { λ taps. taps };

    ghost hold = { λ taps. AreTaps taps };

    #[inline(always)]
    fn taps_of(taps: &[i16; 8]) -> [i16; 8] {
        *taps
    }

    #[inline(always)]
    fn filter_along(
        out: &mut [u8],
        n: usize,
        samples: &[u8],
        from: usize,
        taps: &[i16; 8],
        most: u16,
    ) {
        let _ = most;
        filter_byte_line(out, n, samples, from, taps);
    }

    #[inline(always)]
    fn filter_down(
        out: &mut [u8],
        count: usize,
        samples: &[u8],
        from: usize,
        step: usize,
        taps: &[i16; 8],
        most: u16,
    ) {
        let _ = most;
        filter_byte_run(out, count, samples, from, step, taps);
    }

    #[inline(always)]
    fn filter_numbers(out: &mut [u8], n: usize, numbers: &[u16; 71], taps: &[i16; 8], most: u16) {
        let _ = most;
        filter_byte_line(out, n, &bytes_of(numbers), 0, taps);
    }

    #[inline(always)]
    fn mean(self, other: u8) -> u8 {
        let sum = u16::from(self) + u16::from(other) + 1;
        (sum / 2) as u8
    }

    ghost are_few = { λ most takes. Prim.search rules };

    ghost are_kept = { λ most takes. Prim.search rules };
}

impl FilterSample for u16 {
    type Taps = TapLanes;

    ghost takes = { λ most. most ≤ 4095 };

    ghost stand_for = { λ taps. taps };

    ghost hold = { λ _. ⊤ };

    #[inline(always)]
    fn taps_of(taps: &[i16; 8]) -> TapLanes {
        TapLanes::new(taps)
    }

    #[inline(always)]
    fn filter_along(
        out: &mut [u16],
        n: usize,
        samples: &[u16],
        from: usize,
        taps: &TapLanes,
        most: u16,
    ) {
        filter_line(out, n, samples, from, taps, most);
    }

    #[inline(always)]
    fn filter_down(
        out: &mut [u16],
        count: usize,
        samples: &[u16],
        from: usize,
        step: usize,
        taps: &TapLanes,
        most: u16,
    ) {
        filter_run(out, count, samples, from, step, taps, most);
    }

    #[inline(always)]
    fn filter_numbers(out: &mut [u16], n: usize, numbers: &[u16; 71], taps: &TapLanes, most: u16) {
        filter_line(out, n, numbers, 0, taps, most);
    }

    #[inline(always)]
    fn mean(self, other: u16) -> u16 {
        let sum = u32::from(self) + u32::from(other) + 1;
        (sum / 2) as u16
    }

    ghost are_few = { λ most takes. Prim.search rules };

    ghost are_kept = { λ most takes. Prim.search rules };
}
