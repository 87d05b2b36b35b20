//! Single values, at any step.

ghost use Rattle.std.specs.Prelude.{◌≡◌, ℕ, ◌+◌, ◌*◌, ◌/◌, ◌%◌, ◌^◌, ◌<◌, ◌≤◌, length, map, slice_index};
ghost use Rattle.tap_filter.specs.Filter.{filtered};
ghost use Rattle.inter_places.specs.Axes.{offset, phase};
ghost use Rattle.inter_predict.specs.InterSamples.{along};
ghost use Rattle.inter_predict.specs.Code.{IsFilter};
ghost use Rattle.vp9_tables.specs.Filters.{taps_of};

use crate::filter::LineFilter;
use crate::kept::{put_at, sample_at};
use crate::lines::read_numbers;
use crate::places::is_inside;
use inter_places::{offset_of, straight};
use tap_filter::{FilterSample, rounded, weighted_run};
use vp9_tables::taps;
use vp9_types::Sample;

/// Eight samples, each so many places after the one before it.
#[inline(always)]
fn eight_of<P: Sample>(samples: &[P], first: usize, step: usize) -> [u16; 8]
    requires near { first ≤ 2 ^ 18 }
    requires narrow { step ≤ 64 }
    requires room { first + 7 * step < length samples.now }
    requires samples { (k : ℕ) → slice_index (map P.value samples.now) k ≤ 4095 }
    ensures value { (k : ℕ) → k < 8 → slice_index result k ≡ slice_index (map P.value samples.now) (first + k * step) }
    ensures samples { (k : ℕ) → slice_index result k ≤ 4095 }
{
    let mut eight = [0; 8];
    for k in 0..8usize {
        eight[k] = sample_at(samples, first + k * step).widen();
    }
    eight
}

/// Eight samples filtered by a phase.
#[inline(always)]
fn filtered_eight<P: FilterSample>(
    eight: &[u16; 8],
    filter: &LineFilter<P::Taps>,
    offset: usize,
) -> P
    requires filter { IsFilter P.stand_for P.hold P.takes filter.now }
    requires near { offset ≤ 2063 }
    requires samples { (k : ℕ) → slice_index eight.now k ≤ 4095 }
    ensures { P.value result ≡ filtered filter.now.most (taps_of filter.now.kind (offset % 16)) (λ k. slice_index eight.now (0 + k)) }
{
    let filter_taps = taps(filter.kind, (offset % 16) as u8);
    let sum = weighted_run(eight, 0, filter_taps);
    P::narrow(rounded(sum, filter.most))
}

/// Eight samples that follow one another, filtered by the phase of a value that lies so many sixteenths behind the first.
#[inline(always)]
fn filtered_run<P: FilterSample, Q: Sample>(
    samples: &[Q],
    from: usize,
    filter: &LineFilter<P::Taps>,
    offset: usize,
) -> P
    requires filter { IsFilter P.stand_for P.hold P.takes filter.now }
    requires near { offset ≤ 2063 }
    requires low { from ≤ 65536 }
    requires enough { from + (offset / 16 + 8) ≤ length samples.now }
    requires samples { (k : ℕ) → slice_index (map Q.value samples.now) k ≤ filter.now.most }
    ensures { P.value result ≡ filtered filter.now.most (taps_of filter.now.kind (offset % 16)) (λ k. slice_index (map Q.value samples.now) (from + offset / 16 + k)) }
{
    let eight = eight_of(samples, from + offset / 16, 1);
    filtered_eight::<P>(&eight, filter, offset)
}

/// A row of n values of samples that follow one another, the first of which stands at place `from`.
fn scale_run<P: FilterSample, Q: Sample>(
    out: &mut [P],
    n: usize,
    samples: &[Q],
    from: usize,
    filter: &LineFilter<P::Taps>,
)
    requires filter { IsFilter P.stand_for P.hold P.takes filter.now }
    requires few { n ≤ 64 }
    requires low { from ≤ 65536 }
    requires room { n ≤ length out.old }
    requires enough { (j : ℕ) → j < n → from + (offset filter.now.axis j / 16 + 8) ≤ length samples.now }
    requires samples { (k : ℕ) → slice_index (map Q.value samples.now) k ≤ filter.now.most }
    ensures value { (j : ℕ) → j < n → slice_index (map P.value out.new) j
        ≡ filtered filter.now.most (taps_of filter.now.kind (phase filter.now.axis j)) (λ k. slice_index (map Q.value samples.now) (from + offset filter.now.axis j / 16 + k)) }
    ensures after { (j : ℕ) → n ≤ j → slice_index (map P.value out.new) j ≡ slice_index (map P.value out.old) j }
{
    for j in 0..n {
        let offset = offset_of(&filter.axis, j);
        let value = filtered_run::<P, Q>(samples, from, filter, offset);
        put_at(out, j, value);
    }
}

/// A value down column j of lines of n, so many sixteenths of a sample behind the first.
#[inline(always)]
pub(crate) fn value_below<P: FilterSample>(
    lines: &[P],
    n: usize,
    j: usize,
    filter: &LineFilter<P::Taps>,
    offset: usize,
) -> P
    requires filter { IsFilter P.stand_for P.hold P.takes filter.now }
    requires near { offset ≤ 2063 }
    requires narrow { n ≤ 64 }
    requires j { j < n }
    requires room { (offset / 16 + 8) * n ≤ length lines.now }
    requires samples { (k : ℕ) → slice_index (map P.value lines.now) k ≤ filter.now.most }
    ensures { P.value result ≡ filtered filter.now.most (taps_of filter.now.kind (offset % 16)) (λ k. slice_index (map P.value lines.now) ((offset / 16 + k) * n + j)) }
{
    let eight = eight_of(lines, offset / 16 * n + j, n);
    filtered_eight::<P>(&eight, filter, offset)
}

/// A row of n values at any step: where a place lies outside the plane, of a copy of the samples.
pub(crate) fn scale_line<P: FilterSample>(
    out: &mut [P],
    n: usize,
    row: &[P],
    filter: &LineFilter<P::Taps>,
)
    requires filter { IsFilter P.stand_for P.hold P.takes filter.now }
    requires few { n ≤ 64 }
    requires room { n ≤ length out.old }
    requires row { filter.now.axis.size ≤ length row.now }
    requires samples { (k : ℕ) → slice_index (map P.value row.now) k ≤ filter.now.most }
    ensures value { (j : ℕ) → j < n → slice_index (map P.value out.new) j ≡ along filter.now.most filter.now.kind filter.now.axis (slice_index (map P.value row.now)) j }
    ensures after { (j : ℕ) → n ≤ j → slice_index (map P.value out.new) j ≡ slice_index (map P.value out.old) j }
{
    let count = offset_of(&filter.axis, n) / 16 + 8;
    if is_inside(&filter.axis, count) {
        scale_run::<P, P>(out, n, row, straight(&filter.axis, 0), filter);
    } else {
        let mut window = [0; 136];
        read_numbers(&mut window, count, row, &filter.axis);
        scale_run::<P, u16>(out, n, &window[..count], 0, filter);
    }
}
