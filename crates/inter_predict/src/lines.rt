//! Lines of values along a row of the reference.

ghost use Rattle.std.specs.Prelude.{◌≡◌, ℕ, ◌+◌, ◌*◌, ◌/◌, ◌<◌, ◌≤◌, length, map, slice_index};
ghost use Rattle.tap_filter.specs.Filter.{filtered};
ghost use Rattle.inter_places.specs.Axes.{straight, IsAxis};
ghost use Rattle.inter_predict.specs.InterSamples.{along};
ghost use Rattle.inter_predict.specs.Code.{IsFilter};

use crate::filter::LineFilter;
use crate::kept::{copy_part, fill_part, sample_at, widen_part};
use crate::places::{is_whole, span_of};
use crate::scaled::scale_line;
use inter_places::Axis;
use tap_filter::FilterSample;
use vp9_types::Sample;

/// Samples of a row at n places that follow one another, from the place on that lies `first` after the third before the
/// first. Past an end of the row they are the last ones.
#[inline(always)]
pub(crate) fn read_places<P: Sample>(out: &mut [P], n: usize, row: &[P], a: &Axis, first: usize)
    requires few { n ≤ 136 }
    requires near { first ≤ 64 }
    requires room { n ≤ length out.old }
    requires axis { IsAxis a.now }
    requires row { a.now.size ≤ length row.now }
    ensures value { (t : ℕ) → t < n → slice_index (map P.value out.new) t ≡ slice_index (map P.value row.now) (straight a.now (first + t)) }
    ensures after { (t : ℕ) → n ≤ t → slice_index (map P.value out.new) t ≡ slice_index (map P.value out.old) t }
{
    let span = span_of(a, first, n);
    fill_part(out, 0, span.left, sample_at(row, 0));
    copy_part(out, span.left, row, span.from, span.end - span.left);
    fill_part(out, span.end, n, sample_at(row, a.size as usize - 1));
}

/// The numbers of n samples at places that follow one another, from the third before the first on.
#[inline(always)]
pub(crate) fn read_numbers<P: Sample>(out: &mut [u16], n: usize, row: &[P], a: &Axis)
    requires few { n ≤ 136 }
    requires room { n ≤ length out.old }
    requires axis { IsAxis a.now }
    requires row { a.now.size ≤ length row.now }
    ensures value { (t : ℕ) → t < n → slice_index out.new t ≡ slice_index (map P.value row.now) (straight a.now t) }
    ensures after { (t : ℕ) → n ≤ t → slice_index out.new t ≡ slice_index out.old t }
{
    let span = span_of(a, 0, n);
    fill_part(out, 0, span.left, sample_at(row, 0).widen());
    widen_part(out, span.left, row, span.from, span.end - span.left);
    fill_part(
        out,
        span.end,
        n,
        sample_at(row, a.size as usize - 1).widen(),
    );
}

/// A line of n values, where the reference has the frame's size.
fn filter_places<P: FilterSample>(out: &mut [P], n: usize, row: &[P], filter: &LineFilter<P::Taps>)
    requires filter { IsFilter P.stand_for P.hold P.takes filter.now }
    requires few { n ≤ 64 }
    requires room { n ≤ length out.old }
    requires row { filter.now.axis.size ≤ length row.now }
    requires samples { (k : ℕ) → slice_index (map P.value row.now) k ≤ filter.now.most }
    ensures value { (j : ℕ) → j < n → slice_index (map P.value out.new) j ≡ filtered filter.now.most (P.stand_for filter.now.taps) (λ k. slice_index (map P.value row.now) (straight filter.now.axis (j + k))) }
    ensures after { (j : ℕ) → n ≤ j → slice_index (map P.value out.new) j ≡ slice_index (map P.value out.old) j }
{
    let read = 16 * ((n + 15) / 16) + 7;
    let mut window = [0; 71];
    read_numbers(&mut window, read, row, &filter.axis);
    P::filter_numbers(out, n, &window, &filter.taps, filter.most);
}

/// A line of n values, whatever they are.
fn fill_line<P: FilterSample>(out: &mut [P], n: usize, row: &[P], filter: &LineFilter<P::Taps>)
    requires filter { IsFilter P.stand_for P.hold P.takes filter.now }
    requires few { n ≤ 64 }
    requires room { n ≤ length out.old }
    requires row { filter.now.axis.size ≤ length row.now }
    requires samples { (k : ℕ) → slice_index (map P.value row.now) k ≤ filter.now.most }
    ensures value { (j : ℕ) → j < n → slice_index (map P.value out.new) j ≡ along filter.now.most filter.now.kind filter.now.axis (slice_index (map P.value row.now)) j }
    ensures after { (j : ℕ) → n ≤ j → slice_index (map P.value out.new) j ≡ slice_index (map P.value out.old) j }
{
    if is_whole(&filter.axis) {
        read_places(out, n, row, &filter.axis, 3);
    } else if filter.is_unscaled() {
        filter_places::<P>(out, n, row, filter);
    } else {
        scale_line::<P>(out, n, row, filter);
    }
}

/// Line i of lines of n values, whatever they are.
#[inline(always)]
pub(crate) fn put_line<P: FilterSample>(
    lines: &mut [P],
    i: usize,
    n: usize,
    row: &[P],
    filter: &LineFilter<P::Taps>,
)
    requires filter { IsFilter P.stand_for P.hold P.takes filter.now }
    requires low { i ≤ 256 }
    requires few { n ≤ 64 }
    requires room { i * n + n ≤ length lines.old }
    requires row { filter.now.axis.size ≤ length row.now }
    requires samples { (k : ℕ) → slice_index (map P.value row.now) k ≤ filter.now.most }
    ensures row { (j : ℕ) → j < n → slice_index (map P.value lines.new) (i * n + j) ≡ along filter.now.most filter.now.kind filter.now.axis (slice_index (map P.value row.now)) j }
    ensures before { (k : ℕ) → k < i * n → slice_index (map P.value lines.new) k ≡ slice_index (map P.value lines.old) k }
{
    let at = i * n;
    fill_line::<P>(&mut lines[at..at + n], n, row, filter);
}
