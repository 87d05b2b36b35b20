//! Columns of lines.

ghost use Rattle.std.specs.Prelude.{◌≡◌, ℕ, ◌+◌, ◌*◌, ◌/◌, ◌<◌, ◌≤◌, length, map, slice_index};
ghost use Rattle.vp9_types.specs.Maps.{HoldsRows};
ghost use Rattle.vp9_tables.specs.Filters.{taps_of};
ghost use Rattle.tap_filter.specs.Filter.{filtered};
ghost use Rattle.inter_places.specs.Axes.{offset, phase};
ghost use Rattle.inter_predict.specs.Code.{IsFilter, lines_for};

use crate::filter::LineFilter;
use crate::kept::put_at;
use crate::scaled::value_below;
use inter_places::offset_of;
use tap_filter::FilterSample;
use vp9_tables::taps;

/// Sixteens of values from the beginning of row i on, at any step, each filtered down a column.
fn scale_sixteens<P: FilterSample>(
    out: &mut [P],
    i: usize,
    n: usize,
    lines: &[P],
    down: &LineFilter<P::Taps>,
)
    requires filter { IsFilter P.stand_for P.hold P.takes down.now }
    requires low { i < 64 }
    requires few { n ≤ 64 }
    requires room { i * n + n ≤ length out.old }
    requires enough { (offset down.now.axis i / 16 + 8) * n ≤ length lines.now }
    requires samples { (k : ℕ) → slice_index (map P.value lines.now) k ≤ down.now.most }
    ensures row { (j : ℕ) → j < 16 * (n / 16) → slice_index (map P.value out.new) (i * n + j)
        ≡ filtered down.now.most (taps_of down.now.kind (phase down.now.axis i)) (λ k. slice_index (map P.value lines.now) ((offset down.now.axis i / 16 + k) * n + j)) }
    ensures before { (k : ℕ) → k < i * n → slice_index (map P.value out.new) k ≡ slice_index (map P.value out.old) k }
{
    let offset = offset_of(&down.axis, i);
    let row_taps = P::taps_of(taps(down.kind, (offset % 16) as u8));
    let whole = 16 * (n / 16);
    let at = i * n;
    let from = offset / 16 * n;
    P::filter_down(
        &mut out[at..at + whole],
        whole,
        lines,
        from,
        n,
        &row_taps,
        down.most,
    );
}

/// The rest of row i, each value by itself.
fn scale_rest<P: FilterSample>(
    out: &mut [P],
    i: usize,
    n: usize,
    lines: &[P],
    down: &LineFilter<P::Taps>,
)
    requires filter { IsFilter P.stand_for P.hold P.takes down.now }
    requires low { i < 64 }
    requires few { n ≤ 64 }
    requires room { i * n + n ≤ length out.old }
    requires enough { (offset down.now.axis i / 16 + 8) * n ≤ length lines.now }
    requires samples { (k : ℕ) → slice_index (map P.value lines.now) k ≤ down.now.most }
    ensures row { (j : ℕ) → 16 * (n / 16) ≤ j → j < n → slice_index (map P.value out.new) (i * n + j)
        ≡ filtered down.now.most (taps_of down.now.kind (phase down.now.axis i)) (λ k. slice_index (map P.value lines.now) ((offset down.now.axis i / 16 + k) * n + j)) }
    ensures before { (k : ℕ) → k < i * n + 16 * (n / 16) → slice_index (map P.value out.new) k ≡ slice_index (map P.value out.old) k }
{
    let offset = offset_of(&down.axis, i);
    for j in 16 * (n / 16)..n {
        let value = value_below::<P>(lines, n, j, down, offset);
        put_at(out, i * n + j, value);
    }
}

/// Row i of n values at any step, each filtered down a column.
fn scale_row<P: FilterSample>(
    out: &mut [P],
    i: usize,
    n: usize,
    lines: &[P],
    down: &LineFilter<P::Taps>,
)
    requires filter { IsFilter P.stand_for P.hold P.takes down.now }
    requires low { i < 64 }
    requires few { n ≤ 64 }
    requires room { i * n + n ≤ length out.old }
    requires enough { (offset down.now.axis i / 16 + 8) * n ≤ length lines.now }
    requires samples { (k : ℕ) → slice_index (map P.value lines.now) k ≤ down.now.most }
    ensures row { (j : ℕ) → j < n → slice_index (map P.value out.new) (i * n + j)
        ≡ filtered down.now.most (taps_of down.now.kind (phase down.now.axis i)) (λ k. slice_index (map P.value lines.now) ((offset down.now.axis i / 16 + k) * n + j)) }
    ensures before { (k : ℕ) → k < i * n → slice_index (map P.value out.new) k ≡ slice_index (map P.value out.old) k }
{
    scale_sixteens::<P>(out, i, n, lines, down);
    scale_rest::<P>(out, i, n, lines, down);
}

/// Rows of n values at any step, each filtered down a column.
fn scale_down<P: FilterSample>(
    out: &mut [P],
    rows: usize,
    n: usize,
    lines: &[P],
    down: &LineFilter<P::Taps>,
)
    requires filter { IsFilter P.stand_for P.hold P.takes down.now }
    requires low { rows ≤ 64 }
    requires some { 0 < rows }
    requires few { n ≤ 64 }
    requires room { rows * n ≤ length out.old }
    requires enough { lines_for down.now.axis rows * n ≤ length lines.now }
    requires samples { (k : ℕ) → slice_index (map P.value lines.now) k ≤ down.now.most }
    ensures { HoldsRows (map P.value out.new) n rows
        (λ i j. filtered down.now.most (taps_of down.now.kind (phase down.now.axis i)) (λ k. slice_index (map P.value lines.now) ((offset down.now.axis i / 16 + k) * n + j))) }
{
    for i in 0..rows {
        scale_row::<P>(out, i, n, lines, down);
    }
}

/// Rows of n values, each filtered down a column of lines of n.
#[inline(always)]
pub(crate) fn filter_down<P: FilterSample>(
    out: &mut [P],
    rows: usize,
    n: usize,
    lines: &[P],
    down: &LineFilter<P::Taps>,
)
    requires filter { IsFilter P.stand_for P.hold P.takes down.now }
    requires low { rows ≤ 64 }
    requires some { 0 < rows }
    requires rows { rows ≡ 4 * (rows / 4) }
    requires few { n ≤ 64 }
    requires columns { n ≡ 4 * (n / 4) }
    requires room { rows * n ≤ length out.old }
    requires enough { lines_for down.now.axis rows * n ≤ length lines.now }
    requires samples { (k : ℕ) → slice_index (map P.value lines.now) k ≤ down.now.most }
    ensures { HoldsRows (map P.value out.new) n rows
        (λ i j. filtered down.now.most (taps_of down.now.kind (phase down.now.axis i)) (λ k. slice_index (map P.value lines.now) ((offset down.now.axis i / 16 + k) * n + j))) }
{
    if down.is_unscaled() {
        P::filter_down(out, rows * n, lines, 0, n, &down.taps, down.most);
    } else {
        scale_down::<P>(out, rows, n, lines, down);
    }
}
