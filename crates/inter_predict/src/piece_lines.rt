//! Lines along rows of the reference that lie in one piece.

ghost use Rattle.std.specs.Prelude.{◌≡◌, ℕ, ◌+◌, ◌*◌, ◌<◌, ◌≤◌, length, map, slice_index};
ghost use Rattle.vp9_types.specs.Maps.{HoldsRows};
ghost use Rattle.inter_places.specs.Axes.{straight, IsPlace};
ghost use Rattle.inter_predict.specs.InterSamples.{along};
ghost use Rattle.inter_predict.specs.Code.{AreRows, IsCopied, IsRun, strided};

use crate::filter::{Interpolation, filter_of};
use crate::lines::put_line;
use crate::places::{copied_columns, run_columns};
use crate::rows::{put_filtered, put_run};
use inter_places::{Place, straight};
use tap_filter::FilterSample;
use vp9_types::Sample;

/// So many samples of row r.
#[inline(always)]
fn row_in<P: Sample>(samples: &[P], stride: usize, r: usize, size: u32, most: u16) -> &[P]
    requires near { stride ≤ 65536 }
    requires low { r ≤ 256 }
    requires room { r * stride + size ≤ length (map P.value samples.now) }
    requires small { (c : ℕ) → c < size → strided stride (map P.value samples.now) r c ≤ most }
    ensures long { length result.now ≡ size }
    ensures samples { (k : ℕ) → slice_index (map P.value result.now) k ≤ most }
    ensures row { (c : ℕ) → c < size → slice_index (map P.value result.now) c ≡ strided stride (map P.value samples.now) r c }
{
    let at = r * stride;
    &samples[at..at + size as usize]
}

/// Lines of N filtered values: each width has a loop of its own, and the filter beside it.
fn run_piece<P: FilterSample, const N: usize>(
    lines: &mut [P],
    samples: &[P],
    stride: usize,
    place: &Place,
    by: Interpolation,
    count: usize,
)
    requires width { N ≡ place.now.columns }
    requires place { IsPlace place.now }
    requires run { IsRun place.now.across place.now.columns }
    requires most { P.takes by.most }
    requires low { count ≤ 134 }
    requires room { count * place.now.columns ≤ length lines.old }
    requires piece { AreRows by.most place.now.across.size count stride (map P.value samples.now) }
    ensures { HoldsRows (map P.value lines.new) place.now.columns count (λ r j. along by.most by.kind place.now.across (strided stride (map P.value samples.now) r) j) }
{
    let across = filter_of::<P>(&place.across, by.kind, by.most);
    let from = straight(&place.across, 0);
    let size = place.across.size;
    for r in 0..count {
        let row = row_in(samples, stride, r, size, by.most);
        put_filtered::<P, N>(lines, r, row, from, &across);
    }
}

/// Lines of N samples as they are: each width has a loop of its own.
fn copy_piece<P: Sample, const N: usize>(
    lines: &mut [P],
    samples: &[P],
    stride: usize,
    place: &Place,
    most: u16,
    count: usize,
)
    requires width { N ≡ place.now.columns }
    requires place { IsPlace place.now }
    requires copied { IsCopied place.now.across place.now.columns }
    requires low { count ≤ 134 }
    requires room { count * place.now.columns ≤ length lines.old }
    requires piece { AreRows most place.now.across.size count stride (map P.value samples.now) }
    ensures { HoldsRows (map P.value lines.new) place.now.columns count (λ r j. strided stride (map P.value samples.now) r (straight place.now.across (3 + j))) }
{
    let from = straight(&place.across, 3);
    let size = place.across.size;
    for r in 0..count {
        let row = row_in(samples, stride, r, size, most);
        put_run::<P, N>(lines, r, row, from);
    }
}

/// Lines along so many rows, whatever they are.
fn other_piece<P: FilterSample>(
    lines: &mut [P],
    samples: &[P],
    stride: usize,
    place: &Place,
    by: Interpolation,
    count: usize,
)
    requires place { IsPlace place.now }
    requires most { P.takes by.most }
    requires low { count ≤ 134 }
    requires room { count * place.now.columns ≤ length lines.old }
    requires piece { AreRows by.most place.now.across.size count stride (map P.value samples.now) }
    ensures { HoldsRows (map P.value lines.new) place.now.columns count
        (λ r j. along by.most by.kind place.now.across (strided stride (map P.value samples.now) r) j) }
{
    let across = filter_of::<P>(&place.across, by.kind, by.most);
    let size = place.across.size;
    let n = place.columns;
    for r in 0..count {
        let row = row_in(samples, stride, r, size, by.most);
        put_line::<P>(lines, r, n, row, &across);
    }
}

/// Filtered lines along so many rows.
#[inline(always)]
fn filter_piece<P: FilterSample>(
    lines: &mut [P],
    samples: &[P],
    stride: usize,
    place: &Place,
    by: Interpolation,
    count: usize,
)
    requires place { IsPlace place.now }
    requires most { P.takes by.most }
    requires low { count ≤ 134 }
    requires room { count * place.now.columns ≤ length lines.old }
    requires piece { AreRows by.most place.now.across.size count stride (map P.value samples.now) }
    ensures { HoldsRows (map P.value lines.new) place.now.columns count
        (λ r j. along by.most by.kind place.now.across (strided stride (map P.value samples.now) r) j) }
{
    match run_columns(place) {
        4 => run_piece::<P, 4>(lines, samples, stride, place, by, count),
        8 => run_piece::<P, 8>(lines, samples, stride, place, by, count),
        16 => run_piece::<P, 16>(lines, samples, stride, place, by, count),
        32 => run_piece::<P, 32>(lines, samples, stride, place, by, count),
        64 => run_piece::<P, 64>(lines, samples, stride, place, by, count),
        _ => other_piece::<P>(lines, samples, stride, place, by, count),
    }
}

/// Lines along so many rows, each of which begins `stride` samples behind the one above.
pub(crate) fn fill_piece<P: FilterSample>(
    lines: &mut [P],
    samples: &[P],
    stride: usize,
    place: &Place,
    by: Interpolation,
    count: usize,
)
    requires place { IsPlace place.now }
    requires most { P.takes by.most }
    requires low { count ≤ 134 }
    requires room { count * place.now.columns ≤ length lines.old }
    requires piece { AreRows by.most place.now.across.size count stride (map P.value samples.now) }
    ensures { HoldsRows (map P.value lines.new) place.now.columns count
        (λ r j. along by.most by.kind place.now.across (strided stride (map P.value samples.now) r) j) }
{
    match copied_columns(place) {
        4 => copy_piece::<P, 4>(lines, samples, stride, place, by.most, count),
        8 => copy_piece::<P, 8>(lines, samples, stride, place, by.most, count),
        16 => copy_piece::<P, 16>(lines, samples, stride, place, by.most, count),
        32 => copy_piece::<P, 32>(lines, samples, stride, place, by.most, count),
        64 => copy_piece::<P, 64>(lines, samples, stride, place, by.most, count),
        _ => filter_piece::<P>(lines, samples, stride, place, by, count),
    }
}
