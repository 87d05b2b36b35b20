//! Lines along rows of the reference.

ghost use Rattle.std.specs.Prelude.{◌≡◌, ℕ, ◌+◌, ◌*◌, ◌<◌, ◌≤◌, IfSome, length, map, slice_index};
ghost use Rattle.vp9_types.specs.Maps.{HoldsRows, IsAtMost};
ghost use Rattle.inter_places.specs.Axes.{straight, IsPlace};
ghost use Rattle.inter_predict.specs.InterSamples.{along};
ghost use Rattle.inter_predict.specs.Code.{AreRows, IsFilter, IsCopied, IsRun, strided};

use crate::filter::{Interpolation, LineFilter, filter_of};
use crate::lines::put_line;
use crate::piece_lines::fill_piece;
use crate::places::{copied_columns, is_among, run_columns};
use inter_places::{Place, straight};
use planes::copy_short;
use tap_filter::FilterSample;
use vp9_types::{Sample, Samples};

/// The row of the reference that lies n rows after the third before the first.
#[inline(always)]
fn read_row<'a, P: Sample, S: Samples<Kept = P>>(
    view: &'a S,
    place: &Place,
    n: usize,
    most: u16,
) -> &'a [P]
    requires place { IsPlace place.now }
    requires near { n ≤ 256 }
    requires held { S.holds view.now place.now.plane (straight place.now.down n) }
    requires wide { place.now.across.size ≤ S.width view.now place.now.plane }
    requires samples { IsAtMost most (S.map view.now place.now.plane) }
    ensures long { place.now.across.size ≤ length result.now }
    ensures samples { (k : ℕ) → slice_index (map P.value result.now) k ≤ most }
    ensures row { (c : ℕ) → c < place.now.across.size → slice_index (map P.value result.now) c ≡ S.map view.now place.now.plane (straight place.now.down n) c }
{
    view.row(place.plane, straight(&place.down, n) as u32)
}

/// Row i of N values filtered from samples one after another, the first of which stands at place `from` of a row.
#[inline(always)]
pub(crate) fn put_filtered<P: FilterSample, const N: usize>(
    lines: &mut [P],
    i: usize,
    row: &[P],
    from: usize,
    across: &LineFilter<P::Taps>,
)
    requires run { IsRun across.now.axis N }
    requires from { from ≡ straight across.now.axis 0 }
    requires filter { IsFilter P.stand_for P.hold P.takes across.now }
    requires low { i ≤ 256 }
    requires few { N ≤ 64 }
    requires room { i * N + N ≤ length lines.old }
    requires row { across.now.axis.size ≤ length row.now }
    requires samples { (k : ℕ) → slice_index (map P.value row.now) k ≤ across.now.most }
    ensures row { (j : ℕ) → j < N → slice_index (map P.value lines.new) (i * N + j) ≡ along across.now.most across.now.kind across.now.axis (slice_index (map P.value row.now)) j }
    ensures before { (k : ℕ) → k < i * N → slice_index (map P.value lines.new) k ≡ slice_index (map P.value lines.old) k }
{
    let at = i * N;
    P::filter_along(
        &mut lines[at..at + N],
        N,
        row,
        from,
        &across.taps,
        across.most,
    );
}

/// Lines of N filtered values: each width has a loop of its own, and the filter beside it.
fn run_lines<P: FilterSample, S: Samples<Kept = P>, const N: usize>(
    lines: &mut [P],
    view: &S,
    place: &Place,
    by: Interpolation,
    first: usize,
    count: usize,
)
    requires width { N ≡ place.now.columns }
    requires run { IsRun place.now.across place.now.columns }
    requires place { IsPlace place.now }
    requires most { P.takes by.most }
    requires low { count ≤ 134 }
    requires near { first + count ≤ 137 }
    requires room { count * place.now.columns ≤ length lines.old }
    requires held { (r : ℕ) → r < count → S.holds view.now place.now.plane (straight place.now.down (first + r)) }
    requires wide { place.now.across.size ≤ S.width view.now place.now.plane }
    requires samples { IsAtMost by.most (S.map view.now place.now.plane) }
    ensures { HoldsRows (map P.value lines.new) place.now.columns count
        (λ r j. along by.most by.kind place.now.across (S.map view.now place.now.plane (straight place.now.down (first + r))) j) }
{
    // a copy stays in registers
    let place = *place;
    let across = filter_of::<P>(&place.across, by.kind, by.most);
    let from = straight(&place.across, 0);
    for r in 0..count {
        let row = read_row::<P, S>(view, &place, first + r, by.most);
        put_filtered::<P, N>(lines, r, row, from, &across);
    }
}

/// Lines along so many rows of the reference, whatever they are.
fn other_lines<P: FilterSample, S: Samples<Kept = P>>(
    lines: &mut [P],
    view: &S,
    place: &Place,
    by: Interpolation,
    first: usize,
    count: usize,
)
    requires place { IsPlace place.now }
    requires most { P.takes by.most }
    requires low { count ≤ 134 }
    requires near { first + count ≤ 137 }
    requires room { count * place.now.columns ≤ length lines.old }
    requires held { (r : ℕ) → r < count → S.holds view.now place.now.plane (straight place.now.down (first + r)) }
    requires wide { place.now.across.size ≤ S.width view.now place.now.plane }
    requires samples { IsAtMost by.most (S.map view.now place.now.plane) }
    ensures { HoldsRows (map P.value lines.new) place.now.columns count
        (λ r j. along by.most by.kind place.now.across (S.map view.now place.now.plane (straight place.now.down (first + r))) j) }
{
    // a copy stays in registers
    let place = *place;
    let across = filter_of::<P>(&place.across, by.kind, by.most);
    for r in 0..count {
        let row = read_row::<P, S>(view, &place, first + r, by.most);
        put_line::<P>(lines, r, place.columns, row, &across);
    }
}

/// Filtered lines along so many rows of the reference, from the one on that lies `first` after the third before the first.
#[inline(always)]
fn filter_lines<P: FilterSample, S: Samples<Kept = P>>(
    lines: &mut [P],
    view: &S,
    place: &Place,
    by: Interpolation,
    first: usize,
    count: usize,
)
    requires place { IsPlace place.now }
    requires most { P.takes by.most }
    requires low { count ≤ 134 }
    requires near { first + count ≤ 137 }
    requires room { count * place.now.columns ≤ length lines.old }
    requires held { (r : ℕ) → r < count → S.holds view.now place.now.plane (straight place.now.down (first + r)) }
    requires wide { place.now.across.size ≤ S.width view.now place.now.plane }
    requires samples { IsAtMost by.most (S.map view.now place.now.plane) }
    ensures { HoldsRows (map P.value lines.new) place.now.columns count
        (λ r j. along by.most by.kind place.now.across (S.map view.now place.now.plane (straight place.now.down (first + r))) j) }
{
    match run_columns(place) {
        4 => run_lines::<P, S, 4>(lines, view, place, by, first, count),
        8 => run_lines::<P, S, 8>(lines, view, place, by, first, count),
        16 => run_lines::<P, S, 16>(lines, view, place, by, first, count),
        32 => run_lines::<P, S, 32>(lines, view, place, by, first, count),
        64 => run_lines::<P, S, 64>(lines, view, place, by, first, count),
        _ => other_lines::<P, S>(lines, view, place, by, first, count),
    }
}

/// Row i of N samples as they are.
#[inline(always)]
pub(crate) fn put_run<P: Sample, const N: usize>(lines: &mut [P], i: usize, row: &[P], from: usize)
    requires low { i ≤ 256 }
    requires few { N ≤ 64 }
    requires near { from ≤ 65536 }
    requires room { i * N + N ≤ length lines.old }
    requires enough { from + N ≤ length row.now }
    ensures row { (j : ℕ) → j < N → slice_index (map P.value lines.new) (i * N + j) ≡ slice_index (map P.value row.now) (from + j) }
    ensures before { (k : ℕ) → k < i * N → slice_index (map P.value lines.new) k ≡ slice_index (map P.value lines.old) k }
{
    let at = i * N;
    let mut line = [P::narrow(0); N];
    copy_short::<P, N>(&mut line, &row[from..from + N]);
    copy_short::<P, N>(&mut lines[at..at + N], &line);
}

/// Lines of N samples as they are: each width has a loop of its own.
fn copy_lines<P: FilterSample, S: Samples<Kept = P>, const N: usize>(
    lines: &mut [P],
    view: &S,
    place: &Place,
    most: u16,
    first: usize,
    count: usize,
)
    requires width { N ≡ place.now.columns }
    requires copied { IsCopied place.now.across place.now.columns }
    requires place { IsPlace place.now }
    requires low { count ≤ 134 }
    requires near { first + count ≤ 137 }
    requires room { count * place.now.columns ≤ length lines.old }
    requires held { (r : ℕ) → r < count → S.holds view.now place.now.plane (straight place.now.down (first + r)) }
    requires wide { place.now.across.size ≤ S.width view.now place.now.plane }
    requires samples { IsAtMost most (S.map view.now place.now.plane) }
    ensures { HoldsRows (map P.value lines.new) place.now.columns count
        (λ r j. S.map view.now place.now.plane (straight place.now.down (first + r)) (straight place.now.across (3 + j))) }
{
    // a copy stays in registers
    let place = *place;
    let from = straight(&place.across, 3);
    for r in 0..count {
        let row = read_row::<P, S>(view, &place, first + r, most);
        put_run::<P, N>(lines, r, row, from);
    }
}

/// Lines along so many rows of the reference one by one, from the one on that lies `first` after the third before the first.
#[inline(always)]
fn fill_rows<P: FilterSample, S: Samples<Kept = P>>(
    lines: &mut [P],
    view: &S,
    place: &Place,
    by: Interpolation,
    first: usize,
    count: usize,
)
    requires place { IsPlace place.now }
    requires most { P.takes by.most }
    requires low { count ≤ 134 }
    requires near { first + count ≤ 137 }
    requires room { count * place.now.columns ≤ length lines.old }
    requires held { (r : ℕ) → r < count → S.holds view.now place.now.plane (straight place.now.down (first + r)) }
    requires wide { place.now.across.size ≤ S.width view.now place.now.plane }
    requires samples { IsAtMost by.most (S.map view.now place.now.plane) }
    ensures { HoldsRows (map P.value lines.new) place.now.columns count
        (λ r j. along by.most by.kind place.now.across (S.map view.now place.now.plane (straight place.now.down (first + r))) j) }
{
    match copied_columns(place) {
        4 => copy_lines::<P, S, 4>(lines, view, place, by.most, first, count),
        8 => copy_lines::<P, S, 8>(lines, view, place, by.most, first, count),
        16 => copy_lines::<P, S, 16>(lines, view, place, by.most, first, count),
        32 => copy_lines::<P, S, 32>(lines, view, place, by.most, first, count),
        64 => copy_lines::<P, S, 64>(lines, view, place, by.most, first, count),
        _ => filter_lines::<P, S>(lines, view, place, by, first, count),
    }
}

/// So many rows of the reference, from the one on that lies `first` after the third before the first, and how far each begins
/// behind the one above, if they are inside of it and lie in one piece.
#[inline(always)]
pub(crate) fn piece_of<'a, P: Sample, S: Samples<Kept = P>>(
    view: &'a S,
    place: &Place,
    first: usize,
    count: usize,
    most: u16,
) -> Option<(&'a [P], usize)>
    requires place { IsPlace place.now }
    requires some { 0 < count }
    requires low { count ≤ 134 }
    requires near { first + count ≤ 137 }
    requires held { (r : ℕ) → r < count → S.holds view.now place.now.plane (straight place.now.down (first + r)) }
    requires wide { place.now.across.size ≤ S.width view.now place.now.plane }
    requires samples { IsAtMost most (S.map view.now place.now.plane) }
    ensures rows { IfSome result (λ p. AreRows most place.now.across.size count p.1 (map P.value p.0.now)) }
    ensures samples { IfSome result (λ p. (r c : ℕ) → r < count → c < place.now.across.size → strided p.1 (map P.value p.0.now) r c ≡ S.map view.now place.now.plane (straight place.now.down (first + r)) c) }
{
    if is_among(&place.down, first, count) {
        view.rows(place.plane, straight(&place.down, first) as u32, count)
    } else {
        None
    }
}

/// Lines along so many rows of the reference, in one piece or one by one.
#[inline(always)]
fn fill_part<P: FilterSample, S: Samples<Kept = P>>(
    lines: &mut [P],
    view: &S,
    place: &Place,
    by: Interpolation,
    first: usize,
    count: usize,
)
    requires place { IsPlace place.now }
    requires most { P.takes by.most }
    requires some { 0 < count }
    requires low { count ≤ 134 }
    requires near { first + count ≤ 137 }
    requires room { count * place.now.columns ≤ length lines.old }
    requires held { (r : ℕ) → r < count → S.holds view.now place.now.plane (straight place.now.down (first + r)) }
    requires wide { place.now.across.size ≤ S.width view.now place.now.plane }
    requires samples { IsAtMost by.most (S.map view.now place.now.plane) }
    ensures { HoldsRows (map P.value lines.new) place.now.columns count
        (λ r j. along by.most by.kind place.now.across (S.map view.now place.now.plane (straight place.now.down (first + r))) j) }
{
    match piece_of::<P, S>(view, place, first, count, by.most) {
        Some((samples, stride)) => fill_piece::<P>(lines, samples, stride, place, by, count),
        None => fill_rows::<P, S>(lines, view, place, by, first, count),
    }
}

/// How many of so many rows lie before the next one at which a frame that is kept in parts may be cut: these have 32 rows, or a multiple of
/// them, and are cut eight rows above.
#[inline(always)]
fn until_cut(place: &Place, first: usize, count: usize) -> usize
    requires place { IsPlace place.now }
    requires near { first ≤ 256 }
    requires some { 0 < count }
    ensures some { 0 < result }
    ensures low { result ≤ count }
{
    let y = straight(&place.down, first);
    count.min(32 - (y + 8) % 32)
}

/// The rows of a frame that is kept in parts, those of one part after another.
fn fill_parts<P: FilterSample, S: Samples<Kept = P>>(
    lines: &mut [P],
    view: &S,
    place: &Place,
    by: Interpolation,
    first: usize,
    count: usize,
)
    requires place { IsPlace place.now }
    requires most { P.takes by.most }
    requires low { count ≤ 134 }
    requires near { first + count ≤ 137 }
    requires room { count * place.now.columns ≤ length lines.old }
    requires held { (r : ℕ) → r < count → S.holds view.now place.now.plane (straight place.now.down (first + r)) }
    requires wide { place.now.across.size ≤ S.width view.now place.now.plane }
    requires samples { IsAtMost by.most (S.map view.now place.now.plane) }
    ensures { HoldsRows (map P.value lines.new) place.now.columns count
        (λ r j. along by.most by.kind place.now.across (S.map view.now place.now.plane (straight place.now.down (first + r))) j) }
{
    let mut done = 0;
    while done < count {
        let part = until_cut(place, first + done, count - done);
        let at = done * place.columns;
        fill_part::<P, S>(&mut lines[at..], view, place, by, first + done, part);
        done += part;
    }
}

/// Lines along so many rows of the reference, from the one on that lies `first` after the third before the first.
#[inline(always)]
pub(crate) fn fill_lines<P: FilterSample, S: Samples<Kept = P>>(
    lines: &mut [P],
    view: &S,
    place: &Place,
    by: Interpolation,
    first: usize,
    count: usize,
)
    requires place { IsPlace place.now }
    requires most { P.takes by.most }
    requires some { 0 < count }
    requires low { count ≤ 134 }
    requires near { first + count ≤ 137 }
    requires room { count * place.now.columns ≤ length lines.old }
    requires held { (r : ℕ) → r < count → S.holds view.now place.now.plane (straight place.now.down (first + r)) }
    requires wide { place.now.across.size ≤ S.width view.now place.now.plane }
    requires samples { IsAtMost by.most (S.map view.now place.now.plane) }
    ensures { HoldsRows (map P.value lines.new) place.now.columns count
        (λ r j. along by.most by.kind place.now.across (S.map view.now place.now.plane (straight place.now.down (first + r))) j) }
{
    match piece_of::<P, S>(view, place, first, count, by.most) {
        Some((samples, stride)) => fill_piece::<P>(lines, samples, stride, place, by, count),
        None => fill_parts::<P, S>(lines, view, place, by, first, count),
    }
}
