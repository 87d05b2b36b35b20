//! Blocks predicted where they stand in a plane.

ghost use Rattle.std.specs.Prelude.{◌≡◌, ℕ, ◌*◌, ◌/◌, ◌≤◌, length};
ghost use Rattle.std.specs.Bool.{OnTrue, OnFalse};
ghost use Rattle.vp9_types.specs.Maps.{IsAtMost};
ghost use Rattle.inter_places.specs.Axes.{IsPlace, first_place, last_place, fraction};
ghost use Rattle.planes.specs.Planes.{plane_map};
ghost use Rattle.inter_predict.specs.Code.{LiesIn, with_place};
ghost use Rattle.inter_predict.specs.InterSamples.{predicted_at};

use crate::filter::{Interpolation, LineFilter, filter_of};
use crate::places::{is_copied, is_whole};
use crate::prediction::LINES;
use crate::rows::{fill_lines, piece_of};
use inter_places::{Place, straight};
use planes::{RowMaker, SamplePlane, copy_short};
use tap_filter::FilterSample;
use vp9_types::{InterpFilter, Sample, Samples};

/// Rows that are samples as they are: each begins `stride` samples behind the one above, the first at `from`.
#[derive(Drop)]
struct CopiedRows<'a, P> {
    samples: &'a [P],
    stride: usize,
    from: usize,
}

impl<'a, P: Sample, const N: usize> RowMaker<P, N> for CopiedRows<'a, P> {
    ghost use Rattle.std.specs.Prelude.{length, map};
    ghost use Rattle.inter_predict.specs.Code.{HasCopy, copied_from};

    ghost makes = { λ m i. HasCopy (length m.samples.now) m.stride m.from N i };

    ghost made = { λ m. copied_from (map P.value m.samples.now) m.stride m.from };

    #[inline(always)]
    fn make(&self, i: usize, row: &mut [P]) {
        let samples = self.samples;
        let at = i * self.stride + self.from;
        // a line of its own, since what is read might be what is written
        let mut line = [P::narrow(0); N];
        copy_short::<P, N>(&mut line, &samples[at..at + N]);
        copy_short::<P, N>(row, &line);
    }
}

/// Rows of N values, each filtered down a column of lines of N.
#[derive(Drop)]
struct DownRows<'a, P, T> {
    lines: &'a [P],
    down: &'a LineFilter<T>,
}

impl<'a, P: FilterSample, const N: usize> RowMaker<P, N> for DownRows<'a, P, P::Taps> {
    ghost use Rattle.std.specs.Prelude.{map};
    ghost use Rattle.inter_predict.specs.Code.{HasColumns, filtered_below};

    ghost makes = { λ m i. HasColumns P.stand_for P.hold P.takes m.down.now (map P.value m.lines.now) N i };

    ghost made = { λ m. filtered_below m.down.now.most (P.stand_for m.down.now.taps) (map P.value m.lines.now) N };

    #[inline(always)]
    fn make(&self, i: usize, row: &mut [P]) {
        let (lines, down) = (self.lines, self.down);
        P::filter_down(row, N, lines, i * N, N, &down.taps, down.most);
    }
}

/// Puts a block of N columns whose samples are copied, if they lie in one piece of the reference.
fn put_copied<P: FilterSample, S: Samples<Kept = P>, const N: usize>(
    view: &S,
    place: &Place,
    by: Interpolation,
    samples: &mut SamplePlane<P>,
) -> bool
    requires width { N ≡ place.now.columns }
    requires place { IsPlace place.now }
    requires step { place.now.down.step ≡ 16 }
    requires phase { fraction place.now.down ≡ 0 }
    requires held { (r : ℕ) → first_place place.now.down ≤ r → r ≤ last_place place.now.down place.now.rows → S.holds view.now place.now.plane r }
    requires wide { place.now.across.size ≤ S.width view.now place.now.plane }
    requires samples { IsAtMost by.most (S.map view.now place.now.plane) }
    requires inside { LiesIn samples.old.area place.now }
    ensures kept { OnFalse result (samples.new ≡ samples.old) }
    ensures area { samples.new.area ≡ samples.old.area }
    ensures map { OnTrue result (plane_map samples.new ≡ with_place samples.old.area (plane_map samples.old) place.now (predicted_at by.most by.kind place.now (S.map view.now))) }
{
    if !is_copied(&place.across, N) {
        return false;
    }
    let Some((rows, stride)) = piece_of::<P, S>(view, place, 3, place.rows, by.most) else {
        return false;
    };
    let maker = CopiedRows {
        samples: rows,
        stride,
        from: straight(&place.across, 3),
    };
    samples.put_made::<N, CopiedRows<'_, P>>(place.row, place.column, place.rows, &maker);
    true
}

/// Puts a block of N columns that is filtered down columns, where the reference has the frame's size.
fn put_down<P: FilterSample, S: Samples<Kept = P>, const N: usize>(
    view: &S,
    place: &Place,
    by: Interpolation,
    lines: &mut [P],
    samples: &mut SamplePlane<P>,
)
    requires width { N ≡ place.now.columns }
    requires sixteens { N ≡ 16 * (N / 16) }
    requires place { IsPlace place.now }
    requires most { P.takes by.most }
    requires step { place.now.down.step ≡ 16 }
    requires lines { LINES ≤ length lines.old }
    requires held { (r : ℕ) → first_place place.now.down ≤ r → r ≤ last_place place.now.down place.now.rows → S.holds view.now place.now.plane r }
    requires wide { place.now.across.size ≤ S.width view.now place.now.plane }
    requires samples { IsAtMost by.most (S.map view.now place.now.plane) }
    requires inside { LiesIn samples.old.area place.now }
    ensures area { samples.new.area ≡ samples.old.area }
    ensures map { plane_map samples.new ≡ with_place samples.old.area (plane_map samples.old) place.now (predicted_at by.most by.kind place.now (S.map view.now)) }
{
    let count = place.rows + 7;
    fill_lines::<P, S>(lines, view, place, by, 0, count);
    let down = filter_of::<P>(&place.down, by.kind, by.most);
    let maker = DownRows {
        lines: &lines[..count * N],
        down: &down,
    };
    samples.put_made::<N, DownRows<'_, P, P::Taps>>(place.row, place.column, place.rows, &maker);
}

/// Puts a block of N columns, if it is copied or filtered down columns.
#[inline(always)]
fn put_columns<P: FilterSample, S: Samples<Kept = P>, const N: usize>(
    view: &S,
    place: &Place,
    by: Interpolation,
    lines: &mut [P],
    samples: &mut SamplePlane<P>,
) -> bool
    requires width { N ≡ place.now.columns }
    requires sixteens { N ≡ 16 * (N / 16) }
    requires place { IsPlace place.now }
    requires most { P.takes by.most }
    requires lines { LINES ≤ length lines.old }
    requires held { (r : ℕ) → first_place place.now.down ≤ r → r ≤ last_place place.now.down place.now.rows → S.holds view.now place.now.plane r }
    requires wide { place.now.across.size ≤ S.width view.now place.now.plane }
    requires samples { IsAtMost by.most (S.map view.now place.now.plane) }
    requires inside { LiesIn samples.old.area place.now }
    ensures kept { OnFalse result (samples.new ≡ samples.old) }
    ensures area { samples.new.area ≡ samples.old.area }
    ensures map { OnTrue result (plane_map samples.new ≡ with_place samples.old.area (plane_map samples.old) place.now (predicted_at by.most by.kind place.now (S.map view.now))) }
{
    if is_whole(&place.down) {
        return put_copied::<P, S, N>(view, place, by, samples);
    }
    if place.down.step != 16 {
        return false;
    }
    put_down::<P, S, N>(view, place, by, lines, samples);
    true
}

/// Puts a block of N columns, if it is copied.
#[inline(always)]
fn put_copy<P: FilterSample, S: Samples<Kept = P>, const N: usize>(
    view: &S,
    place: &Place,
    by: Interpolation,
    samples: &mut SamplePlane<P>,
) -> bool
    requires width { N ≡ place.now.columns }
    requires place { IsPlace place.now }
    requires held { (r : ℕ) → first_place place.now.down ≤ r → r ≤ last_place place.now.down place.now.rows → S.holds view.now place.now.plane r }
    requires wide { place.now.across.size ≤ S.width view.now place.now.plane }
    requires samples { IsAtMost by.most (S.map view.now place.now.plane) }
    requires inside { LiesIn samples.old.area place.now }
    ensures kept { OnFalse result (samples.new ≡ samples.old) }
    ensures area { samples.new.area ≡ samples.old.area }
    ensures map { OnTrue result (plane_map samples.new ≡ with_place samples.old.area (plane_map samples.old) place.now (predicted_at by.most by.kind place.now (S.map view.now))) }
{
    if !is_whole(&place.down) {
        return false;
    }
    put_copied::<P, S, N>(view, place, by, samples)
}

/// Puts a block that is predicted from one reference at its place in a plane, and says whether it did: where the reference
/// has the frame's size, blocks of 16, 32 and 64 columns are put, and smaller ones if they are copied; those that are copied
/// only where they lie in one piece of it. What is asked of the reference and of the lines is as `predict` asks it.
pub fn predict_in_plane<P: FilterSample, S: Samples<Kept = P>>(
    view: &S,
    place: &Place,
    kind: InterpFilter,
    most: u16,
    lines: &mut [P],
    samples: &mut SamplePlane<P>,
) -> bool
    requires place { IsPlace place.now }
    requires most { P.takes most }
    requires lines { LINES ≤ length lines.old }
    requires held { (r : ℕ) → first_place place.now.down ≤ r → r ≤ last_place place.now.down place.now.rows → S.holds view.now place.now.plane r }
    requires wide { place.now.across.size ≤ S.width view.now place.now.plane }
    requires samples { IsAtMost most (S.map view.now place.now.plane) }
    requires inside { LiesIn samples.old.area place.now }
    ensures kept { OnFalse result (samples.new ≡ samples.old) }
    ensures area { samples.new.area ≡ samples.old.area }
    ensures map { OnTrue result (plane_map samples.new ≡ with_place samples.old.area (plane_map samples.old) place.now (predicted_at most kind place.now (S.map view.now))) }
{
    let by = Interpolation { kind, most };
    match place.columns {
        4 => put_copy::<P, S, 4>(view, place, by, samples),
        8 => put_copy::<P, S, 8>(view, place, by, samples),
        16 => put_columns::<P, S, 16>(view, place, by, lines, samples),
        32 => put_columns::<P, S, 32>(view, place, by, lines, samples),
        64 => put_columns::<P, S, 64>(view, place, by, lines, samples),
        _ => false,
    }
}
