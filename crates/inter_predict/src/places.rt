//! Places in a reference: how they lie in it, and whether they are copied or filtered in a run.

ghost use Rattle.std.specs.Prelude.{◌≡◌, ◌+◌, ◌^◌, ◌≤◌, ◌<◌, pos, ◌+ℤ◌, ◌-ℤ◌, unsigned_abs};
ghost use Rattle.std.specs.Bool.{OnTrue};
ghost use Rattle.inter_places.specs.Axes.{fraction, whole, IsAxis, IsPlace};
ghost use Rattle.inter_predict.specs.Code.{AreAmong, AreInside, IsCopied, IsRun, IsSpan};

use inter_places::{Axis, Place, phase_of};

/// Of places that follow one another, those below `left` lie left of the plane, those below `end` follow one another in it,
/// the first of them at `from`, and the rest lie right of it.
#[derive(Clone, Copy)]
pub(crate) struct Span {
    pub(crate) left: usize,
    pub(crate) end: usize,
    pub(crate) from: usize,
}

/// Where the place would lie that is `first` after the third before the first, if the plane had no ends.
#[inline(always)]
fn place_from(a: &Axis, first: usize) -> i32
    requires axis { IsAxis a.now }
    requires near { first ≤ 256 }
    ensures value { result ≡ (whole a.now +ℤ pos first) -ℤ pos 3 }
    ensures near { unsigned_abs result ≤ 2 ^ 24 }
{
    (a.start >> 4) + first as i32 - 3
}

/// How n places lie in the plane, from the one on that lies `first` after the third before the first.
#[inline(always)]
pub(crate) fn span_of(a: &Axis, first: usize, n: usize) -> Span
    requires axis { IsAxis a.now }
    requires near { first ≤ 64 }
    requires few { n ≤ 136 }
    ensures { IsSpan a.now first n result }
{
    let at = place_from(a, first);
    let size = a.size as usize;
    if at < 0 {
        let before = -at as usize;
        Span {
            left: before.min(n),
            end: (before + size).min(n),
            from: 0,
        }
    } else {
        let from = size.min(at as usize);
        Span {
            left: 0,
            end: n.min(size - from),
            from,
        }
    }
}

/// Whether the first n places follow one another in the plane.
#[inline(always)]
pub(crate) fn is_inside(a: &Axis, n: usize) -> bool
    requires axis { IsAxis a.now }
    requires near { n ≤ 256 }
    ensures { OnTrue result (AreInside a.now n) }
{
    let at = (a.start >> 4) - 3;
    0 <= at && at as usize + n <= a.size as usize
}

/// Whether n places follow one another in the plane, from the one on that lies `first` after the third before the first.
#[inline(always)]
pub(crate) fn is_among(a: &Axis, first: usize, n: usize) -> bool
    requires axis { IsAxis a.now }
    requires near { first ≤ 256 }
    requires few { n ≤ 256 }
    ensures { OnTrue result (AreAmong a.now first n) }
{
    let at = place_from(a, first);
    0 <= at && at as usize + n <= a.size as usize
}

/// Whether each value is a sample as it is.
#[inline(always)]
pub(crate) fn is_whole(a: &Axis) -> bool
    requires { IsAxis a.now }
    ensures step { OnTrue result (a.now.step ≡ 16) }
    ensures phase { OnTrue result (fraction a.now ≡ 0) }
{
    a.step == 16 && phase_of(a) == 0
}

/// Whether lines of n values are samples as they are, inside the plane.
#[inline(always)]
pub(crate) fn is_copied(a: &Axis, n: usize) -> bool
    requires axis { IsAxis a.now }
    requires few { n ≤ 64 }
    ensures { OnTrue result (IsCopied a.now n) }
{
    is_whole(a) && is_inside(a, n + 7)
}

/// Whether lines of n values are filtered from samples inside the plane.
#[inline(always)]
pub(crate) fn is_run(a: &Axis, n: usize) -> bool
    requires axis { IsAxis a.now }
    requires few { n ≤ 64 }
    ensures { OnTrue result (IsRun a.now n) }
{
    a.step == 16 && is_inside(a, 16 * n.div_ceil(16) + 7)
}

/// A block's columns, if its lines are filtered from samples one after another, else 0.
#[inline(always)]
pub(crate) fn run_columns(place: &Place) -> usize
    requires { IsPlace place.now }
    ensures width { 0 < result → result ≡ place.now.columns }
    ensures run { 0 < result → IsRun place.now.across place.now.columns }
{
    if is_run(&place.across, place.columns) {
        place.columns
    } else {
        0
    }
}

/// A block's columns, if its lines are samples as they are, else 0.
#[inline(always)]
pub(crate) fn copied_columns(place: &Place) -> usize
    requires { IsPlace place.now }
    ensures width { 0 < result → result ≡ place.now.columns }
    ensures copied { 0 < result → IsCopied place.now.across place.now.columns }
{
    if is_copied(&place.across, place.columns) {
        place.columns
    } else {
        0
    }
}
