//! One line, with no branch: the loops over eight columns become lanes.

ghost use Rattle.std.specs.Prelude.{◌≡◌, ◌≤◌, ◌∷◌, [], ◌+ℤ◌, ◌-ℤ◌, ◌*ℤ◌, ◌≤ℤ◌, ◌^◌, pos, neg_ℤ, unsigned_abs, nat_le, ◌&&◌, not, if◌then◌else◌};
ghost use Rattle.std.specs.Int.{int_shr, abs_diff};
ghost use Rattle.line_filter.specs.Lines.{filter4_clamp, moved_sample, filter_mask, hev_mask, flat_mask, outer, change, narrow_filter, wide_filter, filtered_near};
ghost use Rattle.line_filter.specs.Code.{IsNear, line_of, narrowed, smoothed};

use crate::edge::Limits;

/// Four samples on each side of an edge.
#[derive(Clone, Copy, Debug, PartialEq, Eq)]
pub struct Near {
    pub p3: u16,
    pub p2: u16,
    pub p1: u16,
    pub p0: u16,
    pub q0: u16,
    pub q1: u16,
    pub q2: u16,
    pub q3: u16,
}

#[inline(always)]
pub fn is_close(x: u16, y: u16, most: u16) -> bool
    ensures { result ≡ nat_le (abs_diff x y) most }
{
    x.abs_diff(y) <= most
}

#[inline(always)]
#[tactic(auto, unfolding(crate::specs::Lines::filter_mask))]
pub fn filter_mask(x: Near, l: Limits) -> bool
    requires small { IsNear x }
    ensures { result ≡ filter_mask l (line_of x) }
{
    is_close(x.p3, x.p2, l.limit)
        & is_close(x.p2, x.p1, l.limit)
        & is_close(x.p1, x.p0, l.limit)
        & is_close(x.q1, x.q0, l.limit)
        & is_close(x.q2, x.q1, l.limit)
        & is_close(x.q3, x.q2, l.limit)
        & (2 * x.p0.abs_diff(x.q0) + x.p1.abs_diff(x.q1) / 2 <= l.blimit)
}

#[inline(always)]
#[tactic(auto, unfolding(crate::specs::Lines::hev_mask))]
pub fn is_high_variance(x: Near, l: Limits) -> bool
    ensures { result ≡ hev_mask l (line_of x) }
{
    (x.p1.abs_diff(x.p0) > l.thresh) | (x.q1.abs_diff(x.q0) > l.thresh)
}

#[inline(always)]
#[tactic(auto, unfolding(crate::specs::Lines::flat_mask))]
pub fn flat_mask(x: Near, l: Limits) -> bool
    ensures { result ≡ flat_mask l (line_of x) }
{
    (is_close(x.p1, x.p0, l.one) & is_close(x.q1, x.q0, l.one))
        & (is_close(x.p2, x.p0, l.one) & is_close(x.q2, x.q0, l.one))
        & (is_close(x.p3, x.p0, l.one) & is_close(x.q3, x.q0, l.one))
}

#[inline(always)]
#[tactic(auto, unfolding(crate::specs::Lines::filter4_clamp))]
pub fn clip(x: i16, half: u16) -> i16
    requires half { half ≤ 2048 }
    ensures value { result ≡ filter4_clamp half x }
    ensures low { neg_ℤ (pos half) ≤ℤ result }
    ensures high { result ≤ℤ pos half }
    ensures size { unsigned_abs result ≤ 2048 }
{
    let half = half as i16;
    x.min(half - 1).max(-half)
}

#[inline(always)]
pub fn eighth(x: i16) -> i16
    requires { unsigned_abs x ≤ 2048 }
    ensures value { result ≡ int_shr x 3 }
    ensures size { unsigned_abs result ≤ unsigned_abs x }
{
    x >> 3
}

#[inline(always)]
pub fn halved(x: i16) -> i16
    requires { unsigned_abs x ≤ 2049 }
    ensures value { result ≡ int_shr x 1 }
    ensures size { unsigned_abs result ≤ unsigned_abs x }
{
    x >> 1
}

#[inline(always)]
pub fn outer(x: Near, high: bool, half: u16) -> i16
    requires small { IsNear x }
    requires half { half ≤ 2048 }
    ensures value { result ≡ outer high half (line_of x) }
    ensures size { unsigned_abs result ≤ 2048 }
{
    if high {
        clip(x.p1 as i16 - x.q1 as i16, half)
    } else {
        0
    }
}

#[inline(always)]
pub fn change(x: Near, high: bool, half: u16) -> i16
    requires small { IsNear x }
    requires half { half ≤ 2048 }
    ensures value { result ≡ change high half (line_of x) }
    ensures size { unsigned_abs result ≤ 2048 }
{
    let outer = outer(x, high, half);
    clip(outer + 3 * (x.q0 as i16 - x.p0 as i16), half)
}

/// An eighth of the change, rounded.
#[inline(always)]
pub fn step(f: i16, more: i16, half: u16) -> i16
    requires f { unsigned_abs f ≤ 2048 }
    requires more { unsigned_abs more ≤ 4 }
    requires half { half ≤ 2048 }
    ensures value { result ≡ int_shr (filter4_clamp half (f +ℤ more)) 3 }
    ensures size { unsigned_abs result ≤ 2048 }
{
    eighth(clip(f + more, half))
}

#[inline(always)]
pub fn moved_sample(sample: u16, by: i16, half: u16) -> u16
    requires small { sample ≤ 4095 }
    requires by { unsigned_abs by ≤ 2049 }
    requires half { half ≤ 2048 }
    ensures { result ≡ moved_sample half sample by }
{
    (clip(sample as i16 - half as i16 + by, half) + half as i16) as u16
}

#[inline(always)]
#[tactic(auto, unfolding(crate::specs::Lines::narrow_filter))]
pub fn narrow(x: Near, l: Limits) -> Near
    requires small { IsNear x }
    requires half { l.half ≤ 2048 }
    ensures { line_of result ≡ narrow_filter l (line_of x) }
{
    let high = is_high_variance(x, l);
    let f = change(x, high, l.half);
    let a = step(f, 4, l.half);
    let b = step(f, 3, l.half);
    let g = halved(a + 1);
    Near {
        p3: x.p3,
        p2: x.p2,
        p1: moved_unless(high, x.p1, g, l.half),
        p0: moved_sample(x.p0, b, l.half),
        q0: moved_sample(x.q0, -a, l.half),
        q1: moved_unless(high, x.q1, -g, l.half),
        q2: x.q2,
        q3: x.q3,
    }
}

#[inline(always)]
pub fn moved_unless(high: bool, sample: u16, by: i16, half: u16) -> u16
    requires small { sample ≤ 4095 }
    requires by { unsigned_abs by ≤ 2049 }
    requires half { half ≤ 2048 }
    ensures { result ≡ (if not high then moved_sample half sample by else sample) }
{
    if high {
        sample
    } else {
        moved_sample(sample, by, half)
    }
}

/// Six means of eight samples: from each sum to the next, two samples leave and two come.
#[inline(always)]
#[tactic(auto, unfolding(crate::specs::Lines::wide_filter))]
pub fn smooth(x: Near) -> Near
    requires small { IsNear x }
    ensures { line_of result ≡ wide_filter 3 (line_of x) }
{
    let p2 = 3 * x.p3 + 2 * x.p2 + x.p1 + x.p0 + x.q0 + 4;
    let p1 = p2 - x.p3 - x.p2 + x.p1 + x.q1;
    let p0 = p1 - x.p3 - x.p1 + x.p0 + x.q2;
    let q0 = p0 - x.p3 - x.p0 + x.q0 + x.q3;
    let q1 = q0 - x.p2 - x.q0 + x.q1 + x.q3;
    let q2 = q1 - x.p1 - x.q1 + x.q2 + x.q3;
    Near {
        p3: x.p3,
        p2: p2 >> 3,
        p1: p1 >> 3,
        p0: p0 >> 3,
        q0: q0 >> 3,
        q1: q1 >> 3,
        q2: q2 >> 3,
        q3: x.q3,
    }
}

/// The line filtered, where it is no wider than eight.
#[inline(always)]
#[tactic(auto, unfolding(crate::specs::Lines::filtered_near))]
pub fn filtered(x: Near, l: Limits, wide: bool) -> Near
    requires small { IsNear x }
    requires half { l.half ≤ 2048 }
    ensures { line_of result ≡ filtered_near l wide (line_of x) }
{
    let calm = filter_mask(x, l);
    let flat = flat_mask(x, l) & wide;
    let narrow = narrow(x, l);
    let smooth = smooth(x);
    chosen(calm, flat, x, smooth, narrow)
}

/// The line filtered, where it isn't flat.
#[inline(always)]
pub fn narrowed(x: Near, l: Limits) -> Near
    requires small { IsNear x }
    requires half { l.half ≤ 2048 }
    ensures { line_of result ≡ narrowed l (line_of x) }
{
    let calm = filter_mask(x, l);
    let narrow = narrow(x, l);
    where_calm(calm, narrow, x)
}

/// The line filtered, where it is flat if it changes.
#[inline(always)]
pub fn smoothed(x: Near, l: Limits) -> Near
    requires small { IsNear x }
    ensures { line_of result ≡ smoothed l (line_of x) }
{
    let calm = filter_mask(x, l);
    let smooth = smooth(x);
    where_calm(calm, smooth, x)
}

#[inline(always)]
pub fn where_calm(calm: bool, filtered: Near, x: Near) -> Near
    ensures { result ≡ (if calm then filtered else x) }
{
    if calm { filtered } else { x }
}

#[inline(always)]
pub fn chosen(calm: bool, flat: bool, x: Near, smooth: Near, narrow: Near) -> Near
    ensures { result ≡ (if not calm then x else (if flat then smooth else narrow)) }
{
    if !calm {
        x
    } else if flat {
        smooth
    } else {
        narrow
    }
}
