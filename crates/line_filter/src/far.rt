//! One line of eight samples on each side.

ghost use Rattle.std.specs.Prelude.{◌≡◌, ◌≤◌, ◌&&◌, nat_le, if◌then◌else◌};
ghost use Rattle.line_filter.specs.Lines.{flat_mask2, wide_filter, filtered_line};
ghost use Rattle.line_filter.specs.declared.edge.FilterWidth.TheVariants.{Sixteen};
ghost use Rattle.line_filter.specs.Code.{IsNear, IsFar, smoothed_far, wide_line_of};

use crate::edge::Limits;
use crate::near::{Near, filter_mask, filtered, flat_mask, is_close};

/// The fifth to the eighth sample on each side of an edge.
#[derive(Clone, Copy, Debug, PartialEq, Eq)]
pub struct Far {
    pub p7: u16,
    pub p6: u16,
    pub p5: u16,
    pub p4: u16,
    pub q4: u16,
    pub q5: u16,
    pub q6: u16,
    pub q7: u16,
}

/// Eight samples on each side.
#[derive(Clone, Copy, Debug, PartialEq, Eq)]
pub struct Wide {
    pub near: Near,
    pub far: Far,
}

#[inline(always)]
#[tactic(auto, unfolding(crate::specs::Lines::flat_mask2))]
pub fn flat_mask2(x: Near, y: Far, l: Limits) -> bool
    ensures { result ≡ flat_mask2 l (wide_line_of x y) }
{
    (is_close(y.p4, x.p0, l.one) & is_close(y.q4, x.q0, l.one))
        & (is_close(y.p5, x.p0, l.one) & is_close(y.q5, x.q0, l.one))
        & (is_close(y.p6, x.p0, l.one) & is_close(y.q6, x.q0, l.one))
        & (is_close(y.p7, x.p0, l.one) & is_close(y.q7, x.q0, l.one))
}

/// Fourteen means of sixteen samples: from each sum to the next, two samples leave and two come.
#[inline(always)]
#[tactic(auto, unfolding(crate::specs::Lines::wide_filter))]
pub fn smooth_far(x: Near, y: Far) -> Wide
    requires near { IsNear x }
    requires far { IsFar y }
    ensures { wide_line_of result.near result.far ≡ wide_filter 7 (wide_line_of x y) }
{
    let p6 = 7 * y.p7 + 2 * y.p6 + y.p5 + y.p4 + x.p3 + x.p2 + x.p1 + x.p0 + x.q0 + 8;
    let p5 = p6 - y.p7 - y.p6 + y.p5 + x.q1;
    let p4 = p5 - y.p7 - y.p5 + y.p4 + x.q2;
    let p3 = p4 - y.p7 - y.p4 + x.p3 + x.q3;
    let p2 = p3 - y.p7 - x.p3 + x.p2 + y.q4;
    let p1 = p2 - y.p7 - x.p2 + x.p1 + y.q5;
    let p0 = p1 - y.p7 - x.p1 + x.p0 + y.q6;
    let q0 = p0 - y.p7 - x.p0 + x.q0 + y.q7;
    let q1 = q0 - y.p6 - x.q0 + x.q1 + y.q7;
    let q2 = q1 - y.p5 - x.q1 + x.q2 + y.q7;
    let q3 = q2 - y.p4 - x.q2 + x.q3 + y.q7;
    let q4 = q3 - x.p3 - x.q3 + y.q4 + y.q7;
    let q5 = q4 - x.p2 - y.q4 + y.q5 + y.q7;
    let q6 = q5 - x.p1 - y.q5 + y.q6 + y.q7;
    Wide {
        near: Near {
            p3: p3 >> 4,
            p2: p2 >> 4,
            p1: p1 >> 4,
            p0: p0 >> 4,
            q0: q0 >> 4,
            q1: q1 >> 4,
            q2: q2 >> 4,
            q3: q3 >> 4,
        },
        far: Far {
            p7: y.p7,
            p6: p6 >> 4,
            p5: p5 >> 4,
            p4: p4 >> 4,
            q4: q4 >> 4,
            q5: q5 >> 4,
            q6: q6 >> 4,
            q7: y.q7,
        },
    }
}

/// The line filtered by the filters of all widths.
#[inline(always)]
pub fn filtered_far(x: Near, y: Far, l: Limits) -> Wide
    requires near { IsNear x }
    requires far { IsFar y }
    requires half { l.half ≤ 2048 }
    ensures { wide_line_of result.near result.far ≡ filtered_line l Sixteen (wide_line_of x y) }
{
    let near = filtered(x, l, true);
    let flat = filter_mask(x, l) & (flat_mask(x, l) & flat_mask2(x, y, l));
    let smooth = smooth_far(x, y);
    chosen_far(flat, smooth, Wide { near, far: y })
}

/// The line filtered, where the widest filter changes it if any does.
#[inline(always)]
pub fn smoothed_far(x: Near, y: Far, l: Limits) -> Wide
    requires near { IsNear x }
    requires far { IsFar y }
    ensures { wide_line_of result.near result.far ≡ smoothed_far l (wide_line_of x y) }
{
    let calm = filter_mask(x, l);
    let smooth = smooth_far(x, y);
    chosen_far(calm, smooth, Wide { near: x, far: y })
}

#[inline(always)]
pub fn chosen_far(flat: bool, smooth: Wide, other: Wide) -> Wide
    ensures { result ≡ (if flat then smooth else other) }
{
    if flat { smooth } else { other }
}
