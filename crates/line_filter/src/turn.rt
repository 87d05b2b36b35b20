//! Eight rows turned into eight columns.

ghost use Rattle.std.specs.Prelude.{◌≡◌};
ghost use Rattle.line_filter.specs.Code.{turned, upper_woven, lower_woven};

use crate::lanes::Lanes;
use std::simd::prelude::*;

/// The samples of two rows by turns.
#[inline(always)]
fn woven(a: u16x8, b: u16x8) -> (u16x8, u16x8)
    ensures upper { result.0 ≡ upper_woven a b }
    ensures lower { result.1 ≡ lower_woven a b }
{
    a.interleave(b)
}

/// The columns as rows: three rounds of weaving.
#[inline(always)]
#[tactic(auto, unfolding(crate::specs::Code::turned))]
pub fn turned(x: &Lanes) -> Lanes
    ensures { result ≡ turned x.now }
{
    let (a, b) = woven(x.r0, x.r4);
    let (c, d) = woven(x.r1, x.r5);
    let (e, f) = woven(x.r2, x.r6);
    let (g, h) = woven(x.r3, x.r7);
    let (i, j) = woven(a, e);
    let (k, l) = woven(c, g);
    let (m, n) = woven(b, f);
    let (o, p) = woven(d, h);
    let (r0, r1) = woven(i, k);
    let (r2, r3) = woven(j, l);
    let (r4, r5) = woven(m, o);
    let (r6, r7) = woven(n, p);
    Lanes {
        r0,
        r1,
        r2,
        r3,
        r4,
        r5,
        r6,
        r7,
    }
}
