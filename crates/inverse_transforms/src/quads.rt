//! The transforms of four values that are written as formulas.

ghost use Rattle.std.specs.Prelude.{◌≡◌, ◌+◌, ◌*◌, ◌^◌, ◌≤◌, ◌<◌, ◌&&◌, unsigned_abs, length, slice_index, All};
ghost use Rattle.std.specs.Int.{int_shr};
ghost use Rattle.inverse_transforms.specs.Flow.{wide, Gives};
ghost use Rattle.inverse_transforms.specs.Transforms.{even_part, odd_part, middle_part, difference_part, adst_quad, adst_of_4, last_lifts, middle_lifts, first_lifts, wht_quad, wht};
ghost use Rattle.inverse_transforms.specs.Straight.{dct_quad, odd_quad};
ghost use Rattle.inverse_transforms.specs.Ranges.{IsSmall, IsNarrow, fits};

use crate::kernels::sum_and_difference;
use crate::narrow::rotated;
use crate::numbers::{difference, half, is_fit, is_wide, minus, plus, product, rounded, sum};
use crate::steps::store_four;
use crate::turn::Turn;
use crate::values::Four;
use vp9_tables::sinpi;
use vp9_types::Rule;

#[inline(always)]
fn even_part(x0: i32, x2: i32, x3: i32) -> i64
    requires x0 { IsSmall x0 }
    requires x2 { IsSmall x2 }
    requires x3 { IsSmall x3 }
    ensures value { result ≡ even_part x0 x2 x3 }
    ensures size { unsigned_abs result ≤ 2 ^ 42 }
{
    sum(
        sum(product(x0, sinpi(1)), product(x2, sinpi(4))),
        product(x3, sinpi(2)),
    )
}

#[inline(always)]
fn odd_part(x0: i32, x2: i32, x3: i32) -> i64
    requires x0 { IsSmall x0 }
    requires x2 { IsSmall x2 }
    requires x3 { IsSmall x3 }
    ensures value { result ≡ odd_part x0 x2 x3 }
    ensures size { unsigned_abs result ≤ 2 ^ 42 }
{
    difference(
        difference(product(x0, sinpi(2)), product(x2, sinpi(1))),
        product(x3, sinpi(4)),
    )
}

#[inline(always)]
fn difference_part(x0: i32, x2: i32, x3: i32) -> i32
    requires x0 { IsSmall x0 }
    requires x2 { IsSmall x2 }
    requires x3 { IsSmall x3 }
    ensures value { result ≡ difference_part x0 x2 x3 }
    ensures size { unsigned_abs result ≤ 2 ^ 26 }
{
    plus(minus(x0, x2), x3)
}

/// Whether the three sums and the difference of the ADST of 4 are in range.
#[inline(always)]
fn are_in_range(p: i64, q: i64, t: i64, d: i32, limit: u32) -> bool
    requires { limit ≤ 2 ^ 24 }
    ensures { result ≡ (wide limit p && (wide limit q && (wide limit t && fits limit d))) }
{
    is_wide(p, limit) & is_wide(q, limit) & is_wide(t, limit) & is_fit(d, limit)
}

#[inline(always)]
#[tactic(auto, unfolding(crate::specs::Transforms::adst_quad))]
pub fn adst_quad(x0: i32, x1: i32, x2: i32, x3: i32, limit: u32) -> Four
    requires x0 { IsSmall x0 }
    requires x1 { IsSmall x1 }
    requires x2 { IsSmall x2 }
    requires x3 { IsSmall x3 }
    requires limit { limit ≤ 2 ^ 24 }
    ensures { result ≡ adst_quad limit x0 x1 x2 x3 }
{
    let p = even_part(x0, x2, x3);
    let q = odd_part(x0, x2, x3);
    let t = product(x1, sinpi(3));
    let d = difference_part(x0, x2, x3);
    Four {
        in_range: are_in_range(p, q, t, d, limit),
        first: rounded(sum(p, t)),
        second: rounded(sum(q, t)),
        third: rounded(product(d, sinpi(3))),
        fourth: rounded(difference(sum(p, q), t)),
    }
}

/// The DCT of narrow values.
#[inline(always)]
#[tactic(auto, unfolding(crate::specs::Straight::dct_quad))]
pub fn dct_quad(x0: i32, x1: i32, x2: i32, x3: i32) -> Four
    requires x0 { IsNarrow x0 }
    requires x1 { IsNarrow x1 }
    requires x2 { IsNarrow x2 }
    requires x3 { IsNarrow x3 }
    ensures { result ≡ dct_quad x0 x1 x2 x3 }
{
    let even = rotated(x0, x2, Turn::by(16));
    let odd = rotated(x1, x3, Turn::by(24));
    let outer = sum_and_difference(even.second, odd.second);
    let inner = sum_and_difference(even.first, odd.first);
    Four {
        in_range: true,
        first: outer.first,
        second: inner.first,
        third: inner.second,
        fourth: outer.second,
    }
}

/// What a DCT makes of four values in odd places, by three angles.
#[inline(always)]
#[tactic(auto, unfolding(crate::specs::Straight::odd_quad))]
pub fn odd_quad(a: i32, b: i32, c: i32, d: i32, angles: [u8; 3]) -> Four
    requires few { unsigned_abs a + unsigned_abs b + unsigned_abs c + unsigned_abs d ≤ 2 ^ 15 }
    requires first { slice_index angles 0 < 128 }
    requires second { slice_index angles 1 < 128 }
    requires third { slice_index angles 2 < 128 }
    ensures { result ≡ odd_quad (slice_index angles 0) (slice_index angles 1) (slice_index angles 2) a b c d }
{
    let outer = rotated(a, d, Turn::by(angles[0]));
    let inner = rotated(c, b, Turn::by(angles[1]));
    let last = sum_and_difference(outer.second, inner.second);
    let first = sum_and_difference(outer.first, inner.first);
    let middle = rotated(last.second, first.second, Turn::by(angles[2]));
    Four {
        in_range: true,
        first: last.first,
        second: middle.second,
        third: middle.first,
        fourth: first.first,
    }
}

#[inline(always)]
#[tactic(auto, unfolding(crate::specs::Transforms::last_lifts))]
fn last_lifts(a: i32, b: i32, c: i32, d: i32) -> Four
    requires a { unsigned_abs a ≤ 2 ^ 28 }
    requires b { unsigned_abs b ≤ 2 ^ 28 }
    requires c { unsigned_abs c ≤ 2 ^ 28 }
    requires d { unsigned_abs d ≤ 2 ^ 28 }
    ensures { result ≡ last_lifts a b c d }
{
    Four {
        in_range: true,
        first: minus(a, b),
        second: b,
        third: c,
        fourth: plus(d, c),
    }
}

#[inline(always)]
#[tactic(auto, unfolding(crate::specs::Transforms::middle_lifts))]
fn middle_lifts(a: i32, b: i32, c: i32, d: i32) -> Four
    requires a { unsigned_abs a ≤ 2 ^ 25 }
    requires b { unsigned_abs b ≤ 2 ^ 25 }
    requires c { unsigned_abs c ≤ 2 ^ 25 }
    requires d { unsigned_abs d ≤ 2 ^ 25 }
    ensures { result ≡ middle_lifts a b c d }
{
    let e = half(minus(a, d));
    last_lifts(a, minus(e, b), minus(e, c), d)
}

#[inline(always)]
#[tactic(auto, unfolding(crate::specs::Transforms::first_lifts))]
fn first_lifts(a: i32, c: i32, d: i32, b: i32) -> Four
    requires a { IsSmall a }
    requires c { IsSmall c }
    requires d { IsSmall d }
    requires b { IsSmall b }
    ensures { result ≡ first_lifts a c d b }
{
    middle_lifts(plus(a, c), b, c, minus(d, b))
}

#[inline(always)]
fn shifted(x: i32, shift: u8) -> i32
    requires x { IsSmall x }
    requires shift { shift ≤ 2 }
    ensures value { result ≡ int_shr x shift }
    ensures size { IsSmall result }
{
    x >> shift
}

#[inline(always)]
#[tactic(auto, unfolding(crate::specs::Transforms::wht_quad))]
pub fn wht_quad(x0: i32, x1: i32, x2: i32, x3: i32, shift: u8) -> Four
    requires x0 { IsSmall x0 }
    requires x1 { IsSmall x1 }
    requires x2 { IsSmall x2 }
    requires x3 { IsSmall x3 }
    requires shift { shift ≤ 2 }
    ensures { result ≡ wht_quad shift x0 x1 x2 x3 }
{
    first_lifts(
        shifted(x0, shift),
        shifted(x1, shift),
        shifted(x2, shift),
        shifted(x3, shift),
    )
}

#[tactic(auto, unfolding(crate::specs::Transforms::adst_of_4))]
pub fn adst_of_4(t: &mut [i32], limit: u32) -> Result<(), Rule>
    requires size { length t.old ≡ 4 }
    requires limit { limit ≤ 2 ^ 24 }
    requires small { All IsSmall t.old }
    ensures { Gives (adst_of_4 limit t.old) result t.new }
{
    let v = adst_quad(t[0], t[1], t[2], t[3], limit);
    store_four(t, [0, 1, 2, 3], v, limit)
}

#[tactic(auto, unfolding(crate::specs::Transforms::wht))]
pub fn wht_of_4(t: &mut [i32], shift: u8, limit: u32) -> Result<(), Rule>
    requires size { length t.old ≡ 4 }
    requires shift { shift ≤ 2 }
    requires limit { limit ≤ 2 ^ 24 }
    requires small { All IsSmall t.old }
    ensures { Gives (wht limit shift t.old) result t.new }
{
    let v = wht_quad(t[0], t[1], t[2], t[3], shift);
    store_four(t, [0, 1, 2, 3], v, limit)
}
