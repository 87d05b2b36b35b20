//! What a step makes of its values.

ghost use Rattle.std.specs.Prelude.{◌≡◌, ◌^◌, ◌≤◌, ◌&&◌, neg_ℤ, unsigned_abs};
ghost use Rattle.inverse_transforms.specs.Flow.{turned_x, turned_y, rotated, sum_and_difference, rotated_wide, two_fit, four_fit, wide};
ghost use Rattle.inverse_transforms.specs.Ranges.{IsSmall};

use crate::numbers::{difference, is_fit, is_wide, product, rounded, sum};
use crate::turn::Turn;
use crate::values::{Four, Two};

/// The first coordinate of a point turned by an angle.
#[inline(always)]
#[tactic(auto, unfolding(crate::specs::Flow::turned_x))]
fn first_turned(x: i32, y: i32, turn: Turn) -> i64
    requires x { IsSmall x }
    requires y { IsSmall y }
    ensures value { result ≡ turned_x turn.angle x y }
    ensures size { unsigned_abs result ≤ 2 ^ 41 }
{
    difference(product(x, turn.cosine), product(y, turn.sine))
}

/// The second one.
#[inline(always)]
#[tactic(auto, unfolding(crate::specs::Flow::turned_y))]
fn second_turned(x: i32, y: i32, turn: Turn) -> i64
    requires x { IsSmall x }
    requires y { IsSmall y }
    ensures value { result ≡ turned_y turn.angle x y }
    ensures size { unsigned_abs result ≤ 2 ^ 41 }
{
    sum(product(x, turn.sine), product(y, turn.cosine))
}

#[inline(always)]
#[tactic(auto, unfolding(crate::specs::Flow::rotated))]
pub fn rotated(x: i32, y: i32, turn: Turn) -> Two
    requires x { IsSmall x }
    requires y { IsSmall y }
    ensures { result ≡ rotated turn.angle x y }
{
    Two {
        first: rounded(first_turned(x, y, turn)),
        second: rounded(second_turned(x, y, turn)),
    }
}

#[inline(always)]
#[tactic(auto, unfolding(crate::specs::Flow::sum_and_difference))]
pub fn sum_and_difference(x: i32, y: i32) -> Two
    requires x { IsSmall x }
    requires y { IsSmall y }
    ensures { result ≡ sum_and_difference x y }
{
    Two {
        first: x + y,
        second: x - y,
    }
}

#[inline(always)]
pub fn negated(x: i32) -> i32
    requires { IsSmall x }
    ensures { result ≡ neg_ℤ x }
{
    -x
}

/// Whether the four sums of a wide step are in range.
#[inline(always)]
fn are_wide(a: i64, b: i64, c: i64, d: i64, limit: u32) -> bool
    requires { limit ≤ 2 ^ 24 }
    ensures { result ≡ (wide limit a && (wide limit b && (wide limit c && wide limit d))) }
{
    is_wide(a, limit) & is_wide(b, limit) & is_wide(c, limit) & is_wide(d, limit)
}

#[inline(always)]
#[tactic(auto, unfolding(crate::specs::Flow::rotated_wide))]
pub fn rotated_wide(a: i32, b: i32, c: i32, d: i32, first: Turn, second: Turn, limit: u32) -> Four
    requires a { IsSmall a }
    requires b { IsSmall b }
    requires c { IsSmall c }
    requires d { IsSmall d }
    requires limit { limit ≤ 2 ^ 24 }
    ensures { result ≡ rotated_wide limit first.angle second.angle a b c d }
{
    let p = first_turned(a, b, first);
    let q = second_turned(a, b, first);
    let r = first_turned(c, d, second);
    let s = second_turned(c, d, second);
    Four {
        in_range: are_wide(p, q, r, s, limit),
        first: rounded(sum(p, r)),
        second: rounded(sum(q, s)),
        third: rounded(difference(p, r)),
        fourth: rounded(difference(q, s)),
    }
}

#[inline(always)]
#[tactic(auto, unfolding(crate::specs::Flow::two_fit))]
pub fn two_fit(v: Two, limit: u32) -> bool
    requires { limit ≤ 2 ^ 24 }
    ensures { result ≡ two_fit limit v }
{
    is_fit(v.first, limit) & is_fit(v.second, limit)
}

#[inline(always)]
#[tactic(auto, unfolding(crate::specs::Flow::four_fit))]
pub fn four_fit(v: Four, limit: u32) -> bool
    requires { limit ≤ 2 ^ 24 }
    ensures { result ≡ four_fit limit v }
{
    v.in_range
        & is_fit(v.first, limit)
        & is_fit(v.second, limit)
        & is_fit(v.third, limit)
        & is_fit(v.fourth, limit)
}
