//! What a step makes of eight columns.

ghost use Rattle.std.specs.Prelude.{◌≡◌, ℕ, ◌^◌, ◌≤◌, ◌<◌, All, neg_ℤ};
ghost use Rattle.inverse_transforms.specs.Flow.{at, rotated, sum_and_difference, rotated_wide, two_fit, four_fit};
ghost use Rattle.inverse_transforms.specs.Transforms.{adst_quad, wht_quad};
ghost use Rattle.inverse_transforms.specs.LaneColumns.{TwoLanes, FourLanes, AllHold};
ghost use Rattle.inverse_transforms.specs.Ranges.{IsSmall, fits};

use crate::kernels::{four_fit, negated, rotated, rotated_wide, sum_and_difference, two_fit};
use crate::numbers::is_fit;
use crate::quads::{adst_quad, wht_quad};
use crate::turn::Turn;

/// Values of eight columns.
pub type Lanes = [i32; 8];

/// Two rows of lanes that a step makes, and whether all their values fit.
pub type TwoRows = (Lanes, Lanes, bool);

/// Four rows of lanes, and whether all their values fit.
pub type FourRows = (Lanes, Lanes, Lanes, Lanes, bool);

#[inline(always)]
pub fn rotated_lanes(x: &Lanes, y: &Lanes, turn: Turn, limit: u32) -> TwoRows
    requires x { All IsSmall x.now }
    requires y { All IsSmall y.now }
    requires limit { limit ≤ 2 ^ 24 }
    ensures made { TwoLanes (rotated turn.angle) x.now y.now result.0 result.1 8 }
    ensures fit { AllHold (λ j. two_fit limit (rotated turn.angle (at x.now j) (at y.now j))) 8 result.2 }
{
    let mut u = [0; 8];
    let mut v = [0; 8];
    let mut fit = true;
    for j in 0..8usize {
        let r = rotated(x[j], y[j], turn);
        u[j] = r.first;
        v[j] = r.second;
        fit = fit & two_fit(r, limit);
    }
    (u, v, fit)
}

#[inline(always)]
pub fn added_lanes(x: &Lanes, y: &Lanes, limit: u32) -> TwoRows
    requires x { All IsSmall x.now }
    requires y { All IsSmall y.now }
    requires limit { limit ≤ 2 ^ 24 }
    ensures made { TwoLanes sum_and_difference x.now y.now result.0 result.1 8 }
    ensures fit { AllHold (λ j. two_fit limit (sum_and_difference (at x.now j) (at y.now j))) 8 result.2 }
{
    let mut u = [0; 8];
    let mut v = [0; 8];
    let mut fit = true;
    for j in 0..8usize {
        let r = sum_and_difference(x[j], y[j]);
        u[j] = r.first;
        v[j] = r.second;
        fit = fit & two_fit(r, limit);
    }
    (u, v, fit)
}

#[inline(always)]
pub fn negated_lanes(x: &Lanes, limit: u32) -> (Lanes, bool)
    requires x { All IsSmall x.now }
    requires limit { limit ≤ 2 ^ 24 }
    ensures made { (j : ℕ) → j < 8 → at result.0 j ≡ neg_ℤ (at x.now j) }
    ensures fit { AllHold (λ j. fits limit (neg_ℤ (at x.now j))) 8 result.1 }
{
    let mut u = [0; 8];
    let mut fit = true;
    for j in 0..8usize {
        let r = negated(x[j]);
        u[j] = r;
        fit = fit & is_fit(r, limit);
    }
    (u, fit)
}

#[inline(always)]
pub fn rotated_wide_lanes(
    a: &Lanes,
    b: &Lanes,
    c: &Lanes,
    d: &Lanes,
    first: Turn,
    second: Turn,
    limit: u32,
) -> FourRows
    requires a { All IsSmall a.now }
    requires b { All IsSmall b.now }
    requires c { All IsSmall c.now }
    requires d { All IsSmall d.now }
    requires limit { limit ≤ 2 ^ 24 }
    ensures made { FourLanes (rotated_wide limit first.angle second.angle) a.now b.now c.now d.now result.0 result.1 result.2 result.3 8 }
    ensures fit { AllHold (λ j. four_fit limit (rotated_wide limit first.angle second.angle (at a.now j) (at b.now j) (at c.now j) (at d.now j))) 8 result.4 }
{
    let mut p = [0; 8];
    let mut q = [0; 8];
    let mut r = [0; 8];
    let mut s = [0; 8];
    let mut fit = true;
    for j in 0..8usize {
        let v = rotated_wide(a[j], b[j], c[j], d[j], first, second, limit);
        p[j] = v.first;
        q[j] = v.second;
        r[j] = v.third;
        s[j] = v.fourth;
        fit = fit & four_fit(v, limit);
    }
    (p, q, r, s, fit)
}

#[inline(always)]
pub fn adst_lanes(a: &Lanes, b: &Lanes, c: &Lanes, d: &Lanes, limit: u32) -> FourRows
    requires a { All IsSmall a.now }
    requires b { All IsSmall b.now }
    requires c { All IsSmall c.now }
    requires d { All IsSmall d.now }
    requires limit { limit ≤ 2 ^ 24 }
    ensures made { FourLanes (adst_quad limit) a.now b.now c.now d.now result.0 result.1 result.2 result.3 8 }
    ensures fit { AllHold (λ j. four_fit limit (adst_quad limit (at a.now j) (at b.now j) (at c.now j) (at d.now j))) 8 result.4 }
{
    let mut p = [0; 8];
    let mut q = [0; 8];
    let mut r = [0; 8];
    let mut s = [0; 8];
    let mut fit = true;
    for j in 0..8usize {
        let v = adst_quad(a[j], b[j], c[j], d[j], limit);
        p[j] = v.first;
        q[j] = v.second;
        r[j] = v.third;
        s[j] = v.fourth;
        fit = fit & four_fit(v, limit);
    }
    (p, q, r, s, fit)
}

#[inline(always)]
pub fn wht_lanes(a: &Lanes, b: &Lanes, c: &Lanes, d: &Lanes, shift: u8, limit: u32) -> FourRows
    requires a { All IsSmall a.now }
    requires b { All IsSmall b.now }
    requires c { All IsSmall c.now }
    requires d { All IsSmall d.now }
    requires shift { shift ≤ 2 }
    requires limit { limit ≤ 2 ^ 24 }
    ensures made { FourLanes (wht_quad shift) a.now b.now c.now d.now result.0 result.1 result.2 result.3 8 }
    ensures fit { AllHold (λ j. four_fit limit (wht_quad shift (at a.now j) (at b.now j) (at c.now j) (at d.now j))) 8 result.4 }
{
    let mut p = [0; 8];
    let mut q = [0; 8];
    let mut r = [0; 8];
    let mut s = [0; 8];
    let mut fit = true;
    for j in 0..8usize {
        let v = wht_quad(a[j], b[j], c[j], d[j], shift);
        p[j] = v.first;
        q[j] = v.second;
        r[j] = v.third;
        s[j] = v.fourth;
        fit = fit & four_fit(v, limit);
    }
    (p, q, r, s, fit)
}
