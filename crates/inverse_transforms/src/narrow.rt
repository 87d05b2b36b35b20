//! A flow on eight columns of narrow values, whose products are within 32 bits.

ghost use Rattle.std.specs.Prelude.{◌≡◌, ℕ, ◌+◌, ◌^◌, ◌≤◌, ◌<◌, length, slice_index, unsigned_abs, IsTrue, All};
ghost use Rattle.std.specs.List.{list_all};
ghost use Rattle.std.specs.Bool.{OnTrue};
ghost use Rattle.inverse_transforms.specs.Flow.{at, flow_step, run_flow, store_two, rotated, turned_x, turned_y, is_within};
ghost use Rattle.inverse_transforms.specs.LaneColumns.{GivesColumns, TwoLanes, FourLanes, AllHold, column};
ghost use Rattle.inverse_transforms.specs.Flow.{two_fit, four_fit};
ghost use Rattle.inverse_transforms.specs.Straight.{dct_quad, odd_quad};
ghost use Rattle.inverse_transforms.specs.Ranges.{IsSmall, IsNarrow};

use crate::kernels::{four_fit, two_fit};
use crate::lane_steps;
use crate::lanes::{FourRows, Lanes, TwoRows};
use crate::numbers::{minus, narrow_product, narrow_rounded, plus};
use crate::quads::{dct_quad, odd_quad};
use crate::turn::Turn;
use crate::values::Two;
use vp9_tables::FlowRow;
use vp9_types::Rule;

/// Values of 16 bits are at least minus this, and below it.
pub const LIMIT: u32 = 32768;

#[inline(always)]
#[tactic(auto, unfolding(crate::specs::Flow::turned_x))]
fn first_turned(x: i32, y: i32, turn: Turn) -> i32
    requires x { IsNarrow x }
    requires y { IsNarrow y }
    ensures value { result ≡ turned_x turn.angle x y }
    ensures size { unsigned_abs result ≤ 2 ^ 30 }
{
    minus(narrow_product(x, turn.cosine), narrow_product(y, turn.sine))
}

#[inline(always)]
#[tactic(auto, unfolding(crate::specs::Flow::turned_y))]
fn second_turned(x: i32, y: i32, turn: Turn) -> i32
    requires x { IsNarrow x }
    requires y { IsNarrow y }
    ensures value { result ≡ turned_y turn.angle x y }
    ensures size { unsigned_abs result ≤ 2 ^ 30 }
{
    plus(narrow_product(x, turn.sine), narrow_product(y, turn.cosine))
}

#[inline(always)]
#[tactic(auto, unfolding(crate::specs::Flow::rotated))]
pub fn rotated(x: i32, y: i32, turn: Turn) -> Two
    requires x { IsNarrow x }
    requires y { IsNarrow y }
    ensures value { result ≡ rotated turn.angle x y }
    ensures first { IsSmall result.first }
    ensures second { IsSmall result.second }
{
    Two {
        first: narrow_rounded(first_turned(x, y, turn)),
        second: narrow_rounded(second_turned(x, y, turn)),
    }
}

#[inline(always)]
pub fn rotated_lanes(x: &Lanes, y: &Lanes, turn: Turn) -> TwoRows
    requires x { (j : ℕ) → j < 8 → IsNarrow (at x.now j) }
    requires y { (j : ℕ) → j < 8 → IsNarrow (at y.now j) }
    ensures made { TwoLanes (rotated turn.angle) x.now y.now result.0 result.1 8 }
    ensures fit { AllHold (λ j. two_fit (2 ^ 15) (rotated turn.angle (at x.now j) (at y.now j))) 8 result.2 }
{
    let mut u = [0; 8];
    let mut v = [0; 8];
    let mut fit = true;
    for j in 0..8usize {
        let r = rotated(x[j], y[j], turn);
        u[j] = r.first;
        v[j] = r.second;
        fit = fit & two_fit(r, LIMIT);
    }
    (u, v, fit)
}

#[inline(always)]
pub fn dct_lanes(a: &Lanes, b: &Lanes, c: &Lanes, d: &Lanes) -> FourRows
    requires a { (j : ℕ) → j < 8 → IsNarrow (at a.now j) }
    requires b { (j : ℕ) → j < 8 → IsNarrow (at b.now j) }
    requires c { (j : ℕ) → j < 8 → IsNarrow (at c.now j) }
    requires d { (j : ℕ) → j < 8 → IsNarrow (at d.now j) }
    ensures made { FourLanes dct_quad a.now b.now c.now d.now result.0 result.1 result.2 result.3 8 }
    ensures fit { AllHold (λ j. four_fit (2 ^ 15) (dct_quad (at a.now j) (at b.now j) (at c.now j) (at d.now j))) 8 result.4 }
{
    let mut p = [0; 8];
    let mut q = [0; 8];
    let mut r = [0; 8];
    let mut s = [0; 8];
    let mut fit = true;
    for j in 0..8usize {
        let v = dct_quad(a[j], b[j], c[j], d[j]);
        p[j] = v.first;
        q[j] = v.second;
        r[j] = v.third;
        s[j] = v.fourth;
        fit = fit & four_fit(v, LIMIT);
    }
    (p, q, r, s, fit)
}

#[inline(always)]
pub fn odd_lanes(a: &Lanes, b: &Lanes, c: &Lanes, d: &Lanes, angles: [u8; 3]) -> FourRows
    requires few { (j : ℕ) → j < 8 → unsigned_abs (at a.now j) + unsigned_abs (at b.now j) + unsigned_abs (at c.now j) + unsigned_abs (at d.now j) ≤ 2 ^ 15 }
    requires first { slice_index angles 0 < 128 }
    requires second { slice_index angles 1 < 128 }
    requires third { slice_index angles 2 < 128 }
    ensures made { FourLanes (odd_quad (slice_index angles 0) (slice_index angles 1) (slice_index angles 2)) a.now b.now c.now d.now result.0 result.1 result.2 result.3 8 }
    ensures fit { AllHold (λ j. four_fit (2 ^ 15) (odd_quad (slice_index angles 0) (slice_index angles 1) (slice_index angles 2) (at a.now j) (at b.now j) (at c.now j) (at d.now j))) 8 result.4 }
{
    let mut p = [0; 8];
    let mut q = [0; 8];
    let mut r = [0; 8];
    let mut s = [0; 8];
    let mut fit = true;
    for j in 0..8usize {
        let v = odd_quad(a[j], b[j], c[j], d[j], angles);
        p[j] = v.first;
        q[j] = v.second;
        r[j] = v.third;
        s[j] = v.fourth;
        fit = fit & four_fit(v, LIMIT);
    }
    (p, q, r, s, fit)
}

#[inline(always)]
fn rotate(t: &mut [Lanes], a: u8, b: u8, angle: u8) -> Result<(), Rule>
    requires a { a < length t.old }
    requires b { b < length t.old }
    requires angle { angle < 128 }
    requires narrow { (j : ℕ) → j < 8 → All IsNarrow (column j t.old) }
    requires small { All (All IsSmall) t.old }
    ensures gives { GivesColumns (λ xs. store_two (2 ^ 15) xs a b (rotated angle (at xs a) (at xs b))) result t.old t.new }
    ensures small { All (All IsSmall) t.new }
{
    let x = t[a as usize];
    let y = t[b as usize];
    let (u, v, fit) = rotated_lanes(&x, &y, Turn::by(angle));
    if !fit {
        return Err(Rule::TransformRange);
    }
    t[a as usize] = u;
    t[b as usize] = v;
    Ok(())
}

#[inline(always)]
#[tactic(auto, unfolding(crate::specs::Flow::flow_step))]
fn apply(t: &mut [Lanes], row: &FlowRow) -> Result<(), Rule>
    requires size { length t.old ≤ 32 }
    requires within { IsTrue (is_within (length t.old) row.now) }
    requires narrow { (j : ℕ) → j < 8 → All IsNarrow (column j t.old) }
    requires small { All (All IsSmall) t.old }
    ensures gives { GivesColumns (flow_step (2 ^ 15) row.now) result t.old t.new }
    ensures small { All (All IsSmall) t.new }
{
    if let FlowRow::Sum { a, b } = row {
        return lane_steps::add(t, *a, *b, LIMIT);
    }
    if let FlowRow::Rot { a, b, angle } = row {
        return rotate(t, *a, *b, *angle);
    }
    lane_steps::apply(t, row, LIMIT)
}

/// The steps of a flow on eight columns, where values of 16 bits fit.
pub fn flow(t: &mut [Lanes], rows: &[FlowRow]) -> Result<(), Rule>
    requires size { length t.old ≤ 32 }
    requires within { IsTrue (list_all (is_within (length t.old)) rows.now) }
    requires narrow { All (All IsNarrow) t.old }
    ensures gives { GivesColumns (run_flow (2 ^ 15) rows.now) result t.old t.new }
    ensures small { All (All IsSmall) t.new }
{
    for row in rows {
        apply(t, row)?;
    }
    Ok(())
}

/// A bound of all magnitudes.
fn widest(xs: &[i32]) -> u32
    ensures { All (λ x. unsigned_abs x ≤ result) xs.now }
{
    let mut most = 0;
    for x in xs {
        most = most.max(x.unsigned_abs());
    }
    most
}

/// Whether all values are narrow.
pub fn is_narrow(t: &[Lanes]) -> bool
    ensures { OnTrue result (All (All IsNarrow) t.now) }
{
    widest(t.as_flattened()) <= LIMIT
}
