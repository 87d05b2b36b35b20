//! The steps of a flow on eight columns.

ghost use Rattle.std.specs.Prelude.{◌≡◌, ℕ, ◌^◌, ◌≤◌, ◌<◌, length, take, slice_index, nat_lt, IsTrue, All, neg_ℤ, not};
ghost use Rattle.std.specs.List.{list_all};
ghost use Rattle.std.specs.Bool.{OnTrue};
ghost use Rattle.inverse_transforms.specs.Flow.{at, flow_step, run_flow, store_one, store_two, store_four, permuted, rotated, sum_and_difference, rotated_wide, is_within};
ghost use Rattle.inverse_transforms.specs.Transforms.{adst_of_4, wht};
ghost use Rattle.inverse_transforms.specs.LaneColumns.{GivesColumns, gathered};
ghost use Rattle.inverse_transforms.specs.Ranges.{IsSmall};

use crate::lanes::{
    Lanes, added_lanes, adst_lanes, negated_lanes, rotated_lanes, rotated_wide_lanes, wht_lanes,
};
use crate::turn::Turn;
use vp9_tables::FlowRow;
use vp9_types::Rule;

#[inline(always)]
fn rotate(t: &mut [Lanes], a: u8, b: u8, angle: u8, limit: u32) -> Result<(), Rule>
    requires a { a < length t.old }
    requires b { b < length t.old }
    requires angle { angle < 128 }
    requires limit { limit ≤ 2 ^ 24 }
    requires small { All (All IsSmall) t.old }
    ensures gives { GivesColumns (λ xs. store_two limit xs a b (rotated angle (at xs a) (at xs b))) result t.old t.new }
    ensures small { All (All IsSmall) t.new }
{
    let x = t[a as usize];
    let y = t[b as usize];
    let (u, v, fit) = rotated_lanes(&x, &y, Turn::by(angle), limit);
    if !fit {
        return Err(Rule::TransformRange);
    }
    t[a as usize] = u;
    t[b as usize] = v;
    Ok(())
}

#[inline(always)]
pub fn add(t: &mut [Lanes], a: u8, b: u8, limit: u32) -> Result<(), Rule>
    requires a { a < length t.old }
    requires b { b < length t.old }
    requires limit { limit ≤ 2 ^ 24 }
    requires small { All (All IsSmall) t.old }
    ensures gives { GivesColumns (λ xs. store_two limit xs a b (sum_and_difference (at xs a) (at xs b))) result t.old t.new }
    ensures small { All (All IsSmall) t.new }
{
    let x = t[a as usize];
    let y = t[b as usize];
    let (u, v, fit) = added_lanes(&x, &y, limit);
    if !fit {
        return Err(Rule::TransformRange);
    }
    t[a as usize] = u;
    t[b as usize] = v;
    Ok(())
}

#[inline(always)]
fn negate(t: &mut [Lanes], a: u8, limit: u32) -> Result<(), Rule>
    requires a { a < length t.old }
    requires limit { limit ≤ 2 ^ 24 }
    requires small { All (All IsSmall) t.old }
    ensures gives { GivesColumns (λ xs. store_one limit xs a (neg_ℤ (at xs a))) result t.old t.new }
    ensures small { All (All IsSmall) t.new }
{
    let x = t[a as usize];
    let (u, fit) = negated_lanes(&x, limit);
    if !fit {
        return Err(Rule::TransformRange);
    }
    t[a as usize] = u;
    Ok(())
}

#[inline(always)]
fn rotate_wide(
    t: &mut [Lanes],
    places: [u8; 4],
    first: u8,
    second: u8,
    limit: u32,
) -> Result<(), Rule>
    requires a { slice_index places 0 < length t.old }
    requires b { slice_index places 1 < length t.old }
    requires c { slice_index places 2 < length t.old }
    requires d { slice_index places 3 < length t.old }
    requires first { first < 128 }
    requires second { second < 128 }
    requires limit { limit ≤ 2 ^ 24 }
    requires small { All (All IsSmall) t.old }
    ensures gives { GivesColumns (λ xs. store_four limit xs (slice_index places 0) (slice_index places 1) (slice_index places 2) (slice_index places 3)
        (rotated_wide limit first second (at xs (slice_index places 0)) (at xs (slice_index places 1))
        (at xs (slice_index places 2)) (at xs (slice_index places 3)))) result t.old t.new }
    ensures small { All (All IsSmall) t.new }
{
    let [a, b, c, d] = places;
    let w = t[a as usize];
    let x = t[b as usize];
    let y = t[c as usize];
    let z = t[d as usize];
    let (p, q, r, s, fit) = rotated_wide_lanes(
        &w,
        &x,
        &y,
        &z,
        Turn::by(first),
        Turn::by(second),
        limit,
    );
    if !fit {
        return Err(Rule::TransformRange);
    }
    t[a as usize] = p;
    t[b as usize] = q;
    t[c as usize] = r;
    t[d as usize] = s;
    Ok(())
}

/// The ADST of 4.
#[tactic(auto, unfolding(crate::specs::Transforms::adst_of_4))]
pub fn adst_of_4(t: &mut [Lanes], limit: u32) -> Result<(), Rule>
    requires size { length t.old ≡ 4 }
    requires limit { limit ≤ 2 ^ 24 }
    requires small { All (All IsSmall) t.old }
    ensures gives { GivesColumns (adst_of_4 limit) result t.old t.new }
    ensures small { All (All IsSmall) t.new }
{
    let a = t[0];
    let b = t[1];
    let c = t[2];
    let d = t[3];
    let (p, q, r, s, fit) = adst_lanes(&a, &b, &c, &d, limit);
    if !fit {
        return Err(Rule::TransformRange);
    }
    t[0] = p;
    t[1] = q;
    t[2] = r;
    t[3] = s;
    Ok(())
}

/// The WHT.
#[tactic(auto, unfolding(crate::specs::Transforms::wht))]
pub fn wht_of_4(t: &mut [Lanes], shift: u8, limit: u32) -> Result<(), Rule>
    requires size { length t.old ≡ 4 }
    requires shift { shift ≤ 2 }
    requires limit { limit ≤ 2 ^ 24 }
    requires small { All (All IsSmall) t.old }
    ensures gives { GivesColumns (wht limit shift) result t.old t.new }
    ensures small { All (All IsSmall) t.new }
{
    let a = t[0];
    let b = t[1];
    let c = t[2];
    let d = t[3];
    let (p, q, r, s, fit) = wht_lanes(&a, &b, &c, &d, shift, limit);
    if !fit {
        return Err(Rule::TransformRange);
    }
    t[0] = p;
    t[1] = q;
    t[2] = r;
    t[3] = s;
    Ok(())
}

/// Puts at each place of `t` the row that stands in `old` at the place that the order gives.
fn gather(t: &mut [Lanes], old: &[Lanes], order: &[u8])
    requires size { length t.old ≡ length old.now }
    requires order { length t.old ≤ length order.now }
    requires within { IsTrue (list_all (λ place. nat_lt place (length old.now)) (take (length old.now) order.now)) }
    ensures { t.new ≡ gathered order.now old.now }
{
    for i in 0..t.len() {
        t[i] = old[order[i] as usize];
    }
}

/// Permutes rows of lanes if there are N of them, by a copy of so many.
#[inline(always)]
fn permute_whole<const N: usize>(t: &mut [Lanes], order: &[u8]) -> bool
    requires few { N ≤ 32 }
    requires order { length t.old ≤ length order.now }
    requires within { IsTrue (list_all (λ place. nat_lt place (length t.old)) (take (length t.old) order.now)) }
    ensures done { OnTrue result (t.new ≡ gathered order.now t.old) }
    ensures left { OnTrue (not result) (t.new ≡ t.old) }
    ensures size { OnTrue (not result) (length t.old ≡ N → ⊥) }
{
    let Some(rows) = t.as_array::<N>() else {
        return false;
    };
    let old = *rows;
    gather(t, &old, order);
    true
}

fn permute(t: &mut [Lanes], order: &[u8])
    requires size { length t.old ≤ 32 }
    requires order { length t.old ≤ length order.now }
    requires within { IsTrue (list_all (λ place. nat_lt place (length t.old)) (take (length t.old) order.now)) }
    ensures { t.new ≡ gathered order.now t.old }
{
    if permute_whole::<4>(t, order)
        || permute_whole::<8>(t, order)
        || permute_whole::<16>(t, order)
        || permute_whole::<32>(t, order)
    {
        return;
    }
    let size = t.len();
    let mut spare = [[0; 8]; 32];
    spare[..size].copy_from_slice(t);
    gather(t, &spare[..size], order);
}

/// Any step. It is called for those that are rare.
#[inline(never)]
#[tactic(auto, unfolding(crate::specs::Flow::flow_step))]
pub fn apply(t: &mut [Lanes], row: &FlowRow, limit: u32) -> Result<(), Rule>
    requires size { length t.old ≤ 32 }
    requires within { IsTrue (is_within (length t.old) row.now) }
    requires limit { limit ≤ 2 ^ 24 }
    requires small { All (All IsSmall) t.old }
    ensures gives { GivesColumns (flow_step limit row.now) result t.old t.new }
    ensures small { All (All IsSmall) t.new }
{
    match row {
        FlowRow::Perm(order) => {
            permute(t, order);
            Ok(())
        }
        FlowRow::Rot { a, b, angle } => rotate(t, *a, *b, *angle, limit),
        FlowRow::Sum { a, b } => add(t, *a, *b, limit),
        FlowRow::Neg { a } => negate(t, *a, limit),
        FlowRow::Wide {
            a,
            b,
            first_angle,
            c,
            d,
            second_angle,
        } => rotate_wide(t, [*a, *b, *c, *d], *first_angle, *second_angle, limit),
    }
}

/// The same, with the steps that most flows are made of in place: a jump by the kind of each step is badly foreseen.
#[inline(always)]
#[tactic(auto, unfolding(crate::specs::Flow::flow_step))]
fn apply_often(t: &mut [Lanes], row: &FlowRow, limit: u32) -> Result<(), Rule>
    requires size { length t.old ≤ 32 }
    requires within { IsTrue (is_within (length t.old) row.now) }
    requires limit { limit ≤ 2 ^ 24 }
    requires small { All (All IsSmall) t.old }
    ensures gives { GivesColumns (flow_step limit row.now) result t.old t.new }
    ensures small { All (All IsSmall) t.new }
{
    if let FlowRow::Sum { a, b } = row {
        return add(t, *a, *b, limit);
    }
    if let FlowRow::Rot { a, b, angle } = row {
        return rotate(t, *a, *b, *angle, limit);
    }
    apply(t, row, limit)
}

/// The steps of a flow on eight columns.
pub fn flow(t: &mut [Lanes], rows: &[FlowRow], limit: u32) -> Result<(), Rule>
    requires size { length t.old ≤ 32 }
    requires within { IsTrue (list_all (is_within (length t.old)) rows.now) }
    requires limit { limit ≤ 2 ^ 24 }
    requires small { All (All IsSmall) t.old }
    ensures gives { GivesColumns (run_flow limit rows.now) result t.old t.new }
    ensures small { All (All IsSmall) t.new }
{
    for row in rows {
        apply_often(t, row, limit)?;
    }
    Ok(())
}
