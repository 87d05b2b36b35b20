//! The steps of a flow on one list.

ghost use Rattle.std.specs.Prelude.{◌≡◌, ℕ, ◌^◌, ◌≤◌, ◌<◌, length, take, slice_index, nat_lt, IsTrue, All, neg_ℤ};
ghost use Rattle.std.specs.List.{list_all};
ghost use Rattle.inverse_transforms.specs.Flow.{at, flow_step, run_flow, store_one, store_two, store_four, permuted, rotated, sum_and_difference, rotated_wide, Gives, is_within};
ghost use Rattle.inverse_transforms.specs.Ranges.{IsSmall};

use crate::kernels::{four_fit, rotated, rotated_wide, sum_and_difference, two_fit};
use crate::numbers::is_fit;
use crate::turn::Turn;
use crate::values::{Four, Two};
use vp9_tables::FlowRow;
use vp9_types::Rule;

fn store_two(t: &mut [i32], a: u8, b: u8, v: Two, limit: u32) -> Result<(), Rule>
    requires a { a < length t.old }
    requires b { b < length t.old }
    requires limit { limit ≤ 2 ^ 24 }
    ensures { Gives (store_two limit t.old a b v) result t.new }
{
    if !two_fit(v, limit) {
        return Err(Rule::TransformRange);
    }
    t[a as usize] = v.first;
    t[b as usize] = v.second;
    Ok(())
}

pub fn store_four(t: &mut [i32], places: [u8; 4], v: Four, limit: u32) -> Result<(), Rule>
    requires a { slice_index places 0 < length t.old }
    requires b { slice_index places 1 < length t.old }
    requires c { slice_index places 2 < length t.old }
    requires d { slice_index places 3 < length t.old }
    requires limit { limit ≤ 2 ^ 24 }
    ensures { Gives (store_four limit t.old (slice_index places 0) (slice_index places 1) (slice_index places 2) (slice_index places 3) v) result t.new }
{
    if !four_fit(v, limit) {
        return Err(Rule::TransformRange);
    }
    t[places[0] as usize] = v.first;
    t[places[1] as usize] = v.second;
    t[places[2] as usize] = v.third;
    t[places[3] as usize] = v.fourth;
    Ok(())
}

/// Puts at each place of `t` what stands in `old` at the place that the order gives.
fn gather(t: &mut [i32], old: &[i32], order: &[u8])
    requires size { length t.old ≡ length old.now }
    requires order { length t.old ≤ length order.now }
    requires within { IsTrue (list_all (λ place. nat_lt place (length old.now)) (take (length old.now) order.now)) }
    ensures { t.new ≡ permuted order.now old.now }
{
    for i in 0..t.len() {
        t[i] = old[order[i] as usize];
    }
}

fn permute(t: &mut [i32], order: [u8; 32])
    requires size { length t.old ≤ 32 }
    requires within { IsTrue (list_all (λ place. nat_lt place (length t.old)) (take (length t.old) order)) }
    ensures { t.new ≡ permuted order t.old }
{
    let mut old = [0; 32];
    let size = t.len();
    old[..size].copy_from_slice(t);
    gather(t, &old[..size], &order);
}

fn negate(t: &mut [i32], a: u8, limit: u32) -> Result<(), Rule>
    requires a { a < length t.old }
    requires limit { limit ≤ 2 ^ 24 }
    requires small { All IsSmall t.old }
    ensures { Gives (store_one limit t.old a (neg_ℤ (at t.old a))) result t.new }
{
    let value = -t[a as usize];
    if !is_fit(value, limit) {
        return Err(Rule::TransformRange);
    }
    t[a as usize] = value;
    Ok(())
}

fn rotate(t: &mut [i32], a: u8, b: u8, angle: u8, limit: u32) -> Result<(), Rule>
    requires a { a < length t.old }
    requires b { b < length t.old }
    requires angle { angle < 128 }
    requires limit { limit ≤ 2 ^ 24 }
    requires small { All IsSmall t.old }
    ensures { Gives (store_two limit t.old a b (rotated angle (at t.old a) (at t.old b))) result t.new }
{
    let v = rotated(t[a as usize], t[b as usize], Turn::by(angle));
    store_two(t, a, b, v, limit)
}

fn add(t: &mut [i32], a: u8, b: u8, limit: u32) -> Result<(), Rule>
    requires a { a < length t.old }
    requires b { b < length t.old }
    requires limit { limit ≤ 2 ^ 24 }
    requires small { All IsSmall t.old }
    ensures { Gives (store_two limit t.old a b (sum_and_difference (at t.old a) (at t.old b))) result t.new }
{
    let v = sum_and_difference(t[a as usize], t[b as usize]);
    store_two(t, a, b, v, limit)
}

fn rotate_wide(
    t: &mut [i32],
    places: [u8; 4],
    first: u8,
    second: u8,
    limit: u32,
) -> Result<(), Rule>
    requires a { slice_index places 0 < length t.old }
    requires b { slice_index places 1 < length t.old }
    requires c { slice_index places 2 < length t.old }
    requires d { slice_index places 3 < length t.old }
    requires first { first < 128 }
    requires second { second < 128 }
    requires limit { limit ≤ 2 ^ 24 }
    requires small { All IsSmall t.old }
    ensures { Gives (store_four limit t.old (slice_index places 0) (slice_index places 1) (slice_index places 2) (slice_index places 3)
        (rotated_wide limit first second (at t.old (slice_index places 0)) (at t.old (slice_index places 1))
        (at t.old (slice_index places 2)) (at t.old (slice_index places 3)))) result t.new }
{
    let [a, b, c, d] = places;
    let v = rotated_wide(
        t[a as usize],
        t[b as usize],
        t[c as usize],
        t[d as usize],
        Turn::by(first),
        Turn::by(second),
        limit,
    );
    store_four(t, places, v, limit)
}

#[tactic(auto, unfolding(crate::specs::Flow::flow_step))]
fn apply(t: &mut [i32], row: FlowRow, limit: u32) -> Result<(), Rule>
    requires size { length t.old ≤ 32 }
    requires within { IsTrue (is_within (length t.old) row) }
    requires limit { limit ≤ 2 ^ 24 }
    requires small { All IsSmall t.old }
    ensures { Gives (flow_step limit row t.old) result t.new }
{
    match row {
        FlowRow::Perm(order) => {
            permute(t, order);
            Ok(())
        }
        FlowRow::Rot { a, b, angle } => rotate(t, a, b, angle, limit),
        FlowRow::Sum { a, b } => add(t, a, b, limit),
        FlowRow::Neg { a } => negate(t, a, limit),
        FlowRow::Wide {
            a,
            b,
            first_angle,
            c,
            d,
            second_angle,
        } => rotate_wide(t, [a, b, c, d], first_angle, second_angle, limit),
    }
}

/// The steps of a flow on one list.
pub fn flow(t: &mut [i32], rows: &[FlowRow], limit: u32) -> Result<(), Rule>
    requires size { length t.old ≤ 32 }
    requires within { IsTrue (list_all (is_within (length t.old)) rows.now) }
    requires limit { limit ≤ 2 ^ 24 }
    requires small { All IsSmall t.old }
    ensures { Gives (run_flow limit rows.now t.old) result t.new }
{
    for row in rows {
        apply(t, *row, limit)?;
    }
    Ok(())
}
