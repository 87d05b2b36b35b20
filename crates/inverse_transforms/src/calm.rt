//! A flow on eight columns whose values are known to fit. What tells whether they do isn't looked at, and so not computed.

ghost use Rattle.std.specs.Prelude.{◌≡◌, ℕ, ◌^◌, ◌≤◌, ◌<◌, length, IsTrue, All, Ok};
ghost use Rattle.std.specs.List.{list_all};
ghost use Rattle.inverse_transforms.specs.Flow.{at, flow_step, run_flow, store_two, rotated, sum_and_difference, is_within, magnitude};
ghost use Rattle.inverse_transforms.specs.Transforms.{dct};
ghost use Rattle.inverse_transforms.specs.Straight.{odd_eight};
ghost use Rattle.inverse_transforms.specs.LaneColumns.{GivesColumns, FitsAll, column};
ghost use Rattle.inverse_transforms.specs.Ranges.{IsSmall, IsNarrow};

use crate::lane_steps;
use crate::lanes::{Lanes, added_lanes};
use crate::narrow::{LIMIT, dct_lanes, odd_lanes, rotated_lanes};
use crate::turn::Turn;
use vp9_tables::FlowRow;
use vp9_types::Rule;

#[inline(always)]
fn rotate(t: &mut [Lanes], a: u8, b: u8, angle: u8)
    requires a { a < length t.old }
    requires b { b < length t.old }
    requires angle { angle < 128 }
    requires narrow { (j : ℕ) → j < 8 → All IsNarrow (column j t.old) }
    requires small { All (All IsSmall) t.old }
    requires fit { FitsAll (λ xs. store_two (2 ^ 15) xs a b (rotated angle (at xs a) (at xs b))) t.old }
    ensures gives { (j : ℕ) → j < 8 → store_two (2 ^ 15) (column j t.old) a b (rotated angle (at (column j t.old) a) (at (column j t.old) b)) ≡ Ok (column j t.new) }
    ensures small { All (All IsSmall) t.new }
{
    let x = t[a as usize];
    let y = t[b as usize];
    let (u, v, _) = rotated_lanes(&x, &y, Turn::by(angle));
    t[a as usize] = u;
    t[b as usize] = v;
}

#[inline(always)]
fn add(t: &mut [Lanes], a: u8, b: u8)
    requires a { a < length t.old }
    requires b { b < length t.old }
    requires small { All (All IsSmall) t.old }
    requires fit { FitsAll (λ xs. store_two (2 ^ 15) xs a b (sum_and_difference (at xs a) (at xs b))) t.old }
    ensures gives { (j : ℕ) → j < 8 → store_two (2 ^ 15) (column j t.old) a b (sum_and_difference (at (column j t.old) a) (at (column j t.old) b)) ≡ Ok (column j t.new) }
    ensures small { All (All IsSmall) t.new }
{
    let x = t[a as usize];
    let y = t[b as usize];
    let (u, v, _) = added_lanes(&x, &y, LIMIT);
    t[a as usize] = u;
    t[b as usize] = v;
}

/// A step. Those that are rare are tested all the same.
#[inline(always)]
#[tactic(auto, unfolding(crate::specs::Flow::flow_step))]
fn apply(t: &mut [Lanes], row: &FlowRow) -> Result<(), Rule>
    requires size { length t.old ≤ 32 }
    requires within { IsTrue (is_within (length t.old) row.now) }
    requires narrow { (j : ℕ) → j < 8 → All IsNarrow (column j t.old) }
    requires small { All (All IsSmall) t.old }
    requires fit { FitsAll (flow_step (2 ^ 15) row.now) t.old }
    ensures gives { GivesColumns (flow_step (2 ^ 15) row.now) result t.old t.new }
    ensures small { All (All IsSmall) t.new }
{
    if let FlowRow::Sum { a, b } = row {
        add(t, *a, *b);
        return Ok(());
    }
    if let FlowRow::Rot { a, b, angle } = row {
        rotate(t, *a, *b, *angle);
        return Ok(());
    }
    lane_steps::apply(t, row, LIMIT)
}

/// The steps of a flow on eight columns, each of which it keeps within 16 bits.
pub fn flow(t: &mut [Lanes], rows: &[FlowRow]) -> Result<(), Rule>
    requires size { length t.old ≤ 32 }
    requires within { IsTrue (list_all (is_within (length t.old)) rows.now) }
    requires narrow { (j : ℕ) → j < 8 → All IsNarrow (column j t.old) }
    requires small { All (All IsSmall) t.old }
    requires fit { FitsAll (run_flow (2 ^ 15) rows.now) t.old }
    ensures gives { GivesColumns (run_flow (2 ^ 15) rows.now) result t.old t.new }
    ensures small { All (All IsSmall) t.new }
{
    for row in rows {
        apply(t, row)?;
    }
    Ok(())
}

/// The DCT of 4 of eight columns, by its formula.
#[inline(always)]
pub fn dct_of_4(t: &mut [Lanes])
    requires size { length t.old ≡ 4 }
    requires few { (j : ℕ) → j < 8 → magnitude (column j t.old) ≤ 2 ^ 15 }
    requires small { All (All IsSmall) t.old }
    ensures gives { (limit j : ℕ) → 2 ^ 15 ≤ limit → j < 8 → dct limit 2 (column j t.old) ≡ Ok (column j t.new) }
    ensures small { All (All IsSmall) t.new }
{
    let a = t[0];
    let b = t[1];
    let c = t[2];
    let d = t[3];
    let (p, q, r, s, _) = dct_lanes(&a, &b, &c, &d);
    t[0] = p;
    t[1] = q;
    t[2] = r;
    t[3] = s;
}

/// The DCT of 8 of eight columns, by its formula.
#[inline(always)]
pub fn dct_of_8(t: &mut [Lanes])
    requires size { length t.old ≡ 8 }
    requires few { (j : ℕ) → j < 8 → magnitude (column j t.old) ≤ 2 ^ 15 }
    requires small { All (All IsSmall) t.old }
    ensures gives { (limit j : ℕ) → 2 ^ 15 ≤ limit → j < 8 → dct limit 3 (column j t.old) ≡ Ok (column j t.new) }
    ensures small { All (All IsSmall) t.new }
{
    let (e, f, g, h, _) = dct_lanes(&t[0], &t[2], &t[4], &t[6]);
    let (p, q, r, s, _) = odd_lanes(&t[1], &t[3], &t[5], &t[7], [28, 12, 16]);
    let (a, n, _) = added_lanes(&e, &p, LIMIT);
    let (b, m, _) = added_lanes(&f, &q, LIMIT);
    let (c, l, _) = added_lanes(&g, &r, LIMIT);
    let (d, k, _) = added_lanes(&h, &s, LIMIT);
    t[0] = a;
    t[1] = b;
    t[2] = c;
    t[3] = d;
    t[4] = k;
    t[5] = l;
    t[6] = m;
    t[7] = n;
}

/// What the DCT of 16 makes of the rows in odd places.
#[inline(always)]
fn odd_rows(t: &[Lanes]) -> [Lanes; 8]
    requires size { length t.now ≡ 16 }
    requires few { (j : ℕ) → j < 8 → magnitude (column j t.now) ≤ 2 ^ 14 }
    ensures gives { (j : ℕ) → j < 8 → column j result ≡ odd_eight (column j t.now) }
    ensures small { All (All IsSmall) result }
{
    let (p, q, r, s, _) = odd_lanes(&t[1], &t[7], &t[9], &t[15], [30, 14, 24]);
    let (u, v, w, x, _) = odd_lanes(&t[13], &t[11], &t[5], &t[3], [6, 22, 56]);
    let (a, e, _) = added_lanes(&p, &u, LIMIT);
    let (b, f, _) = added_lanes(&q, &v, LIMIT);
    let (c, g, _) = added_lanes(&r, &w, LIMIT);
    let (d, h, _) = added_lanes(&s, &x, LIMIT);
    let (k, l, _) = rotated_lanes(&e, &h, Turn::by(16));
    let (m, n, _) = rotated_lanes(&f, &g, Turn::by(16));
    [a, b, n, l, k, m, c, d]
}

/// The DCT of 16 of eight columns, by its formula.
#[inline(always)]
pub fn dct_of_16(t: &mut [Lanes])
    requires size { length t.old ≡ 16 }
    requires few { (j : ℕ) → j < 8 → magnitude (column j t.old) ≤ 2 ^ 14 }
    requires small { All (All IsSmall) t.old }
    ensures gives { (limit j : ℕ) → 2 ^ 15 ≤ limit → j < 8 → dct limit 4 (column j t.old) ≡ Ok (column j t.new) }
    ensures small { All (All IsSmall) t.new }
{
    let mut even = [t[0], t[2], t[4], t[6], t[8], t[10], t[12], t[14]];
    dct_of_8(&mut even);
    let odd = odd_rows(t);
    let (u, v, _) = added_lanes(&even[0], &odd[0], LIMIT);
    t[0] = u;
    t[15] = v;
    let (u, v, _) = added_lanes(&even[1], &odd[1], LIMIT);
    t[1] = u;
    t[14] = v;
    let (u, v, _) = added_lanes(&even[2], &odd[2], LIMIT);
    t[2] = u;
    t[13] = v;
    let (u, v, _) = added_lanes(&even[3], &odd[3], LIMIT);
    t[3] = u;
    t[12] = v;
    let (u, v, _) = added_lanes(&even[4], &odd[4], LIMIT);
    t[4] = u;
    t[11] = v;
    let (u, v, _) = added_lanes(&even[5], &odd[5], LIMIT);
    t[5] = u;
    t[10] = v;
    let (u, v, _) = added_lanes(&even[6], &odd[6], LIMIT);
    t[6] = u;
    t[9] = v;
    let (u, v, _) = added_lanes(&even[7], &odd[7], LIMIT);
    t[7] = u;
    t[8] = v;
}
