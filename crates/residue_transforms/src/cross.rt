//! Rows that become lanes.

ghost use Rattle.std.specs.Prelude.{◌≡◌, ℕ, ◌+◌, ◌*◌, ◌%◌, ◌<◌, ◌≤◌, List, [], ◌∷◌, ◌++◌, length, All};
ghost use Rattle.inverse_transforms.specs.Flow.{at, zeros};
ghost use Rattle.inverse_transforms.specs.LaneColumns.{column};
ghost use Rattle.inverse_transforms.specs.Ranges.{IsSmall};
ghost use Rattle.residue_transforms.specs.SquareBlocks.{row};
ghost use Rattle.residue_transforms.specs.Fours.{IsFour, AreLoaded, across, four_down};

use inverse_transforms::Lanes;
use std::simd::prelude::*;

#[inline(always)]
fn four_at(from: &[i32], place: usize) -> i32x4
    requires room { place + 4 ≤ length from.now }
    requires small { All IsSmall from.now }
    ensures { result ≡ at from.now place ∷ at from.now (place + 1) ∷ at from.now (place + 2) ∷ at from.now (place + 3) ∷ [] }
{
    i32x4::from_slice(&from[place..])
}

/// Four rows of four values, as their columns.
#[inline(always)]
fn crossed(a: i32x4, b: i32x4, c: i32x4, d: i32x4) -> (i32x4, i32x4, i32x4, i32x4)
    requires a { IsFour a }
    requires b { IsFour b }
    requires c { IsFour c }
    requires d { IsFour d }
    ensures first { result.0 ≡ across a b c d 0 }
    ensures second { result.1 ≡ across a b c d 1 }
    ensures third { result.2 ≡ across a b c d 2 }
    ensures fourth { result.3 ≡ across a b c d 3 }
{
    let (p, q) = a.interleave(c);
    let (r, s) = b.interleave(d);
    let (first, second) = p.interleave(r);
    let (third, fourth) = q.interleave(s);
    (first, second, third, fourth)
}

/// Four lanes, and the other four.
#[inline(always)]
fn set_lanes(row: &mut Lanes, upper: i32x4, lower: i32x4)
    requires upper { IsFour upper }
    requires lower { IsFour lower }
    ensures { row.new ≡ upper ++ lower }
{
    upper.copy_to_slice(row);
    lower.copy_to_slice(&mut row[4..]);
}

/// The columns of four rows of n, from a place on.
#[inline(always)]
fn crossed_rows(from: &[i32], n: usize, place: usize) -> (i32x4, i32x4, i32x4, i32x4)
    requires side { n ≤ 32 }
    requires room { place + 3 * n + 4 ≤ length from.now }
    requires small { All IsSmall from.now }
    ensures first { result.0 ≡ four_down n from.now place }
    ensures second { result.1 ≡ four_down n from.now (place + 1) }
    ensures third { result.2 ≡ four_down n from.now (place + 2) }
    ensures fourth { result.3 ≡ four_down n from.now (place + 3) }
{
    crossed(
        four_at(from, place),
        four_at(from, place + n),
        four_at(from, place + 2 * n),
        four_at(from, place + 3 * n),
    )
}

/// Four more rows of lanes, behind those that are loaded.
#[inline(always)]
fn load_rows(t: &mut [Lanes], from: &[i32], n: usize, place: usize, k: usize)
    requires side { n ≤ 32 }
    requires room { place + k + 7 * n + 4 ≤ length from.now }
    requires rows { k + 4 ≤ length t.old }
    requires small { All IsSmall from.now }
    requires loaded { AreLoaded n from.now place t.old k }
    ensures { AreLoaded n from.now place t.new (k + 4) }
{
    let upper = crossed_rows(from, n, place + k);
    let lower = crossed_rows(from, n, place + k + 4 * n);
    set_lanes(&mut t[k], upper.0, lower.0);
    set_lanes(&mut t[k + 1], upper.1, lower.1);
    set_lanes(&mut t[k + 2], upper.2, lower.2);
    set_lanes(&mut t[k + 3], upper.3, lower.3);
}

/// Eight rows of a block, one a lane.
pub fn load(t: &mut [Lanes], from: &[i32], first: usize)
    requires side { length t.old ≤ 32 }
    requires fours { length t.old % 4 ≡ 0 }
    requires size { (first + 8) * length t.old ≤ length from.now }
    requires rows { first + 8 ≤ 32 }
    requires values { All IsSmall from.now }
    ensures loaded { (j : ℕ) → j < 8 → column j t.new ≡ row (length t.old) (first + j) from.now }
    ensures small { All (All IsSmall) t.new }
{
    let n = t.len();
    for k in 0..n / 4 {
        load_rows(t, from, n, first * n, 4 * k);
    }
}

/// The rows of a block of 4x4, one a lane, and zeros behind them.
#[inline(always)]
pub fn load_four(t: &mut [Lanes; 4], from: &[i32])
    requires size { length from.now ≡ 16 }
    requires values { All IsSmall from.now }
    ensures loaded { (j : ℕ) → j < 4 → column j t.new ≡ row 4 j from.now }
    ensures rest { (j : ℕ) → 4 ≤ j → j < 8 → column j t.new ≡ zeros 4 }
    ensures small { All (All IsSmall) t.new }
{
    let rows = crossed_rows(from, 4, 0);
    let none = i32x4::splat(0);
    set_lanes(&mut t[0], rows.0, none);
    set_lanes(&mut t[1], rows.1, none);
    set_lanes(&mut t[2], rows.2, none);
    set_lanes(&mut t[3], rows.3, none);
}
