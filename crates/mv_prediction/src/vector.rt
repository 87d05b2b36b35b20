//! Vectors.

ghost use Rattle.std.specs.Prelude.{◌≡◌, ◌<◌, ◌≤◌, pos, negsuc, ◌≤ℤ◌, unsigned_abs};
ghost use Rattle.block_plan.specs.BlockMvs.{no_vector, clip3};
ghost use Rattle.mv_prediction.specs.Vectors.{same_vector, negated, reach_before, reach_after, clamp_mv_ref, is_short_vector, usable_precision, IsSmallVector};

use crate::search::MvSearch;
use block_geometry::{height_8, width_8};
use block_plan::Mv;

pub(crate) const NO_VECTOR: Mv = Mv { row: 0, column: 0 };

pub(crate) fn is_same(a: Mv, b: Mv) -> bool
    ensures { result ≡ same_vector a b }
{
    a.row == b.row && a.column == b.column
}

pub(crate) fn negated(v: Mv) -> Mv
    requires { IsSmallVector v }
    ensures is { result ≡ negated v }
    ensures small { IsSmallVector result }
{
    Mv {
        row: -v.row,
        column: -v.column,
    }
}

/// `Clip3`, where the bounds may stand in the other order.
fn clipped(x: i16, low: i64, high: i64) -> i16
    requires small { unsigned_abs x < 16384 }
    requires low { low ≤ℤ pos 0 }
    requires high { negsuc 511 ≤ℤ high }
    ensures is { result ≡ clip3 low high x }
    ensures small { unsigned_abs result < 16384 }
{
    if i64::from(x) < low {
        low as i16
    } else if high < i64::from(x) {
        high as i16
    } else {
        x
    }
}

fn reach_before(at: u32) -> i64
    ensures is { result ≡ reach_before at }
    ensures low { result ≤ℤ pos 0 }
{
    -(64 * i64::from(at) + 128)
}

fn reach_after(at: u32, side: u8, end: u32) -> i64
    requires inside { at < end }
    requires side { side ≤ 8 }
    ensures is { result ≡ reach_after at side end }
    ensures high { negsuc 511 ≤ℤ result }
{
    (64 * i64::from(end) + 128) - 64 * (i64::from(at) + i64::from(side))
}

/// A component that leads no further than 128 beyond a side of the frame, which has so many places: from a place on,
/// the block has so many.
fn held_back(x: i16, at: u32, side: u8, end: u32) -> i16
    requires small { unsigned_abs x < 16384 }
    requires inside { at < end }
    requires side { side ≤ 8 }
    ensures is { result ≡ clip3 (reach_before at) (reach_after at side end) x }
    ensures small { unsigned_abs result < 16384 }
{
    clipped(x, reach_before(at), reach_after(at, side, end))
}

/// A candidate that leads no further than 128 beyond the frame.
#[inline(always)]
#[tactic(auto, unfolding(crate::specs::Vectors::clamp_mv_ref))]
pub(crate) fn clamped(search: &MvSearch, v: Mv) -> Mv
    requires small { IsSmallVector v }
    requires row { search.now.at.row < search.now.places.rows }
    requires col { search.now.at.col < search.now.places.cols }
    ensures is { result ≡ clamp_mv_ref search.now v }
    ensures small { IsSmallVector result }
{
    let at = search.at;
    Mv {
        row: held_back(v.row, at.row, height_8(at.size), search.places.rows),
        column: held_back(v.column, at.col, width_8(at.size), search.places.cols),
    }
}

/// Whether a vector may have a bit of high precision: its components are below 8 whole samples.
pub fn is_short_vector(v: Mv) -> bool
    ensures { result ≡ is_short_vector v }
{
    v.row.unsigned_abs() < 64 && v.column.unsigned_abs() < 64
}

/// A predicted vector as a block uses it: without the bit of high precision, unless the frame allows it and the vector
/// may have it.
pub fn usable_precision(high_precision: bool, v: Mv) -> Mv
    requires small { IsSmallVector v }
    ensures is { result ≡ usable_precision high_precision v }
    ensures small { IsSmallVector result }
{
    if high_precision && is_short_vector(v) {
        return v;
    }
    Mv {
        row: v.row / 2 * 2,
        column: v.column / 2 * 2,
    }
}
