//! Eight rows of eight samples put into a plane, by what it keeps a sample as.

ghost use Rattle.std.specs.Prelude.{◌≡◌, ℕ, ◌<◌, ◌≤◌, true, slice_index, length};
ghost use Rattle.vp9_types.specs.Maps.{rows_of, with_block};
ghost use Rattle.planes.specs.Planes.{StartsIn, plane_map, with_part};
ghost use Rattle.line_filter.specs.Code.{AreLanes, AreLanesAtMost, HasSquare, lane_at};

use crate::lanes::{Lanes, Row, stored};
use planes::{RowMaker, SamplePlane};
use std::simd::prelude::*;
use vp9_types::Sample;

/// A sample that edges are filtered of.
pub trait EdgeSample: Sample {
    /// Puts eight rows of eight samples at a row and column. What lies outside of the plane is left out.
    fn put_lanes(plane: &mut SamplePlane<Self>, row: usize, column: usize, x: &Lanes)
        requires inside { StartsIn plane.old.area row column }
        requires fits { AreLanesAtMost Self.greatest x.now }
        ensures area { plane.new.area ≡ plane.old.area }
        ensures map { (f : ℕ → ℕ → ℕ) → AreLanes x.now f → plane_map plane.new ≡ with_part plane.old.area (plane_map plane.old) row column 8 8 f };

    /// The same where all of them lie inside of the plane.
    fn put_lanes_inside(plane: &mut SamplePlane<Self>, row: usize, column: usize, x: &Lanes)
        requires inside { HasSquare plane.old.area row column }
        requires fits { AreLanesAtMost Self.greatest x.now }
        ensures area { plane.new.area ≡ plane.old.area }
        ensures map { (f : ℕ → ℕ → ℕ) → AreLanes x.now f → plane_map plane.new ≡ with_part plane.old.area (plane_map plane.old) row column 8 8 f };
}

impl EdgeSample for u8 {
    #[inline(never)]
    fn put_lanes(plane: &mut SamplePlane<u8>, row: usize, column: usize, x: &Lanes) {
        plane.put_square::<8>(row, column, &flat_bytes(x));
    }

    #[inline(always)]
    fn put_lanes_inside(plane: &mut SamplePlane<u8>, row: usize, column: usize, x: &Lanes) {
        let lanes = *x;
        plane.put_made::<8, ByteRows>(row, column, 8, &ByteRows { lanes });
    }
}

impl EdgeSample for u16 {
    #[inline(never)]
    fn put_lanes(plane: &mut SamplePlane<u16>, row: usize, column: usize, x: &Lanes) {
        plane.put_square::<8>(row, column, &flat(x));
    }

    #[inline(always)]
    fn put_lanes_inside(plane: &mut SamplePlane<u16>, row: usize, column: usize, x: &Lanes) {
        let lanes = *x;
        plane.put_made::<8, WordRows>(row, column, 8, &WordRows { lanes });
    }
}

/// Puts eight rows of eight samples as `put_lanes`, or where it is known that all are `inside`.
#[inline(always)]
pub fn put_known<P: EdgeSample>(
    plane: &mut SamplePlane<P>,
    row: usize,
    column: usize,
    x: &Lanes,
    inside: bool,
)
    requires starts { StartsIn plane.old.area row column }
    requires known { inside ≡ true → HasSquare plane.old.area row column }
    requires fits { AreLanesAtMost P.greatest x.now }
    ensures area { plane.new.area ≡ plane.old.area }
    ensures map { (f : ℕ → ℕ → ℕ) → AreLanes x.now f → plane_map plane.new ≡ with_part plane.old.area (plane_map plane.old) row column 8 8 f }
{
    if inside {
        P::put_lanes_inside(plane, row, column, x);
    } else {
        // the copy alone is kept in memory
        let lanes = *x;
        P::put_lanes(plane, row, column, &lanes);
    }
}

/// Rows that are put into a plane as bytes.
#[derive(Drop)]
struct ByteRows {
    lanes: Lanes,
}

/// Rows that are put into a plane as they are.
#[derive(Drop)]
struct WordRows {
    lanes: Lanes,
}

impl RowMaker<u8, 8> for ByteRows {
    ghost use Rattle.std.specs.Prelude.{ℕ, slice_index};
    ghost use Rattle.line_filter.specs.Code.{IsRowAtMost, lane_at};

    ghost makes = { λ m i. IsRowAtMost 255 (lane_at m.lanes i) };

    ghost made = { λ m i j. slice_index (lane_at m.lanes i) j };

    #[inline(always)]
    fn make(&self, i: usize, row: &mut [u8]) {
        let lane = lane_at(&self.lanes, i);
        write_bytes(row, lane);
    }
}

impl RowMaker<u16, 8> for WordRows {
    ghost use Rattle.std.specs.Prelude.{ℕ, slice_index};
    ghost use Rattle.line_filter.specs.Code.{IsRowAtMost, lane_at};

    ghost makes = { λ m i. IsRowAtMost 65535 (lane_at m.lanes i) };

    ghost made = { λ m i j. slice_index (lane_at m.lanes i) j };

    #[inline(always)]
    fn make(&self, i: usize, row: &mut [u16]) {
        let lane = stored(lane_at(&self.lanes, i));
        row.copy_from_slice(&lane);
    }
}

/// The i-th of eight rows.
#[inline(always)]
#[tactic(auto, unfolding(crate::specs::Code::lane_at))]
fn lane_at(x: &Lanes, i: usize) -> u16x8
    ensures { result ≡ lane_at x.now i }
{
    if i == 0 {
        return x.r0;
    }
    if i == 1 {
        return x.r1;
    }
    if i == 2 {
        return x.r2;
    }
    if i == 3 {
        return x.r3;
    }
    if i == 4 {
        return x.r4;
    }
    if i == 5 {
        return x.r5;
    }
    if i == 6 {
        return x.r6;
    }
    x.r7
}

/// Writes eight samples as bytes.
#[inline(always)]
fn write_bytes(to: &mut [u8], row: u16x8)
    requires long { length to.old ≡ 8 }
    requires small { (j : ℕ) → j < 8 → slice_index row j ≤ 255 }
    ensures { (j : ℕ) → j < 8 → slice_index to.new j ≡ slice_index row j }
{
    let bytes: u8x8 = row.cast();
    bytes.copy_to_slice(to);
}

/// Writes a row of a square of eight rows.
#[inline(always)]
fn put_row(block: &mut [u16], i: usize, row: &Row)
    requires low { i < 8 }
    requires long { length block.old ≡ 64 }
    ensures map { rows_of 8 block.new ≡ with_block (rows_of 8 block.old) i 0 1 8 (λ _ j. slice_index row.now j) }
{
    block[i * 8..i * 8 + 8].copy_from_slice(row);
}

/// The same in bytes.
#[inline(always)]
fn put_bytes(block: &mut [u8], i: usize, row: u16x8)
    requires low { i < 8 }
    requires long { length block.old ≡ 64 }
    requires small { (j : ℕ) → j < 8 → slice_index row j ≤ 255 }
    ensures map { rows_of 8 block.new ≡ with_block (rows_of 8 block.old) i 0 1 8 (λ _ j. slice_index row j) }
{
    let bytes: u8x8 = row.cast();
    bytes.copy_to_slice(&mut block[i * 8..i * 8 + 8]);
}

/// Eight rows, one after another.
#[inline(always)]
fn flat(x: &Lanes) -> [u16; 64]
    ensures { (f : ℕ → ℕ → ℕ) → AreLanes x.now f → (i j : ℕ) → i < 8 → j < 8 → rows_of 8 result i j ≡ f i j }
{
    let mut block = [0; 64];
    put_row(&mut block, 0, &stored(x.r0));
    put_row(&mut block, 1, &stored(x.r1));
    put_row(&mut block, 2, &stored(x.r2));
    put_row(&mut block, 3, &stored(x.r3));
    put_row(&mut block, 4, &stored(x.r4));
    put_row(&mut block, 5, &stored(x.r5));
    put_row(&mut block, 6, &stored(x.r6));
    put_row(&mut block, 7, &stored(x.r7));
    block
}

/// The same in bytes.
#[inline(always)]
fn flat_bytes(x: &Lanes) -> [u8; 64]
    requires small { AreLanesAtMost 255 x.now }
    ensures { (f : ℕ → ℕ → ℕ) → AreLanes x.now f → (i j : ℕ) → i < 8 → j < 8 → rows_of 8 result i j ≡ f i j }
{
    let mut block = [0; 64];
    put_bytes(&mut block, 0, x.r0);
    put_bytes(&mut block, 1, x.r1);
    put_bytes(&mut block, 2, x.r2);
    put_bytes(&mut block, 3, x.r3);
    put_bytes(&mut block, 4, x.r4);
    put_bytes(&mut block, 5, x.r5);
    put_bytes(&mut block, 6, x.r6);
    put_bytes(&mut block, 7, x.r7);
    block
}
