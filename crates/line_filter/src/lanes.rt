//! Eight lines at a time, of four samples on each side.

ghost use Rattle.std.specs.Prelude.{◌≡◌, ℕ, ◌<◌, ◌≤◌, false};
ghost use Rattle.line_filter.specs.Lines.{filtered_near};
ghost use Rattle.line_filter.specs.Code.{IsNear, NoneIs, is_narrowed, is_smoothed, line_of, near_at, lanes_of};

use crate::edge::Limits;
use crate::filters::{LineFilter, Mixed, Narrow, Smooth};
use crate::near::{Near, filter_mask, flat_mask};
use std::simd::prelude::*;
use vp9_types::Sample;

/// Eight samples of a row.
pub type Row = [u16; 8];

/// Eight rows of eight samples, in vectors.
#[derive(Clone, Copy)]
pub struct Lanes {
    pub r0: u16x8,
    pub r1: u16x8,
    pub r2: u16x8,
    pub r3: u16x8,
    pub r4: u16x8,
    pub r5: u16x8,
    pub r6: u16x8,
    pub r7: u16x8,
}

/// The same, sample by sample.
#[derive(Clone, Copy)]
pub struct Rows {
    pub r0: Row,
    pub r1: Row,
    pub r2: Row,
    pub r3: Row,
    pub r4: Row,
    pub r5: Row,
    pub r6: Row,
    pub r7: Row,
}

/// Eight samples in a vector. By `from_array` they would be loaded one by one.
#[inline(always)]
pub fn loaded(row: &Row) -> u16x8
    ensures { result ≡ row.now }
{
    u16x8::from_slice(row)
}

#[inline(always)]
pub fn stored(lanes: u16x8) -> Row
    ensures { result ≡ lanes }
{
    let mut row = [0; 8];
    lanes.copy_to_slice(&mut row);
    row
}

#[inline(always)]
pub fn rows_of(x: &Lanes) -> Rows
    ensures { lanes_of result ≡ x.now }
{
    Rows {
        r0: stored(x.r0),
        r1: stored(x.r1),
        r2: stored(x.r2),
        r3: stored(x.r3),
        r4: stored(x.r4),
        r5: stored(x.r5),
        r6: stored(x.r6),
        r7: stored(x.r7),
    }
}

#[inline(always)]
pub fn lanes_of(x: &Rows) -> Lanes
    ensures { result ≡ lanes_of x.now }
{
    Lanes {
        r0: loaded(&x.r0),
        r1: loaded(&x.r1),
        r2: loaded(&x.r2),
        r3: loaded(&x.r3),
        r4: loaded(&x.r4),
        r5: loaded(&x.r5),
        r6: loaded(&x.r6),
        r7: loaded(&x.r7),
    }
}

#[inline(always)]
#[tactic(auto, unfolding(crate::specs::Code::near_at))]
fn near(x: &Rows, j: usize) -> Near
    requires { j < 8 }
    ensures { result ≡ near_at (lanes_of x.now) j }
{
    Near {
        p3: x.r0[j],
        p2: x.r1[j],
        p1: x.r2[j],
        p0: x.r3[j],
        q0: x.r4[j],
        q1: x.r5[j],
        q2: x.r6[j],
        q3: x.r7[j],
    }
}

/// Which filters change any of eight columns.
#[derive(Clone, Copy, Debug, PartialEq, Eq)]
struct NearMasks {
    narrow: bool,
    smooth: bool,
}

#[inline(always)]
fn masks_of(x: &Rows, l: Limits) -> NearMasks
    requires small { (j : ℕ) → j < 8 → IsNear (near_at (lanes_of x.now) j) }
    ensures narrow { result.narrow ≡ false → NoneIs (is_narrowed l) (lanes_of x.now) 8 }
    ensures smooth { result.smooth ≡ false → NoneIs (is_smoothed l) (lanes_of x.now) 8 }
{
    let mut narrow = false;
    let mut smooth = false;
    for j in 0..8usize {
        let line = near(x, j);
        let calm = filter_mask(line, l);
        let flat = flat_mask(line, l);
        narrow |= calm & !flat;
        smooth |= calm & flat;
    }
    NearMasks { narrow, smooth }
}

/// Eight columns filtered, each as its line alone.
#[inline(always)]
fn filtered_rows<F: LineFilter>(x: &Rows, l: Limits) -> Rows
    requires small { (j : ℕ) → j < 8 → IsNear (near_at (lanes_of x.now) j) }
    requires half { l.half ≤ 2048 }
    ensures { (j : ℕ) → j < 8 → line_of (near_at (lanes_of result) j) ≡ F.line l (line_of (near_at (lanes_of x.now) j)) }
{
    let mut r0 = [0; 8];
    let mut r1 = [0; 8];
    let mut r2 = [0; 8];
    let mut r3 = [0; 8];
    let mut r4 = [0; 8];
    let mut r5 = [0; 8];
    let mut r6 = [0; 8];
    let mut r7 = [0; 8];
    for j in 0..8usize {
        let line = F::filtered(near(x, j), l);
        r0[j] = line.p3;
        r1[j] = line.p2;
        r2[j] = line.p1;
        r3[j] = line.p0;
        r4[j] = line.q0;
        r5[j] = line.q1;
        r6[j] = line.q2;
        r7[j] = line.q3;
    }
    Rows {
        r0,
        r1,
        r2,
        r3,
        r4,
        r5,
        r6,
        r7,
    }
}

/// Eight columns filtered by the filters of width 4, or of width 8: by those alone that change any of them. For each `P` and
/// `SITE` there is one caller: a function that is called at one place alone is made a part of it however large it is, and lanes
/// stay in registers.
#[inline(always)]
pub fn filtered_by<P: Sample, const SITE: usize>(x: &Lanes, l: Limits, wide: bool) -> Lanes
    requires small { (j : ℕ) → j < 8 → IsNear (near_at x.now j) }
    requires half { l.half ≤ 2048 }
    ensures { (j : ℕ) → j < 8 → line_of (near_at result j) ≡ filtered_near l wide (line_of (near_at x.now j)) }
{
    let rows = rows_of(x);
    if !wide {
        return lanes_of(&filtered_rows::<Narrow>(&rows, l));
    }
    let masks = masks_of(&rows, l);
    if !masks.smooth {
        return lanes_of(&filtered_rows::<Narrow>(&rows, l));
    }
    if !masks.narrow {
        return lanes_of(&filtered_rows::<Smooth>(&rows, l));
    }
    lanes_of(&filtered_rows::<Mixed>(&rows, l))
}
