//! Eight lines at a time, of eight samples on each side.

ghost use Rattle.std.specs.Prelude.{◌≡◌, ℕ, ◌<◌, ◌≤◌, false};
ghost use Rattle.line_filter.specs.Lines.{filtered_line};
ghost use Rattle.line_filter.specs.declared.edge.FilterWidth.TheVariants.{Sixteen};
ghost use Rattle.line_filter.specs.Code.{IsNear, IsFar, wide_line_of, AreFlat, AreNotCalm, AreNotFlat, between, near_between, far_between, lanes_from, lanes_of};

use crate::edge::Limits;
use crate::far::{Far, flat_mask2};
use crate::filters::{FarFilter, Mixed, Smooth};
use crate::lanes::{Lanes, Row, Rows, loaded, rows_of};
use crate::near::{Near, filter_mask, flat_mask};
use vp9_types::Sample;

#[inline(always)]
#[tactic(auto, unfolding(crate::specs::Code::near_between))]
fn near(above: &Rows, below: &Rows, j: usize) -> Near
    requires { j < 8 }
    ensures { result ≡ near_between (lanes_of above.now) (lanes_of below.now) j }
{
    Near {
        p3: above.r4[j],
        p2: above.r5[j],
        p1: above.r6[j],
        p0: above.r7[j],
        q0: below.r0[j],
        q1: below.r1[j],
        q2: below.r2[j],
        q3: below.r3[j],
    }
}

#[inline(always)]
#[tactic(auto, unfolding(crate::specs::Code::far_between))]
fn far(above: &Rows, below: &Rows, j: usize) -> Far
    requires { j < 8 }
    ensures { result ≡ far_between (lanes_of above.now) (lanes_of below.now) j }
{
    Far {
        p7: above.r0[j],
        p6: above.r1[j],
        p5: above.r2[j],
        p4: above.r3[j],
        q4: below.r4[j],
        q5: below.r5[j],
        q6: below.r6[j],
        q7: below.r7[j],
    }
}

/// The four rows on each side of the edge.
#[inline(always)]
pub fn between(above: &Lanes, below: &Lanes) -> Lanes
    ensures { result ≡ between above.now below.now }
{
    Lanes {
        r0: above.r4,
        r1: above.r5,
        r2: above.r6,
        r3: above.r7,
        r4: below.r0,
        r5: below.r1,
        r6: below.r2,
        r7: below.r3,
    }
}

/// Whether the filters of all widths change any of eight columns, whether the widest one does, and whether another one does.
#[derive(Clone, Copy, Debug, PartialEq, Eq)]
pub struct FarMasks {
    pub calm: bool,
    pub flat: bool,
    pub near: bool,
}

#[inline(always)]
fn masks_of(above: &Rows, below: &Rows, l: Limits) -> FarMasks
    requires near { (j : ℕ) → j < 8 → IsNear (near_between (lanes_of above.now) (lanes_of below.now) j) }
    ensures calm { result.calm ≡ false → AreNotCalm l (lanes_of above.now) (lanes_of below.now) 8 }
    ensures flat { result.flat ≡ false → AreNotFlat l (lanes_of above.now) (lanes_of below.now) 8 }
    ensures near { result.near ≡ false → AreFlat l (lanes_of above.now) (lanes_of below.now) 8 }
{
    let mut calm = false;
    let mut flat = false;
    let mut other = false;
    for j in 0..8usize {
        let (x, y) = (near(above, below, j), far(above, below, j));
        let is_calm = filter_mask(x, l);
        let is_flat = flat_mask(x, l) & flat_mask2(x, y, l);
        calm |= is_calm;
        flat |= is_calm & is_flat;
        other |= is_calm & !is_flat;
    }
    FarMasks {
        calm,
        flat,
        near: other,
    }
}

/// Which filters change any of eight columns.
#[inline(always)]
pub fn far_masks(above: &Lanes, below: &Lanes, l: Limits) -> FarMasks
    requires near { (j : ℕ) → j < 8 → IsNear (near_between above.now below.now j) }
    ensures calm { result.calm ≡ false → AreNotCalm l above.now below.now 8 }
    ensures flat { result.flat ≡ false → AreNotFlat l above.now below.now 8 }
    ensures near { result.near ≡ false → AreFlat l above.now below.now 8 }
{
    masks_of(&rows_of(above), &rows_of(below), l)
}

/// Eight rows, one behind another, in vectors.
#[inline(always)]
fn lanes_from(rows: &[Row; 8]) -> Lanes
    ensures { result ≡ lanes_from rows.now }
{
    Lanes {
        r0: loaded(&rows[0]),
        r1: loaded(&rows[1]),
        r2: loaded(&rows[2]),
        r3: loaded(&rows[3]),
        r4: loaded(&rows[4]),
        r5: loaded(&rows[5]),
        r6: loaded(&rows[6]),
        r7: loaded(&rows[7]),
    }
}

#[inline(always)]
fn filtered_far_rows<F: FarFilter>(above: &Rows, below: &Rows, l: Limits) -> ([Row; 8], [Row; 8])
    requires near { (j : ℕ) → j < 8 → IsNear (near_between (lanes_of above.now) (lanes_of below.now) j) }
    requires far { (j : ℕ) → j < 8 → IsFar (far_between (lanes_of above.now) (lanes_of below.now) j) }
    requires half { l.half ≤ 2048 }
    ensures { (j : ℕ) → j < 8 → wide_line_of (near_between (lanes_from result.0) (lanes_from result.1) j) (far_between (lanes_from result.0) (lanes_from result.1) j)
        ≡ F.line l (wide_line_of (near_between (lanes_of above.now) (lanes_of below.now) j) (far_between (lanes_of above.now) (lanes_of below.now) j)) }
{
    let mut a0 = [0; 8];
    let mut a1 = [0; 8];
    let mut a2 = [0; 8];
    let mut a3 = [0; 8];
    let mut a4 = [0; 8];
    let mut a5 = [0; 8];
    let mut a6 = [0; 8];
    let mut a7 = [0; 8];
    let mut b0 = [0; 8];
    let mut b1 = [0; 8];
    let mut b2 = [0; 8];
    let mut b3 = [0; 8];
    let mut b4 = [0; 8];
    let mut b5 = [0; 8];
    let mut b6 = [0; 8];
    let mut b7 = [0; 8];
    for j in 0..8usize {
        let line = F::filtered_far(near(above, below, j), far(above, below, j), l);
        a0[j] = line.far.p7;
        a1[j] = line.far.p6;
        a2[j] = line.far.p5;
        a3[j] = line.far.p4;
        a4[j] = line.near.p3;
        a5[j] = line.near.p2;
        a6[j] = line.near.p1;
        a7[j] = line.near.p0;
        b0[j] = line.near.q0;
        b1[j] = line.near.q1;
        b2[j] = line.near.q2;
        b3[j] = line.near.q3;
        b4[j] = line.far.q4;
        b5[j] = line.far.q5;
        b6[j] = line.far.q6;
        b7[j] = line.far.q7;
    }
    (
        [a0, a1, a2, a3, a4, a5, a6, a7],
        [b0, b1, b2, b3, b4, b5, b6, b7],
    )
}

/// Eight columns filtered by the filters of all widths, each as its line alone: eight rows above the edge, and eight
/// below it; by the widest filter alone, unless another one changes any of them. For each `P` and `SITE` there is one caller, of
/// which it becomes a part.
#[inline(always)]
pub fn filtered_far_lanes<P: Sample, const SITE: usize>(
    above: &Lanes,
    below: &Lanes,
    l: Limits,
    near: bool,
) -> (Lanes, Lanes)
    requires near { (j : ℕ) → j < 8 → IsNear (near_between above.now below.now j) }
    requires far { (j : ℕ) → j < 8 → IsFar (far_between above.now below.now j) }
    requires half { l.half ≤ 2048 }
    requires flat { near ≡ false → AreFlat l above.now below.now 8 }
    ensures { (j : ℕ) → j < 8 → wide_line_of (near_between result.0 result.1 j) (far_between result.0 result.1 j)
        ≡ filtered_line l Sixteen (wide_line_of (near_between above.now below.now j) (far_between above.now below.now j)) }
{
    let (above, below) = (rows_of(above), rows_of(below));
    if !near {
        let (upper, lower) = filtered_far_rows::<Smooth>(&above, &below, l);
        return (lanes_from(&upper), lanes_from(&lower));
    }
    let (upper, lower) = filtered_far_rows::<Mixed>(&above, &below, l);
    (lanes_from(&upper), lanes_from(&lower))
}
