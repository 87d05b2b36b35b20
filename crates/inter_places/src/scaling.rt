//! Starts and steps in a reference.

ghost use Rattle.std.specs.Prelude.{◌≡◌, ◌+◌, ◌*◌, ◌/◌, ◌%◌, ◌^◌, ◌≤◌, pos, neg_ℤ, ◌+ℤ◌, ◌*ℤ◌, unsigned_abs};
ghost use Rattle.vp9_types.specs.Shapes.{halved};
ghost use Rattle.block_plan.specs.BlockMvs.{clip3};
ghost use Rattle.std.specs.Int.{int_shr};
ghost use Rattle.inter_places.specs.Axes.{IsAxis};
ghost use Rattle.inter_places.specs.PlaneVectors.{IsSpan, clamped_vector, in_sixteenths, spel};
ghost use Rattle.inter_places.specs.Scaling.{IsInScale, x_scale, base_x, luma_x, frac_x, d_x, start_x, axis_of, span_start};

use crate::axis::Axis;
use crate::span::{BlockSpan, clamp_mv, in_sixteenths, reach};

/// A reference's size over the frame's, with 14 bits.
#[tactic(auto, using(crate::proofs::Scales::scale_most, crate::proofs::Scales::scale_least))]
pub(crate) fn scale(reference: u32, own: u32) -> u32
    requires { IsInScale reference own }
    ensures value { result ≡ x_scale reference own }
    ensures most { result ≤ 2 ^ 15 }
    ensures least { 2 ^ 10 ≤ result }
{
    if reference == own {
        return 16384;
    }
    (u64::from(reference) * 16384 / u64::from(own)) as u32
}

/// The part of a start that the place in the plane gives.
#[inline(always)]
fn whole_of(scale: u32, x: u32) -> i32
    requires scale { scale ≤ 2 ^ 15 }
    requires near { x ≤ 2 ^ 17 }
    ensures value { result ≡ pos (16 * base_x scale x) }
    ensures few { unsigned_abs result ≤ 2 ^ 22 }
{
    (16 * (u64::from(x) * u64::from(scale) / 16384)) as i32
}

/// The part that the place gives below a sample, of the place that it is in luma.
#[inline(always)]
fn fraction_of(scale: u32, ss: bool, x: u32) -> i32
    requires scale { scale ≤ 2 ^ 15 }
    requires near { x ≤ 2 ^ 17 }
    ensures value { result ≡ pos (frac_x scale (luma_x ss x)) }
    ensures few { unsigned_abs result ≤ 15 }
{
    let luma = if ss { 2 * x } else { x };
    (16 * u64::from(luma) * u64::from(scale) / 16384 % 16) as i32
}

/// The part that the vector gives.
#[inline(always)]
fn scaled_vector(scale: u32, mv: i32) -> i32
    requires scale { scale ≤ 2 ^ 15 }
    requires near { unsigned_abs mv ≤ 2 ^ 21 }
    ensures value { result ≡ int_shr (mv *ℤ pos scale) 14 }
    ensures few { unsigned_abs result ≤ 2 ^ 22 }
{
    ((i64::from(mv) * i64::from(scale)) >> 14) as i32
}

/// How far the start lies after the whole sample: by the vector, and by what the place is below a sample.
#[inline(always)]
fn distance_of(scale: u32, ss: bool, x: u32, mv: i32) -> i32
    requires scale { scale ≤ 2 ^ 15 }
    requires place { x ≤ 2 ^ 17 }
    requires near { unsigned_abs mv ≤ 2 ^ 21 }
    ensures value { result ≡ d_x scale (luma_x ss x) mv }
    ensures few { unsigned_abs result ≤ 2 ^ 22 + 15 }
{
    let fraction = fraction_of(scale, ss, x);
    scaled_vector(scale, mv) + fraction
}

#[inline(always)]
pub(crate) fn first_sample(span: &BlockSpan) -> u32
    requires { IsSpan span.now }
    ensures { result ≡ span_start span.now }
{
    let luma = 8 * span.first;
    if span.ss { luma / 2 } else { luma }
}

/// The start of a part that begins so many samples after the block's first.
#[inline(always)]
fn start_of(span: &BlockSpan, offset_in_block: u32, mv: i32, scale: u32) -> i32
    requires span { IsSpan span.now }
    requires offset { offset_in_block ≤ 64 }
    requires near { unsigned_abs mv ≤ 2 ^ 16 }
    requires most { scale ≤ 2 ^ 15 }
    ensures value { result ≡ start_x scale span.now.ss (span_start span.now + offset_in_block) (clamped_vector span.now mv) }
    ensures near { unsigned_abs result ≤ 2 ^ 24 }
{
    let first = first_sample(span) + offset_in_block;
    let vector = clamp_mv(span, mv);
    if scale == 16384 {
        return 16 * first as i32 + vector;
    }
    whole_of(scale, first) + distance_of(scale, span.ss, first, vector)
}

/// The place that a vector points to, in sixteenths of a sample.
#[inline(always)]
fn place_at(span: &BlockSpan, mv: i32) -> i32
    requires span { IsSpan span.now }
    requires near { unsigned_abs mv ≤ 2 ^ 16 }
    ensures value { result ≡ pos (16 * span_start span.now) +ℤ in_sixteenths span.now.ss mv }
    ensures near { unsigned_abs result ≤ 2 ^ 22 }
{
    let first = (16 * first_sample(span)) as i32;
    first + in_sixteenths(span.ss, mv)
}

/// The first place that a vector may point to.
#[inline(always)]
fn least_place(span: &BlockSpan) -> i32
    requires { IsSpan span.now }
    ensures value { result ≡ neg_ℤ (spel 4 span.now) }
    ensures near { unsigned_abs result ≤ 2 ^ 22 }
{
    -reach(span, 4)
}

/// The last one, by the samples that the plane has in the frame's places of 8x8.
#[inline(always)]
fn greatest_place(span: &BlockSpan) -> i32
    requires { IsSpan span.now }
    ensures value { result ≡ pos (16 * (3 + halved span.now.ss (8 * span.now.all))) }
    ensures near { unsigned_abs result ≤ 2 ^ 22 }
{
    let luma = 8 * span.all;
    let samples = if span.ss { luma / 2 } else { luma };
    (16 * (3 + samples)) as i32
}

#[inline(always)]
fn clip(x: i32, low: i32, high: i32) -> i32
    requires x { unsigned_abs x ≤ 2 ^ 22 }
    requires low { unsigned_abs low ≤ 2 ^ 22 }
    requires high { unsigned_abs high ≤ 2 ^ 22 }
    ensures value { result ≡ clip3 low high x }
    ensures near { unsigned_abs result ≤ 2 ^ 22 }
{
    if x < low {
        low
    } else if high < x {
        high
    } else {
        x
    }
}

/// The place that a vector points to, clamped where the vector would be: its bounds end as far out of the frame for each
/// block.
#[inline(always)]
fn clamped_place(span: &BlockSpan, mv: i32) -> i32
    requires span { IsSpan span.now }
    requires near { unsigned_abs mv ≤ 2 ^ 16 }
    ensures value { result ≡ pos (16 * span_start span.now) +ℤ clamped_vector span.now mv }
    ensures near { unsigned_abs result ≤ 2 ^ 24 }
{
    clip(place_at(span, mv), least_place(span), greatest_place(span))
}

/// The start of a block in a reference of the frame's size, where nothing is scaled.
#[inline(always)]
pub(crate) fn plain_start(span: &BlockSpan, mv: i32) -> i32
    requires span { IsSpan span.now }
    requires near { unsigned_abs mv ≤ 2 ^ 16 }
    ensures value { result ≡ start_x (2 ^ 14) span.now.ss (span_start span.now) (clamped_vector span.now mv) }
    ensures near { unsigned_abs result ≤ 2 ^ 24 }
{
    clamped_place(span, mv)
}

/// Where a part of a block is predicted from along one direction, which begins so many samples after the block's first.
#[inline(always)]
pub(crate) fn axis_of(
    span: &BlockSpan,
    offset_in_block: u32,
    mv: i32,
    scale: u32,
    size: u32,
) -> Axis
    requires span { IsSpan span.now }
    requires offset { offset_in_block ≤ 64 }
    requires near { unsigned_abs mv ≤ 2 ^ 16 }
    requires most { scale ≤ 2 ^ 15 }
    requires least { 2 ^ 10 ≤ scale }
    requires some { 1 ≤ size }
    requires size { size ≤ 65536 }
    ensures value { result ≡ axis_of span.now offset_in_block mv scale size }
    ensures fits { IsAxis result }
{
    Axis {
        start: start_of(span, offset_in_block, mv, scale),
        step: (16 * scale / 16384) as u8,
        size,
    }
}
