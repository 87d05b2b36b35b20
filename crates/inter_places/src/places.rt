//! Places of the parts of blocks.

ghost use Rattle.std.specs.Prelude.{◌≡◌, ◌*◌, ◌/◌, ◌+◌, ◌<◌, ◌≤◌, ◌^◌, false, unsigned_abs};
ghost use Rattle.block_geometry.specs.BlockSizes.{is_below_8x8};
ghost use Rattle.inter_places.specs.Axes.{IsAxis, IsPlace};
ghost use Rattle.inter_places.specs.PlaneVectors.{IsSpan};
ghost use Rattle.inter_places.specs.Places.{IsPart, IsReference, parts_of, place_of, is_subsampled, fours, offset_in_block, part_length, part_vector, part_start, predicted_length, part_axis, span_of, coded_length, luma_length, plane_length};
ghost use Rattle.vp9_types.specs.Shapes.{mi_rows, mi_cols, halved};

use crate::axis::{Axis, Place};
use crate::means::{component, mean_vector};
use crate::part::{BlockPart, Direction};
use crate::scaling::{axis_of, first_sample, plain_start, scale};
use crate::span::BlockSpan;
use block_geometry::{height_8, is_below_8x8, width_8};
use block_plan::{BlockInfo, InterPrediction};
use vp9_types::{BlockSize, Plane, Shape};

/// Whether a plane is subsampled along a direction. The shape's flag is read for each plane, so that there is nothing to jump
/// over.
#[inline(always)]
fn is_subsampled(shape: &Shape, plane: Plane, along: Direction) -> bool
    ensures { result ≡ is_subsampled shape.now plane along }
{
    let ss = match along {
        Direction::Down => shape.ss_y,
        Direction::Across => shape.ss_x,
    };
    plane != Plane::Y && ss
}

#[inline(always)]
fn fours(ss: bool) -> usize
    ensures value { result ≡ fours ss }
    ensures some { 1 ≤ result }
    ensures few { result ≤ 2 }
{
    if ss { 1 } else { 2 }
}

/// Into how many parts a block is divided in a plane.
pub fn part_count(shape: &Shape, size: BlockSize, plane: Plane) -> usize
    ensures { result ≡ parts_of shape.now size plane }
{
    if is_below_8x8(size) {
        fours(is_subsampled(shape, plane, Direction::Down))
            * fours(is_subsampled(shape, plane, Direction::Across))
    } else {
        1
    }
}

/// How many samples after its block's first a part begins. Only a block below 8x8 has more than one.
#[inline(always)]
fn offset_in_block(shape: &Shape, size: BlockSize, part: BlockPart, along: Direction) -> u32
    requires { part.number < parts_of shape.now size part.plane }
    ensures value { result ≡ offset_in_block shape.now part along }
    ensures inside { result + 4 ≤ halved (is_subsampled shape.now part.plane along) 8 }
    ensures fours { result ≡ 4 * (result / 4) }
{
    if !is_below_8x8(size) {
        return 0;
    }
    let across = fours(is_subsampled(shape, part.plane, Direction::Across));
    match along {
        Direction::Down => 4 * (part.number / across) as u32,
        Direction::Across => 4 * (part.number % across) as u32,
    }
}

#[inline(always)]
fn span_of(shape: &Shape, block: &BlockInfo, plane: Plane, along: Direction) -> BlockSpan
    requires wide { shape.now.w ≤ 65536 }
    requires high { shape.now.h ≤ 65536 }
    requires row { block.now.row < mi_rows shape.now }
    requires column { block.now.col < mi_cols shape.now }
    ensures value { result ≡ span_of shape.now block.now plane along }
    ensures fits { IsSpan result }
{
    let ss = is_subsampled(shape, plane, along);
    match along {
        Direction::Down => BlockSpan {
            first: block.row,
            count: u32::from(height_8(block.size)),
            all: shape.place_rows(),
            ss,
        },
        Direction::Across => BlockSpan {
            first: block.col,
            count: u32::from(width_8(block.size)),
            all: shape.place_cols(),
            ss,
        },
    }
}

#[inline(always)]
fn part_vector(
    shape: &Shape,
    size: BlockSize,
    inter: &InterPrediction,
    part: BlockPart,
    along: Direction,
) -> i32
    requires number { part.number < parts_of shape.now size part.plane }
    requires list { part.list < 2 }
    ensures value { result ≡ part_vector shape.now size inter.now part along }
    ensures near { unsigned_abs result ≤ 2 ^ 16 }
{
    let ss_x = is_subsampled(shape, part.plane, Direction::Across);
    let ss_y = is_subsampled(shape, part.plane, Direction::Down);
    if is_below_8x8(size) {
        mean_vector(inter, part.list, ss_x, ss_y, part.number, along)
    } else {
        component(inter, part.list, 0, along)
    }
}

#[inline(always)]
fn luma_length(shape: &Shape, along: Direction) -> u32
    ensures { result ≡ luma_length shape.now along }
{
    match along {
        Direction::Down => shape.h,
        Direction::Across => shape.w,
    }
}

#[inline(always)]
fn plane_length(shape: &Shape, plane: Plane, along: Direction) -> u32
    ensures { result ≡ plane_length shape.now plane along }
{
    let luma = luma_length(shape, along);
    if is_subsampled(shape, plane, along) {
        luma - luma / 2
    } else {
        luma
    }
}

/// Where a part of a block is predicted from along one direction.
#[inline(always)]
fn part_axis(
    shape: &Shape,
    block: &BlockInfo,
    inter: &InterPrediction,
    part: BlockPart,
    reference: &Shape,
    along: Direction,
) -> Axis
    requires part { IsPart shape.now block.now part }
    requires reference { IsReference shape.now reference.now }
    ensures value { result ≡ part_axis shape.now block.now inter.now part reference.now along }
    ensures fits { IsAxis result }
{
    let span = span_of(shape, block, part.plane, along);
    let offset_in_block = offset_in_block(shape, block.size, part, along);
    let vector = part_vector(shape, block.size, inter, part, along);
    let scale = scale(luma_length(reference, along), luma_length(shape, along));
    let size = plane_length(reference, part.plane, along);
    axis_of(&span, offset_in_block, vector, scale, size)
}

/// The samples of a plane in the frame's places of 8x8.
#[inline(always)]
fn coded_length(shape: &Shape, plane: Plane, along: Direction) -> u32
    requires wide { shape.now.w ≤ 65536 }
    requires high { shape.now.h ≤ 65536 }
    ensures { result ≡ coded_length shape.now plane along }
{
    let luma = 8
        * match along {
            Direction::Down => shape.place_rows(),
            Direction::Across => shape.place_cols(),
        };
    if is_subsampled(shape, plane, along) {
        luma / 2
    } else {
        luma
    }
}

/// How long a part of a block is along a direction.
#[inline(always)]
fn part_length(size: BlockSize, span: &BlockSpan) -> u32
    requires { IsSpan span.now }
    ensures value { result ≡ part_length size span.now }
    ensures some { 4 ≤ result }
    ensures few { result ≤ 64 }
    ensures fours { result ≡ 4 * (result / 4) }
{
    if is_below_8x8(size) {
        4
    } else if span.ss {
        4 * span.count
    } else {
        8 * span.count
    }
}

/// How much of it lies in the frame's places of 8x8.
#[inline(always)]
fn predicted_length(shape: &Shape, block: &BlockInfo, part: BlockPart, along: Direction) -> u32
    requires wide { shape.now.w ≤ 65536 }
    requires high { shape.now.h ≤ 65536 }
    requires part { IsPart shape.now block.now part }
    ensures value { result ≡ predicted_length shape.now block.now part along }
    ensures some { 4 ≤ result }
    ensures few { result ≤ 64 }
    ensures fours { result ≡ 4 * (result / 4) }
{
    let span = span_of(shape, block, part.plane, along);
    let start = first_sample(&span) + offset_in_block(shape, block.size, part, along);
    let end = coded_length(shape, part.plane, along);
    part_length(block.size, &span).min(end - start)
}

#[inline(always)]
fn part_start(shape: &Shape, block: &BlockInfo, part: BlockPart, along: Direction) -> u32
    requires wide { shape.now.w ≤ 65536 }
    requires high { shape.now.h ≤ 65536 }
    requires part { IsPart shape.now block.now part }
    ensures { result ≡ part_start shape.now block.now part along }
{
    let span = span_of(shape, block, part.plane, along);
    first_sample(&span) + offset_in_block(shape, block.size, part, along)
}

/// Where a part of a block is predicted from in a reference.
#[inline(always)]
#[tactic(auto, unfolding(crate::specs::Places::place_of))]
fn find_place(
    shape: &Shape,
    block: &BlockInfo,
    inter: &InterPrediction,
    part: BlockPart,
    reference: &Shape,
) -> Place
    requires part { IsPart shape.now block.now part }
    requires reference { IsReference shape.now reference.now }
    ensures value { result ≡ place_of shape.now block.now inter.now part reference.now }
    ensures fits { IsPlace result }
{
    Place {
        plane: part.plane,
        row: part_start(shape, block, part, Direction::Down) as usize,
        column: part_start(shape, block, part, Direction::Across) as usize,
        rows: predicted_length(shape, block, part, Direction::Down) as usize,
        columns: predicted_length(shape, block, part, Direction::Across) as usize,
        down: part_axis(shape, block, inter, part, reference, Direction::Down),
        across: part_axis(shape, block, inter, part, reference, Direction::Across),
    }
}

/// Where a block from 8x8 on is predicted from along one direction, in a reference of the frame's length there.
#[inline(always)]
fn plain_axis(
    shape: &Shape,
    block: &BlockInfo,
    inter: &InterPrediction,
    part: BlockPart,
    reference: &Shape,
    along: Direction,
) -> Axis
    requires part { IsPart shape.now block.now part }
    requires reference { IsReference shape.now reference.now }
    requires whole { is_below_8x8 block.now.size ≡ false }
    requires same { luma_length reference.now along ≡ luma_length shape.now along }
    ensures value { result ≡ part_axis shape.now block.now inter.now part reference.now along }
    ensures fits { IsAxis result }
{
    let span = span_of(shape, block, part.plane, along);
    Axis {
        start: plain_start(&span, component(inter, part.list, 0, along)),
        step: 16,
        size: plane_length(reference, part.plane, along),
    }
}

/// Where a block from 8x8 on is predicted from in a reference of the frame's size, as nearly all are: it is a single part,
/// and nothing is scaled.
#[inline(always)]
#[tactic(auto, unfolding(crate::specs::Places::place_of))]
fn plain_place(
    shape: &Shape,
    block: &BlockInfo,
    inter: &InterPrediction,
    part: BlockPart,
    reference: &Shape,
) -> Place
    requires part { IsPart shape.now block.now part }
    requires reference { IsReference shape.now reference.now }
    requires whole { is_below_8x8 block.now.size ≡ false }
    requires wide { reference.now.w ≡ shape.now.w }
    requires high { reference.now.h ≡ shape.now.h }
    ensures value { result ≡ place_of shape.now block.now inter.now part reference.now }
    ensures fits { IsPlace result }
{
    Place {
        plane: part.plane,
        row: part_start(shape, block, part, Direction::Down) as usize,
        column: part_start(shape, block, part, Direction::Across) as usize,
        rows: predicted_length(shape, block, part, Direction::Down) as usize,
        columns: predicted_length(shape, block, part, Direction::Across) as usize,
        down: plain_axis(shape, block, inter, part, reference, Direction::Down),
        across: plain_axis(shape, block, inter, part, reference, Direction::Across),
    }
}

/// The same of any block and any reference, out of line, as few come here.
#[inline(never)]
fn other_place(
    shape: &Shape,
    block: &BlockInfo,
    inter: &InterPrediction,
    part: BlockPart,
    reference: &Shape,
) -> Place
    requires part { IsPart shape.now block.now part }
    requires reference { IsReference shape.now reference.now }
    ensures value { result ≡ place_of shape.now block.now inter.now part reference.now }
    ensures fits { IsPlace result }
{
    find_place(shape, block, inter, part, reference)
}

/// Where a part of a block is predicted from in a reference.
#[inline(always)]
pub fn place(
    shape: &Shape,
    block: &BlockInfo,
    inter: &InterPrediction,
    part: BlockPart,
    reference: &Shape,
) -> Place
    requires part { IsPart shape.now block.now part }
    requires reference { IsReference shape.now reference.now }
    ensures value { result ≡ place_of shape.now block.now inter.now part reference.now }
    ensures fits { IsPlace result }
{
    if !is_below_8x8(block.size) && reference.w == shape.w && reference.h == shape.h {
        plain_place(shape, block, inter, part, reference)
    } else {
        other_place(shape, block, inter, part, reference)
    }
}

/// The rows of a reference that a part of a block is predicted from, and where.
#[derive(Clone, Copy, Debug, PartialEq, Eq)]
pub struct PlaceRows {
    pub rows: usize,
    pub down: Axis,
}

/// These alone, as `place` has them.
#[inline(never)]
#[tactic(auto, unfolding(crate::specs::Places::place_of))]
pub fn place_rows(
    shape: &Shape,
    block: &BlockInfo,
    inter: &InterPrediction,
    part: BlockPart,
    reference: &Shape,
) -> PlaceRows
    requires part { IsPart shape.now block.now part }
    requires reference { IsReference shape.now reference.now }
    ensures rows { result.rows ≡ (place_of shape.now block.now inter.now part reference.now).rows }
    ensures down { result.down ≡ (place_of shape.now block.now inter.now part reference.now).down }
    ensures fits { IsAxis result.down }
    ensures some { 0 < result.rows }
    ensures few { result.rows ≤ 64 }
{
    PlaceRows {
        rows: predicted_length(shape, block, part, Direction::Down) as usize,
        down: part_axis(shape, block, inter, part, reference, Direction::Down),
    }
}
