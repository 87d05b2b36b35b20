//! The edges of a cell of 8x8 samples of a plane.

ghost use Rattle.std.specs.Prelude.{◌≡◌, ◌≤◌, ◌<◌, ◌+◌, ◌*◌, ◌%◌, ◌&&◌, Some, None, nat_eq, length, slice_get, if◌then◌else◌};
ghost use Rattle.vp9_types.specs.Shapes.{halved};
ghost use Rattle.vp9_tables.specs.BlockTables.{greatest_of};
ghost use Rattle.vp9_tables.specs.Numbers.{tx_number};
ghost use Rattle.block_plan.specs.InPlanes.{tx_in};
ghost use Rattle.line_filter.specs.declared.edge.Pass.TheVariants.{Vertical, Horizontal};
ghost use Rattle.loop_edges.specs.Cells.{cell_at, is_skipped_inter, across, outer_width, outer_edge, has_outer, has_inner, sub_x, sub_y};
ghost use Rattle.loop_edges.specs.Code.{IsSideOfBlock, is_inside, narrowed};

use block_geometry::{height_8, width_8};
use block_plan::{BlockInfo, Prediction, plane_block};
use line_filter::{FilterWidth, Pass};
use vp9_types::{Plane, Shape, TxSize};

/// A cell of a plane: the row and column of its 8x8 luma samples, both even where the plane is subsampled.
#[derive(Clone, Copy, Debug, PartialEq, Eq)]
pub struct CellAt {
    pub row: u32,
    pub col: u32,
}

/// The edges of a cell in a pass: that at its side, if there is one, and whether there is one in its middle.
#[derive(Clone, Copy, Debug, PartialEq, Eq)]
pub struct CellEdges {
    pub outer: Option<FilterWidth>,
    pub inner: bool,
}

/// A cell as a pass sees it, across its edges.
#[derive(Clone, Copy, Debug, PartialEq, Eq)]
pub struct Crossing {
    /// Its column or row in its superblock, counted in cells of the plane: 0 to 7.
    pub k: u32,
    /// Whether its block begins there.
    pub is_block_edge: bool,
    /// Whether it is the frame's first.
    pub is_first: bool,
    /// Whether it is the frame's last in a direction that is subsampled: then half of it is in the plane.
    pub is_last: bool,
}

/// Without a jump, so that it is found once for all of a place's cells.
#[inline(always)]
fn is_skipped_inter(block: &BlockInfo) -> bool
    ensures { result ≡ is_skipped_inter block.now }
{
    let is_inter = matches!(block.prediction, Prediction::Inter(_));
    block.skip & is_inter
}

/// Whether a place is a multiple of a block's size, by its low bits: a division, or a jump to one by a constant, is slow.
#[inline(always)]
fn is_multiple(place: u32, size: u8) -> bool
    requires { IsSideOfBlock size }
    ensures { result ≡ nat_eq (place % size) 0 }
{
    place & (size as u32 - 1) == 0
}

#[inline(always)]
fn crossed_at(place: u32, size: u8, sub: bool, end: u32) -> Crossing
    requires size { IsSideOfBlock size }
    requires place { place ≤ 8192 }
    ensures k { result.k ≡ halved sub (place % 8) }
    ensures few { result.k < 8 }
    ensures border { result.is_block_edge ≡ nat_eq (place % size) 0 }
    ensures first { result.is_first ≡ nat_eq place 0 }
    ensures last { result.is_last ≡ (sub && nat_eq (place + 1) end) }
{
    Crossing {
        k: if sub { place % 8 / 2 } else { place % 8 },
        is_block_edge: is_multiple(place, size),
        is_first: place == 0,
        is_last: sub && place + 1 == end,
    }
}

/// A cell as a pass sees it.
#[inline(always)]
fn across(shape: &Shape, plane: Plane, pass: Pass, block: &BlockInfo, at: CellAt) -> Crossing
    requires wide { shape.now.w ≤ 65536 }
    requires high { shape.now.h ≤ 65536 }
    requires row { at.row ≤ 8192 }
    requires col { at.col ≤ 8192 }
    ensures is { result ≡ across pass shape.now (cell_at plane pass at.row at.col) block.now }
    ensures few { result.k < 8 }
{
    let is_chroma = plane != Plane::Y;
    match pass {
        Pass::Vertical => {
            crossed_at(
                at.col,
                width_8(block.size),
                is_chroma && shape.ss_x,
                shape.place_cols(),
            )
        }
        Pass::Horizontal => {
            crossed_at(
                at.row,
                height_8(block.size),
                is_chroma && shape.ss_y,
                shape.place_rows(),
            )
        }
    }
}

/// Whether a place of a skipped inter block has no edge in any plane, since none of the block's sides is there.
#[inline(always)]
pub fn is_inside(block: &BlockInfo, at: CellAt) -> bool
    ensures { result ≡ is_inside block.now at.row at.col }
{
    let is_left = is_multiple(at.col, width_8(block.size));
    let is_top = is_multiple(at.row, height_8(block.size));
    is_skipped_inter(block) & !is_left & !is_top
}

/// The widths of the filter at the eight cells of a superblock, by the size of the transform, and none at all.
static OUTER_WIDTHS: [Option<FilterWidth>; 40] = [
    Some(FilterWidth::Eight),
    Some(FilterWidth::Four),
    Some(FilterWidth::Four),
    Some(FilterWidth::Four),
    Some(FilterWidth::Eight),
    Some(FilterWidth::Four),
    Some(FilterWidth::Four),
    Some(FilterWidth::Four),
    Some(FilterWidth::Eight),
    Some(FilterWidth::Eight),
    Some(FilterWidth::Eight),
    Some(FilterWidth::Eight),
    Some(FilterWidth::Eight),
    Some(FilterWidth::Eight),
    Some(FilterWidth::Eight),
    Some(FilterWidth::Eight),
    Some(FilterWidth::Sixteen),
    None,
    Some(FilterWidth::Sixteen),
    None,
    Some(FilterWidth::Sixteen),
    None,
    Some(FilterWidth::Sixteen),
    None,
    Some(FilterWidth::Sixteen),
    None,
    None,
    None,
    Some(FilterWidth::Sixteen),
    None,
    None,
    None,
    None,
    None,
    None,
    None,
    None,
    None,
    None,
    None,
];

/// The width in a last cell of which half is in the plane.
#[inline(always)]
fn narrowed(width: Option<FilterWidth>, is_last: bool) -> Option<FilterWidth>
    ensures { result ≡ narrowed width is_last }
{
    if is_last && width == Some(FilterWidth::Sixteen) {
        Some(FilterWidth::Eight)
    } else {
        width
    }
}

#[inline(always)]
fn width_at(table: &[Option<FilterWidth>], place: usize) -> Option<FilterWidth>
    requires { place < length table.now }
    ensures { slice_get table.now place ≡ Some result }
{
    table[place]
}

/// Where the widths of a transform's size begin, or none at all.
#[inline(always)]
fn widths_at(is_edge: bool, tx: TxSize) -> usize
    ensures value { result ≡ 8 * (if is_edge then tx_number tx else 4) }
    ensures most { result ≤ 32 }
{
    if is_edge { 8 * tx as usize } else { 32 }
}

#[inline(always)]
fn whole_width(is_edge: bool, tx: TxSize, k: u32) -> Option<FilterWidth>
    requires { k < 8 }
    ensures { slice_get OUTER_WIDTHS (8 * (if is_edge then tx_number tx else 4) + k) ≡ Some result }
{
    width_at(&OUTER_WIDTHS, widths_at(is_edge, tx) + k as usize)
}

/// The width of the filter at the side of a cell, if there may be an edge and a transform block begins there: looked up in
/// either case, since a choice among the widths is slow, and so is a jump past them.
#[inline(always)]
fn outer_width(is_edge: bool, tx: TxSize, a: Crossing) -> Option<FilterWidth>
    requires { a.k < 8 }
    ensures { result ≡ (if is_edge then outer_width tx a else None) }
{
    narrowed(whole_width(is_edge, tx, a.k), a.is_last)
}

#[inline(always)]
fn has_outer(block: &BlockInfo, a: Crossing) -> bool
    ensures { result ≡ has_outer block.now a }
{
    (!is_skipped_inter(block) | a.is_block_edge) & !a.is_first
}

/// The edges of a cell of a plane, by the block there.
#[inline(always)]
#[tactic(auto, unfolding(crate::specs::Cells::outer_edge, crate::specs::Cells::has_inner))]
pub fn cell_edges(
    shape: &Shape,
    plane: Plane,
    pass: Pass,
    block: &BlockInfo,
    at: CellAt,
) -> CellEdges
    requires wide { shape.now.w ≤ 65536 }
    requires high { shape.now.h ≤ 65536 }
    requires row { at.row ≤ 8192 }
    requires col { at.col ≤ 8192 }
    requires fits { tx_number block.now.tx ≤ greatest_of block.now.size }
    ensures outer { result.outer ≡ outer_edge shape.now (cell_at plane pass at.row at.col) block.now }
    ensures inner { result.inner ≡ has_inner shape.now (cell_at plane pass at.row at.col) block.now }
{
    let tx = plane_block(shape, block, plane).tx;
    let here = across(shape, plane, pass, block, at);
    let outer = outer_width(has_outer(block, here), tx, here);
    let beside = across(shape, plane, Pass::Vertical, block, at);
    let inner = tx == TxSize::T4x4 && !is_skipped_inter(block) && !beside.is_last && !here.is_last;
    CellEdges { outer, inner }
}
