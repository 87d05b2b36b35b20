//! The edges of a cell filtered, by the block that covers it.

ghost use Rattle.std.specs.Prelude.{◌≡◌, ◌≤◌, ◌*◌, ◌-◌, ◌++◌};
ghost use Rattle.std.specs.List.{fold};
ghost use Rattle.vp9_types.specs.Maps.{IsAtMost};
ghost use Rattle.vp9_types.specs.Shapes.{halved, coded_width, coded_height};
ghost use Rattle.vp9_types.specs.Sizes.{greatest};
ghost use Rattle.vp9_tables.specs.BlockTables.{greatest_of};
ghost use Rattle.vp9_tables.specs.Numbers.{tx_number};
ghost use Rattle.planes.specs.Planes.{plane_map};
ghost use Rattle.planes.specs.Pictures.{FitsPlanes};
ghost use Rattle.line_filter.specs.FilteredEdges.{with_edge};
ghost use Rattle.loop_edges.specs.Cells.{cell_at, outer_edge, has_inner, sub_x, sub_y};
ghost use Rattle.loop_edges.specs.FrameEdges.{side_edge, middle_edge, side_edges, middle_edges, both_edges, block_edges};
ghost use Rattle.loop_filter.specs.Code.{IsCellIn, CanFilterSide, CanFilterMiddle};

use crate::way::{PlanePass, sub_x, sub_y};
use line_filter::{Edge, EdgeSample, FilterWidth, Limits, Pass, filter_edge};
use loop_edges::{CellAt, CellEdges};
use planes::SamplePlane;
use vp9_types::{Shape, halved};

/// The edge at the side of a cell.
#[inline(always)]
fn side_edge(shape: &Shape, way: PlanePass, at: CellAt, limits: Limits, width: FilterWidth) -> Edge
    requires size { FitsPlanes shape.now }
    requires row { at.row ≤ 8192 }
    requires col { at.col ≤ 8192 }
    requires high { halved (sub_y shape.now way.plane) (8 * at.row) ≤ coded_height shape.now way.plane }
    requires wide { halved (sub_x shape.now way.plane) (8 * at.col) ≤ coded_width shape.now way.plane }
    ensures { result ≡ side_edge shape.now (cell_at way.plane way.pass at.row at.col) limits width }
{
    let (sub_x, sub_y) = (sub_x(shape, way.plane), sub_y(shape, way.plane));
    let row = halved(sub_y, 8 * at.row as usize);
    let column = halved(sub_x, 8 * at.col as usize);
    let (columns, rows) = shape.coded_size(way.plane);
    let lines = match way.pass {
        Pass::Vertical => rows - row,
        Pass::Horizontal => columns - column,
    };
    Edge {
        pass: way.pass,
        row,
        column,
        lines: lines.min(8),
        width,
        limits,
    }
}

/// The edge in the middle of a cell.
#[inline(always)]
fn middle_edge(shape: &Shape, way: PlanePass, at: CellAt, limits: Limits) -> Edge
    requires size { FitsPlanes shape.now }
    requires row { at.row ≤ 8192 }
    requires col { at.col ≤ 8192 }
    requires high { halved (sub_y shape.now way.plane) (8 * at.row) ≤ coded_height shape.now way.plane }
    requires wide { halved (sub_x shape.now way.plane) (8 * at.col) ≤ coded_width shape.now way.plane }
    ensures { result ≡ middle_edge shape.now (cell_at way.plane way.pass at.row at.col) limits }
{
    let side = side_edge(shape, way, at, limits, FilterWidth::Four);
    match way.pass {
        Pass::Vertical => Edge {
            column: side.column + 4,
            ..side
        },
        Pass::Horizontal => Edge {
            row: side.row + 4,
            ..side
        },
    }
}

#[inline(always)]
fn filter_side<P: EdgeSample>(
    samples: &mut SamplePlane<P>,
    shape: &Shape,
    way: PlanePass,
    at: CellAt,
    limits: Limits,
    width: Option<FilterWidth>,
)
    requires size { FitsPlanes shape.now }
    requires cell { IsCellIn shape.now way.plane samples.old.area at.row at.col }
    requires side { CanFilterSide shape.now way samples.old.area at limits width }
    requires half { limits.half ≤ 2048 }
    requires kept { 2 * limits.half - 1 ≤ P.greatest }
    requires range { IsAtMost (2 * limits.half - 1) (plane_map samples.old) }
    ensures area { samples.new.area ≡ samples.old.area }
    ensures map { plane_map samples.new ≡ fold with_edge (plane_map samples.old) (side_edges shape.now (cell_at way.plane way.pass at.row at.col) limits width) }
    ensures range { IsAtMost (2 * limits.half - 1) (plane_map samples.new) }
{
    if let Some(width) = width {
        filter_edge(samples, side_edge(shape, way, at, limits, width));
    }
}

#[inline(always)]
fn filter_middle<P: EdgeSample>(
    samples: &mut SamplePlane<P>,
    shape: &Shape,
    way: PlanePass,
    at: CellAt,
    limits: Limits,
    inner: bool,
)
    requires size { FitsPlanes shape.now }
    requires cell { IsCellIn shape.now way.plane samples.old.area at.row at.col }
    requires middle { CanFilterMiddle shape.now way samples.old.area at limits inner }
    requires half { limits.half ≤ 2048 }
    requires kept { 2 * limits.half - 1 ≤ P.greatest }
    requires range { IsAtMost (2 * limits.half - 1) (plane_map samples.old) }
    ensures area { samples.new.area ≡ samples.old.area }
    ensures map { plane_map samples.new ≡ fold with_edge (plane_map samples.old) (middle_edges shape.now (cell_at way.plane way.pass at.row at.col) limits inner) }
    ensures range { IsAtMost (2 * limits.half - 1) (plane_map samples.new) }
{
    if inner {
        filter_edge(samples, middle_edge(shape, way, at, limits));
    }
}

/// The edges of a cell filtered at the limits of its block's level.
#[inline(always)]
pub fn filter_edges<P: EdgeSample>(
    samples: &mut SamplePlane<P>,
    shape: &Shape,
    way: PlanePass,
    at: CellAt,
    edges: CellEdges,
    limits: Limits,
)
    requires size { FitsPlanes shape.now }
    requires cell { IsCellIn shape.now way.plane samples.old.area at.row at.col }
    requires side { CanFilterSide shape.now way samples.old.area at limits edges.outer }
    requires middle { CanFilterMiddle shape.now way samples.old.area at limits edges.inner }
    requires half { limits.half ≤ 2048 }
    requires kept { 2 * limits.half - 1 ≤ P.greatest }
    requires range { IsAtMost (2 * limits.half - 1) (plane_map samples.old) }
    ensures area { samples.new.area ≡ samples.old.area }
    ensures map { plane_map samples.new ≡ fold with_edge (plane_map samples.old)
        (side_edges shape.now (cell_at way.plane way.pass at.row at.col) limits edges.outer ++ middle_edges shape.now (cell_at way.plane way.pass at.row at.col) limits edges.inner) }
    ensures range { IsAtMost (2 * limits.half - 1) (plane_map samples.new) }
{
    filter_side(samples, shape, way, at, limits, edges.outer);
    filter_middle(samples, shape, way, at, limits, edges.inner);
}
