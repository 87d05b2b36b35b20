//! The cells of a list, in order.

ghost use Rattle.std.specs.Prelude.{◌≡◌, ◌≤◌};
ghost use Rattle.std.specs.List.{fold};
ghost use Rattle.vp9_types.specs.Maps.{IsAtMost};
ghost use Rattle.vp9_types.specs.Sizes.{greatest};
ghost use Rattle.planes.specs.Planes.{plane_map};
ghost use Rattle.planes.specs.Pictures.{FitsPlanes};
ghost use Rattle.line_filter.specs.FilteredEdges.{with_edge};
ghost use Rattle.loop_filter.specs.FilterPlans.{edges_in, planned_edges, listed_edges, IsCellWithin, AreCellsWithin};

use crate::blocks::filter_edges;
use crate::plans::{CellList, PlannedCell};
use crate::way::PlanePass;
use line_filter::{EdgeSample, Pass};
use loop_edges::{CellAt, CellEdges, EdgeTables};
use planes::SamplePlane;

#[inline(always)]
fn edges_in(cell: &PlannedCell, pass: Pass) -> CellEdges
    ensures { result ≡ edges_in cell.now pass }
{
    match pass {
        Pass::Vertical => cell.edges.vertical,
        Pass::Horizontal => cell.edges.horizontal,
    }
}

/// The edges of a cell in a pass, as planned.
#[inline(always)]
#[tactic(auto, unfolding(crate::specs::FilterPlans::planned_edges))]
fn filter_cell<P: EdgeSample>(
    samples: &mut SamplePlane<P>,
    f: &EdgeTables,
    way: PlanePass,
    cell: &PlannedCell,
)
    requires size { FitsPlanes f.now.setting.shape }
    requires cell { IsCellWithin f.now.setting way.plane samples.old.area cell.now }
    requires kept { greatest f.now.setting.shape.depth ≤ P.greatest }
    requires range { IsAtMost (greatest f.now.setting.shape.depth) (plane_map samples.old) }
    ensures area { samples.new.area ≡ samples.old.area }
    ensures map { plane_map samples.new ≡ fold with_edge (plane_map samples.old) (planned_edges f.now.setting way.plane way.pass cell.now) }
    ensures range { IsAtMost (greatest f.now.setting.shape.depth) (plane_map samples.new) }
{
    let edges = edges_in(cell, way.pass);
    if edges.outer.is_some() || edges.inner {
        let limits = f.limits(cell.level);
        let at = CellAt {
            row: cell.row as u32,
            col: cell.col as u32,
        };
        filter_edges(samples, &f.setting.shape, way, at, edges, limits);
    }
}

/// A pass over a superblock: its cells, row by row. It is a part of its callers, which name plane and pass.
#[inline(always)]
pub fn filter_pass<P: EdgeSample>(
    samples: &mut SamplePlane<P>,
    f: &EdgeTables,
    way: PlanePass,
    list: &CellList,
)
    requires size { FitsPlanes f.now.setting.shape }
    requires cells { AreCellsWithin f.now.setting way.plane samples.old.area list.now }
    requires kept { greatest f.now.setting.shape.depth ≤ P.greatest }
    requires range { IsAtMost (greatest f.now.setting.shape.depth) (plane_map samples.old) }
    ensures area { samples.new.area ≡ samples.old.area }
    ensures map { plane_map samples.new ≡ fold with_edge (plane_map samples.old) (listed_edges f.now.setting way.plane way.pass list.now) }
    ensures range { IsAtMost (greatest f.now.setting.shape.depth) (plane_map samples.new) }
{
    for k in 0..list.count {
        filter_cell(samples, f, way, &list.cells[k]);
    }
}
