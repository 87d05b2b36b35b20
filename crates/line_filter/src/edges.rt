//! Edges of a plane filtered, eight lines at a time.

ghost use Rattle.std.specs.Prelude.{◌≡◌, ◌+◌, ◌-◌, ◌*◌, ◌≤◌};
ghost use Rattle.vp9_types.specs.Maps.{IsAtMost};
ghost use Rattle.planes.specs.Planes.{plane_map};
ghost use Rattle.line_filter.specs.declared.edge.FilterWidth.TheVariants.{Sixteen};
ghost use Rattle.line_filter.specs.declared.edge.Pass.TheVariants.{Vertical, Horizontal};
ghost use Rattle.line_filter.specs.Lines.{filtered_near, filtered_line};
ghost use Rattle.line_filter.specs.FilteredEdges.{with_edge};
ghost use Rattle.line_filter.specs.Code.{IsAcross, IsAlong, IsEdgeIn, IsAcrossBy, IsAlongBy, down_filtered, along_filtered};

use crate::edge::{Edge, FilterWidth, Limits, Pass};
use crate::far_lanes::{between, far_masks, filtered_far_lanes};
use crate::kept::{EdgeSample, put_known};
use crate::lanes::filtered_by;
use crate::squares::{around, beside, has_eight_columns, has_eight_rows, lanes_at};
use crate::turn::turned;
use planes::SamplePlane;

/// Filters the eight columns from a place on across the edge above it. Each width has a `SITE` of its own, and is compiled
/// by itself.
#[inline(never)]
fn filter_down<P: EdgeSample, const SITE: usize>(
    plane: &mut SamplePlane<P>,
    row: usize,
    column: usize,
    l: Limits,
    wide: bool,
)
    requires inside { IsAcrossBy 4 plane.old.area row column }
    requires range { IsAtMost (2 * l.half - 1) (plane_map plane.old) }
    requires fits { 2 * l.half - 1 ≤ P.greatest }
    requires half { l.half ≤ 2048 }
    ensures area { plane.new.area ≡ plane.old.area }
    ensures map { plane_map plane.new ≡ down_filtered 4 (filtered_near l wide) plane.old.area (plane_map plane.old) row column }
{
    let inside = has_eight_columns(plane, column);
    let lanes = lanes_at(plane, row - 4, column, inside);
    let lanes = filtered_by::<P, SITE>(&lanes, l, wide);
    put_known(plane, row - 4, column, &lanes, inside);
}

/// Filters the eight rows from a place on across the edge at its left, likewise.
#[inline(never)]
fn filter_along<P: EdgeSample, const SITE: usize>(
    plane: &mut SamplePlane<P>,
    row: usize,
    column: usize,
    l: Limits,
    wide: bool,
)
    requires inside { IsAlongBy 4 plane.old.area row column }
    requires range { IsAtMost (2 * l.half - 1) (plane_map plane.old) }
    requires fits { 2 * l.half - 1 ≤ P.greatest }
    requires half { l.half ≤ 2048 }
    ensures area { plane.new.area ≡ plane.old.area }
    ensures map { plane_map plane.new ≡ along_filtered 4 (filtered_near l wide) plane.old.area (plane_map plane.old) row column }
{
    let inside = has_eight_rows(plane, row);
    let lanes = turned(&lanes_at(plane, row, column - 4, inside));
    let lanes = filtered_by::<P, SITE>(&lanes, l, wide);
    put_known(plane, row, column - 4, &turned(&lanes), inside);
}

/// The same as `filter_down` by the filters of all widths.
#[inline(never)]
fn filter_far_down<P: EdgeSample>(plane: &mut SamplePlane<P>, row: usize, column: usize, l: Limits)
    requires inside { IsAcrossBy 8 plane.old.area row column }
    requires range { IsAtMost (2 * l.half - 1) (plane_map plane.old) }
    requires fits { 2 * l.half - 1 ≤ P.greatest }
    requires half { l.half ≤ 2048 }
    ensures area { plane.new.area ≡ plane.old.area }
    ensures map { plane_map plane.new ≡ down_filtered 8 (filtered_line l Sixteen) plane.old.area (plane_map plane.old) row column }
{
    let inside = has_eight_columns(plane, column);
    let (above, below) = around(plane, row, column, inside);
    let masks = far_masks(&above, &below, l);
    if !masks.calm {
        return;
    }
    if !masks.flat {
        let near = filtered_by::<P, 4>(&between(&above, &below), l, true);
        put_known(plane, row - 4, column, &near, inside);
        return;
    }
    let (above, below) = filtered_far_lanes::<P, 0>(&above, &below, l, masks.near);
    put_known(plane, row - 8, column, &above, inside);
    put_known(plane, row, column, &below, inside);
}

/// The same as `filter_along` by the filters of all widths.
#[inline(never)]
fn filter_far_along<P: EdgeSample>(plane: &mut SamplePlane<P>, row: usize, column: usize, l: Limits)
    requires inside { IsAlongBy 8 plane.old.area row column }
    requires range { IsAtMost (2 * l.half - 1) (plane_map plane.old) }
    requires fits { 2 * l.half - 1 ≤ P.greatest }
    requires half { l.half ≤ 2048 }
    ensures area { plane.new.area ≡ plane.old.area }
    ensures map { plane_map plane.new ≡ along_filtered 8 (filtered_line l Sixteen) plane.old.area (plane_map plane.old) row column }
{
    let inside = has_eight_rows(plane, row);
    let (left, right) = beside(plane, row, column, inside);
    let (left, right) = (turned(&left), turned(&right));
    let masks = far_masks(&left, &right, l);
    if !masks.calm {
        return;
    }
    if !masks.flat {
        let near = filtered_by::<P, 5>(&between(&left, &right), l, true);
        put_known(plane, row, column - 4, &turned(&near), inside);
        return;
    }
    let (left, right) = filtered_far_lanes::<P, 1>(&left, &right, l, masks.near);
    put_known(plane, row, column - 8, &turned(&left), inside);
    put_known(plane, row, column, &turned(&right), inside);
}

#[inline(always)]
fn filter_horizontal<P: EdgeSample>(plane: &mut SamplePlane<P>, e: Edge)
    requires pass { e.pass ≡ Horizontal }
    requires inside { IsAcross plane.old.area e }
    requires range { IsAtMost (2 * e.limits.half - 1) (plane_map plane.old) }
    requires fits { 2 * e.limits.half - 1 ≤ P.greatest }
    requires half { e.limits.half ≤ 2048 }
    ensures area { plane.new.area ≡ plane.old.area }
    ensures map { plane_map plane.new ≡ with_edge (plane_map plane.old) e }
{
    match e.width {
        FilterWidth::Four => filter_down::<P, 0>(plane, e.row, e.column, e.limits, false),
        FilterWidth::Eight => filter_down::<P, 1>(plane, e.row, e.column, e.limits, true),
        FilterWidth::Sixteen => filter_far_down(plane, e.row, e.column, e.limits),
    }
}

#[inline(always)]
fn filter_vertical<P: EdgeSample>(plane: &mut SamplePlane<P>, e: Edge)
    requires pass { e.pass ≡ Vertical }
    requires inside { IsAlong plane.old.area e }
    requires range { IsAtMost (2 * e.limits.half - 1) (plane_map plane.old) }
    requires fits { 2 * e.limits.half - 1 ≤ P.greatest }
    requires half { e.limits.half ≤ 2048 }
    ensures area { plane.new.area ≡ plane.old.area }
    ensures map { plane_map plane.new ≡ with_edge (plane_map plane.old) e }
{
    match e.width {
        FilterWidth::Four => filter_along::<P, 2>(plane, e.row, e.column, e.limits, false),
        FilterWidth::Eight => filter_along::<P, 3>(plane, e.row, e.column, e.limits, true),
        FilterWidth::Sixteen => filter_far_along(plane, e.row, e.column, e.limits),
    }
}

/// Filters the lines across an edge of a plane, or of a part of one that has the samples that the filter looks at.
/// The samples are in the range of the depth that the limits are for.
#[inline(always)]
pub fn filter_edge<P: EdgeSample>(plane: &mut SamplePlane<P>, e: Edge)
    requires inside { IsEdgeIn plane.old.area e }
    requires range { IsAtMost (2 * e.limits.half - 1) (plane_map plane.old) }
    requires fits { 2 * e.limits.half - 1 ≤ P.greatest }
    requires half { e.limits.half ≤ 2048 }
    ensures area { plane.new.area ≡ plane.old.area }
    ensures map { plane_map plane.new ≡ with_edge (plane_map plane.old) e }
    ensures range { IsAtMost (2 * e.limits.half - 1) (plane_map plane.new) }
{
    match e.pass {
        Pass::Vertical => filter_vertical(plane, e),
        Pass::Horizontal => filter_horizontal(plane, e),
    }
}
