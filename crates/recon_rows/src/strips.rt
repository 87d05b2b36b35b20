//! Strips: each row of superblocks of a tile column in planes of its own.

ghost use Rattle.std.specs.Prelude.{◌≡◌, ◌≤◌, ◌<◌, IfOk, IfSome};
ghost use Rattle.std.specs.List.{All};
ghost use Rattle.std.specs.Option.{option_copied};
ghost use Rattle.vp9_types.specs.Shapes.{mi_cols, mi_rows};
ghost use Rattle.vp9_types.specs.Sizes.{greatest, superblocks_along};
ghost use Rattle.frame_headers.specs.FrameSizes.{HasFrameSize};
ghost use Rattle.frame_headers.specs.HeaderState.{shape_of};
ghost use Rattle.frame_headers.specs.declared.header.Header.{Header};
ghost use Rattle.planes.specs.Planes.{IsArea, plane_map};
ghost use Rattle.planes.specs.Pictures.{FitsPlanes, blank, samples_of};
ghost use Rattle.plane_parts.specs.PlaneParts.{HasPart};
ghost use Rattle.block_rebuild.specs.Strips.{strip_area};
ghost use Rattle.block_rebuild.specs.Code.{AreServed, HasAreasOf, rebuilding_of};
ghost use Rattle.frame_state.specs.KeptColumns.{limit_of};
ghost use Rattle.tile_syntax.specs.Code.{IsKept};
ghost use Rattle.recon_rows.specs.RebuiltRows.{blocks_between};
ghost use Rattle.recon_rows.specs.OwnStrips.{HasStripAreas, HoldsRowOf, IsAbove, IsReadPlan};
ghost use Rattle.recon_rows.specs.Code.{Begins, ShareFirstRows, SharesFirstRow, first_row_of};

use crate::row::put_row;
use block_rebuild::{Rebuilding, RoomSample};
use plane_parts::copy_part;
use planes::{Area, FramePlanes, SamplePlane, coded_area};
use std::alloc::{AllocError, Global};
use tile_syntax::ColumnPlan;
use vp9_types::{Plane, Sample, Samples, Shape, halved};

/// Where the `row`-th row of superblocks of a tile column lies in a plane, with the row of samples above it.
fn strip_area(shape: &Shape, plane: Plane, from: u32, to: u32, row: u32) -> Area
    requires size { FitsPlanes shape.now }
    requires begin { from ≤ mi_cols shape.now }
    requires order { from ≤ to }
    requires row { row < superblocks_along (mi_rows shape.now) }
    ensures value { result ≡ strip_area shape.now plane from to row }
    ensures near { IsArea result }
{
    let whole = coded_area(shape, plane);
    let ss_x = plane != Plane::Y && shape.ss_x;
    let ss_y = plane != Plane::Y && shape.ss_y;
    let first_row = halved(ss_y, 64 * row as usize).saturating_sub(1);
    let first_column = halved(ss_x, 8 * from as usize);
    Area {
        first_row,
        first_column,
        rows: whole.rows.min(halved(ss_y, 64 * (row as usize + 1))) - first_row,
        columns: whole.columns.min(halved(ss_x, 8 * to as usize)) - first_column,
    }
}

/// Room for the strip of the `row`-th row of superblocks of a tile column, whose superblocks have the places of 8x8 from `from`
/// to before `to`. The last of them may reach over the frame's right edge.
pub fn new_strip<P: Sample>(
    alloc: Global,
    shape: &Shape,
    from: u32,
    to: u32,
    row: u32,
) -> Result<FramePlanes<P>, AllocError>
    requires size { FitsPlanes shape.now }
    requires begin { from ≤ mi_cols shape.now }
    requires order { from ≤ to }
    requires row { row < superblocks_along (mi_rows shape.now) }
    ensures areas { IfOk result (λ f. HasStripAreas shape.now from to row f) }
    ensures zero { IfOk result (λ f. samples_of f ≡ blank) }
{
    Ok(FramePlanes {
        y: SamplePlane::new(alloc, strip_area(shape, Plane::Y, from, to, row))?,
        u: SamplePlane::new(alloc, strip_area(shape, Plane::U, from, to, row))?,
        v: SamplePlane::new(alloc, strip_area(shape, Plane::V, from, to, row))?,
    })
}

/// Takes the first row of a plane of a strip, which holds zeros, from the plane above.
fn begin_plane<P: Sample>(strip: &mut SamplePlane<P>, above: &SamplePlane<P>)
    requires shared { SharesFirstRow strip.old.area above.now.area }
    requires zero { plane_map strip.old ≡ (λ _ _. 0) }
    ensures area { strip.new.area ≡ strip.old.area }
    ensures begun { HasPart (first_row_of strip.old.area) (plane_map above.now) (λ _ _. 0) (plane_map strip.new) }
{
    let first_row = Area {
        rows: 1,
        ..strip.area()
    };
    copy_part(strip, above, &first_row);
}

/// Takes the first rows of a strip that holds zeros from the strip above, if there is one.
fn begin<P: Sample>(strip: &mut FramePlanes<P>, above: Option<&FramePlanes<P>>)
    requires share { IfSome (option_copied above) (λ a. ShareFirstRows strip.old a) }
    requires zero { samples_of strip.old ≡ blank }
    ensures areas { HasAreasOf strip.old strip.new }
    ensures begun { Begins (option_copied above.entry) strip.new }
{
    match above {
        Some(above) => {
            begin_plane(&mut strip.y, &above.y);
            begin_plane(&mut strip.u, &above.u);
            begin_plane(&mut strip.v, &above.v);
        }
        None => {}
    }
}

/// Makes the strip of the `row`-th row of superblocks of a tile column from the column's plan, in planes of zeros. Of the strip above only the
/// last row of samples is read. Nothing is allocated.
pub fn rows<P: RoomSample, S: Samples<Kept = P>>(
    strip: &mut FramePlanes<P>,
    above: Option<&FramePlanes<P>>,
    by: &Rebuilding<'_, S>,
    plan: &ColumnPlan,
    row: u32,
    room: &mut P::Room,
)
    requires size { HasFrameSize by.now.shape }
    requires fits { P.takes (greatest by.now.shape.depth) }
    requires row { row < superblocks_along (mi_rows by.now.shape) }
    requires kept { (header : Header) × (shape_of header ≡ by.now.shape) × IsKept header plan.now }
    requires read { IsReadPlan by.now.shape plan.now }
    requires served { All (λ b. AreServed S.holds S.width S.map by.now b b.prediction) (blocks_between by.now.shape row plan.now.column.grid.blocks) }
    requires areas { HasStripAreas by.now.shape plan.now.column.grid.from (limit_of plan.now.column) row strip.old }
    requires zero { samples_of strip.old ≡ blank }
    requires above { IsAbove (rebuilding_of S.map by.now) plan.now row (option_copied above) }
    ensures { HoldsRowOf (rebuilding_of S.map by.now) plan.now row strip.new }
{
    begin(strip, above);
    put_row(strip, by, plan, row, room);
}
