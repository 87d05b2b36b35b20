//! The blocks of a row of superblocks of a tile column, put from its plan.

ghost use Rattle.std.specs.Prelude.{◌≡◌, ◌<◌};
ghost use Rattle.std.specs.List.{All};
ghost use Rattle.vp9_types.specs.Shapes.{mi_rows};
ghost use Rattle.vp9_types.specs.Sizes.{greatest, superblocks_along};
ghost use Rattle.frame_headers.specs.FrameSizes.{HasFrameSize};
ghost use Rattle.frame_headers.specs.HeaderState.{shape_of};
ghost use Rattle.frame_headers.specs.declared.header.Header.{Header};
ghost use Rattle.planes.specs.Pictures.{IsInRange, samples_of};
ghost use Rattle.block_rebuild.specs.Strips.{with_blocks};
ghost use Rattle.block_rebuild.specs.Code.{HasAreasOf, IsPlaced, rebuilding_of};
ghost use Rattle.column_plan.specs.PlannedBlocks.{planned_blocks};
ghost use Rattle.column_plan.specs.PlanRows.{AreInOrder, planned_in_row};
ghost use Rattle.tile_syntax.specs.Code.{IsKept};
ghost use Rattle.recon_rows.specs.RebuiltRows.{IsProvided, blocks_between, planned_between};

use crate::part::{PlanPart, put_planned_block};
use block_geometry::FramePlaces;
use block_rebuild::{Rebuilding, RoomSample};
use planes::FramePlanes;
use tile_syntax::ColumnPlan;
use vp9_types::Samples;

/// Puts the blocks of the `row`-th row of superblocks of a tile column, one after another, from the column's plan into its
/// samples, or into a part of them that holds the row and the samples above it. Nothing is allocated, and no residue is copied.
pub fn put_row<P: RoomSample, S: Samples<Kept = P>>(
    planes: &mut FramePlanes<P>,
    by: &Rebuilding<'_, S>,
    plan: &ColumnPlan,
    row: u32,
    room: &mut P::Room,
)
    requires size { HasFrameSize by.now.shape }
    requires fits { P.takes (greatest by.now.shape.depth) }
    requires row { row < superblocks_along (mi_rows by.now.shape) }
    requires kept { (header : Header) × (shape_of header ≡ by.now.shape) × IsKept header plan.now }
    requires placed { All (IsPlaced by.now.shape plan.now.column.grid.from) plan.now.column.grid.blocks }
    requires provided { All (IsProvided S.holds S.width S.map by.now plan.now.column.grid.from planes.old) (blocks_between by.now.shape row plan.now.column.grid.blocks) }
    requires range { IsInRange by.now.shape.depth planes.old }
    ensures map { samples_of planes.new ≡ with_blocks (rebuilding_of S.map by.now) (samples_of planes.old) (planned_between by.now.shape plan.now.column.grid.from row plan.now.column.grid.blocks plan.now.residues) }
    ensures in_order { AreInOrder plan.now.column.grid.blocks →
        samples_of planes.new ≡ with_blocks (rebuilding_of S.map by.now) (samples_of planes.old) (planned_in_row row (planned_blocks by.now.shape plan.now.column.grid.from plan.now.column.grid.blocks plan.now.residues)) }
    ensures areas { HasAreasOf planes.old planes.new }
    ensures range { IsInRange by.now.shape.depth planes.new }
{
    let tile_from = plan.column.grid.first_col();
    let blocks = plan.column.grid.blocks();
    let first = plan.row_place(row);
    let next = plan.row_place(row + 1);
    let places = FramePlaces::of(&by.shape);
    let mut piece = first.piece;
    for k in first.block..next.block {
        let block = &blocks[k];
        let part = PlanPart::of(&plan.residues, piece, places, &by.shape, block);
        put_planned_block(planes, by, tile_from, block, &part, room);
        piece = part.end;
    }
}
