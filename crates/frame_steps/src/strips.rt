//! A strip of a frame: a row of superblocks of a tile column, put from the column's plan.

ghost use Rattle.std.specs.Prelude.{◌≡◌, ◌<◌, ◌^◌, IfOk};
ghost use Rattle.std.specs.List.{All};
ghost use Rattle.std.specs.Option.{option_copied};
ghost use Rattle.vp9_types.specs.Shapes.{mi_rows};
ghost use Rattle.vp9_types.specs.Sizes.{greatest, superblocks_along};
ghost use Rattle.frame_headers.specs.Spans.{tile_count};
ghost use Rattle.frame_headers.specs.HeaderState.{shape_of};
ghost use Rattle.frame_headers.specs.Tiles.{AreFewTiles};
ghost use Rattle.block_rebuild.specs.Code.{AreServed, rebuilding_of};
ghost use Rattle.seq_decoder.specs.frame_state.KeptColumns.{IsTileColumn};
ghost use Rattle.recon_rows.specs.tile_syntax.Code.{IsKept};
ghost use Rattle.recon_rows.specs.RebuiltRows.{blocks_between};
ghost use Rattle.recon_rows.specs.OwnStrips.{HoldsRowOf, IsAbove, IsReadPlan};

use block_rebuild::{Rebuilding, RoomSample};
use frame_setting::FrameSetting;
use planes::FramePlanes;
use recon_rows::tile_syntax::ColumnPlan;
use recon_rows::{new_strip, rows};
use seq_decoder::frame_state::{TilePlaces, superblocks};
use std::alloc::{AllocError, Global};
use vp9_types::Samples;

/// A row of superblocks of a tile column of a frame, and the column's plan.
#[derive(Drop)]
pub struct PlannedRow<'a> {
    pub setting: &'a FrameSetting,
    pub column: u32,
    pub plan: &'a ColumnPlan,
    pub row: u32,
}

/// The strip of a row of superblocks of a tile column, below that of the row above it, of which the last row of samples is read.
pub fn put_strip<P: RoomSample, S: Samples<Kept = P>>(
    alloc: Global,
    of: &PlannedRow<'_>,
    above: Option<&FramePlanes<P>>,
    by: &Rebuilding<'_, S>,
) -> Result<FramePlanes<P>, AllocError>
    requires few { AreFewTiles of.now.setting.now.header.params.tiles }
    requires below { of.now.column < 2 ^ of.now.setting.now.header.params.tiles.columns_log2 }
    requires shape { by.now.shape ≡ shape_of of.now.setting.now.header }
    requires fits { P.takes (greatest by.now.shape.depth) }
    requires row { of.now.row < superblocks_along (mi_rows by.now.shape) }
    requires column { IsTileColumn of.now.setting.now.header (tile_count of.now.setting.now.header) of.now.column of.now.plan.now.column }
    requires kept { IsKept of.now.setting.now.header of.now.plan.now }
    requires read { IsReadPlan by.now.shape of.now.plan.now }
    requires served { All (λ b. AreServed S.holds S.width S.map by.now b b.prediction) (blocks_between by.now.shape of.now.row of.now.plan.now.column.grid.blocks) }
    requires above { IsAbove (rebuilding_of S.map by.now) of.now.plan.now of.now.row (option_copied above) }
    ensures { IfOk result (λ f. HoldsRowOf (rebuilding_of S.map by.now) of.now.plan.now of.now.row f) }
{
    let setting = of.setting;
    let tile = TilePlaces::new(setting.places, setting.header.params.tiles, of.column);
    let from = tile.col_from;
    let to = from + 8 * superblocks(tile.col_from, tile.col_to);
    let mut strip = new_strip(alloc, &setting.header.shape(), from, to, of.row)?;
    let mut room = P::new_room();
    rows(&mut strip, above, by, of.plan, of.row, &mut room);
    Ok(strip)
}
