//! What a frame keeps of its tile columns, once more.

ghost use Rattle.std.specs.Prelude.{◌≡◌, ◌<◌, ◌^◌, IfOk};
ghost use Rattle.frame_headers.specs.Spans.{tile_count};
ghost use Rattle.frame_headers.specs.Tiles.{AreFewTiles};
ghost use Rattle.seq_decoder.specs.frame_state.KeptColumns.{IsTileColumn};

use block_plan::BlockGrid;
use frame_setting::FrameSetting;
use residue_syntax::TileSides;
use seq_decoder::frame_state::{TileColumn, TilePlaces};
use std::alloc::{AllocError, Global};

/// A tile column with the blocks of the `k`-th one, behind the frame's last tile. It has no room for more.
pub fn copied_column(
    alloc: Global,
    setting: &FrameSetting,
    k: u32,
    column: &TileColumn,
) -> Result<TileColumn, AllocError>
    requires few { AreFewTiles setting.now.header.params.tiles }
    requires below { k < 2 ^ setting.now.header.params.tiles.columns_log2 }
    requires is { IsTileColumn setting.now.header (tile_count setting.now.header) k column.now }
    ensures is { IfOk result (λ c. IsTileColumn setting.now.header (tile_count setting.now.header) k c) }
    ensures blocks { IfOk result (λ c. c.grid.blocks ≡ column.now.grid.blocks) }
{
    let tile = TilePlaces::new(setting.places, setting.header.params.tiles, k);
    let blocks = column.grid.blocks();
    let mut grid = BlockGrid::new(
        alloc,
        setting.places.rows,
        tile.col_from,
        tile.col_to,
        blocks.len(),
    )?;
    for block in blocks {
        grid.put(*block);
    }
    Ok(TileColumn {
        grid,
        sides: TileSides::new(alloc, &setting.header.shape())?,
    })
}
