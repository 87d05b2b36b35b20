//! What is kept of a tile column.

ghost use Rattle.std.specs.Prelude.{◌≡◌, ◌<◌, ◌^◌};
ghost use Rattle.frame_headers.specs.HeaderState.{shape_of};
ghost use Rattle.frame_headers.specs.Tiles.{AreFewTiles};
ghost use Rattle.frame_state.specs.KeptColumns.{AreTileColumns, IsTileColumn};

use crate::tile_places::tile_offset;
use block_geometry::FramePlaces;
use block_plan::BlockGrid;
use frame_setting::FrameSetting;
use residue_syntax::TileSides;
use std::alloc::{AllocError, Global};

/// A tile column of a frame: its blocks so far, and where those above and at the left have coefficients.
#[derive(Drop)]
pub struct TileColumn {
    pub grid: BlockGrid,
    pub sides: TileSides,
}

impl TileColumn {
    ghost use Rattle.std.specs.Prelude.{◌≡◌, IfOk, OnOk, length, replicate, map};
    ghost use Rattle.frame_state.specs.Code.{column_as_listed, column_of_code};
    ghost use Rattle.frame_state.specs.FrameReading.{no_column};

    /// The `k`-th tile column of a frame, of which nothing is read.
    pub fn new(alloc: Global, setting: &FrameSetting, k: u32) -> Result<TileColumn, AllocError>
        requires few { AreFewTiles setting.now.header.params.tiles }
        requires below { k < 2 ^ setting.now.header.params.tiles.columns_log2 }
        ensures is { IfOk result (λ c. IsTileColumn setting.now.header 0 k c) }
        ensures start { IfOk result (λ c. column_of_code c ≡ column_as_listed (no_column (shape_of setting.now.header))) }
    {
        let span = ColumnSpan::of(setting, k);
        let rows = setting.places.rows;
        Ok(TileColumn {
            grid: BlockGrid::new(alloc, rows, span.from, span.to, span.blocks)?,
            sides: TileSides::new(alloc, &setting.header.shape())?,
        })
    }

    /// Makes this the `k`-th tile column of a frame, as `new` does, in its memory where that is enough.
    pub fn renew(&mut self, alloc: Global, setting: &FrameSetting, k: u32) -> Result<(), AllocError>
        requires few { AreFewTiles setting.now.header.params.tiles }
        requires below { k < 2 ^ setting.now.header.params.tiles.columns_log2 }
        ensures is { OnOk result (IsTileColumn setting.now.header 0 k self.new) }
        ensures start { OnOk result (column_of_code self.new ≡ column_as_listed (no_column (shape_of setting.now.header))) }
    {
        let span = ColumnSpan::of(setting, k);
        let rows = setting.places.rows;
        self.grid
            .renew(alloc, rows, span.from, span.to, span.blocks)?;
        self.sides.renew(alloc, &setting.header.shape())?;
        Ok(())
    }

    /// All tile columns of a frame, of which nothing is read.
    pub fn new_all(alloc: Global, setting: &FrameSetting) -> Result<Vec<TileColumn>, AllocError>
        requires { AreFewTiles setting.now.header.params.tiles }
        ensures are { IfOk result (λ v. AreTileColumns setting.now.header 0 v.items) }
        ensures start { IfOk result (λ v. map column_of_code v.items ≡ map column_as_listed (replicate (2 ^ setting.now.header.params.tiles.columns_log2) (no_column (shape_of setting.now.header)))) }
    {
        let count = setting.header.params.tiles.columns();
        let mut columns = Vec::with_capacity(alloc, count as usize)?;
        for k in 0..count {
            columns.push_reserved(TileColumn::new(alloc, setting, k)?);
        }
        Ok(columns)
    }

    /// Makes the tile columns of an earlier frame, of as many, those of this one.
    fn renew_all(
        columns: &mut [TileColumn],
        alloc: Global,
        setting: &FrameSetting,
    ) -> Result<(), AllocError>
        requires few { AreFewTiles setting.now.header.params.tiles }
        requires many { length columns.old ≡ 2 ^ setting.now.header.params.tiles.columns_log2 }
        ensures are { OnOk result (AreTileColumns setting.now.header 0 columns.new) }
        ensures start { OnOk result (map column_of_code columns.new ≡ map column_as_listed (replicate (2 ^ setting.now.header.params.tiles.columns_log2) (no_column (shape_of setting.now.header)))) }
    {
        for k in 0..columns.len() {
            columns[k].renew(alloc, setting, k as u32)?;
        }
        Ok(())
    }

    /// Makes these all tile columns of a frame, of which nothing is read, in their memory if there are as many.
    pub fn begin_all(
        columns: &mut Vec<TileColumn>,
        alloc: Global,
        setting: &FrameSetting,
    ) -> Result<(), AllocError>
        requires { AreFewTiles setting.now.header.params.tiles }
        ensures are { OnOk result (AreTileColumns setting.now.header 0 columns.new.items) }
        ensures start { OnOk result (map column_of_code columns.new.items ≡ map column_as_listed (replicate (2 ^ setting.now.header.params.tiles.columns_log2) (no_column (shape_of setting.now.header)))) }
    {
        if columns.len() != setting.header.params.tiles.columns() as usize {
            *columns = TileColumn::new_all(alloc, setting)?;
            return Ok(());
        }
        TileColumn::renew_all(columns, alloc, setting)
    }
}

/// The columns of a tile column, in places of 8x8 luma samples, and how many blocks it has at most: a superblock has 64.
#[derive(Clone, Copy, Debug, PartialEq, Eq)]
struct ColumnSpan {
    from: u32,
    to: u32,
    blocks: usize,
}

impl ColumnSpan {
    ghost use Rattle.std.specs.Prelude.{◌≡◌, ◌-◌, ◌+◌, ◌*◌, ◌≤◌};
    ghost use Rattle.vp9_types.specs.Sizes.{superblocks_along};
    ghost use Rattle.frame_state.specs.TilePlaces.{tile_offset};

    /// That of the `k`-th tile column of a frame.
    fn of(setting: &FrameSetting, k: u32) -> ColumnSpan
        requires few { AreFewTiles setting.now.header.params.tiles }
        requires below { k < 2 ^ setting.now.header.params.tiles.columns_log2 }
        ensures from { result.from ≡ tile_offset setting.now.places.cols setting.now.header.params.tiles.columns_log2 k }
        ensures to { result.to ≡ tile_offset setting.now.places.cols setting.now.header.params.tiles.columns_log2 (k + 1) }
        ensures order { result.from ≤ result.to }
        ensures blocks { result.blocks ≡ 64 * (superblocks_along (result.to - result.from) * superblocks_along setting.now.places.rows) }
    {
        let FramePlaces { rows, cols } = setting.places;
        let log2 = setting.header.params.tiles.columns_log2;
        let from = tile_offset(cols, log2, k);
        let to = tile_offset(cols, log2, k + 1);
        let superblocks = (to - from).div_ceil(8) as usize * rows.div_ceil(8) as usize;
        ColumnSpan {
            from,
            to,
            blocks: 64 * superblocks,
        }
    }
}
