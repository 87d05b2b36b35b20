//! A frame that is written, tile by tile.

ghost use Rattle.std.specs.Prelude.{◌≡◌, ◌≤◌};
ghost use Rattle.frame_state.specs.Code.{sources_of};
ghost use Rattle.frame_state.specs.KeptColumns.{limit_of};
ghost use Rattle.frame_state.specs.Past.{IsPastOf};
ghost use Rattle.frame_state.specs.FrameReading.{TileRead, read_walk};
ghost use Rattle.tile_writer.specs.Code.{Tile};
ghost use Rattle.frame_writer.specs.FrameSymbols.{teller_of};
ghost use Rattle.frame_writer.specs.Code.{TileHere, IsReadyFor, here_of};

use crate::symbols::FrameSymbols;
use block_geometry::FramePlaces;
use block_plan::BlockAt;
use bool_encoder::BoolEncoder;
use frame_headers::FrameKind;
use frame_state::{FrameSources, TileColumn, TilePlaces};
use inter_writer::{SaidBlock, put_mode_info};
use mode_syntax::SquareAt;
use mode_writer::put_partition;
use residue_writer::{BlockLevels, put_block};
use std::alloc::AllocError;
use tile_writer::{TileWriter, Unwritten};
use vp9_types::Partition;

/// A frame between two blocks of a tile: the tile columns, of which the tile's own is at hand and a spare one stands in its
/// place; who tells what is to come; and the tile's bools so far.
#[derive(Drop)]
pub(crate) struct FrameInProgress<'a, S> {
    pub by: &'a FrameSources<'a>,
    pub columns: Vec<TileColumn>,
    pub column: TileColumn,
    pub places: TilePlaces,
    pub encoder: BoolEncoder,
    pub symbols: S,
    pub levels: BlockLevels,
}

impl<'a, S: FrameSymbols> TileWriter for FrameInProgress<'a, S> {
    ghost State = { TileRead };

    ghost Held = { TileHere };

    ghost Told = { S };

    ghost tile = { λ w. record {
      walk = read_walk (sources_of w.by.now) w.by.now.setting.places w.places;
      teller = teller_of S.speaker (sources_of w.by.now);
      view = here_of w.by.now w.places w.columns.items;
      limit = limit_of w.column;
      room = w.column.grid.room;
      held = record {
        held = record { blocks = w.column.grid.blocks; sides = w.column.sides };
        by = w.by.now;
        places = w.places;
        columns = w.columns.items;
      };
      told = w.symbols;
      part = w.encoder;
    } };

    ghost ready = { λ w. IsPastOf w.by.now.setting.header w.by.now.past × IsReadyFor w.by.now.setting w.places w.column };

    fn frame(&self) -> FramePlaces {
        self.by.setting.places
    }

    fn put_partition(
        &mut self,
        at: SquareAt,
        has_rows: bool,
        has_cols: bool,
    ) -> Result<Partition, Unwritten> {
        let Some(partition) = self.symbols.partition(has_rows, has_cols) else {
            return Err(Unwritten::Unsaid);
        };
        let by = self.by;
        let setting = &by.setting;
        let intra = !matches!(setting.header.kind, FrameKind::Inter(_));
        put_partition(
            &mut self.encoder,
            setting,
            intra,
            &self.column.grid,
            at,
            partition,
        )?;
        Ok(partition)
    }

    fn put_block(&mut self, at: BlockAt) -> Result<(), Unwritten> {
        let by = self.by;
        let Some(symbols) = self.symbols.block(by, &self.column.grid, at) else {
            return Err(Unwritten::Unsaid);
        };
        let setting = &by.setting;
        let map = by.past.segments;
        let before = by.past.vectors.as_ref();
        let said = SaidBlock { at, symbols };
        let grid = &self.column.grid;
        let block = match put_mode_info(&mut self.encoder, setting, grid, map, before, &said)? {
            Ok(block) => block,
            Err(rule) => return Err(Unwritten::Broken(rule)),
        };
        if !self.symbols.levels(by, &block, &mut self.levels) {
            return Err(Unwritten::Unsaid);
        }
        let sides = &mut self.column.sides;
        match put_block(&mut self.encoder, setting, &block, sides, &self.levels)? {
            Ok(listed) => self.column.grid.put(listed),
            Err(rule) => return Err(Unwritten::Broken(rule)),
        }
        Ok(())
    }
}
