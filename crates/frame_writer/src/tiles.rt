//! The tiles of a frame, as bytes.

ghost use Rattle.std.specs.Prelude.{◌≡◌, ◌-◌, ◌*◌, ◌+◌, ◌^◌, ◌≤◌, ◌<◌, ◌++◌, None, IfOk, OnOk, length};
ghost use Rattle.bool_encoder.specs.Part.{behind_marker};
ghost use Rattle.vp9_types.specs.Sizes.{superblocks_along};
ghost use Rattle.frame_headers.specs.Spans.{tile_count};
ghost use Rattle.frame_headers.specs.Tiles.{AreFewTiles};
ghost use Rattle.frame_state.specs.Code.{sources_of};
ghost use Rattle.frame_state.specs.KeptColumns.{AreTileColumns};
ghost use Rattle.frame_state.specs.Past.{IsPastOf};
ghost use Rattle.frame_state.specs.FrameReading.{FrameRead, TileRead, nothing_read};
ghost use Rattle.frame_writer.specs.FrameBytes.{HasSize, tile_with_size};
ghost use Rattle.frame_writer.specs.Code.{EndsColumn, GivesBytes, GivesNth, GivesTile, GivesTiles, HoldsColumns, IsReadyFor, first_broken, held_by, held_of};

use crate::symbols::FrameSymbols;
use crate::tile::FrameInProgress;
use crate::written::{NotWritten, Written, ending_of};
use bool_encoder::BoolEncoder;
use frame_setting::FrameSetting;
use frame_state::{TileColumn, TilePlaces, superblocks};
use mode_syntax::SquareAt;
use std::alloc::{AllocError, Global};
use std::mem::swap;
use tile_writer::{Unwritten, put_rows};
use vp9_types::Rule;

/// The level of a superblock.
const SUPERBLOCK: u8 = 3;

/// The bytes of a tile that ends so, or why it has none.
fn tile_bytes(encoder: &BoolEncoder, ended: Result<(), Unwritten>) -> Result<Written, NotWritten>
    ensures { GivesBytes ended encoder.now result }
{
    let broken = ending_of(ended)?;
    let bytes = encoder.finish()?;
    if bytes.len() > u32::MAX as usize {
        return Err(NotWritten::TooLong);
    }
    Ok(Written { bytes, broken })
}

/// The tile whose column is at hand and has nothing at its left. If a rule is broken the column is of no use then.
fn write_in_column<S: FrameSymbols>(
    frame: &mut FrameInProgress<'_, S>,
) -> Result<Written, NotWritten>
    requires past { IsPastOf frame.old.by.now.setting.header frame.old.by.now.past }
    requires ready { IsReadyFor frame.old.by.now.setting frame.old.places frame.old.column }
    requires begun { frame.old.encoder ≡ behind_marker }
    requires order { frame.old.places.row_from ≤ frame.old.places.row_to }
    requires low { frame.old.places.row_to ≤ 8192 }
    requires room { 64 * (superblocks_along (frame.old.places.col_to - frame.old.places.col_from) * superblocks_along (frame.old.places.row_to - frame.old.places.row_from)) ≤ frame.old.column.grid.room }
    ensures some { IfOk result (λ w. HasSize w.bytes.items) }
    ensures gives { (s : TileRead) → held_of s ≡ held_by frame.old.column
        → GivesTile S.speaker (sources_of frame.old.by.now) frame.old.by.now.setting.places frame.old.places s frame.old.symbols result frame.new.column frame.new.symbols }
    ensures by { OnOk result (frame.new.by.now ≡ frame.old.by.now) }
    ensures columns { OnOk result (frame.new.columns.items ≡ frame.old.columns.items) }
    ensures ready { IfOk result (λ w. w.broken ≡ None → IsReadyFor frame.old.by.now.setting frame.old.places frame.new.column) }
    ensures room { IfOk result (λ w. w.broken ≡ None → frame.old.column.grid.room ≤ frame.new.column.grid.room
        + 64 * (superblocks_along (frame.old.places.col_to - frame.old.places.col_from) * superblocks_along (frame.old.places.row_to - frame.old.places.row_from))) }
{
    let places = frame.places;
    let across = superblocks(places.col_from, places.col_to);
    let down = superblocks(places.row_from, places.row_to);
    let first = SquareAt {
        row: places.row_from,
        col: places.col_from,
        level: SUPERBLOCK,
        tile_from: places.col_from,
        tile_to: places.col_to,
    };
    let ended = put_rows(frame, first, across, down);
    tile_bytes(&frame.encoder, ended)
}

/// Ends a tile's column: behind a rule that is broken it begins anew.
fn end_column(
    alloc: Global,
    setting: &FrameSetting,
    k: u32,
    column: &mut TileColumn,
    broken: Option<Rule>,
) -> Result<(), AllocError>
    requires few { AreFewTiles setting.now.header.params.tiles }
    requires below { k < 2 ^ setting.now.header.params.tiles.columns_log2 }
    ensures { OnOk result (EndsColumn setting.now.header k broken column.old column.new) }
{
    match broken {
        None => Ok(()),
        Some(_) => column.renew(alloc, setting, k),
    }
}

/// The `n`-th tile of a frame.
fn write_tile<S: FrameSymbols>(
    alloc: Global,
    frame: &mut FrameInProgress<'_, S>,
    n: u32,
) -> Result<Written, NotWritten>
    requires past { IsPastOf frame.old.by.now.setting.header frame.old.by.now.past }
    requires few { AreFewTiles frame.old.by.now.setting.header.params.tiles }
    requires below { n < tile_count frame.old.by.now.setting.header }
    requires columns { AreTileColumns frame.old.by.now.setting.header n frame.old.columns.items }
    ensures some { IfOk result (λ w. HasSize w.bytes.items) }
    ensures gives { (read : FrameRead) → HoldsColumns frame.old.columns.items read → GivesNth S.speaker (sources_of frame.old.by.now) n read frame.old.symbols result frame.new.columns.items frame.new.symbols }
    ensures by { OnOk result (frame.new.by.now ≡ frame.old.by.now) }
    ensures columns { OnOk result (AreTileColumns frame.old.by.now.setting.header (n + 1) frame.new.columns.items) }
{
    let by = frame.by;
    let tiles = by.setting.header.params.tiles;
    let k = n % tiles.columns();
    frame.places = TilePlaces::new(by.setting.places, tiles, n);
    frame.encoder = BoolEncoder::new(alloc);
    swap(&mut frame.column, &mut frame.columns[k as usize]);
    frame.column.sides.clear_left();
    let written = write_in_column(frame)?;
    end_column(alloc, &by.setting, k, &mut frame.column, written.broken)?;
    swap(&mut frame.column, &mut frame.columns[k as usize]);
    Ok(written)
}

/// Puts a tile with its size before it.
fn put_sized(out: &mut Vec<u8>, tile: &[u8]) -> Result<(), AllocError>
    requires { HasSize tile.now }
    ensures { OnOk result (out.new.items ≡ out.old.items ++ tile_with_size tile.now) }
{
    let size = (tile.len() as u32).to_be_bytes();
    out.extend_from_slice(&size)?;
    out.extend_from_slice(tile)?;
    Ok(())
}

/// The rule that is broken first, of what was written before and a tile behind it.
fn first_broken(before: Option<Rule>, tile: Option<Rule>) -> Option<Rule>
    ensures { result ≡ first_broken before tile }
{
    match before {
        Some(rule) => Some(rule),
        None => tile,
    }
}

/// Puts all tiles of a frame behind what is there, and answers the rule that they break first, if they break one. After a
/// refusal some of them were put.
pub(crate) fn write_tiles<S: FrameSymbols>(
    alloc: Global,
    frame: &mut FrameInProgress<'_, S>,
    out: &mut Vec<u8>,
) -> Result<Option<Rule>, NotWritten>
    requires past { IsPastOf frame.old.by.now.setting.header frame.old.by.now.past }
    requires few { AreFewTiles frame.old.by.now.setting.header.params.tiles }
    requires columns { AreTileColumns frame.old.by.now.setting.header 0 frame.old.columns.items }
    requires none { HoldsColumns frame.old.columns.items (nothing_read frame.old.by.now.setting.header) }
    ensures { GivesTiles S.speaker (sources_of frame.old.by.now) frame.old.symbols out.old.items result out.new.items frame.new.symbols }
{
    let last = frame.by.setting.header.params.tiles.count() - 1;
    let mut broken = None;
    for n in 0..last {
        let tile = write_tile(alloc, frame, n)?;
        put_sized(out, &tile.bytes)?;
        broken = first_broken(broken, tile.broken);
    }
    let tile = write_tile(alloc, frame, last)?;
    out.extend_from_slice(&tile.bytes)?;
    Ok(first_broken(broken, tile.broken))
}
