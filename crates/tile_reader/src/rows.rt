//! The superblocks of a tile.

ghost use Rattle.std.specs.Prelude.{◌≡◌, ◌+◌, ◌*◌, ◌≤◌, OnOk};
ghost use Rattle.mode_syntax.specs.Laws.{decode_row};
ghost use Rattle.mode_syntax.specs.Superblocks.{superblocks_of};
ghost use Rattle.mode_syntax.specs.Walk.{decode_tile};
ghost use Rattle.tile_reader.specs.Code.{EndsTile};

use crate::squares::{TileReader, read_square};
use mode_syntax::SquareAt;

/// Places of 8x8 along a superblock.
const SIDE: u32 = 8;

/// A row of so many superblocks, from the first one on.
fn read_row<R: TileReader>(reader: &mut R, first: SquareAt, count: u32) -> Result<(), R::Halt>
    requires ready { R.ready reader.old }
    requires begin { first.col ≡ first.tile_from }
    requires level { first.level ≡ 3 }
    requires from { first.tile_from ≡ (R.tile reader.old).walk.tile_from }
    requires to { first.tile_to ≡ (R.tile reader.old).walk.tile_to }
    requires few { count ≤ 8192 }
    requires near { first.tile_from ≤ 65536 }
    requires wide { first.tile_from + 8 * count ≤ (R.tile reader.old).limit }
    requires room { 64 * count ≤ (R.tile reader.old).room }
    ensures ends { EndsTile (decode_row (R.tile reader.old).walk first.row first.tile_from count) (64 * count) (R.tile reader.old) result (R.tile reader.new) }
    ensures ready { OnOk result (R.ready reader.new) }
    ensures kept { R.kept reader.new ≡ R.kept reader.old }
{
    for i in 0..count {
        let at = SquareAt {
            col: first.col + SIDE * i,
            ..first
        };
        read_square(reader, at)?;
    }
    Ok(())
}

/// So many rows of superblocks of a tile, each of so many columns, from the first one on.
pub fn read_rows<R: TileReader>(
    reader: &mut R,
    first: SquareAt,
    columns: u32,
    rows: u32,
) -> Result<(), R::Halt>
    requires ready { R.ready reader.old }
    requires begin { first.col ≡ first.tile_from }
    requires level { first.level ≡ 3 }
    requires from { first.tile_from ≡ (R.tile reader.old).walk.tile_from }
    requires to { first.tile_to ≡ (R.tile reader.old).walk.tile_to }
    requires few { columns ≤ 8192 }
    requires few_rows { rows ≤ 8192 }
    requires near { first.tile_from ≤ 65536 }
    requires near_row { first.row ≤ 65536 }
    requires wide { first.tile_from + 8 * columns ≤ (R.tile reader.old).limit }
    requires room { 64 * (columns * rows) ≤ (R.tile reader.old).room }
    ensures ends { EndsTile (decode_tile (R.tile reader.old).walk (superblocks_of first rows columns)) (64 * (columns * rows)) (R.tile reader.old) result (R.tile reader.new) }
    ensures ready { OnOk result (R.ready reader.new) }
    ensures kept { R.kept reader.new ≡ R.kept reader.old }
{
    for i in 0..rows {
        let at = SquareAt {
            row: first.row + SIDE * i,
            ..first
        };
        read_row(reader, at, columns)?;
    }
    Ok(())
}
