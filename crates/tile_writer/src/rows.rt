//! The superblocks of a tile.

ghost use Rattle.std.specs.Prelude.{◌≡◌, ◌+◌, ◌*◌, ◌≤◌, OnOk};
ghost use Rattle.mode_syntax.specs.Superblocks.{superblocks_of};
ghost use Rattle.tile_writer.specs.Code.{EndsTile, row_rest, tile_rest};

use crate::squares::{TileWriter, put_square};
use crate::unwritten::Unwritten;
use mode_syntax::SquareAt;

/// Places of 8x8 along a superblock.
const SIDE: u32 = 8;
/// The level of a superblock.
const SUPERBLOCK: u8 = 3;

/// A row of so many superblocks, from the first one on.
fn put_row<W: TileWriter>(writer: &mut W, first: SquareAt, count: u32) -> Result<(), Unwritten>
    requires ready { W.ready writer.old }
    requires begin { first.col ≡ first.tile_from }
    requires level { first.level ≡ 3 }
    requires from { first.tile_from ≡ (W.tile writer.old).walk.tile_from }
    requires to { first.tile_to ≡ (W.tile writer.old).walk.tile_to }
    requires few { count ≤ 8192 }
    requires near { first.tile_from ≤ 65536 }
    requires wide { first.tile_from + 8 * count ≤ (W.tile writer.old).limit }
    requires room { 64 * count ≤ (W.tile writer.old).room }
    ensures ends { EndsTile (row_rest first.row (W.tile writer.old).walk (W.tile writer.old).teller first.tile_from count) (64 * count) (W.tile writer.old) result (W.tile writer.new) }
    ensures ready { OnOk result (W.ready writer.new) }
{
    for i in 0..count {
        let at = SquareAt {
            col: first.col + SIDE * i,
            ..first
        };
        put_square(writer, at)?;
    }
    Ok(())
}

/// So many rows of superblocks of a tile, each of so many columns, from the first one on.
pub fn put_rows<W: TileWriter>(
    writer: &mut W,
    first: SquareAt,
    columns: u32,
    rows: u32,
) -> Result<(), Unwritten>
    requires ready { W.ready writer.old }
    requires begin { first.col ≡ first.tile_from }
    requires level { first.level ≡ 3 }
    requires from { first.tile_from ≡ (W.tile writer.old).walk.tile_from }
    requires to { first.tile_to ≡ (W.tile writer.old).walk.tile_to }
    requires few { columns ≤ 8192 }
    requires few_rows { rows ≤ 8192 }
    requires near { first.tile_from ≤ 65536 }
    requires near_row { first.row ≤ 65536 }
    requires wide { first.tile_from + 8 * columns ≤ (W.tile writer.old).limit }
    requires room { 64 * (columns * rows) ≤ (W.tile writer.old).room }
    ensures ends { EndsTile (tile_rest (W.tile writer.old).walk (W.tile writer.old).teller (superblocks_of first rows columns)) (64 * (columns * rows)) (W.tile writer.old) result (W.tile writer.new) }
    ensures ready { OnOk result (W.ready writer.new) }
{
    for i in 0..rows {
        let at = SquareAt {
            row: first.row + SIDE * i,
            ..first
        };
        put_row(writer, at, columns)?;
    }
    Ok(())
}
