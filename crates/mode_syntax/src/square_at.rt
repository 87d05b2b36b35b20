//! Squares of a tile.

ghost use Rattle.std.specs.Prelude.{◌≡◌, ◌<◌, ◌≤◌};
ghost use Rattle.mode_syntax.specs.Superblocks.{quarter_square};

use crate::partition::side_of;
use block_plan::BlockAt;
use vp9_types::BlockSize;

/// A square that is to be partitioned, of level 0 for 8x8 to 3 for 64x64, and the columns of its tile, the last of them
/// excluded, all in places of 8x8.
#[derive(Clone, Copy, Debug, PartialEq, Eq)]
pub struct SquareAt {
    pub row: u32,
    pub col: u32,
    pub level: u8,
    pub tile_from: u32,
    pub tile_to: u32,
}

/// A block of a square's tile.
pub fn block_of(at: SquareAt, row: u32, col: u32, size: BlockSize) -> BlockAt
    ensures { result ≡ record { row = row; col = col; size = size; tile_from = at.tile_from; tile_to = at.tile_to } }
{
    BlockAt {
        row,
        col,
        size,
        tile_from: at.tile_from,
        tile_to: at.tile_to,
    }
}

/// The `i`-th quarter of a square, row by row.
pub fn quarter_of(at: SquareAt, i: u32) -> SquareAt
    requires least { 1 ≤ at.level }
    requires most { at.level ≤ 3 }
    requires row { at.row < 65536 }
    requires col { at.col < 65536 }
    requires below { i < 4 }
    ensures { result ≡ quarter_square at i }
{
    let half = side_of(at.level - 1);
    SquareAt {
        row: at.row + half * (i / 2),
        col: at.col + half * (i % 2),
        level: at.level - 1,
        ..at
    }
}
