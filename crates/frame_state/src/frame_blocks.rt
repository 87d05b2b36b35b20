//! The blocks of a whole frame, as its tile columns hold them.

ghost use Rattle.std.specs.Prelude.{◌≡◌};
ghost use Rattle.frame_state.specs.KeptColumns.{AreColumnsOf};

use crate::columns::TileColumn;
use block_plan::{BlockInfo, Neighbours};
use frame_headers::Header;

/// The blocks of all tile columns of a frame, by place.
#[derive(Clone, Copy)]
pub struct FrameBlocks<'a> {
    header: &'a Header,
    columns: &'a [TileColumn],
    ghost are: { AreColumnsOf header.now columns.now },
}

impl<'a> FrameBlocks<'a> {
    ghost use Rattle.std.specs.Prelude.{◌<◌, ◌≤◌, ◌+◌, length};
    ghost use Rattle.frame_headers.specs.HeaderState.{shape_of};
    ghost use Rattle.vp9_types.specs.Shapes.{mi_cols};
    ghost use Rattle.frame_state.specs.TilePlaces.{tile_offset};

    pub fn new(header: &'a Header, columns: &'a [TileColumn]) -> FrameBlocks<'a>
        requires { AreColumnsOf header.now columns.now }
        ensures header { result.header.now ≡ header.now }
        ensures columns { result.columns.now ≡ columns.now }
    {
        FrameBlocks { header, columns }
    }

    /// The tile column of a place: the last one that begins there or before.
    fn column_at(&self, col: u32) -> usize
        requires { col < mi_cols (shape_of self.now.header.now) }
        ensures there { result < length self.now.columns.now }
        ensures from { tile_offset (mi_cols (shape_of self.now.header.now)) self.now.header.now.params.tiles.columns_log2 result ≤ col }
        ensures to { col < tile_offset (mi_cols (shape_of self.now.header.now)) self.now.header.now.params.tiles.columns_log2 (result + 1) }
    {
        let mut at = 0;
        for k in 1..self.columns.len() {
            if self.columns[k].grid.first_col() <= col {
                at = k;
            }
        }
        at
    }
}

impl Neighbours for FrameBlocks<'_> {
    ghost use Rattle.std.specs.Prelude.{◌<◌};
    ghost use Rattle.frame_headers.specs.HeaderState.{shape_of};
    ghost use Rattle.vp9_types.specs.Shapes.{mi_cols, mi_rows};
    ghost use Rattle.frame_state.specs.Past.{blocks_in};

    ghost blocks = { λ g. blocks_in g };

    ghost holds = { λ g r c. (r < mi_rows (shape_of g.header.now)) × (c < mi_cols (shape_of g.header.now)) };

    fn at(&self, row: u32, col: u32) -> Option<&BlockInfo> {
        let k = self.column_at(col);
        self.columns[k].grid.at(row, col)
    }
}
