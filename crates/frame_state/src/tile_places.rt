//! Where tiles lie.

ghost use Rattle.std.specs.Prelude.{◌≡◌, ◌≤◌, ◌<◌, ◌*◌, ◌+◌, ◌-◌, ◌^◌};
ghost use Rattle.vp9_types.specs.Sizes.{superblocks_along};
ghost use Rattle.frame_headers.specs.Tiles.{AreFewTiles};
ghost use Rattle.frame_state.specs.TilePlaces.{tile_offset, tile_places};

use block_geometry::FramePlaces;
use frame_headers::TileInfo;

/// Where a tile lies in its frame, in places of 8x8. Its last row and its last column are excluded.
#[derive(Clone, Copy, Debug, PartialEq, Eq)]
pub struct TilePlaces {
    pub row_from: u32,
    pub row_to: u32,
    pub col_from: u32,
    pub col_to: u32,
}

/// How many superblocks reach over these places of 8x8.
pub fn superblocks(from: u32, to: u32) -> u32
    requires order { from ≤ to }
    requires few { to ≤ 65536 }
    ensures is { result ≡ superblocks_along (to - from) }
    ensures few { result ≤ 8192 }
{
    (to - from).div_ceil(8)
}

/// Where the `i`-th of so many tiles begins along so many places (get_tile_offset in 7.4.1 of the standard).
pub(crate) fn tile_offset(places: u32, log2: u8, i: u32) -> u32
    requires few { places ≤ 8192 }
    requires low { log2 ≤ 8 }
    requires there { i ≤ 256 }
    ensures { result ≡ tile_offset places log2 i }
{
    let superblocks = places.div_ceil(8);
    (8 * (i * superblocks >> log2)).min(places)
}

impl TilePlaces {
    /// The `n`-th tile of a frame of such a size.
    #[tactic(auto, unfolding(crate::specs::TilePlaces::tile_places))]
    pub fn new(frame: FramePlaces, tiles: TileInfo, n: u32) -> TilePlaces
        requires rows { frame.rows ≤ 8192 }
        requires cols { frame.cols ≤ 8192 }
        requires few { AreFewTiles tiles }
        requires below { n < 2 ^ tiles.columns_log2 * 2 ^ tiles.rows_log2 }
        ensures { result ≡ tile_places frame tiles n }
    {
        let row = n / tiles.columns();
        let column = n % tiles.columns();
        TilePlaces {
            row_from: tile_offset(frame.rows, tiles.rows_log2, row),
            row_to: tile_offset(frame.rows, tiles.rows_log2, row + 1),
            col_from: tile_offset(frame.cols, tiles.columns_log2, column),
            col_to: tile_offset(frame.cols, tiles.columns_log2, column + 1),
        }
    }
}
