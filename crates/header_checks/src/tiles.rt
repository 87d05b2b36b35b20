//! Tests of tiles.

ghost use Rattle.std.specs.Prelude.{◌≡◌, true};
ghost use Rattle.frame_headers.specs.Tiles.{max_log2, min_log2, superblocks};
ghost use Rattle.header_writer.specs.WellFormed.{IsTileInfo};
ghost use Rattle.header_checks.specs.Params.{is_tile_info};

use frame_headers::{TileInfo, superblocks_of};

fn least_log2(columns: u32) -> u8
    ensures { result ≡ min_log2 columns }
{
    for n in 0..8u8 {
        if columns <= 64 << n {
            return n;
        }
    }
    8
}

fn greatest_log2(columns: u32) -> u8
    ensures { result ≡ max_log2 columns }
{
    for n in 0..8u8 {
        if columns >> (n + 1) < 4 {
            return n;
        }
    }
    8
}

/// Whether a frame of this width can have these tiles.
#[tactic(auto, unfolding(crate::specs::Params::is_tile_info))]
pub(crate) fn is_tile_info(width: u32, tiles: TileInfo) -> bool
    ensures is { result ≡ is_tile_info width tiles }
    ensures tiles { result ≡ true → IsTileInfo width tiles }
    ensures complete { IsTileInfo width tiles → result ≡ true }
{
    let columns = superblocks_of(width);
    let least = least_log2(columns);
    let most = least.max(greatest_log2(columns));
    least <= tiles.columns_log2 && tiles.columns_log2 <= most && tiles.rows_log2 <= 2
}
