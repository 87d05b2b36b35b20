//! Tiles.

ghost use Rattle.std.specs.Prelude.{◌≡◌, ◌≤◌, ◌-◌, max, IfOk};
ghost use Rattle.frame_headers.specs.Tiles.{min_log2, max_log2, more_columns, tile_columns_log2, tile_rows_log2, tile_info};
ghost use Rattle.header_writer.specs.Code.{HasPut};
ghost use Rattle.header_writer.specs.WrittenFields.{Puts};
ghost use Rattle.header_writer.specs.Spelling.{spelled_columns, spelled_rows, spelled_tiles};
ghost use Rattle.header_writer.specs.WellFormed.{IsTileInfo};

use crate::bits::BitWriter;
use frame_headers::{FieldName, TileInfo, superblocks_of};
use std::alloc::AllocError;

fn least_log2(columns: u32) -> u8
    ensures value { result ≡ min_log2 columns }
    ensures small { result ≤ 8 }
{
    for n in 0..8u8 {
        if columns <= 64 << n {
            return n;
        }
    }
    8
}

fn greatest_log2(columns: u32) -> u8
    ensures value { result ≡ max_log2 columns }
    ensures small { result ≤ 8 }
{
    for n in 0..8u8 {
        if columns >> (n + 1) < 4 {
            return n;
        }
    }
    8
}

/// Puts that there are more columns, from the least number on, and then that there are no more.
fn put_more_columns(
    bits: &mut BitWriter,
    least: u8,
    greatest: u8,
    log2: u8,
) -> Result<(), AllocError>
    requires least { least ≤ log2 }
    requires most { log2 ≤ max least greatest }
    ensures puts { IfOk result (λ _. Puts (more_columns (greatest - least) least) bits.old log2 bits.new) }
    ensures spells { IfOk result (λ _. HasPut bits.old (spelled_columns least greatest log2) bits.new) }
{
    let mut now = least;
    while now < log2 {
        bits.flag_field(FieldName::IncrementTileColsLog2, true)?;
        now += 1;
    }
    if greatest <= log2 {
        return Ok(());
    }
    bits.flag_field(FieldName::IncrementTileColsLog2, false)?;
    Ok(())
}

#[tactic(auto, unfolding(frame_headers::specs::Tiles::tile_rows_log2, crate::specs::Spelling::spelled_rows), using(vp9_types::proofs::Binds::writes_bind, crate::proofs::Spells::spells_on))]
fn put_rows_log2(bits: &mut BitWriter, log2: u8) -> Result<(), AllocError>
    requires { log2 ≤ 2 }
    ensures puts { IfOk result (λ _. Puts tile_rows_log2 bits.old log2 bits.new) }
    ensures spells { IfOk result (λ _. HasPut bits.old (spelled_rows log2) bits.new) }
{
    if log2 == 0 {
        return bits.flag_field(FieldName::TileRowsLog2, false);
    }
    bits.flag_field(FieldName::TileRowsLog2, true)?;
    if log2 == 1 {
        return bits.flag_field(FieldName::IncrementTileRowsLog2, false);
    }
    bits.flag_field(FieldName::IncrementTileRowsLog2, true)
}

/// Puts `tile_info` (6.2.13 of the standard) of a frame of this width.
#[tactic(auto, unfolding(frame_headers::specs::Tiles::tile_info, frame_headers::specs::Tiles::tile_columns_log2, crate::specs::Spelling::spelled_tiles), using(vp9_types::proofs::Binds::writes_bind, crate::proofs::Spells::spells_on))]
pub fn put_tile_info(bits: &mut BitWriter, width: u32, tiles: TileInfo) -> Result<(), AllocError>
    requires { IsTileInfo width tiles }
    ensures puts { IfOk result (λ _. Puts (tile_info width) bits.old tiles bits.new) }
    ensures spells { IfOk result (λ _. HasPut bits.old (spelled_tiles width tiles) bits.new) }
{
    let columns = superblocks_of(width);
    let least = least_log2(columns);
    let greatest = greatest_log2(columns);
    put_more_columns(bits, least, greatest, tiles.columns_log2)?;
    put_rows_log2(bits, tiles.rows_log2)
}
