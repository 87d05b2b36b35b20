ghost use Rattle.std.specs.Prelude.{◌≡◌, ◌≤◌, ◌-◌, ◌*◌, ◌^◌, IfOk};
ghost use Rattle.frame_headers.specs.Fields.{Reads};
ghost use Rattle.frame_headers.specs.Tiles.{superblocks, min_log2, max_log2, more_columns, tile_columns_log2, tile_rows_log2, tile_info, AreFewTiles};

use crate::bits::BitReader;
use crate::field::FieldName;
use vp9_types::Rule;

/// `tile_info` (6.2.13 of the standard): a frame has `1 << columns_log2` tile columns and `1 << rows_log2` tile rows.
#[derive(Clone, Copy, Debug, PartialEq, Eq)]
pub struct TileInfo {
    pub columns_log2: u8,
    pub rows_log2: u8,
}

impl TileInfo {
    ghost use Rattle.frame_headers.specs.Tiles.{AreFewTiles};

    /// How many tile columns there are.
    pub fn columns(&self) -> u32
        requires { self.now.columns_log2 ≤ 8 }
        ensures { result ≡ 2 ^ self.now.columns_log2 }
    {
        power_of_two(self.columns_log2)
    }

    /// How many tile rows there are.
    pub fn rows(&self) -> u32
        requires { self.now.rows_log2 ≤ 8 }
        ensures { result ≡ 2 ^ self.now.rows_log2 }
    {
        power_of_two(self.rows_log2)
    }

    /// How many tiles there are.
    #[tactic(auto, using(crate::proofs::TileLemmas::few_tiles))]
    pub fn count(&self) -> u32
        requires { AreFewTiles self.now }
        ensures value { result ≡ 2 ^ self.now.columns_log2 * 2 ^ self.now.rows_log2 }
        ensures some { 1 ≤ result }
    {
        self.columns() * self.rows()
    }
}

#[tactic(auto, using(crate::proofs::TileLemmas::power_whole))]
fn power_of_two(log2: u8) -> u32
    requires { log2 ≤ 8 }
    ensures { result ≡ 2 ^ log2 }
{
    1 << log2
}

/// How many superblocks of 64 samples cover a width or height.
pub fn superblocks_of(size: u32) -> u32
    ensures { result ≡ superblocks size }
{
    size.div_ceil(8).div_ceil(8)
}

fn least_log2(columns: u32) -> u8
    ensures value { result ≡ min_log2 columns }
    ensures small { result ≤ 8 }
{
    for n in 0..8u8 {
        if columns <= 64 << n {
            return n;
        }
    }
    8
}

fn greatest_log2(columns: u32) -> u8
    ensures value { result ≡ max_log2 columns }
    ensures small { result ≤ 8 }
{
    for n in 0..8u8 {
        if columns >> (n + 1) < 4 {
            return n;
        }
    }
    8
}

fn read_more_columns(bits: &mut BitReader<'_>, least: u8, greatest: u8) -> Result<u8, Rule>
    requires least { least ≤ 8 }
    requires greatest { greatest ≤ 8 }
    ensures reads { Reads (more_columns (greatest - least) least) bits.old result bits.new }
    ensures few { IfOk result (λ log2. log2 ≤ 8) }
{
    let mut log2 = least;
    while log2 < greatest {
        if !bits.flag_field(FieldName::IncrementTileColsLog2)? {
            return Ok(log2);
        }
        log2 += 1;
    }
    Ok(log2)
}

#[tactic(auto, unfolding(crate::specs::Tiles::tile_rows_log2), using(vp9_types::proofs::Runs::run_bind))]
fn read_rows_log2(bits: &mut BitReader<'_>) -> Result<u8, Rule>
    ensures reads { Reads tile_rows_log2 bits.old result bits.new }
    ensures few { IfOk result (λ log2. log2 ≤ 2) }
{
    if !bits.flag_field(FieldName::TileRowsLog2)? {
        return Ok(0);
    }
    if bits.flag_field(FieldName::IncrementTileRowsLog2)? {
        Ok(2)
    } else {
        Ok(1)
    }
}

/// Reads `tile_info` of a frame of this width.
#[tactic(auto, unfolding(crate::specs::Tiles::tile_info, crate::specs::Tiles::tile_columns_log2), using(vp9_types::proofs::Runs::run_bind))]
pub fn read_tile_info(bits: &mut BitReader<'_>, width: u32) -> Result<TileInfo, Rule>
    ensures reads { Reads (tile_info width) bits.old result bits.new }
    ensures few { IfOk result AreFewTiles }
{
    let columns = superblocks_of(width);
    let columns_log2 = read_more_columns(bits, least_log2(columns), greatest_log2(columns))?;
    let rows_log2 = read_rows_log2(bits)?;
    Ok(TileInfo {
        columns_log2,
        rows_log2,
    })
}
