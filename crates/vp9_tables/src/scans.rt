ghost use Rattle.std.specs.Prelude.{◌≡◌, ℕ, ◌+◌, ◌*◌, ◌<◌, ◌≤◌, slice_index, length, IsTrue, All, nat_lt};
ghost use Rattle.std.specs.List.{flat_map, list_all};
ghost use Rattle.vp9_types.specs.declared.block.TxSize.{TxSize};
ghost use Rattle.vp9_types.specs.declared.block.TxType.{TxType};
ghost use Rattle.vp9_tables.specs.Orders.{IsPermutation};
ghost use Rattle.vp9_tables.specs.Scans.{scan_of, neighbours_of, area, pair_of, HasEarlierNeighbours};

use crate::data::neighbours::{
    NEIGHBOURS_COLUMN_4, NEIGHBOURS_COLUMN_8, NEIGHBOURS_COLUMN_16, NEIGHBOURS_DEFAULT_4,
    NEIGHBOURS_DEFAULT_8, NEIGHBOURS_DEFAULT_16, NEIGHBOURS_DEFAULT_32, NEIGHBOURS_ROW_4,
    NEIGHBOURS_ROW_8, NEIGHBOURS_ROW_16,
};
use crate::data::scans::{
    SCAN_COLUMN_4, SCAN_COLUMN_8, SCAN_COLUMN_16, SCAN_DEFAULT_4, SCAN_DEFAULT_8, SCAN_DEFAULT_16,
    SCAN_DEFAULT_32, SCAN_ROW_4, SCAN_ROW_8, SCAN_ROW_16,
};
use vp9_types::{TxSize, TxType};

/// How many coefficients a transform block has.
pub fn area_of(size: TxSize) -> usize
    ensures value { result ≡ area size }
    ensures most { result ≤ 1024 }
{
    match size {
        TxSize::T4x4 => 16,
        TxSize::T8x8 => 64,
        TxSize::T16x16 => 256,
        TxSize::T32x32 => 1024,
    }
}

/// The positions of a block's coefficients in the order in which they are coded.
pub fn scan(size: TxSize, kind: TxType) -> &'static [u16]
    ensures table { result.now ≡ scan_of size kind }
    ensures count { length result.now ≡ area size }
    ensures within { All (λ p. p < area size) result.now }
{
    scan_table(size, kind)
}

fn scan_table(size: TxSize, kind: TxType) -> &'static [u16]
    ensures { result.now ≡ scan_of size kind }
{
    match (size, kind) {
        (TxSize::T4x4, TxType::AdstDct) => &SCAN_ROW_4,
        (TxSize::T4x4, TxType::DctAdst) => &SCAN_COLUMN_4,
        (TxSize::T4x4, TxType::DctDct | TxType::AdstAdst) => &SCAN_DEFAULT_4,
        (TxSize::T8x8, TxType::AdstDct) => &SCAN_ROW_8,
        (TxSize::T8x8, TxType::DctAdst) => &SCAN_COLUMN_8,
        (TxSize::T8x8, TxType::DctDct | TxType::AdstAdst) => &SCAN_DEFAULT_8,
        (TxSize::T16x16, TxType::AdstDct) => &SCAN_ROW_16,
        (TxSize::T16x16, TxType::DctAdst) => &SCAN_COLUMN_16,
        (TxSize::T16x16, TxType::DctDct | TxType::AdstAdst) => &SCAN_DEFAULT_16,
        (TxSize::T32x32, _) => &SCAN_DEFAULT_32,
    }
}

/// For each place of the scan, the two positions whose tokens give its context.
pub fn neighbours(size: TxSize, kind: TxType) -> &'static [u16]
    ensures table { result.now ≡ neighbours_of size kind }
    ensures count { length result.now ≡ 2 * area size }
    ensures within { All (λ p. p < area size) result.now }
{
    neighbours_table(size, kind)
}

fn neighbours_table(size: TxSize, kind: TxType) -> &'static [u16]
    ensures { result.now ≡ neighbours_of size kind }
{
    match (size, kind) {
        (TxSize::T4x4, TxType::AdstDct) => &NEIGHBOURS_ROW_4,
        (TxSize::T4x4, TxType::DctAdst) => &NEIGHBOURS_COLUMN_4,
        (TxSize::T4x4, TxType::DctDct | TxType::AdstAdst) => &NEIGHBOURS_DEFAULT_4,
        (TxSize::T8x8, TxType::AdstDct) => &NEIGHBOURS_ROW_8,
        (TxSize::T8x8, TxType::DctAdst) => &NEIGHBOURS_COLUMN_8,
        (TxSize::T8x8, TxType::DctDct | TxType::AdstAdst) => &NEIGHBOURS_DEFAULT_8,
        (TxSize::T16x16, TxType::AdstDct) => &NEIGHBOURS_ROW_16,
        (TxSize::T16x16, TxType::DctAdst) => &NEIGHBOURS_COLUMN_16,
        (TxSize::T16x16, TxType::DctDct | TxType::AdstAdst) => &NEIGHBOURS_DEFAULT_16,
        (TxSize::T32x32, _) => &NEIGHBOURS_DEFAULT_32,
    }
}

/// A scan takes each position once.
pub fn scans_are_orders()
    ensures orders { (size : TxSize) (kind : TxType) → IsPermutation (area size) (scan_of size kind) }
    ensures first { (size : TxSize) (kind : TxType) → slice_index (scan_of size kind) 0 ≡ 0 }
{}

/// The neighbours are the positions above and on the left, and stand earlier in the scan.
pub fn neighbours_are_above_and_left()
    ensures rule { (size : TxSize) (kind : TxType) → neighbours_of size kind ≡ flat_map (pair_of size kind) (scan_of size kind) }
    ensures earlier { (size : TxSize) (kind : TxType) → HasEarlierNeighbours (scan_of size kind) (neighbours_of size kind) }
{}
