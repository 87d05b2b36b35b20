//! Sizes of blocks and of their transforms.

ghost use Rattle.std.specs.Prelude.{◌≡◌, ◌≤◌, min, IsTrue};
ghost use Rattle.vp9_tables.specs.Numbers.{tx_number};
ghost use Rattle.vp9_tables.specs.BlockTables.{greatest_of, uv_number};
ghost use Rattle.block_geometry.specs.BlockSizes.{width_4, height_4, width_8, height_8, is_below_8x8, greatest_allowed};

use vp9_tables::{biggest_tx_size, max_tx_size, uv_tx_size};
use vp9_types::{BlockSize, TxMode, TxSize};

/// Width in 4s, 1 to 16.
pub fn width_4(size: BlockSize) -> u8
    ensures value { result ≡ width_4 size }
    ensures least { 1 ≤ result }
    ensures most { result ≤ 16 }
{
    match size {
        BlockSize::B4x4 | BlockSize::B4x8 => 1,
        BlockSize::B8x4 | BlockSize::B8x8 | BlockSize::B8x16 => 2,
        BlockSize::B16x8 | BlockSize::B16x16 | BlockSize::B16x32 => 4,
        BlockSize::B32x16 | BlockSize::B32x32 | BlockSize::B32x64 => 8,
        BlockSize::B64x32 | BlockSize::B64x64 => 16,
    }
}

/// Height in 4s, 1 to 16.
pub fn height_4(size: BlockSize) -> u8
    ensures value { result ≡ height_4 size }
    ensures least { 1 ≤ result }
    ensures most { result ≤ 16 }
{
    match size {
        BlockSize::B4x4 | BlockSize::B8x4 => 1,
        BlockSize::B4x8 | BlockSize::B8x8 | BlockSize::B16x8 => 2,
        BlockSize::B8x16 | BlockSize::B16x16 | BlockSize::B32x16 => 4,
        BlockSize::B16x32 | BlockSize::B32x32 | BlockSize::B64x32 => 8,
        BlockSize::B32x64 | BlockSize::B64x64 => 16,
    }
}

/// Width in places of 8x8, 1 to 8.
pub fn width_8(size: BlockSize) -> u8
    ensures value { result ≡ width_8 size }
    ensures least { 1 ≤ result }
    ensures most { result ≤ 8 }
{
    match size {
        BlockSize::B4x4 | BlockSize::B4x8 | BlockSize::B8x4 | BlockSize::B8x8 | BlockSize::B8x16 =>
            1,
        BlockSize::B16x8 | BlockSize::B16x16 | BlockSize::B16x32 => 2,
        BlockSize::B32x16 | BlockSize::B32x32 | BlockSize::B32x64 => 4,
        BlockSize::B64x32 | BlockSize::B64x64 => 8,
    }
}

/// Height in places of 8x8, 1 to 8.
pub fn height_8(size: BlockSize) -> u8
    ensures value { result ≡ height_8 size }
    ensures least { 1 ≤ result }
    ensures most { result ≤ 8 }
{
    match size {
        BlockSize::B4x4 | BlockSize::B8x4 | BlockSize::B4x8 | BlockSize::B8x8 | BlockSize::B16x8 =>
            1,
        BlockSize::B8x16 | BlockSize::B16x16 | BlockSize::B32x16 => 2,
        BlockSize::B16x32 | BlockSize::B32x32 | BlockSize::B64x32 => 4,
        BlockSize::B32x64 | BlockSize::B64x64 => 8,
    }
}

/// Whether the block is a part of an 8x8 square.
pub fn is_below_8x8(size: BlockSize) -> bool
    ensures { result ≡ is_below_8x8 size }
{
    matches!(size, BlockSize::B4x4 | BlockSize::B4x8 | BlockSize::B8x4)
}

/// The greatest transform of a block in a frame of a mode.
pub fn greatest_tx(mode: TxMode, size: BlockSize) -> TxSize
    ensures { tx_number result ≡ greatest_allowed mode size }
{
    let of_mode = biggest_tx_size(mode);
    let of_block = max_tx_size(size);
    if (of_mode as u8) < of_block as u8 {
        of_mode
    } else {
        of_block
    }
}

/// The transform of the planes of chroma: 4x4 below 8x8, else the luma's as far as the plane's block holds it.
pub fn chroma_tx(size: BlockSize, tx: TxSize, ss_x: bool, ss_y: bool) -> TxSize
    requires fits { tx_number tx ≤ greatest_of size }
    ensures { tx_number result ≡ uv_number size tx ss_x ss_y }
{
    uv_tx_size(size, tx, ss_x, ss_y)
}
