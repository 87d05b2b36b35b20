//! Partitions of squares.

ghost use Rattle.std.specs.Prelude.{◌≡◌, ◌≤◌, ◌*◌, ◌^◌};
ghost use Rattle.vp9_tables.specs.BlockTables.{width_of, height_of, part_width, part_height};
ghost use Rattle.block_geometry.specs.SplitSquares.{square, part_size};

use vp9_types::{BlockSize, Partition};

/// The square of a level, 0 for 8x8 to 3 for 64x64.
pub fn square(level: u8) -> BlockSize
    requires { level ≤ 3 }
    ensures is { result ≡ square level }
    ensures wide { width_of result ≡ 8 * 2 ^ level }
    ensures high { height_of result ≡ 8 * 2 ^ level }
{
    match level {
        0 => BlockSize::B8x8,
        1 => BlockSize::B16x16,
        2 => BlockSize::B32x32,
        _ => BlockSize::B64x64,
    }
}

/// The size of the parts of a square of a level.
pub fn part_size(partition: Partition, level: u8) -> BlockSize
    requires { level ≤ 3 }
    ensures is { result ≡ part_size partition level }
    ensures wide { width_of result ≡ part_width partition (8 * 2 ^ level) }
    ensures high { height_of result ≡ part_height partition (8 * 2 ^ level) }
{
    match partition {
        Partition::Whole => square(level),
        Partition::Horizontal => match level {
            0 => BlockSize::B8x4,
            1 => BlockSize::B16x8,
            2 => BlockSize::B32x16,
            _ => BlockSize::B64x32,
        },
        Partition::Vertical => match level {
            0 => BlockSize::B4x8,
            1 => BlockSize::B8x16,
            2 => BlockSize::B16x32,
            _ => BlockSize::B32x64,
        },
        Partition::Split => match level {
            0 => BlockSize::B4x4,
            1 => BlockSize::B8x8,
            2 => BlockSize::B16x16,
            _ => BlockSize::B32x32,
        },
    }
}
