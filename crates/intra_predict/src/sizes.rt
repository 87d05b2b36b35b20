ghost use Rattle.std.specs.Prelude.{◌≡◌, ◌≤◌};
ghost use Rattle.intra_predict.specs.SampleSizes.{middle};
ghost use Rattle.vp9_types.specs.Sizes.{side};

use vp9_types::{Depth, TxSize};

/// How many samples a row of the block has, and how many rows there are: 4, 8, 16 or 32.
pub fn side_of(size: TxSize) -> usize
    ensures { result ≡ side size }
{
    match size {
        TxSize::T4x4 => 4,
        TxSize::T8x8 => 8,
        TxSize::T16x16 => 16,
        TxSize::T32x32 => 32,
    }
}

/// The sample in the middle of a depth's range.
pub(crate) fn middle_of(depth: Depth) -> u16
    ensures value { result ≡ middle depth }
    ensures some { 1 ≤ result }
    ensures small { result ≤ 2048 }
{
    match depth {
        Depth::Eight => 128,
        Depth::Ten => 512,
        Depth::Twelve => 2048,
    }
}
