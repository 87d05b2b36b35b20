//! Earlier blocks by place.

ghost use Rattle.std.specs.Prelude.{◌≡◌, ℕ, ◌-◌, ◌<◌, List};
ghost use Rattle.std.specs.Option.{option_copied};
ghost use Rattle.block_plan.specs.Blocks.{covering, above_place, left_place};

use crate::block::BlockInfo;

/// A list of blocks, whoever holds it, asked by place.
pub trait Neighbours {
    ghost use Rattle.block_plan.specs.declared.block.BlockInfo.{BlockInfo};

    /// The blocks, in order.
    ghost blocks: { Self → List BlockInfo };

    /// Which places may be asked for.
    ghost holds: { Self → ℕ → ℕ → Type 0 };

    /// The last listed block that covers a place.
    fn at(&self, row: u32, col: u32) -> Option<&BlockInfo>
        requires { holds self.now row col }
        ensures { option_copied result ≡ covering (blocks self.now) row col };
}

/// The block above a place of a frame.
#[tactic(auto, unfolding(crate::specs::Blocks::above_place))]
pub fn above_place<N: Neighbours>(earlier: &N, row: u32, col: u32) -> Option<&BlockInfo>
    requires { 0 < row → N.holds earlier.now (row - 1) col }
    ensures { option_copied result ≡ above_place (N.blocks earlier.now) row col }
{
    if row > 0 {
        earlier.at(row - 1, col)
    } else {
        None
    }
}

/// The block at the left of a place, in a tile whose columns begin at `tile_from`.
#[tactic(auto, unfolding(crate::specs::Blocks::left_place))]
pub fn left_place<N: Neighbours>(
    earlier: &N,
    tile_from: u32,
    row: u32,
    col: u32,
) -> Option<&BlockInfo>
    requires { tile_from < col → N.holds earlier.now row (col - 1) }
    ensures { option_copied result ≡ left_place (N.blocks earlier.now) tile_from row col }
{
    if tile_from < col {
        earlier.at(row, col - 1)
    } else {
        None
    }
}
