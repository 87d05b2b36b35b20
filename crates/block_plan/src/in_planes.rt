//! A block in a plane of its frame.

ghost use Rattle.std.specs.Prelude.{◌≡◌, ◌≤◌};
ghost use Rattle.vp9_tables.specs.BlockTables.{greatest_of};
ghost use Rattle.vp9_tables.specs.Numbers.{tx_number};
ghost use Rattle.block_plan.specs.InPlanes.{tx_in, plane_block, mode_at};

use crate::block::{BlockInfo, IntraPrediction};
use block_geometry::{PlaneBlock, chroma_tx, is_below_8x8};
use vp9_types::{BlockSize, IntraMode, Plane, Shape, TxSize};

/// The transform size of a block in a plane.
#[tactic(auto, using(crate::proofs::Transforms::tx_of_number))]
fn tx_in(shape: &Shape, block: &BlockInfo, plane: Plane) -> TxSize
    requires fits { tx_number block.now.tx ≤ greatest_of block.now.size }
    ensures { result ≡ tx_in shape.now block.now plane }
{
    match plane {
        Plane::Y => block.tx,
        Plane::U | Plane::V => chroma_tx(block.size, block.tx, shape.ss_x, shape.ss_y),
    }
}

/// A block in a plane of a frame of this shape. Its transform is no larger than the block.
pub fn plane_block(shape: &Shape, block: &BlockInfo, plane: Plane) -> PlaneBlock
    requires fits { tx_number block.now.tx ≤ greatest_of block.now.size }
    ensures { result ≡ plane_block shape.now block.now plane }
{
    let is_chroma = plane != Plane::Y;
    PlaneBlock {
        row: block.row,
        col: block.col,
        size: block.size,
        tx: tx_in(shape, block, plane),
        ss_x: is_chroma && shape.ss_x,
        ss_y: is_chroma && shape.ss_y,
    }
}

/// The mode of the transform block at row `y` and column `x` of a block of this size in a plane, in 4s.
pub fn mode_at(
    modes: &IntraPrediction,
    size: BlockSize,
    plane: Plane,
    y: usize,
    x: usize,
) -> IntraMode
    requires y { y ≤ 16 }
    requires x { x ≤ 16 }
    ensures { result ≡ mode_at modes.now size plane y x }
{
    if plane != Plane::Y {
        return modes.chroma;
    }
    if is_below_8x8(size) {
        match modes.luma.get(2 * y + x) {
            Some(mode) => *mode,
            None => IntraMode::Dc,
        }
    } else {
        modes.luma[0]
    }
}
