//! The residue of a block, read transform block by transform block (6.4.21 of the standard).
#![tactic(auto)]

mod blocks;
mod in_plane;
mod planes;
mod quantisers;
mod sides;
mod transform_blocks;

pub use blocks::{block_residue, listed};
pub use in_plane::BlockInPlane;
pub use sides::{Sides, TileSides};
