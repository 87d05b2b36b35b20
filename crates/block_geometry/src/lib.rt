//! Geometry of blocks: their sizes in places, what squares are split into, and where their transform blocks begin.
#![tactic(auto)]

mod partitions;
mod parts;
mod sizes;
mod transform_blocks;

pub use partitions::{part_size, square};
pub use parts::{Part, fill_part, part_inside};
pub use sizes::{chroma_tx, greatest_tx, height_4, height_8, is_below_8x8, width_4, width_8};
pub use transform_blocks::{
    FramePlaces, PlaneBlock, TransformGrid, TransformPlace, transform_grid,
};
