//! Parts of blocks.

use vp9_types::Plane;

/// The two directions of a plane.
#[derive(Clone, Copy, Debug, PartialEq, Eq)]
pub enum Direction {
    Down,
    Across,
}

/// A part of a block that is predicted by itself: the plane, its number in the plane, which is 0 unless the block is below
/// 8x8, and whether by the first vector (0) or by the second (1).
#[derive(Clone, Copy, Debug, PartialEq, Eq)]
pub struct BlockPart {
    pub plane: Plane,
    pub number: usize,
    pub list: usize,
}
