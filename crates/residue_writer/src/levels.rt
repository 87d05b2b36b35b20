//! The levels of a block.

/// The levels of a block in a plane: for each of its transform blocks, in order, how many places of its scan are coded, and
/// its levels, by position. A transform block has as many levels as samples, so that the k-th of n levels has those from
/// `k * n` on.
#[derive(Drop)]
pub struct PlaneLevels {
    pub counts: [u32; 256],
    pub values: [i32; 4096],
}

/// The levels of a block in each plane.
#[derive(Drop)]
pub struct BlockLevels {
    pub y: PlaneLevels,
    pub u: PlaneLevels,
    pub v: PlaneLevels,
}

/// The levels of a transform block, by position, and how many places of its scan are coded.
#[derive(Clone, Copy)]
pub(crate) struct Coded<'a> {
    pub levels: &'a [i32],
    pub count: u32,
}
