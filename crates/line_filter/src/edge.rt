//! Edges of a plane.

/// What the filter compares with, in steps of the frame's depth.
#[derive(Clone, Copy, Debug, PartialEq, Eq)]
pub struct Limits {
    /// Neighbours differ by no more.
    pub limit: u16,
    /// The two sides differ by no more.
    pub blimit: u16,
    /// Above it there is high variance at the edge.
    pub thresh: u16,
    /// 1 at a depth of 8 bits: samples that differ by no more are flat.
    pub one: u16,
    /// The sample in the middle of the depth's range, 2048 at most.
    pub half: u16,
}

/// How many samples the filter may look at: 4 on each side for the first two, 8 for the last.
#[derive(Clone, Copy, Debug, PartialEq, Eq)]
pub enum FilterWidth {
    Four,
    Eight,
    Sixteen,
}

/// The passes of the filter: first it goes across vertical edges, then across horizontal ones.
#[derive(Clone, Copy, Debug, PartialEq, Eq)]
pub enum Pass {
    Vertical,
    Horizontal,
}

/// An edge in a plane, left of a column or above a row, with so many lines across it, 1 to 8: those of the rows or
/// columns from the edge's on.
#[derive(Clone, Copy, Debug, PartialEq, Eq)]
pub struct Edge {
    pub pass: Pass,
    pub row: usize,
    pub column: usize,
    pub lines: usize,
    pub width: FilterWidth,
    pub limits: Limits,
}
