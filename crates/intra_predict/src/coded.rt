/// A coded block in one of its frame's planes. Rows and columns count 8x8 luma samples; a block below 8x8 has one column.
#[derive(Clone, Copy, Debug, PartialEq, Eq)]
pub struct CodedBlock {
    pub row: usize,
    pub column: usize,
    /// How many columns the block has.
    pub columns: usize,
    /// The first column of its tile.
    pub tile_column: usize,
    /// Whether the plane has half the luma's width, and half its height.
    pub ss_x: bool,
    pub ss_y: bool,
}
