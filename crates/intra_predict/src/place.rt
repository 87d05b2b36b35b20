/// Where a transform block lies in its plane. All numbers are rows and columns of the plane's samples.
///
/// Above it there is something where its row isn't the first, and left of it where its column isn't the tile's first.
#[derive(Clone, Copy, Debug, PartialEq, Eq)]
pub struct IntraPlace {
    /// The block's first row.
    pub row: usize,
    /// The block's first column.
    pub column: usize,
    /// The first column of the tile.
    pub tile_from: usize,
    /// The first column past the coded block that the transform block is in. A coded block below 8x8 counts as 8x8 in
    /// luma samples, so has 8 columns in luma and 8 or 4 in chroma.
    pub block_end: usize,
}
