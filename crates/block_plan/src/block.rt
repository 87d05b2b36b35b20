//! Blocks.

use vp9_types::{BlockSize, InterMode, InterpFilter, IntraMode, ReferenceFrame, TxSize};

/// A vector, in eighths of a luma sample.
#[derive(Clone, Copy, Debug, PartialEq, Eq)]
pub struct Mv {
    pub row: i16,
    pub column: i16,
}

/// The modes of an intra block: of luma by 4x4 quarter of an 8x8 square in raster order, four times the same from 8x8 on; of chroma.
#[derive(Clone, Copy, Debug, PartialEq, Eq)]
pub struct IntraPrediction {
    pub luma: [IntraMode; 4],
    pub chroma: IntraMode,
}

/// What an inter block refers to. The second is there in a compound block.
#[derive(Clone, Copy, Debug, PartialEq, Eq)]
pub struct ReferenceFrames {
    pub first: ReferenceFrame,
    pub second: Option<ReferenceFrame>,
}

/// The modes of an inter block and its vectors, by quarter as those of an intra block, the first reference's vector and
/// then the second's, which is 0 where there is none.
#[derive(Clone, Copy, Debug, PartialEq, Eq)]
pub struct InterPrediction {
    pub modes: [InterMode; 4],
    pub references: ReferenceFrames,
    pub filter: InterpFilter,
    pub vectors: [[Mv; 2]; 4],
}

/// How a block is predicted.
#[derive(Clone, Copy, Debug, PartialEq, Eq)]
pub enum Prediction {
    Intra(IntraPrediction),
    Inter(InterPrediction),
}

/// A block, at a row and column of places of 8x8 luma samples. Its segment may be predicted from the map before its frame.
#[derive(Clone, Copy, Debug, PartialEq, Eq)]
pub struct BlockInfo {
    pub row: u32,
    pub col: u32,
    pub size: BlockSize,
    pub skip: bool,
    pub segment: u8,
    pub segment_predicted: bool,
    pub tx: TxSize,
    pub prediction: Prediction,
}

/// A block that is to be read, and the columns of its tile, the last of them excluded, all in places of 8x8.
#[derive(Clone, Copy, Debug, PartialEq, Eq)]
pub struct BlockAt {
    pub row: u32,
    pub col: u32,
    pub size: BlockSize,
    pub tile_from: u32,
    pub tile_to: u32,
}
