//! Where the transform blocks of a block begin.

ghost use Rattle.std.specs.Prelude.{◌≡◌, ◌≤◌, ◌<◌, ◌+◌, ◌*◌, ◌^◌, get_or};
ghost use Rattle.vp9_types.specs.Shapes.{halved};
ghost use Rattle.std.specs.Int.{div_ceil};
ghost use Rattle.block_geometry.specs.Code.{IsSmallGrid};
ghost use Rattle.block_geometry.specs.TransformBlocks.{starts, multiples, plane_side, tx_step, place_at, transform_blocks, grid_blocks};

use vp9_tables::block_size;
use vp9_types::{BlockSize, Shape, TxSize};

/// The size of a frame in places of 8x8 luma samples, MiRows and MiCols, 1 to 8192 in a VP9 file.
#[derive(Clone, Copy, Debug, PartialEq, Eq)]
pub struct FramePlaces {
    pub rows: u32,
    pub cols: u32,
}

impl FramePlaces {
    ghost use Rattle.block_geometry.specs.FrameShapes.{places_of};

    /// Those of a frame of this shape.
    #[inline(always)]
    pub fn of(shape: &Shape) -> FramePlaces
        ensures { result ≡ places_of shape.now }
    {
        FramePlaces {
            rows: shape.place_rows(),
            cols: shape.place_cols(),
        }
    }
}

/// A block in a plane: its place in 8x8 luma samples, its size in luma, its transform in the plane, and whether the plane
/// is subsampled.
#[derive(Clone, Copy, Debug, PartialEq, Eq)]
pub struct PlaneBlock {
    pub row: u32,
    pub col: u32,
    pub size: BlockSize,
    pub tx: TxSize,
    pub ss_x: bool,
    pub ss_y: bool,
}

/// Where a transform block begins: a row and a column, in 4s from its block's corner.
#[derive(Clone, Copy, Debug, PartialEq, Eq)]
pub struct TransformPlace {
    pub row: usize,
    pub column: usize,
}

/// Transform blocks in rows and columns, each so many 4s from the one before it.
#[derive(Clone, Copy, Debug, PartialEq, Eq)]
pub struct TransformGrid {
    pub rows: u32,
    pub columns: u32,
    pub step: u32,
}

impl TransformGrid {
    /// How many transform blocks there are.
    pub fn count(&self) -> u32
        requires { IsSmallGrid self.now }
        ensures count { result ≡ self.now.rows * self.now.columns }
        ensures few { result ≤ 256 }
    {
        self.rows * self.columns
    }

    /// Where the k-th begins.
    pub fn place(&self, k: u32) -> TransformPlace
        requires count { k < self.now.rows * self.now.columns }
        requires small { IsSmallGrid self.now }
        ensures place { get_or (grid_blocks self.now) k (place_at 0 0) ≡ result }
        ensures low { result.row < 16 }
        ensures near { result.column < 16 }
    {
        // a division is slow, and most blocks have one transform block
        if k == 0 {
            return TransformPlace { row: 0, column: 0 };
        }
        let row = k / self.columns;
        let column = k % self.columns;
        TransformPlace {
            row: (self.step * row) as usize,
            column: (self.step * column) as usize,
        }
    }
}

fn halved(ss: bool, n: u32) -> u32
    ensures { result ≡ halved ss n }
{
    if ss { n / 2 } else { n }
}

fn plane_side(ss: bool, side: u32) -> u32
    ensures { result ≡ plane_side ss side }
{
    halved(ss, side.max(8)) / 4
}

fn tx_step(tx: TxSize) -> u32
    ensures is { result ≡ tx_step tx }
    ensures least { 1 ≤ result }
    ensures most { result ≤ 8 }
{
    match tx {
        TxSize::T4x4 => 1,
        TxSize::T8x8 => 2,
        TxSize::T16x16 => 4,
        TxSize::T32x32 => 8,
    }
}

/// How many multiples of the step start inside.
#[tactic(auto, using(crate::proofs::Starts::starts_are))]
fn starts_inside(step: u32, side: u32, base: u32, end: u32) -> u32
    requires some { 1 ≤ step }
    requires small { step ≤ 8 }
    requires short { side ≤ 2 ^ 30 }
    requires near { base ≤ end }
    ensures starts { starts step side base end ≡ multiples step result }
    ensures few { result ≤ div_ceil side step }
{
    let all = side.div_ceil(step);
    all.min((end - base).div_ceil(4 * step))
}

/// The transform blocks of a block in a plane whose start lies inside the frame. The block itself starts there.
#[inline(always)]
pub fn transform_grid(frame: FramePlaces, block: PlaneBlock) -> TransformGrid
    requires few_rows { frame.rows ≤ 2 ^ 20 }
    requires few_cols { frame.cols ≤ 2 ^ 20 }
    requires row { block.row < frame.rows }
    requires col { block.col < frame.cols }
    ensures blocks { transform_blocks frame block ≡ grid_blocks result }
    ensures small { IsSmallGrid result }
    ensures step { result.step ≡ tx_step block.tx }
{
    let size = block_size(block.size);
    let step = tx_step(block.tx);
    let (ss_x, ss_y) = (block.ss_x, block.ss_y);
    TransformGrid {
        rows: starts_inside(
            step,
            plane_side(ss_y, u32::from(size[1])),
            halved(ss_y, 8 * block.row),
            halved(ss_y, 8 * frame.rows),
        ),
        columns: starts_inside(
            step,
            plane_side(ss_x, u32::from(size[0])),
            halved(ss_x, 8 * block.col),
            halved(ss_x, 8 * frame.cols),
        ),
        step,
    }
}
