//! The blocks of the frames.

ghost use Rattle.std.specs.Prelude.{◌≡◌, ◌<◌, ◌≤◌, ◌+◌, length, IfOk};
ghost use Rattle.vp9_types.specs.Shapes.{mi_rows, mi_cols};
ghost use Rattle.vp9_tables.specs.BlockTables.{greatest_of};
ghost use Rattle.vp9_tables.specs.Numbers.{tx_number};
ghost use Rattle.planes.specs.Pictures.{FitsPlanes};
ghost use Rattle.loop_filter.specs.Code.{AllFit, IsWholeGrid};

use crate::numbers::drawn;
use block_geometry::{height_8, width_8};
use block_plan::{
    BlockGrid, BlockInfo, InterPrediction, IntraPrediction, Mv, Prediction, ReferenceFrames,
};
use std::alloc::{AllocError, Global};
use vp9_tables::max_tx_size;
use vp9_types::{BlockSize, InterMode, InterpFilter, IntraMode, ReferenceFrame, Shape, TxSize};

fn size_of(number: u32) -> BlockSize {
    match number {
        0 => BlockSize::B4x4,
        1 => BlockSize::B4x8,
        2 => BlockSize::B8x4,
        3 => BlockSize::B8x8,
        4 => BlockSize::B8x16,
        5 => BlockSize::B16x8,
        6 => BlockSize::B16x16,
        7 => BlockSize::B16x32,
        8 => BlockSize::B32x16,
        9 => BlockSize::B32x32,
        10 => BlockSize::B32x64,
        11 => BlockSize::B64x32,
        _ => BlockSize::B64x64,
    }
}

fn tx_of(number: u32) -> TxSize {
    match number {
        0 => TxSize::T4x4,
        1 => TxSize::T8x8,
        2 => TxSize::T16x16,
        _ => TxSize::T32x32,
    }
}

/// No larger than a block of the size may have.
fn fitting(tx: TxSize, size: BlockSize) -> TxSize
    ensures { tx_number result ≤ greatest_of size }
{
    let most = max_tx_size(size);
    if (tx as u8) < most as u8 { tx } else { most }
}

fn prediction_of(is_inter: bool) -> Prediction {
    if is_inter {
        Prediction::Inter(InterPrediction {
            modes: [InterMode::New; 4],
            references: ReferenceFrames {
                first: ReferenceFrame::Last,
                second: None,
            },
            filter: InterpFilter::Regular,
            vectors: [[Mv { row: 0, column: 0 }; 2]; 4],
        })
    } else {
        Prediction::Intra(IntraPrediction {
            luma: [IntraMode::Dc; 4],
            chroma: IntraMode::Dc,
        })
    }
}

/// The block at a place, drawn by its number.
fn block_at(row: u32, col: u32, size: BlockSize, number: u32) -> BlockInfo
    ensures row { result.row ≡ row }
    ensures col { result.col ≡ col }
    ensures fits { tx_number result.tx ≤ greatest_of result.size }
{
    let draw = drawn(drawn(number));
    BlockInfo {
        row,
        col,
        size,
        skip: (draw >> 8) % 3 > 0,
        segment: 0,
        segment_predicted: false,
        tx: fitting(tx_of((draw >> 16) % 5), size),
        prediction: prediction_of((draw >> 12) % 2 == 1),
    }
}

/// Puts a block, if it starts at the place.
fn put_at(grid: &mut BlockGrid, row: u32, col: u32, total: usize, number: u32)
    requires row { row < grid.old.rows }
    requires first { grid.old.from ≡ 0 }
    requires col { col < grid.old.to }
    requires room { grid.old.room + length grid.old.blocks ≡ total }
    requires fit { AllFit grid.old.blocks }
    ensures rows { grid.new.rows ≡ grid.old.rows }
    ensures first { grid.new.from ≡ 0 }
    ensures to { grid.new.to ≡ grid.old.to }
    ensures room { grid.new.room + length grid.new.blocks ≡ total }
    ensures fit { AllFit grid.new.blocks }
{
    let superblock = (row / 8).wrapping_mul(1000).wrapping_add(col / 8);
    let size = size_of((drawn(drawn(superblock)) >> 16) % 13);
    if row % height_8(size) as u32 == 0
        && col % width_8(size) as u32 == 0
        && grid.blocks().len() < total
    {
        grid.put(block_at(row, col, size, number));
    }
}

fn put_row(grid: &mut BlockGrid, row: u32, cols: u32, total: usize)
    requires row { row < grid.old.rows }
    requires first { grid.old.from ≡ 0 }
    requires col { cols ≡ grid.old.to }
    requires room { grid.old.room + length grid.old.blocks ≡ total }
    requires fit { AllFit grid.old.blocks }
    ensures rows { grid.new.rows ≡ grid.old.rows }
    ensures first { grid.new.from ≡ 0 }
    ensures to { grid.new.to ≡ grid.old.to }
    ensures room { grid.new.room + length grid.new.blocks ≡ total }
    ensures fit { AllFit grid.new.blocks }
{
    for col in 0..cols {
        put_at(
            grid,
            row,
            col,
            total,
            row.wrapping_mul(cols).wrapping_add(col),
        );
    }
}

fn put_rows(grid: &mut BlockGrid, rows: u32, cols: u32, total: usize)
    requires rows { grid.old.rows ≡ rows }
    requires first { grid.old.from ≡ 0 }
    requires col { cols ≡ grid.old.to }
    requires room { grid.old.room + length grid.old.blocks ≡ total }
    requires fit { AllFit grid.old.blocks }
    ensures rows { grid.new.rows ≡ rows }
    ensures first { grid.new.from ≡ 0 }
    ensures to { grid.new.to ≡ cols }
    ensures fit { AllFit grid.new.blocks }
{
    for row in 0..rows {
        put_row(grid, row, cols, total);
    }
}

/// Blocks of mixed sizes: those of a superblock have one size.
pub fn grid_of(alloc: Global, shape: &Shape) -> Result<BlockGrid, AllocError>
    requires size { FitsPlanes shape.now }
    ensures { IfOk result (λ grid. IsWholeGrid shape.now grid) }
{
    let (rows, cols) = (shape.place_rows(), shape.place_cols());
    let total = rows as usize * cols as usize;
    let mut grid = BlockGrid::new(alloc, rows, 0, cols, total)?;
    put_rows(&mut grid, rows, cols, total);
    Ok(grid)
}
