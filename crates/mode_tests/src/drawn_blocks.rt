//! Blocks that are drawn as tools/vectors.py candidates and inter_modes draw them, in a tile of a frame.

ghost use Rattle.std.specs.Prelude.{◌≡◌, ◌<◌, ◌≤◌, ◌+◌, unsigned_abs};
ghost use Rattle.std.specs.List.{All};
ghost use Rattle.mv_prediction.specs.Vectors.{IsSmallVector};
ghost use Rattle.mv_prediction.specs.Code.{HasSmallVectors, PredictsSmall};

use block_plan::{
    BlockGrid, BlockInfo, InterPrediction, IntraPrediction, Mv, Prediction, ReferenceFrames,
};
use test_draws::Draws;
use vp9_types::{BlockSize, InterMode, InterpFilter, IntraMode, ReferenceFrame, TxSize};

/// The rows of the frame.
pub const ROWS: u32 = 20;

/// The tile's first column, and that behind its last.
pub const FROM: u32 = 8;

pub const TO: u32 = 24;

fn component(draws: &mut Draws) -> i16
    ensures { unsigned_abs result < 16384 }
{
    let k = draws.below(3);
    let far = draws.below(4) == 0;
    let size = if far { 333 } else { 37 };
    match k {
        0 => -size,
        1 => 0,
        _ => size,
    }
}

pub fn drawn_vector(draws: &mut Draws) -> Mv
    ensures { IsSmallVector result }
{
    let row = component(draws);
    let column = component(draws);
    Mv { row, column }
}

pub fn drawn_size(draws: &mut Draws) -> BlockSize {
    match draws.below(13) {
        0 => BlockSize::B4x4,
        1 => BlockSize::B4x8,
        2 => BlockSize::B8x4,
        3 => BlockSize::B8x8,
        4 => BlockSize::B8x16,
        5 => BlockSize::B16x8,
        6 => BlockSize::B16x16,
        7 => BlockSize::B16x32,
        8 => BlockSize::B32x16,
        9 => BlockSize::B32x32,
        10 => BlockSize::B32x64,
        11 => BlockSize::B64x32,
        _ => BlockSize::B64x64,
    }
}

fn drawn_mode(draws: &mut Draws) -> InterMode {
    match draws.below(4) {
        0 => InterMode::Nearest,
        1 => InterMode::Near,
        2 => InterMode::Zero,
        _ => InterMode::New,
    }
}

fn drawn_references(draws: &mut Draws) -> ReferenceFrames {
    let first = draws.below(3);
    let second = if draws.below(2) == 1 {
        Some(reference_of((first + 1 + draws.below(2)) % 3))
    } else {
        None
    };
    ReferenceFrames {
        first: reference_of(first),
        second,
    }
}

#[tactic(auto, using(mv_prediction::proofs::Small::small_rows))]
fn drawn_prediction(draws: &mut Draws) -> Prediction
    ensures { PredictsSmall result }
{
    if draws.below(4) == 0 {
        return Prediction::Intra(IntraPrediction {
            luma: [IntraMode::Dc; 4],
            chroma: IntraMode::Dc,
        });
    }
    let references = drawn_references(draws);
    let modes = [
        drawn_mode(draws),
        drawn_mode(draws),
        drawn_mode(draws),
        drawn_mode(draws),
    ];
    let vectors = [
        [drawn_vector(draws), drawn_vector(draws)],
        [drawn_vector(draws), drawn_vector(draws)],
        [drawn_vector(draws), drawn_vector(draws)],
        [drawn_vector(draws), drawn_vector(draws)],
    ];
    Prediction::Inter(InterPrediction {
        modes,
        references,
        filter: InterpFilter::Regular,
        vectors,
    })
}

fn drawn_block(draws: &mut Draws) -> BlockInfo
    ensures row { result.row < 20 }
    ensures from { 8 ≤ result.col }
    ensures to { result.col < 24 }
    ensures small { HasSmallVectors result }
{
    let row = draws.below(ROWS);
    let col = FROM + draws.below(TO - FROM);
    let size = drawn_size(draws);
    let prediction = drawn_prediction(draws);
    BlockInfo {
        row,
        col,
        size,
        skip: false,
        segment: 0,
        segment_predicted: false,
        tx: TxSize::T4x4,
        prediction,
    }
}

fn reference_of(number: u32) -> ReferenceFrame {
    match number {
        0 => ReferenceFrame::Last,
        1 => ReferenceFrame::Golden,
        _ => ReferenceFrame::Altref,
    }
}

/// So many drawn blocks of the tile, one over another.
pub fn add_blocks(grid: &mut BlockGrid, draws: &mut Draws, count: usize)
    requires room { count ≤ grid.old.room }
    requires tile { (grid.old.rows ≡ 20) × (grid.old.from ≡ 8) × (grid.old.to ≡ 24) }
    requires small { All HasSmallVectors grid.old.blocks }
    ensures room { grid.new.room + count ≡ grid.old.room }
    ensures tile { (grid.new.rows ≡ 20) × (grid.new.from ≡ 8) × (grid.new.to ≡ 24) }
    ensures small { All HasSmallVectors grid.new.blocks }
{
    for i in 0..count {
        grid.put(drawn_block(draws));
        prove!(i < count);
    }
}
