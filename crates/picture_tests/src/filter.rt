//! Drawn pictures with drawn blocks, filtered, beside what tools/vectors.py filter makes of them line by line.

ghost use Rattle.std.specs.Prelude.{◌≡◌, ◌+◌, ℕ, ◌≤◌, ◌<◌, slice_index, length, map, IfOk};
ghost use Rattle.vp9_types.specs.Maps.{IsAtMost};
ghost use Rattle.vp9_types.specs.Shapes.{mi_rows, mi_cols};
ghost use Rattle.vp9_types.specs.Sizes.{greatest};
ghost use Rattle.vp9_tables.specs.BlockTables.{greatest_of};
ghost use Rattle.vp9_tables.specs.Numbers.{tx_number};
ghost use Rattle.planes.specs.Planes.{plane_map};
ghost use Rattle.planes.specs.Pictures.{FitsPlanes, HasSizes, IsInRange};
ghost use Rattle.block_plan.specs.Grid.{GridOf};
ghost use Rattle.loop_filter.specs.Code.{AllFit, IsWholeGrid};

mod rows;

use block_plan::{
    BlockGrid, BlockInfo, InterPrediction, IntraPrediction, Mv, Prediction, ReferenceFrames,
};
use frame_headers::{Features, LoopDeltas, LoopFilter, SegmentFeatures, Segmentation};
use loop_edges::EdgeSetting;
use loop_filter::{EdgeSample, filter_frame};
use planes::{FramePlanes, SamplePlane};
use std::alloc::{AllocError, Global};
use std::test::Fail;
use test_draws::{Digest, Draws};
use vp9_tables::max_tx_size;
use vp9_types::{
    BlockSize, Depth, InterMode, InterpFilter, IntraMode, Plane, ReferenceFrame, Sample, Shape,
    TxSize,
};

/// A frame's filter, the seed of its samples, and the checksums of its planes before and after. A feature of 100 is none.
pub struct Case {
    w: u32,
    h: u32,
    depth: u8,
    ss_x: bool,
    ss_y: bool,
    level: u8,
    sharpness: u8,
    deltas: bool,
    segments: bool,
    absolute: bool,
    features: [i16; 8],
    reference: [i16; 4],
    mode: [i16; 2],
    seed: u32,
    drawn: [u64; 3],
    filtered: [u64; 3],
}

const SIZES: [BlockSize; 13] = [
    BlockSize::B4x4,
    BlockSize::B4x8,
    BlockSize::B8x4,
    BlockSize::B8x8,
    BlockSize::B8x16,
    BlockSize::B16x8,
    BlockSize::B16x16,
    BlockSize::B16x32,
    BlockSize::B32x16,
    BlockSize::B32x32,
    BlockSize::B32x64,
    BlockSize::B64x32,
    BlockSize::B64x64,
];

const SPREADS: [u32; 8] = [1, 2, 3, 5, 9, 30, 120, 2];

fn feature_of(value: i16) -> SegmentFeatures {
    SegmentFeatures {
        level: if value == 100 { None } else { Some(value) },
        ..SegmentFeatures::NONE
    }
}

fn shape_of(case: &Case) -> Shape
    ensures w { result.w ≡ case.now.w }
    ensures h { result.h ≡ case.now.h }
{
    let depth = match case.depth {
        8 => Depth::Eight,
        10 => Depth::Ten,
        _ => Depth::Twelve,
    };
    Shape {
        w: case.w,
        h: case.h,
        depth,
        ss_x: case.ss_x,
        ss_y: case.ss_y,
    }
}

fn setting_of(case: &Case) -> EdgeSetting
    ensures w { result.shape.w ≡ case.now.w }
    ensures h { result.shape.h ≡ case.now.h }
{
    let mut segments = [SegmentFeatures::NONE; 8];
    for i in 0..8usize {
        segments[i] = feature_of(case.features[i]);
    }
    EdgeSetting {
        shape: shape_of(case),
        filter: LoopFilter {
            level: case.level,
            sharpness: case.sharpness,
            delta_enabled: case.deltas,
            deltas: LoopDeltas {
                reference: case.reference,
                mode: case.mode,
            },
        },
        segmentation: Segmentation {
            enabled: case.segments,
            map: None,
            features: Features {
                absolute: case.absolute,
                segments,
            },
        },
    }
}

fn tx_of(number: u8) -> TxSize {
    match number {
        0 => TxSize::T4x4,
        1 => TxSize::T8x8,
        2 => TxSize::T16x16,
        _ => TxSize::T32x32,
    }
}

/// No larger than a block of the size may have.
fn fitting(tx: TxSize, size: BlockSize) -> TxSize
    ensures { tx_number result ≤ greatest_of size }
{
    let most = max_tx_size(size);
    if (tx as u8) < most as u8 { tx } else { most }
}

fn prediction_of(kind: u8, mode: u8) -> Prediction {
    let first = match kind {
        0 => return Prediction::Intra(IntraPrediction {
            luma: [IntraMode::Dc; 4],
            chroma: IntraMode::Dc,
        }),
        1 => ReferenceFrame::Last,
        2 => ReferenceFrame::Golden,
        _ => ReferenceFrame::Altref,
    };
    let last = if mode == 0 {
        InterMode::Zero
    } else {
        InterMode::New
    };
    Prediction::Inter(InterPrediction {
        modes: [InterMode::Near, InterMode::Zero, InterMode::New, last],
        references: ReferenceFrames {
            first,
            second: None,
        },
        filter: InterpFilter::Regular,
        vectors: [[Mv { row: 0, column: 0 }; 2]; 4],
    })
}

fn block_of(numbers: &[u8; 8]) -> BlockInfo
    ensures { tx_number result.tx ≤ greatest_of result.size }
{
    let size = match SIZES.get(numbers[2] as usize) {
        Some(size) => *size,
        None => BlockSize::B8x8,
    };
    BlockInfo {
        row: numbers[0] as u32,
        col: numbers[1] as u32,
        size,
        skip: numbers[3] != 0,
        segment: numbers[4],
        segment_predicted: false,
        tx: fitting(tx_of(numbers[5]), size),
        prediction: prediction_of(numbers[6], numbers[7]),
    }
}

/// Puts a block that starts inside of the frame.
fn put_inside(grid: &mut BlockGrid, rows: u32, cols: u32, block: BlockInfo)
    requires rows { grid.old.rows ≡ rows }
    requires from { grid.old.from ≡ 0 }
    requires to { grid.old.to ≡ cols }
    requires room { 1 ≤ grid.old.room }
    requires fit { AllFit grid.old.blocks }
    requires one { tx_number block.tx ≤ greatest_of block.size }
    ensures rows { grid.new.rows ≡ rows }
    ensures from { grid.new.from ≡ 0 }
    ensures to { grid.new.to ≡ cols }
    ensures room { grid.old.room ≤ grid.new.room + 1 }
    ensures fit { AllFit grid.new.blocks }
{
    if block.row < rows && block.col < cols {
        grid.put(block);
    }
}

/// Puts the blocks that eight numbers each stand for.
fn put_blocks(grid: &mut BlockGrid, rows: u32, cols: u32, numbers: &[[u8; 8]])
    requires rows { grid.old.rows ≡ rows }
    requires from { grid.old.from ≡ 0 }
    requires to { grid.old.to ≡ cols }
    requires room { length numbers.now ≤ grid.old.room }
    requires fit { AllFit grid.old.blocks }
    ensures rows { grid.new.rows ≡ rows }
    ensures from { grid.new.from ≡ 0 }
    ensures to { grid.new.to ≡ cols }
    ensures fit { AllFit grid.new.blocks }
{
    for k in 0..numbers.len() {
        put_inside(grid, rows, cols, block_of(&numbers[k]));
    }
}

fn grid_of(alloc: Global, shape: &Shape, numbers: &[[u8; 8]]) -> Result<BlockGrid, AllocError>
    requires size { FitsPlanes shape.now }
    ensures { IfOk result (λ grid. IsWholeGrid shape.now grid) }
{
    let (rows, cols) = (shape.place_rows(), shape.place_cols());
    let mut grid = BlockGrid::new(alloc, rows, 0, cols, numbers.len())?;
    put_blocks(&mut grid, rows, cols, numbers);
    Ok(grid)
}

/// Draws a row of samples.
fn draw_row<P: Sample>(line: &mut [P], y: usize, one: u32, most: u16, draws: &mut Draws)
    requires one { one ≤ 16 }
    requires y { y ≤ 65536 }
    requires kept { most ≤ P.greatest }
    ensures small { (k : ℕ) → slice_index (map P.value line.new) k ≤ most }
    ensures long { length line.new ≡ length line.old }
{
    for x in 0..line.len() {
        let spread = (SPREADS[(y / 16 + 3 * (x / 16)) % 8] * one).max(1);
        let base = 100 * one + ((x / 8 * 5 + y / 8 * 3) % 11) as u32 * one / 2;
        let sample = base + draws.below(spread);
        line[x] = P::narrow((sample as u16).min(most));
    }
}

fn fill<P: Sample>(plane: &mut SamplePlane<P>, one: u32, most: u16, seed: u32)
    requires one { one ≤ 16 }
    requires kept { most ≤ P.greatest }
    requires small { IsAtMost most (plane_map plane.old) }
    ensures area { plane.new.area ≡ plane.old.area }
    ensures small { IsAtMost most (plane_map plane.new) }
{
    let area = plane.area();
    let mut draws = Draws::new(seed);
    for y in 0..area.rows {
        let line = plane.row_mut(area.first_row + y, area.first_column, area.columns);
        draw_row(line, y, one, most, &mut draws);
    }
}

fn checksum<P: Sample>(plane: &SamplePlane<P>) -> u64 {
    let area = plane.area();
    let mut digest = Digest::new();
    for y in 0..area.rows {
        for sample in plane.row(area.first_row + y, area.first_column, area.columns) {
            digest.add(u64::from(sample.widen()));
        }
    }
    digest.sum()
}

fn sums_of<P: Sample>(planes: &FramePlanes<P>) -> [u64; 3] {
    [
        checksum(&planes.y),
        checksum(&planes.u),
        checksum(&planes.v),
    ]
}

fn one_of(depth: Depth) -> u32
    ensures { result ≤ 16 }
{
    match depth {
        Depth::Eight => 1,
        Depth::Ten => 4,
        Depth::Twelve => 16,
    }
}

fn draw<P: Sample>(planes: &mut FramePlanes<P>, shape: &Shape, seed: u32)
    requires kept { greatest shape.now.depth ≤ P.greatest }
    requires sizes { HasSizes shape.now planes.old }
    requires range { IsInRange shape.now.depth planes.old }
    ensures sizes { HasSizes shape.now planes.new }
    ensures range { IsInRange shape.now.depth planes.new }
{
    let most = shape.depth.greatest();
    let one = one_of(shape.depth);
    fill(&mut planes.y, one, most, seed.wrapping_add(1));
    fill(&mut planes.u, one, most, seed.wrapping_add(2));
    fill(&mut planes.v, one, most, seed.wrapping_add(3));
}

/// The checksums before and after.
fn sums<P: EdgeSample>(
    alloc: Global,
    f: &EdgeSetting,
    seed: u32,
    numbers: &[[u8; 8]],
) -> Result<([u64; 3], [u64; 3]), AllocError>
    requires size { FitsPlanes f.now.shape }
    requires kept { greatest f.now.shape.depth ≤ P.greatest }
{
    let grid = grid_of(alloc, &f.shape, numbers)?;
    let mut planes: FramePlanes<P> = FramePlanes::new(alloc, &f.shape)?;
    draw(&mut planes, &f.shape, seed);
    let before = sums_of(&planes);
    filter_frame(&mut planes, f, &grid);
    Ok((before, sums_of(&planes)))
}

/// Whether the drawn samples, and what becomes of them, are as told, in two bytes a sample and in one.
fn is_as_told(alloc: Global, case: &Case, numbers: &[[u8; 8]]) -> Result<bool, AllocError> {
    if case.w > 65536 || case.h > 65536 {
        return Ok(false);
    }
    let f = setting_of(case);
    let told = (case.drawn, case.filtered);
    if f.shape.depth == Depth::Eight && sums::<u8>(alloc, &f, case.seed, numbers)? != told {
        return Ok(false);
    }
    Ok(sums::<u16>(alloc, &f, case.seed, numbers)? == told)
}

#[test]
fn drawn_pictures(rt: HostRuntime) -> Result<(), Fail> {
    assert!(rt; is_as_told(rt.alloc(), &rows::CASE_0, &rows::BLOCKS_0)?);
    assert!(rt; is_as_told(rt.alloc(), &rows::CASE_1, &rows::BLOCKS_1)?);
    assert!(rt; is_as_told(rt.alloc(), &rows::CASE_2, &rows::BLOCKS_2)?);
    assert!(rt; is_as_told(rt.alloc(), &rows::CASE_3, &rows::BLOCKS_3)?);
    assert!(rt; is_as_told(rt.alloc(), &rows::CASE_4, &rows::BLOCKS_4)?);
    assert!(rt; is_as_told(rt.alloc(), &rows::CASE_5, &rows::BLOCKS_5)?);
    assert!(rt; is_as_told(rt.alloc(), &rows::CASE_6, &rows::BLOCKS_6)?);
    assert!(rt; is_as_told(rt.alloc(), &rows::CASE_7, &rows::BLOCKS_7)?);
    assert!(rt; is_as_told(rt.alloc(), &rows::CASE_8, &rows::BLOCKS_8)?);
    assert!(rt; is_as_told(rt.alloc(), &rows::CASE_9, &rows::BLOCKS_9)?);
    Ok(())
}
