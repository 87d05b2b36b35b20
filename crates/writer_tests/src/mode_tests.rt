//! Tiles of intra frames without residue, drawn with their bytes by tools/vectors.py mode_writings.

ghost use Rattle.std.specs.Prelude.{◌≡◌, ◌*◌, ◌<◌, ◌≤◌, true};
ghost use Rattle.frame_headers.specs.FrameSizes.{IsFrameSize};
ghost use Rattle.mode_writer.specs.ModeFits.{CanSegment, CanSkip, CanTx, CanLuma, CanPartitionAt};

use block_geometry::{FramePlaces, is_below_8x8};
use block_plan::{BlockAt, BlockGrid, BlockInfo, IntraPrediction, Prediction};
use bool_encoder::BoolEncoder;
use frame_headers::{
    ColorConfig, Features, FrameContexts, FrameKind, FrameParams, FrameSize, Header, LoopDeltas,
    LoopFilter, MapUpdate, Quantizer, SegmentFeatures, Segmentation, TileInfo,
};
use frame_setting::FrameSetting;
use mode_syntax::{SquareAt, greatest_allowed, side_of, skips_segment};
use mode_writer::{put_intra_frame_mode_info, put_partition};
use prob_contexts::default_contexts;
use std::alloc::Global;
use std::process::Abort;
use std::test::Fail;
use vp9_tables::max_tx_size;
use vp9_types::BlockSize::{B4x4, B4x8, B8x4, B8x8, B8x16, B16x8, B16x16};
use vp9_types::IntraMode::{D45, D63, D117, D135, D207, Dc, H, Tm, V};
use vp9_types::Partition::{Horizontal, Split, Vertical, Whole};
use vp9_types::TxSize::{T4x4, T8x8};
use vp9_types::{BlockSize, IntraMode, Modes, Partition, ReferenceMode, TxMode, TxSize};

const NO_SEGMENTS: Segmentation = Segmentation {
    enabled: false,
    map: None,
    features: Features::NONE,
};

/// Segments by a tree; the blocks of segment 5 are skipped.
fn segments() -> Segmentation {
    let mut features = [SegmentFeatures::NONE; 8];
    features[5] = SegmentFeatures {
        quantizer: None,
        level: None,
        reference: None,
        skip: true,
    };
    Segmentation {
        enabled: true,
        map: Some(MapUpdate {
            tree: [128, 100, 150, 60, 200, 90, 170],
            temporal: false,
            prediction: [255; 3],
        }),
        features: Features {
            absolute: false,
            segments: features,
        },
    }
}

/// A key frame of so many places of 8x8.
fn key_frame(segmentation: Segmentation, frame: FramePlaces) -> Header
    requires rows { (1 ≤ frame.rows) × (frame.rows ≤ 100) }
    requires cols { (1 ≤ frame.cols) × (frame.cols ≤ 100) }
    ensures { IsFrameSize result.size }
{
    Header {
        profile: 0,
        kind: FrameKind::Key,
        show_frame: true,
        error_resilient: true,
        reset_context: 0,
        color: ColorConfig::DEFAULT,
        size: FrameSize {
            width: 8 * frame.cols,
            height: 8 * frame.rows,
        },
        refresh: 255,
        contexts: FrameContexts {
            refresh: false,
            parallel: true,
            index: 0,
        },
        params: FrameParams {
            loop_filter: LoopFilter {
                level: 0,
                sharpness: 0,
                delta_enabled: false,
                deltas: LoopDeltas::DEFAULT,
            },
            quantizer: Quantizer {
                base: 1,
                y_dc_delta: 0,
                uv_dc_delta: 0,
                uv_ac_delta: 0,
            },
            segmentation,
            tiles: TileInfo {
                columns_log2: 0,
                rows_log2: 0,
            },
            compressed_size: 1,
        },
    }
}

/// Whether blocks of a frame can say a segment.
fn is_segment(segmentation: &Segmentation, segment: u8) -> bool
    ensures { result ≡ true → CanSegment segmentation.now.enabled segmentation.now.map segment }
{
    if !segmentation.enabled {
        return segment == 0;
    }
    match segmentation.map {
        Some(_) => segment <= 7,
        None => segment == 0,
    }
}

fn is_skip(segmentation: &Segmentation, segment: u8, skip: bool) -> bool
    requires { segment ≤ 7 }
    ensures { result ≡ true → CanSkip segmentation.now segment skip }
{
    skip || !skips_segment(segmentation, segment)
}

fn is_tx(mode: TxMode, size: BlockSize, tx: TxSize) -> bool
    ensures { result ≡ true → CanTx mode size tx }
{
    if matches!(mode, TxMode::Selected) && !is_below_8x8(size) {
        return tx as u8 <= max_tx_size(size) as u8;
    }
    tx == greatest_allowed(mode, size)
}

fn is_luma(size: BlockSize, luma: [IntraMode; 4]) -> bool
    ensures { result ≡ true → CanLuma size luma }
{
    let rows = luma[1] == luma[0] && luma[3] == luma[2];
    let columns = luma[2] == luma[0] && luma[3] == luma[1];
    match size {
        BlockSize::B4x4 => true,
        BlockSize::B4x8 => columns,
        BlockSize::B8x4 => rows,
        _ => rows && columns,
    }
}

fn is_partition(frame: FramePlaces, at: SquareAt, partition: Partition) -> bool
    requires level { at.level ≤ 3 }
    requires row { at.row < frame.rows }
    requires col { at.col < frame.cols }
    ensures { result ≡ true → CanPartitionAt frame at partition }
{
    let half = side_of(at.level) / 2;
    let has_rows = half < frame.rows - at.row;
    let has_cols = half < frame.cols - at.col;
    match (has_rows, has_cols) {
        (true, true) => true,
        (false, true) => partition == Horizontal || partition == Split,
        (true, false) => partition == Vertical || partition == Split,
        (false, false) => partition == Split,
    }
}

/// A tile that is written without residue, and how many blocks there is room for.
#[derive(Drop)]
struct Tile {
    encoder: BoolEncoder,
    setting: FrameSetting,
    grid: BlockGrid,
    room: usize,
    from: u32,
    to: u32,
    ghost within: { to ≤ setting.places.cols },
    ghost grid_rows: { grid.rows ≡ setting.places.rows },
    ghost grid_from: { grid.from ≡ from },
    ghost grid_to: { grid.to ≡ to },
    ghost grid_room: { grid.room ≡ room },
}

fn new_tile(
    rt: &impl Abort,
    alloc: Global,
    segmentation: Segmentation,
    tx_mode: TxMode,
    frame: FramePlaces,
    from: u32,
) -> Result<Tile, Fail>
    requires rows { (1 ≤ frame.rows) × (frame.rows ≤ 100) }
    requires cols { (1 ≤ frame.cols) × (frame.cols ≤ 100) }
    requires tile { from ≤ frame.cols }
{
    let header = key_frame(segmentation, frame);
    let modes = Modes {
        tx_mode,
        reference_mode: ReferenceMode::Single,
    };
    let setting = FrameSetting::new(&header, modes, default_contexts());
    assert_eq!(rt; setting.places, frame);
    let to = frame.cols;
    Ok(Tile {
        encoder: BoolEncoder::new(alloc),
        setting,
        grid: BlockGrid::new(alloc, frame.rows, from, to, 20)?,
        room: 20,
        from,
        to,
    })
}

/// A square of a level at a row and column.
fn square(
    rt: &impl Abort,
    tile: &mut Tile,
    level: u8,
    row: u32,
    col: u32,
    partition: Partition,
) -> Result<(), Fail> {
    let at = SquareAt {
        row,
        col,
        level,
        tile_from: tile.from,
        tile_to: tile.to,
    };
    let frame = tile.setting.places;
    assert!(rt; level <= 3);
    assert!(rt; row < frame.rows);
    assert!(rt; tile.from <= col);
    assert!(rt; col < tile.to);
    assert!(rt; is_partition(frame, at, partition));
    put_partition(
        &mut tile.encoder,
        &tile.setting,
        true,
        &tile.grid,
        at,
        partition,
    )?;
    Ok(())
}

/// A block at a row and column: whether it is skipped, its segment, its transform; its modes.
fn block(
    rt: &impl Abort,
    tile: &mut Tile,
    (row, col, size): (u32, u32, BlockSize),
    (skip, segment, tx): (bool, u8, TxSize),
    luma: [IntraMode; 4],
    chroma: IntraMode,
) -> Result<(), Fail> {
    let at = BlockAt {
        row,
        col,
        size,
        tile_from: tile.from,
        tile_to: tile.to,
    };
    let info = BlockInfo {
        row,
        col,
        size,
        skip,
        segment,
        segment_predicted: false,
        tx,
        prediction: Prediction::Intra(IntraPrediction { luma, chroma }),
    };
    assert!(rt; row < tile.setting.places.rows);
    assert!(rt; tile.from <= col);
    assert!(rt; col < tile.to);
    assert!(rt; 0 < tile.room);
    assert!(rt; segment <= 7);
    let segmentation = tile.setting.header.params.segmentation;
    assert!(rt; is_segment(&segmentation, segment));
    assert!(rt; is_skip(&segmentation, segment, skip));
    assert!(rt; is_tx(tile.setting.modes.tx_mode, size, tx));
    assert!(rt; is_luma(size, luma));
    put_intra_frame_mode_info(&mut tile.encoder, &tile.setting, &tile.grid, at, &info)?;
    tile.grid.put(info);
    tile.room -= 1;
    Ok(())
}

/// Whether the bools of a tile end as these bytes.
fn ends_as(tile: &Tile, bytes: &[u8]) -> Result<bool, Fail> {
    let written = tile.encoder.finish()?;
    Ok(written.as_slice() == bytes)
}

#[test]
fn second_tile(rt: HostRuntime) -> Result<(), Fail> {
    let frame = FramePlaces { rows: 4, cols: 8 };
    let mut tile = new_tile(&rt, rt.alloc(), segments(), TxMode::Selected, frame, 4)?;
    let t = &mut tile;
    square(&rt, t, 3, 0, 4, Split)?;
    square(&rt, t, 2, 0, 4, Split)?;
    square(&rt, t, 1, 0, 4, Split)?;
    square(&rt, t, 0, 0, 4, Horizontal)?;
    block(&rt, t, (0, 4, B8x4), (false, 3, T4x4), [Dc; 4], Tm)?;
    square(&rt, t, 0, 0, 5, Whole)?;
    block(&rt, t, (0, 5, B8x8), (false, 6, T8x8), [D63; 4], Dc)?;
    square(&rt, t, 0, 1, 4, Split)?;
    block(
        &rt,
        t,
        (1, 4, B4x4),
        (true, 6, T4x4),
        [Dc, Dc, Dc, Tm],
        D135,
    )?;
    square(&rt, t, 0, 1, 5, Vertical)?;
    block(
        &rt,
        t,
        (1, 5, B4x8),
        (true, 1, T4x4),
        [D45, Tm, D45, Tm],
        D207,
    )?;
    square(&rt, t, 1, 0, 6, Whole)?;
    block(&rt, t, (0, 6, B16x16), (true, 5, T4x4), [Tm; 4], Tm)?;
    square(&rt, t, 1, 2, 4, Whole)?;
    block(&rt, t, (2, 4, B16x16), (true, 5, T8x8), [Tm; 4], H)?;
    square(&rt, t, 1, 2, 6, Vertical)?;
    block(&rt, t, (2, 6, B8x16), (true, 1, T8x8), [Tm; 4], Dc)?;
    block(&rt, t, (2, 7, B8x16), (true, 0, T8x8), [V; 4], Dc)?;
    let bytes = [
        124, 212, 16, 89, 170, 99, 99, 137, 136, 209, 159, 212, 237, 146, 115, 0,
    ];
    assert!(rt; ends_as(&tile, &bytes)?);
    Ok(())
}

#[test]
fn edges(rt: HostRuntime) -> Result<(), Fail> {
    let frame = FramePlaces { rows: 3, cols: 2 };
    let mut tile = new_tile(&rt, rt.alloc(), NO_SEGMENTS, TxMode::Only4x4, frame, 0)?;
    let t = &mut tile;
    square(&rt, t, 3, 0, 0, Split)?;
    square(&rt, t, 2, 0, 0, Split)?;
    square(&rt, t, 1, 0, 0, Vertical)?;
    block(&rt, t, (0, 0, B8x16), (false, 0, T4x4), [Tm; 4], H)?;
    block(&rt, t, (0, 1, B8x16), (true, 0, T4x4), [Dc; 4], Dc)?;
    square(&rt, t, 1, 2, 0, Horizontal)?;
    block(&rt, t, (2, 0, B16x8), (false, 0, T4x4), [V; 4], D117)?;
    assert!(rt; ends_as(&tile, &[95, 186, 84, 65, 64])?);
    Ok(())
}
