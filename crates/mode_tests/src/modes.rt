//! Tiles of intra frames without residue, as tools/vectors.py intra_modes reads them.

ghost use Rattle.std.specs.Prelude.{◌≡◌, ◌<◌, ◌≤◌, ◌^◌};
ghost use Rattle.frame_headers.specs.FrameSizes.{IsFrameSize};

use block_geometry::{FramePlaces, part_size};
use block_plan::{BlockAt, BlockGrid, BlockInfo, IntraPrediction, Prediction};
use counting_reader::CountingReader;
use frame_headers::{
    ColorConfig, Features, FrameContexts, FrameKind, FrameParams, FrameSize, Header, LoopDeltas,
    LoopFilter, MapUpdate, Quantizer, SegmentFeatures, Segmentation, TileInfo,
};
use frame_setting::FrameSetting;
use mode_syntax::{SquareAt, intra_frame_mode_info, read_partition};
use prob_contexts::{Counts, ProbKind, default_contexts};
use std::alloc::{AllocError, Global};
use std::test::Fail;
use test_draws::Digest;
use vp9_types::{BlockSize, IntraMode, Modes, Partition, ReferenceMode, TxMode, TxSize};

static VARIED: [u8; 400] = [
    86, 89, 204, 230, 90, 243, 154, 246, 41, 186, 251, 242, 124, 32, 186, 12, 26, 31, 212, 53, 107,
    141, 222, 98, 61, 176, 36, 160, 81, 160, 159, 18, 28, 197, 142, 90, 202, 106, 220, 29, 255,
    228, 138, 184, 205, 22, 244, 5, 47, 162, 170, 232, 124, 194, 29, 40, 214, 179, 119, 6, 73, 22,
    236, 53, 103, 159, 179, 120, 162, 39, 162, 29, 241, 172, 135, 132, 233, 70, 175, 5, 129, 171,
    183, 66, 18, 113, 56, 243, 56, 126, 150, 24, 255, 86, 65, 226, 117, 68, 27, 32, 41, 224, 158,
    74, 14, 61, 20, 243, 238, 108, 122, 0, 19, 153, 17, 105, 91, 244, 233, 184, 118, 124, 71, 17,
    3, 129, 130, 88, 70, 180, 68, 53, 252, 115, 190, 150, 14, 171, 247, 95, 206, 52, 94, 101, 101,
    61, 36, 130, 191, 34, 205, 209, 93, 89, 2, 249, 109, 137, 2, 39, 44, 73, 98, 182, 118, 177, 26,
    59, 9, 189, 90, 25, 88, 32, 109, 230, 196, 197, 19, 11, 133, 84, 145, 225, 94, 18, 242, 23, 33,
    86, 84, 57, 104, 230, 0, 85, 148, 153, 96, 225, 173, 72, 10, 30, 182, 227, 206, 201, 39, 52,
    152, 177, 249, 225, 158, 65, 12, 133, 114, 238, 148, 97, 150, 92, 57, 165, 25, 144, 91, 27,
    190, 74, 237, 248, 46, 84, 123, 71, 73, 165, 122, 74, 89, 171, 17, 35, 71, 231, 13, 129, 7,
    180, 21, 219, 62, 73, 114, 13, 187, 78, 188, 90, 87, 124, 62, 165, 137, 64, 33, 141, 88, 182,
    125, 0, 206, 146, 148, 243, 116, 208, 142, 91, 226, 75, 141, 76, 107, 47, 144, 193, 28, 241,
    249, 106, 37, 102, 69, 35, 54, 65, 18, 75, 173, 160, 17, 111, 152, 188, 185, 178, 211, 233, 59,
    249, 215, 189, 199, 178, 170, 183, 79, 175, 63, 247, 140, 149, 114, 12, 15, 146, 229, 72, 44,
    207, 70, 184, 17, 70, 96, 18, 82, 194, 127, 119, 177, 107, 223, 50, 51, 37, 75, 151, 191, 195,
    11, 11, 135, 22, 185, 46, 201, 48, 151, 18, 195, 1, 248, 209, 167, 187, 50, 107, 112, 140, 51,
    0, 119, 243, 19, 103, 46, 245, 41, 143, 217, 25, 235, 166, 129, 99, 30, 116, 239, 172, 218,
    222, 43, 197, 121, 128,
];

static SEGMENTS: [u8; 400] = [
    108, 170, 136, 88, 71, 75, 124, 38, 113, 218, 167, 18, 242, 2, 64, 250, 234, 45, 14, 71, 168,
    230, 236, 90, 237, 38, 215, 42, 15, 67, 86, 212, 93, 166, 251, 249, 129, 188, 136, 212, 63,
    172, 35, 159, 220, 100, 48, 31, 10, 190, 203, 209, 62, 252, 168, 25, 82, 91, 171, 2, 2, 14,
    162, 21, 165, 113, 99, 44, 112, 17, 163, 116, 170, 101, 178, 16, 206, 142, 117, 248, 178, 225,
    126, 26, 103, 190, 10, 109, 246, 62, 29, 217, 143, 211, 69, 62, 242, 10, 113, 128, 109, 163,
    74, 77, 108, 168, 142, 131, 207, 40, 22, 6, 196, 211, 182, 39, 34, 203, 72, 35, 94, 89, 146,
    62, 243, 43, 18, 94, 18, 238, 213, 50, 123, 165, 113, 222, 154, 199, 87, 222, 184, 119, 1, 198,
    64, 29, 23, 128, 229, 10, 178, 238, 2, 124, 128, 163, 22, 143, 241, 138, 151, 74, 143, 115, 3,
    167, 234, 233, 238, 151, 131, 166, 5, 129, 140, 94, 182, 255, 240, 169, 152, 117, 79, 193, 207,
    215, 28, 120, 162, 190, 164, 200, 132, 178, 190, 27, 10, 155, 62, 0, 143, 200, 81, 97, 52, 181,
    113, 206, 37, 110, 70, 33, 13, 89, 4, 144, 56, 138, 138, 207, 155, 161, 1, 122, 114, 88, 242,
    236, 237, 92, 21, 144, 91, 178, 57, 111, 153, 16, 85, 154, 108, 134, 104, 220, 249, 30, 52,
    168, 185, 192, 146, 111, 126, 175, 185, 80, 60, 188, 254, 78, 149, 177, 18, 116, 174, 181, 221,
    106, 187, 192, 197, 244, 44, 122, 255, 69, 107, 140, 220, 114, 225, 63, 206, 123, 210, 214,
    150, 176, 40, 231, 69, 139, 56, 210, 56, 251, 174, 3, 123, 1, 44, 72, 184, 113, 57, 19, 160,
    181, 199, 141, 58, 199, 221, 126, 91, 135, 73, 220, 63, 164, 142, 27, 146, 142, 136, 109, 199,
    121, 17, 254, 220, 87, 224, 42, 147, 48, 123, 156, 221, 116, 66, 118, 235, 186, 128, 60, 11,
    57, 81, 68, 115, 73, 3, 11, 99, 27, 117, 47, 161, 86, 104, 7, 200, 221, 8, 7, 163, 133, 92, 92,
    213, 55, 212, 202, 141, 232, 203, 147, 22, 103, 53, 183, 209, 188, 0, 142, 187, 148, 98, 194,
    40, 147, 232, 215, 243, 178, 109, 70, 38, 47,
];

static SECOND_TILE: [u8; 400] = [
    3, 251, 67, 202, 52, 163, 95, 85, 185, 249, 83, 50, 104, 229, 198, 233, 187, 59, 71, 88, 229,
    62, 251, 82, 157, 155, 139, 179, 205, 230, 13, 150, 159, 135, 105, 152, 57, 15, 52, 139, 127,
    117, 188, 134, 236, 177, 109, 57, 229, 218, 237, 186, 1, 53, 50, 9, 207, 2, 224, 253, 187, 6,
    89, 245, 227, 67, 19, 225, 63, 251, 164, 202, 99, 30, 221, 156, 178, 214, 59, 235, 228, 23, 69,
    241, 189, 11, 220, 232, 181, 255, 163, 155, 30, 80, 73, 153, 111, 209, 198, 223, 177, 103, 245,
    80, 202, 18, 9, 20, 177, 229, 177, 12, 116, 14, 90, 229, 232, 161, 168, 141, 70, 55, 221, 107,
    227, 213, 161, 99, 223, 40, 102, 48, 250, 216, 36, 38, 39, 227, 184, 93, 162, 185, 164, 39, 28,
    253, 11, 126, 10, 241, 150, 12, 167, 160, 255, 76, 191, 149, 224, 237, 2, 74, 188, 48, 144,
    157, 185, 152, 211, 114, 172, 52, 179, 226, 170, 214, 167, 57, 205, 72, 171, 149, 12, 161, 65,
    155, 70, 217, 34, 38, 243, 86, 159, 126, 124, 224, 129, 158, 28, 30, 114, 71, 152, 164, 178,
    136, 20, 212, 36, 169, 244, 145, 34, 208, 106, 224, 100, 143, 163, 175, 162, 225, 107, 153,
    170, 10, 203, 71, 126, 157, 107, 214, 201, 108, 68, 138, 183, 217, 96, 142, 93, 193, 118, 14,
    224, 26, 32, 105, 101, 255, 30, 43, 230, 131, 51, 87, 6, 107, 64, 78, 111, 7, 205, 107, 30,
    196, 49, 148, 85, 243, 50, 50, 220, 245, 47, 248, 65, 36, 67, 19, 51, 35, 187, 170, 23, 96,
    194, 49, 192, 13, 110, 37, 118, 57, 74, 143, 23, 227, 192, 193, 69, 70, 196, 67, 97, 184, 168,
    173, 214, 104, 161, 165, 127, 2, 223, 80, 203, 5, 212, 144, 205, 136, 230, 37, 132, 70, 28,
    231, 19, 106, 211, 101, 148, 134, 223, 167, 229, 243, 91, 214, 50, 42, 87, 254, 78, 13, 55, 65,
    112, 99, 155, 251, 70, 83, 187, 43, 99, 72, 136, 125, 8, 222, 249, 168, 78, 13, 78, 58, 17,
    253, 120, 3, 56, 7, 231, 207, 32, 52, 25, 102, 59, 120, 121, 232, 38, 3, 138, 130, 67, 33, 49,
    177, 226, 2, 12, 134, 174, 200, 212, 223,
];

const NO_SEGMENTS: Segmentation = Segmentation {
    enabled: false,
    map: None,
    features: Features::NONE,
};

/// Segments by a tree; the blocks of segment 5 are skipped.
fn segments() -> Segmentation {
    let mut features = [SegmentFeatures::NONE; 8];
    features[5] = SegmentFeatures {
        quantizer: None,
        level: None,
        reference: None,
        skip: true,
    };
    Segmentation {
        enabled: true,
        map: Some(MapUpdate {
            tree: [128, 100, 150, 60, 200, 90, 170],
            temporal: false,
            prediction: [255; 3],
        }),
        features: Features {
            absolute: false,
            segments: features,
        },
    }
}

/// A key frame of so many places of 8x8.
fn key_frame(segmentation: Segmentation, frame: FramePlaces) -> Header
    requires rows { (1 ≤ frame.rows) × (frame.rows ≤ 100) }
    requires cols { (1 ≤ frame.cols) × (frame.cols ≤ 100) }
    ensures { IsFrameSize result.size }
{
    Header {
        profile: 0,
        kind: FrameKind::Key,
        show_frame: true,
        error_resilient: true,
        reset_context: 0,
        color: ColorConfig::DEFAULT,
        size: FrameSize {
            width: 8 * frame.cols,
            height: 8 * frame.rows,
        },
        refresh: 255,
        contexts: FrameContexts {
            refresh: false,
            parallel: true,
            index: 0,
        },
        params: FrameParams {
            loop_filter: LoopFilter {
                level: 0,
                sharpness: 0,
                delta_enabled: false,
                deltas: LoopDeltas::DEFAULT,
            },
            quantizer: Quantizer {
                base: 1,
                y_dc_delta: 0,
                uv_dc_delta: 0,
                uv_ac_delta: 0,
            },
            segmentation,
            tiles: TileInfo {
                columns_log2: 0,
                rows_log2: 0,
            },
            compressed_size: 1,
        },
    }
}

fn modes(tx_mode: TxMode) -> Modes {
    Modes {
        tx_mode,
        reference_mode: ReferenceMode::Single,
    }
}

/// A tile that is read without residue, how many blocks there is room for, and the digest of those so far.
#[derive(Drop)]
struct Tile<'a> {
    reader: CountingReader<'a, true>,
    setting: FrameSetting,
    grid: BlockGrid,
    room: usize,
    from: u32,
    to: u32,
    digest: Digest,
    ghost few: { (setting.places.rows ≤ 100) × (setting.places.cols ≤ 100) × (to ≤ setting.places.cols) },
    ghost grid_rows: { grid.rows ≡ setting.places.rows },
    ghost grid_from: { grid.from ≡ from },
    ghost grid_to: { grid.to ≡ to },
    ghost grid_room: { grid.room ≡ room },
}

fn add_block(digest: &mut Digest, block: &BlockInfo) {
    digest.add(u64::from(block.row));
    digest.add(u64::from(block.col));
    digest.add(block.size as u64);
    digest.add(u64::from(block.skip));
    digest.add(u64::from(block.segment));
    digest.add(block.tx as u64);
    if let Prediction::Intra(intra) = block.prediction {
        for mode in intra.luma {
            digest.add(mode as u64);
        }
        digest.add(intra.chroma as u64);
    }
}

fn read_block(tile: &mut Tile<'_>, row: u32, col: u32, size: BlockSize) -> Result<(), AllocError>
    requires first { tile.old.from ≤ col }
    ensures setting { tile.new.setting ≡ tile.old.setting }
    ensures from { tile.new.from ≡ tile.old.from }
    ensures to { tile.new.to ≡ tile.old.to }
{
    if row >= tile.setting.places.rows || col >= tile.to {
        return Ok(());
    }
    if tile.room == 0 {
        return Err(AllocError);
    }
    let at = BlockAt {
        row,
        col,
        size,
        tile_from: tile.from,
        tile_to: tile.to,
    };
    let info = intra_frame_mode_info(&mut tile.reader, &tile.setting, &tile.grid, at);
    add_block(&mut tile.digest, &info);
    tile.grid.put(info);
    tile.room -= 1;
    Ok(())
}

fn partition_of(tile: &mut Tile<'_>, row: u32, col: u32, level: u8) -> Partition
    requires level { level ≤ 3 }
    requires row { row < tile.old.setting.places.rows }
    requires first { tile.old.from ≤ col }
    requires col { col < tile.old.to }
    ensures setting { tile.new.setting ≡ tile.old.setting }
    ensures from { tile.new.from ≡ tile.old.from }
    ensures to { tile.new.to ≡ tile.old.to }
{
    let at = SquareAt {
        row,
        col,
        level,
        tile_from: tile.from,
        tile_to: tile.to,
    };
    read_partition(&mut tile.reader, &tile.setting, true, &tile.grid, at)
}

fn read_square(tile: &mut Tile<'_>, row: u32, col: u32, level: u8) -> Result<(), AllocError>
    requires level { level ≤ 3 }
    requires row { row ≤ 200 }
    requires col { col ≤ 200 }
    requires first { tile.old.from ≤ col }
    ensures setting { tile.new.setting ≡ tile.old.setting }
    ensures from { tile.new.from ≡ tile.old.from }
    ensures to { tile.new.to ≡ tile.old.to }
{
    if row >= tile.setting.places.rows || col >= tile.to {
        return Ok(());
    }
    let partition = partition_of(tile, row, col, level);
    let size = part_size(partition, level);
    if level == 0 {
        return read_block(tile, row, col, size);
    }
    let half = [0, 1, 2, 4][level as usize];
    match partition {
        Partition::Whole => read_block(tile, row, col, size),
        Partition::Horizontal => {
            read_block(tile, row, col, size)?;
            read_block(tile, row + half, col, size)
        }
        Partition::Vertical => {
            read_block(tile, row, col, size)?;
            read_block(tile, row, col + half, size)
        }
        Partition::Split => {
            read_square(tile, row, col, level - 1)?;
            read_square(tile, row, col + half, level - 1)?;
            read_square(tile, row + half, col, level - 1)?;
            read_square(tile, row + half, col + half, level - 1)
        }
    }
}

/// As many as 100 places reach over.
const SUPERBLOCKS: u32 = 13;

/// The number of the blocks of a tile, and their digest.
fn read_tile(
    alloc: Global,
    bytes: &[u8],
    segmentation: Segmentation,
    tx_mode: TxMode,
    frame: FramePlaces,
    columns: (u32, u32),
) -> Result<(usize, u64), Fail>
    requires rows { (1 ≤ frame.rows) × (frame.rows ≤ 100) }
    requires cols { (1 ≤ frame.cols) × (frame.cols ≤ 100) }
    requires tile { columns.0 ≤ columns.1 }
    requires within { columns.1 ≤ frame.cols }
{
    let header = key_frame(segmentation, frame);
    let setting = FrameSetting::new(&header, modes(tx_mode), default_contexts());
    if setting.places != frame {
        return Err(Fail::from(AllocError));
    }
    let mut tile = Tile {
        reader: CountingReader::start(bytes, Counts::new(alloc)?)?,
        setting,
        grid: BlockGrid::new(alloc, frame.rows, columns.0, columns.1, 100)?,
        room: 100,
        from: columns.0,
        to: columns.1,
        digest: Digest::new(),
    };
    for i in 0..SUPERBLOCKS {
        for j in 0..SUPERBLOCKS {
            read_square(&mut tile, 8 * i, columns.0 + 8 * j, 3)?;
        }
    }
    Ok((tile.grid.blocks().len(), tile.digest.sum()))
}

/// A block of bools 0.
fn dc_block(row: u32, col: u32, size: BlockSize) -> BlockInfo {
    BlockInfo {
        row,
        col,
        size,
        skip: false,
        segment: 0,
        segment_predicted: false,
        tx: TxSize::T4x4,
        prediction: Prediction::Intra(IntraPrediction {
            luma: [IntraMode::Dc; 4],
            chroma: IntraMode::Dc,
        }),
    }
}

fn summary_of(blocks: &[BlockInfo]) -> (usize, u64) {
    let mut digest = Digest::new();
    for block in blocks {
        add_block(&mut digest, block);
    }
    (blocks.len(), digest.sum())
}

/// Of 72x72 the last places of 8x8 stand alone at the edges; K8 has one place.
#[test]
fn zeros(rt: HostRuntime) -> Result<(), Fail> {
    let nine = FramePlaces { rows: 9, cols: 9 };
    let read = read_tile(
        rt.alloc(),
        &[0; 8],
        NO_SEGMENTS,
        TxMode::Selected,
        nine,
        (0, 9),
    )?;
    let blocks = [
        dc_block(0, 0, BlockSize::B64x64),
        dc_block(0, 8, BlockSize::B32x64),
        dc_block(8, 0, BlockSize::B64x32),
        dc_block(8, 8, BlockSize::B8x8),
    ];
    assert_eq!(rt; read, summary_of(&blocks));
    let one = FramePlaces { rows: 1, cols: 1 };
    let read = read_tile(
        rt.alloc(),
        &[0; 2],
        NO_SEGMENTS,
        TxMode::Only4x4,
        one,
        (0, 1),
    )?;
    assert_eq!(rt; read, summary_of(&[dc_block(0, 0, BlockSize::B8x8)]));
    Ok(())
}

#[test]
fn varied(rt: HostRuntime) -> Result<(), Fail> {
    let nine = FramePlaces { rows: 9, cols: 9 };
    let read = read_tile(
        rt.alloc(),
        &VARIED,
        NO_SEGMENTS,
        TxMode::Selected,
        nine,
        (0, 9),
    )?;
    assert_eq!(rt; read, (17, 10613232401965309341));
    let high = FramePlaces { rows: 13, cols: 6 };
    let read = read_tile(
        rt.alloc(),
        &SEGMENTS,
        segments(),
        TxMode::Selected,
        high,
        (0, 6),
    )?;
    assert_eq!(rt; read, (14, 5568918096755693895));
    let wide = FramePlaces { rows: 7, cols: 19 };
    let read = read_tile(
        rt.alloc(),
        &SECOND_TILE,
        segments(),
        TxMode::Only4x4,
        wide,
        (8, 19),
    )?;
    assert_eq!(rt; read, (8, 5290074165791843291));
    Ok(())
}

#[test]
fn counts(rt: HostRuntime) -> Result<(), Fail> {
    let one = FramePlaces { rows: 1, cols: 1 };
    let header = key_frame(NO_SEGMENTS, one);
    let setting = FrameSetting::new(&header, modes(TxMode::Only4x4), default_contexts());
    assert_eq!(rt; setting.places, one);
    let grid = BlockGrid::new(rt.alloc(), 1, 0, 1, 0)?;
    let mut reader: CountingReader<true> = CountingReader::start(&[0], Counts::new(rt.alloc())?)?;
    let at = SquareAt {
        row: 0,
        col: 0,
        level: 3,
        tile_from: 0,
        tile_to: 1,
    };
    let partition = read_partition(&mut reader, &setting, true, &grid, at);
    assert_eq!(rt; partition, Partition::Split);
    let counts = reader.into_counts();
    assert_eq!(rt; counts.counter(ProbKind::Partition, 36, true), 1);
    assert_eq!(rt; counts.counter(ProbKind::Partition, 38, true), 1);
    assert_eq!(rt; counts.counter(ProbKind::Partition, 38, false), 0);
    Ok(())
}
