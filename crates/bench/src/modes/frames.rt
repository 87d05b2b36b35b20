//! Frames of one tile, without residue.

ghost use Rattle.std.specs.Prelude.{◌≡◌, ◌<◌, ◌≤◌};
ghost use Rattle.std.specs.List.{All};
ghost use Rattle.std.specs.Option.{ForSome, option_copied};
ghost use Rattle.mv_prediction.specs.Code.{HasSmallVectors};
ghost use Rattle.bench.specs.SmallBlocks.{block_props};

use crate::numbers::drawn;
use block_geometry::part_size;
use block_plan::{BlockAt, BlockGrid, BlockInfo, IntraPrediction, Prediction, SegmentMap};
use counting_reader::CountingReader;
use frame_setting::FrameSetting;
use inter_modes::mode_info;
use mode_syntax::{SquareAt, read_partition, side_of};
use std::alloc::{AllocError, Global};
use vp9_types::{BlockSize, IntraMode, Partition, TxSize};

/// The size of a frame in places of 8x8.
pub const ROWS: u32 = 135;

pub const COLS: u32 = 240;

/// How many blocks there may be.
const ROOM: usize = 64 * 17 * 30;

/// A frame, as far as it is read, and how many blocks there is room for.
#[derive(Drop)]
pub struct Frame {
    pub grid: BlockGrid,
    room: usize,
    draws: u32,
    ghost rows: { grid.rows ≡ 135 },
    ghost from: { grid.from ≡ 0 },
    ghost to: { grid.to ≡ 240 },
    ghost grid_room: { grid.room ≡ room },
    ghost small: { All HasSmallVectors grid.blocks } by { Prim.hlevel block_props },
}

/// What the blocks of a frame are read by beside the bytes: what is fixed for it, the map of segments before it, the
/// blocks of the frame before; and whether partitions are read too, or drawn.
#[derive(Drop)]
pub struct Sources<'a, 'b> {
    pub setting: &'a FrameSetting,
    pub map: &'a SegmentMap,
    pub before: Option<&'b BlockGrid>,
    pub whole: bool,
    pub ghost places: { (setting.now.places.rows ≡ 135) × (setting.now.places.cols ≡ 240) },
    pub ghost segments: { (map.now.rows ≡ 135) × (map.now.cols ≡ 240) },
    pub ghost grid: { ForSome (option_copied before) (λ g. (g.rows ≡ 135) × (g.from ≡ 0) × (g.to ≡ 240) × All HasSmallVectors g.blocks) } by { Prim.hlevel block_props },
}

impl Frame {
    /// Nothing is read yet.
    pub fn new(alloc: Global) -> Result<Self, AllocError> {
        let grid = BlockGrid::new(alloc, ROWS, 0, COLS, ROOM)?;
        Ok(Frame {
            grid,
            room: ROOM,
            draws: 0,
        })
    }

    /// One of eight draws is a whole square, one each are halves, and five are quarters.
    fn draw_partition(&mut self) -> Partition {
        self.draws = drawn(self.draws);
        match self.draws >> 29 {
            0 => Partition::Whole,
            1 => Partition::Horizontal,
            2 => Partition::Vertical,
            _ => Partition::Split,
        }
    }
}

/// What stands where a rule is broken.
fn grey(at: BlockAt) -> BlockInfo
    ensures row { result.row ≡ at.row }
    ensures col { result.col ≡ at.col }
    ensures size { result.size ≡ at.size }
    ensures small { HasSmallVectors result }
{
    BlockInfo {
        row: at.row,
        col: at.col,
        size: at.size,
        skip: false,
        segment: 0,
        segment_predicted: false,
        tx: TxSize::T4x4,
        prediction: Prediction::Intra(IntraPrediction {
            luma: [IntraMode::Dc; 4],
            chroma: IntraMode::Dc,
        }),
    }
}

/// A block of a frame as it is read, or a grey one where it breaks a rule.
fn block_or_grey<const COUNTS: bool>(
    reader: &mut CountingReader<COUNTS>,
    frame: &Frame,
    sources: &Sources<'_, '_>,
    at: BlockAt,
) -> BlockInfo
    requires row { at.row < 135 }
    requires col { at.col < 240 }
    requires from { at.tile_from ≡ 0 }
    requires to { at.tile_to ≡ 240 }
    ensures row { result.row ≡ at.row }
    ensures col { result.col ≡ at.col }
    ensures size { result.size ≡ at.size }
    ensures small { HasSmallVectors result }
{
    let (setting, map) = (sources.setting, sources.map);
    match mode_info(reader, setting, at, &frame.grid, map, sources.before) {
        Ok(block) => block,
        Err(_) => grey(at),
    }
}

fn read_block<const COUNTS: bool>(
    reader: &mut CountingReader<COUNTS>,
    frame: &mut Frame,
    sources: &Sources<'_, '_>,
    row: u32,
    col: u32,
    size: BlockSize,
) {
    if row >= ROWS || col >= COLS || frame.room == 0 {
        return;
    }
    let at = BlockAt {
        row,
        col,
        size,
        tile_from: 0,
        tile_to: COLS,
    };
    let block = block_or_grey(reader, frame, sources, at);
    frame.grid.put(block);
    frame.room -= 1;
}

fn partition_of<const COUNTS: bool>(
    reader: &mut CountingReader<COUNTS>,
    frame: &mut Frame,
    sources: &Sources<'_, '_>,
    row: u32,
    col: u32,
    level: u8,
) -> Partition
    requires level { level ≤ 3 }
    requires row { row < 135 }
    requires col { col < 240 }
{
    if !sources.whole {
        return frame.draw_partition();
    }
    let at = SquareAt {
        row,
        col,
        level,
        tile_from: 0,
        tile_to: COLS,
    };
    read_partition(reader, sources.setting, false, &frame.grid, at)
}

fn read_square<const COUNTS: bool>(
    reader: &mut CountingReader<COUNTS>,
    frame: &mut Frame,
    sources: &Sources<'_, '_>,
    row: u32,
    col: u32,
    level: u8,
)
    requires level { level ≤ 3 }
    requires row { row ≤ 200 }
    requires col { col ≤ 300 }
{
    if row >= ROWS || col >= COLS {
        return;
    }
    let partition = partition_of(reader, frame, sources, row, col, level);
    let size = part_size(partition, level);
    if level == 0 {
        return read_block(reader, frame, sources, row, col, size);
    }
    let half = side_of(level - 1);
    match partition {
        Partition::Whole => read_block(reader, frame, sources, row, col, size),
        Partition::Horizontal => {
            read_block(reader, frame, sources, row, col, size);
            read_block(reader, frame, sources, row + half, col, size);
        }
        Partition::Vertical => {
            read_block(reader, frame, sources, row, col, size);
            read_block(reader, frame, sources, row, col + half, size);
        }
        Partition::Split => {
            read_square(reader, frame, sources, row, col, level - 1);
            read_square(reader, frame, sources, row, col + half, level - 1);
            read_square(reader, frame, sources, row + half, col, level - 1);
            read_square(reader, frame, sources, row + half, col + half, level - 1);
        }
    }
}

fn read_row<const COUNTS: bool>(
    reader: &mut CountingReader<COUNTS>,
    frame: &mut Frame,
    sources: &Sources<'_, '_>,
    row: u32,
)
    requires { row ≤ 200 }
{
    for i in 0..30 {
        read_square(reader, frame, sources, row, 8 * i, 3);
    }
}

fn read_rows<const COUNTS: bool>(
    reader: &mut CountingReader<COUNTS>,
    frame: &mut Frame,
    sources: &Sources<'_, '_>,
) {
    for i in 0..17 {
        read_row(reader, frame, sources, 8 * i);
    }
}

/// Reads the frame of a number behind the frame before it, where partitions are read too or drawn.
pub fn next_frame<'a, const COUNTS: bool>(
    alloc: Global,
    reader: &mut CountingReader<COUNTS>,
    fixed: (&'a FrameSetting, &'a SegmentMap),
    before: Frame,
    number: u32,
    whole: bool,
) -> Result<Frame, AllocError>
    requires places { (fixed.0.now.places.rows ≡ 135) × (fixed.0.now.places.cols ≡ 240) }
    requires map { (fixed.1.now.rows ≡ 135) × (fixed.1.now.cols ≡ 240) }
{
    let Frame { grid, draws, .. } = before;
    let (setting, map) = fixed;
    let mut frame = Frame::new(alloc)?;
    frame.draws = draws;
    let before = if number == 0 { None } else { Some(&grid) };
    let sources = Sources {
        setting,
        map,
        before,
        whole,
    };
    read_rows(reader, &mut frame, &sources);
    Ok(frame)
}
