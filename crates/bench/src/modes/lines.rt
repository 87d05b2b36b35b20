//! What is read for a line of the input.

ghost use Rattle.std.specs.Prelude.{◌≡◌};

use super::checksums::{of_blocks, of_counts};
use super::frames::{COLS, Frame, ROWS, next_frame};
use super::header::header;
use crate::numbers::bytes;
use block_plan::SegmentMap;
use counting_reader::CountingReader;
use frame_setting::FrameSetting;
use prob_contexts::{Counts, default_contexts};
use std::alloc::{AllocError, Global};
use vp9_types::{Modes, ReferenceMode, TxMode};

/// After how many frames they are read from the beginning again.
const FRAMES: u32 = 100;

/// The reader of a frame of a number, behind the one before it or at the beginning again.
fn reader_of<'a, const COUNTS: bool>(
    bytes: &'a [u8],
    reader: CountingReader<'a, COUNTS>,
    number: u32,
) -> Result<CountingReader<'a, COUNTS>, AllocError> {
    if number % FRAMES > 0 {
        return Ok(reader);
    }
    match CountingReader::start(bytes, reader.into_counts()) {
        Ok(reader) => Ok(reader),
        Err(_) => Err(AllocError),
    }
}

/// So many frames, the last of which is kept, and what is counted.
fn read_frames<const COUNTS: bool>(
    alloc: Global,
    bytes: &[u8],
    setting: &FrameSetting,
    frames: u32,
    whole: bool,
) -> Result<(Frame, Counts), AllocError>
    requires { (setting.now.places.rows ≡ 135) × (setting.now.places.cols ≡ 240) }
{
    let map = SegmentMap::new(alloc, ROWS, COLS)?;
    let counts = Counts::new(alloc)?;
    let Ok(mut reader) = CountingReader::<COUNTS>::start(bytes, counts) else {
        return Err(AllocError);
    };
    let mut frame = Frame::new(alloc)?;
    for number in 0..frames {
        reader = reader_of(bytes, reader, number)?;
        frame = next_frame(alloc, &mut reader, (setting, &map), frame, number, whole)?;
    }
    Ok((frame, reader.into_counts()))
}

fn read_line<const COUNTS: bool>(
    alloc: Global,
    bytes: &[u8],
    line: &str,
    frames: u32,
    whole: bool,
) -> Result<String, AllocError> {
    let modes = Modes {
        tx_mode: TxMode::Selected,
        reference_mode: ReferenceMode::Selected,
    };
    let setting = FrameSetting::new(&header(), modes, default_contexts());
    let (frame, counts) = read_frames::<COUNTS>(alloc, bytes, &setting, frames, whole)?;
    let blocks = frame.grid.blocks();
    let (count, sum) = (blocks.len(), of_blocks(blocks));
    let counted = of_counts(&counts);
    format!(in alloc; "{line}: {count} blocks, {sum} {counted}")
}

/// What is printed for a line: a number of frames, behind `whole` if partitions are read too and not drawn, and behind
/// `silent` if nothing is counted.
pub fn describe(alloc: Global, line: &str) -> Result<String, AllocError> {
    let (silent, rest) = match line.strip_prefix("silent ") {
        Some(rest) => (true, rest),
        None => (false, line),
    };
    let (whole, rest) = match rest.strip_prefix("whole ") {
        Some(rest) => (true, rest),
        None => (false, rest),
    };
    let Ok(frames) = rest.parse::<u32>() else {
        return format!(in alloc; "{line}: not a number");
    };
    let bytes = bytes(alloc)?;
    if silent {
        read_line::<false>(alloc, bytes.as_slice(), line, frames, whole)
    } else {
        read_line::<true>(alloc, bytes.as_slice(), line, frames, whole)
    }
}
