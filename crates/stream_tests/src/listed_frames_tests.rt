//! Worked files come out of the writer, byte for byte.

ghost use Rattle.std.specs.Prelude.{◌≡◌, None, Ok};
ghost use Rattle.listed_frames.specs.seq_decoder.Code.{MayDecode};

pub mod rows;
mod rows_of_vectors;

use block_plan::{IntraPrediction, Mv, ReferenceFrames};
use edge_io::MemSink;
use file_frames::FileFrame;
use frame_headers::{FrameHead, Header, read};
use frame_output::Format;
use header_writer::Choices;
use inter_modes::{BlockStart, SegmentOf};
use listed_frames::frame_writer::Written;
use listed_frames::inter_writer::{BlockSymbols, PredictionSymbols};
use listed_frames::listed_symbols::{ListedBlock, ListedLevels, ListedSymbols};
use listed_frames::seq_decoder::Decoder;
use listed_frames::stream_forge::CodedFrame;
use listed_frames::write_listed;
use rows::ROWS;
use rows_of_vectors::ROWS_OF_VECTORS;
use std::alloc::{AllocError, Global};
use std::test::Fail;
use vector_writer::InterSymbols;
use vp9_types::{
    InterMode, InterpFilter, IntraMode, Modes, Outcome, Partition, ReferenceFrame, ReferenceMode,
    Rule, TxMode, TxSize,
};

/// A worked file: its coded frames, in order.
pub struct Row {
    pub name: &'static str,
    pub frames: &'static [Frame],
}

/// A coded frame of it, whose tiles have the fewest bytes that are read so, and the bytes that an encoder of bools makes of it;
/// whether its size is coded; and what its blocks say.
pub struct Frame {
    pub bytes: &'static [u8],
    pub written: &'static [u8],
    pub own_size: bool,
    pub partitions: &'static [Partition],
    pub blocks: &'static [Told],
}

/// What a block says: levels by plane and transform block; the row and the column of each difference.
#[derive(Clone, Copy)]
pub enum Told {
    Intra {
        skip: bool,
        luma: [IntraMode; 4],
        chroma: IntraMode,
        levels: &'static [&'static [&'static [i32]]],
    },
    Inter {
        skip: bool,
        reference: ReferenceFrame,
        filter: InterpFilter,
        modes: [InterMode; 4],
        differences: [[i16; 2]; 4],
    },
}

const ONLY_4X4: Modes = Modes {
    tx_mode: TxMode::Only4x4,
    reference_mode: ReferenceMode::Single,
};

fn start(skip: bool, is_inter: bool) -> BlockStart {
    BlockStart {
        segment: SegmentOf {
            id: 0,
            predicted: false,
        },
        skip,
        is_inter,
        tx: TxSize::T4x4,
    }
}

fn difference(row_and_column: [i16; 2]) -> [Mv; 2] {
    let [row, column] = row_and_column;
    [Mv { row, column }, Mv { row: 0, column: 0 }]
}

fn plane_of(
    levels: &'static [&'static [&'static [i32]]],
    plane: usize,
) -> &'static [&'static [i32]] {
    if plane < levels.len() {
        return levels[plane];
    }
    &[]
}

fn intra(luma: [IntraMode; 4], chroma: IntraMode) -> PredictionSymbols {
    PredictionSymbols::Intra(IntraPrediction { luma, chroma })
}

fn inter(
    first: ReferenceFrame,
    filter: InterpFilter,
    modes: [InterMode; 4],
    differences: [[i16; 2]; 4],
) -> PredictionSymbols {
    let [upper_left, upper_right, lower_left, lower_right] = differences;
    PredictionSymbols::Inter(InterSymbols {
        references: ReferenceFrames {
            first,
            second: None,
        },
        filter,
        modes,
        differences: [
            difference(upper_left),
            difference(upper_right),
            difference(lower_left),
            difference(lower_right),
        ],
    })
}

fn block_of(told: &Told) -> ListedBlock<'static> {
    match *told {
        Told::Intra {
            skip,
            luma,
            chroma,
            levels,
        } => ListedBlock {
            symbols: BlockSymbols {
                start: start(skip, false),
                prediction: intra(luma, chroma),
            },
            levels: ListedLevels {
                y: plane_of(levels, 0),
                u: plane_of(levels, 1),
                v: plane_of(levels, 2),
            },
        },
        Told::Inter {
            skip,
            reference,
            filter,
            modes,
            differences,
        } => ListedBlock {
            symbols: BlockSymbols {
                start: start(skip, true),
                prediction: inter(reference, filter, modes, differences),
            },
            levels: ListedLevels::NONE,
        },
    }
}

// The header of a frame's bytes.
fn header_of(decoder: &Decoder, bytes: &[u8]) -> Option<Header> {
    match read(bytes, &decoder.persist) {
        Ok(FrameHead::Coded { header, .. }) => Some(header),
        _ => None,
    }
}

// What comes of a frame: whether its bytes come out as they are to and all of its lists is told, and the rule that it breaks.
fn written_of(
    alloc: Global,
    decoder: &Decoder,
    frame: &Frame,
) -> Result<(bool, Option<Rule>), AllocError>
    requires { MayDecode decoder.now }
{
    let Some(header) = header_of(decoder, frame.bytes) else {
        return Ok((false, None));
    };
    let coded = CodedFrame {
        header,
        choices: Choices {
            biases: [false; 3],
            own_size: frame.own_size,
            deltas: false,
            features: false,
        },
        modes: ONLY_4X4,
    };
    let mut blocks = Vec::new(alloc);
    for told in frame.blocks {
        blocks.push(block_of(told))?;
    }
    let symbols = ListedSymbols::new(frame.partitions, &blocks);
    let (written, symbols) = write_listed(alloc, decoder, &coded, symbols);
    let is_told = symbols.partitions_told == frame.partitions.len()
        && symbols.blocks_told == blocks.len();
    match written {
        Ok(Written { bytes, broken }) => Ok((is_told && bytes.as_slice() == frame.written, broken)),
        Err(_) => Ok((false, None)),
    }
}

// Decodes a frame of the file, and answers the rule that it breaks.
fn pass(alloc: Global, decoder: &mut Decoder, bytes: &[u8]) -> Result<Option<Rule>, Fail>
    requires { MayDecode decoder.old }
    ensures { result ≡ Ok None → MayDecode decoder.new }
{
    let mut sink = MemSink::new(alloc, &[])?;
    match decoder.decode_next(alloc, FileFrame { number: 0, bytes }, &mut sink) {
        Ok(()) => Ok(None),
        Err(Outcome::Broken(stop)) => Ok(Some(stop.rule)),
        Err(_) => Err(Fail::new("no memory")),
    }
}

// Whether all frames of a file come out as they are to, up to one that breaks a rule.
fn comes_out(alloc: Global, row: &Row) -> Result<bool, Fail> {
    let mut decoder = Decoder::new(alloc, Format::Raw, (0, 0));
    for frame in row.frames {
        let (is_right, broken) = written_of(alloc, &decoder, frame)?;
        let breaks = pass(alloc, &mut decoder, frame.bytes)?;
        if !is_right || broken != breaks {
            return Ok(false);
        }
        if breaks.is_some() {
            return Ok(true);
        }
    }
    Ok(true)
}

// The first file that doesn't.
fn first_wrong(alloc: Global, rows: &[Row]) -> Result<Option<&'static str>, Fail> {
    for row in rows {
        if !comes_out(alloc, row)? {
            return Ok(Some(row.name));
        }
    }
    Ok(None)
}

#[test]
fn files_come_out_as_they_are(rt: HostRuntime) -> Result<(), Fail> {
    assert_eq!(rt; first_wrong(rt.alloc(), &ROWS)?, None);
    Ok(())
}

#[test]
fn vectors_past_all_edges(rt: HostRuntime) -> Result<(), Fail> {
    assert_eq!(rt; first_wrong(rt.alloc(), &ROWS_OF_VECTORS)?, None);
    Ok(())
}
