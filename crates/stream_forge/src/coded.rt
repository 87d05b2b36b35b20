//! A coded frame behind the frames that a decoder has decoded.

ghost use Rattle.compressed_writer.specs.CodedUpdates.{CanForward};
ghost use Rattle.frame_headers.specs.declared.header.Uncompressed.TheVariants.{Coded};
ghost use Rattle.header_writer.specs.WellFormed.{CanChoose, IsWellFormed};
ghost use Rattle.prob_contexts.specs.ProbLists.{ContextLists};
ghost use Rattle.seq_decoder.specs.Code.{MayDecode, StandsFor};
ghost use Rattle.seq_decoder.specs.DecoderState.{State};
ghost use Rattle.stream_forge.specs.Code.{GivesBehind};

use crate::past::{fresh_segments, segments_for};
use drawn_frames::frame_writer::{FrameSymbols, FrameToWrite, NotWritten, Written, write_frame};
use frame_headers::Header;
use header_writer::Choices;
use seq_decoder::frame_state::FramePast;
use seq_decoder::{Decoder, saved_place, vectors_before};
use std::alloc::Global;
use vp9_types::Modes;

/// What a coded frame says before its blocks: its header, but for the size of its compressed header, how that is spelled, and
/// its modes. It updates no probability.
#[derive(Clone, Copy)]
pub struct CodedFrame {
    pub header: Header,
    pub choices: Choices,
    pub modes: Modes,
}

/// Writes a coded frame behind the frames that a decoder has decoded, as its blocks are told by `symbols`, which are handed
/// back. It is read back as that by whoever decoded these frames, or breaks the rule that what is told breaks first.
pub fn write_coded<S: FrameSymbols>(
    alloc: Global,
    decoder: &Decoder,
    frame: &CodedFrame,
    symbols: S,
) -> (Result<Written, NotWritten>, S)
    requires may { MayDecode decoder.now }
    requires well { IsWellFormed decoder.now.persist (Coded frame.now.header) }
    requires can { CanChoose decoder.now.persist frame.now.choices (Coded frame.now.header) }
    requires modes { (lists : ContextLists) → CanForward frame.now.header lists lists frame.now.modes }
    ensures { (state : State) → StandsFor decoder.now state → GivesBehind S.speaker state frame.now symbols result.0 result.1 }
{
    let CodedFrame {
        header,
        choices,
        modes,
    } = *frame;
    let mut saved = decoder.saved;
    saved.reset(&header);
    let contexts = saved.at(saved_place(&header));
    let Ok(fresh) = fresh_segments(alloc, &header, decoder.persist.size) else {
        return (Err(NotWritten::OutOfMemory), symbols);
    };
    let past = FramePast {
        contexts: &contexts,
        segments: segments_for(&fresh, &decoder.segments),
        vectors: vectors_before(&header, &decoder.last),
    };
    let frame = FrameToWrite {
        header,
        choices,
        modes,
        contexts,
    };
    write_frame(alloc, &decoder.persist, &frame, past, symbols)
}
