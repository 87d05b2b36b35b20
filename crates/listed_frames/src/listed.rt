//! A frame from lists.

ghost use Rattle.std.specs.Prelude.{◌≡◌, true};
ghost use Rattle.frame_headers.specs.declared.header.Uncompressed.TheVariants.{Coded};
ghost use Rattle.header_writer.specs.WellFormed.{CanChoose, IsWellFormed};
ghost use Rattle.prob_contexts.specs.ProbLists.{ContextLists};
ghost use Rattle.compressed_writer.specs.CodedUpdates.{CanForward};
ghost use Rattle.stream_forge.specs.seq_decoder.Code.{MayDecode, StandsFor};
ghost use Rattle.stream_forge.specs.seq_decoder.DecoderState.{State};
ghost use Rattle.listed_frames.specs.Headings.{can_say};
ghost use Rattle.listed_frames.specs.Code.{GivesListed};

use frame_headers::{Persist, Uncompressed};
use header_checks::{can_choose, can_say_modes, is_well_formed};
use listed_symbols::ListedSymbols;
use listed_symbols::frame_writer::{NotWritten, Written};
use std::alloc::Global;
use stream_forge::seq_decoder::Decoder;
use stream_forge::{CodedFrame, write_coded};

/// Whether what a frame says before its blocks can be said behind what persists.
fn can_say(before: &Persist, frame: &CodedFrame) -> bool
    ensures is { result ≡ can_say before.now frame.now }
    ensures well { result ≡ true → IsWellFormed before.now (Coded frame.now.header) }
    ensures can { result ≡ true → CanChoose before.now frame.now.choices (Coded frame.now.header) }
    ensures modes { result ≡ true → (lists : ContextLists) → CanForward frame.now.header lists lists frame.now.modes }
{
    let header = Uncompressed::Coded(frame.header);
    is_well_formed(before, &header)
        && can_choose(before, frame.choices, &header)
        && can_say_modes(&frame.header, frame.modes)
}

/// Writes a coded frame behind the frames that a decoder has decoded, as its blocks are listed. Nothing has to be known of the
/// frame or the lists: what can't be said where it stands makes the frame `Unsaid`. The lists are handed back, with how many
/// of them are told: there may be more in them than the frame has places for.
pub fn write_listed<'a>(
    alloc: Global,
    decoder: &Decoder,
    frame: &CodedFrame,
    symbols: ListedSymbols<'a>,
) -> (Result<Written, NotWritten>, ListedSymbols<'a>)
    requires { MayDecode decoder.now }
    ensures { (state : State) → StandsFor decoder.now state → GivesListed (can_say decoder.now.persist frame.now) state frame.now symbols.entry result.0 result.1 }
{
    if !can_say(&decoder.persist, frame) {
        return (Err(NotWritten::Unsaid), symbols);
    }
    write_coded(alloc, decoder, frame, symbols)
}
