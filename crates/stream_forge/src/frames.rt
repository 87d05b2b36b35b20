//! Drawn frames.

ghost use Rattle.std.specs.Prelude.{◌≡◌, [], None, Ok, IfOk, OnOk};
ghost use Rattle.frame_headers.specs.Header.{head_of};
ghost use Rattle.frame_headers.specs.declared.header.FrameHead.TheVariants as head;
ghost use Rattle.frame_headers.specs.declared.header.Uncompressed.TheVariants.{Coded, ShowExisting};
ghost use Rattle.drawn_frames.specs.frame_writer.FrameBytes.{header_bytes};
ghost use Rattle.header_writer.specs.WellFormed.{CanChoose, IsWellFormed};
ghost use Rattle.drawn_frames.specs.Code.{sized};
ghost use Rattle.drawn_frames.specs.Heads.{draw_head};
ghost use Rattle.seq_decoder.specs.Code.{MayDecode, StandsFor};
ghost use Rattle.seq_decoder.specs.DecoderState.{State, persist_of};
ghost use Rattle.stream_forge.specs.Code.{Gives, IsMadeAfter, MayDraw};

use crate::coded::{CodedFrame, write_coded};
use drawn_frames::drawn_symbols::Draws;
use drawn_frames::frame_writer::{NotWritten, Written};
use drawn_frames::{DrawnSymbols, draw_frame_modes, draw_head};
use frame_headers::{FrameParams, Header, Uncompressed};
use header_writer::{Choices, write_uncompressed_header};
use seq_decoder::Decoder;
use std::alloc::{AllocError, Global};

/// Puts the bytes of a frame that shows a slot again.
fn put_shown(
    alloc: Global,
    bytes: &mut Vec<u8>,
    decoder: &Decoder,
    slot: u8,
    choices: Choices,
) -> Result<(), AllocError>
    requires well { IsWellFormed decoder.now.persist (ShowExisting slot) }
    requires none { bytes.old.items ≡ [] }
    ensures head { OnOk result (head_of decoder.now.persist bytes.new.items ≡ Ok (head.ShowExisting slot)) }
    ensures bytes { OnOk result (bytes.new.items ≡ header_bytes decoder.now.persist choices (ShowExisting slot)) }
{
    let header = Uncompressed::ShowExisting { slot };
    write_uncompressed_header(alloc, bytes, &decoder.persist, &header, choices)?;
    Ok(())
}

/// The bytes of a frame that shows a slot again.
fn write_shown(
    alloc: Global,
    decoder: &Decoder,
    slot: u8,
    choices: Choices,
) -> Result<Written, AllocError>
    requires { IsWellFormed decoder.now.persist (ShowExisting slot) }
    ensures { IfOk result (λ w. (w.broken ≡ None) × (head_of decoder.now.persist w.bytes.items ≡ Ok (head.ShowExisting slot))
        × (w.bytes.items ≡ header_bytes decoder.now.persist choices (ShowExisting slot))) }
{
    let mut bytes = Vec::new(alloc);
    put_shown(alloc, &mut bytes, decoder, slot, choices)?;
    Ok(Written {
        bytes,
        broken: None,
    })
}

/// The bytes of a coded frame whose header is drawn: its modes and blocks are drawn, and no probability is updated.
fn write_drawn(
    alloc: Global,
    decoder: &Decoder,
    header: &Header,
    choices: Choices,
    draws: Draws,
) -> (Result<Written, NotWritten>, Draws)
    requires may { MayDecode decoder.now }
    requires well { IsWellFormed decoder.now.persist (Coded header.now) }
    requires can { CanChoose decoder.now.persist choices (Coded header.now) }
    ensures { (state : State) → StandsFor decoder.now state → Gives state choices (Coded header.now) draws.x result.0 result.1.x }
{
    let mut draws = draws;
    let modes = draw_frame_modes(&mut draws, header);
    let frame = CodedFrame {
        header: *header,
        choices,
        modes,
    };
    let (written, symbols) = write_coded(alloc, decoder, &frame, DrawnSymbols { draws });
    (written, symbols.draws)
}

/// The same header, with a compressed header of one byte.
fn with_a_byte(header: &Header) -> Header
    ensures { result ≡ sized 1 header.now }
{
    let params = FrameParams {
        compressed_size: 1,
        ..header.params
    };
    Header { params, ..*header }
}

/// Draws a frame and writes it, behind the frames that the decoder has decoded. The first one is a key frame.
pub(crate) fn write_next(
    alloc: Global,
    decoder: &Decoder,
    first: bool,
    draws: Draws,
) -> (Result<Written, NotWritten>, Draws)
    requires may { MayDecode decoder.now }
    requires made { MayDraw first decoder.now.persist }
    ensures gives { (state : State) → StandsFor decoder.now state → Gives state (draw_head first (persist_of state) draws.x).0.choices (draw_head first (persist_of state) draws.x).0.header (draw_head first (persist_of state) draws.x).1 result.0 result.1.x }
    ensures after { IsMadeAfter (draw_head first decoder.now.persist draws.x).0.header decoder.now.persist }
{
    let mut draws = draws;
    let head = draw_head(&mut draws, first, &decoder.persist);
    match &head.header {
        Uncompressed::ShowExisting { slot } => {
            match write_shown(alloc, decoder, *slot, head.choices) {
                Ok(written) => (Ok(written), draws),
                Err(_) => (Err(NotWritten::OutOfMemory), draws),
            }
        }
        Uncompressed::Coded(header) => {
            let header = with_a_byte(header);
            write_drawn(alloc, decoder, &header, head.choices, draws)
        }
    }
}
