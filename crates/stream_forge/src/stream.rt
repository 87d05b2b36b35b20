//! A whole stream.

ghost use Rattle.std.specs.Prelude.{◌≡◌, IfOk, IsOk, OnOk};
ghost use Rattle.frame_output.specs.declared.rendering.Format.TheVariants.{Raw};
ghost use Rattle.seq_decoder.specs.After.{step};
ghost use Rattle.seq_decoder.specs.Code.{MayDecode, StandsFor};
ghost use Rattle.seq_decoder.specs.DecoderState.{State};
ghost use Rattle.stream_forge.specs.Code.{IsLost, Passes};
ghost use Rattle.stream_forge.specs.MadeFiles.{made};
ghost use Rattle.stream_forge.specs.FileReads.{IsReadAsDrawn};
ghost use Rattle.stream_forge.specs.declared.stream.NotMade.TheVariants as not_made;

use crate::discard::Discard;
use crate::frames::write_next;
use container_writer::{write_header, write_packet};
use drawn_frames::drawn_symbols::Draws;
use drawn_frames::frame_writer::NotWritten;
use file_frames::FileFrame;
use frame_output::Format;
use seq_decoder::Decoder;
use std::alloc::{AllocError, Global};
use vp9_types::Outcome;

/// Why a stream isn't made.
#[derive(Clone, Copy, Debug, PartialEq, Eq)]
pub enum NotMade {
    OutOfMemory,
}

impl From<AllocError> for NotMade {
    ghost from_gives = { λ _ e. e ≡ not_made.OutOfMemory };

    fn from(_: AllocError) -> Self {
        NotMade::OutOfMemory
    }
}

/// Decodes a frame that breaks no rule, for what it leaves to those behind it.
fn pass(alloc: Global, decoder: &mut Decoder, number: u64, bytes: &[u8]) -> Result<(), NotMade>
    requires may { MayDecode decoder.old }
    requires raw { decoder.old.form.format ≡ Raw }
    requires steps { (state : State) × StandsFor decoder.old state × IsOk (step number state bytes.now) }
    ensures passes { OnOk result (Passes number decoder.old bytes.now decoder.new) }
    ensures may { OnOk result (MayDecode decoder.new) }
    ensures raw { OnOk result (decoder.new.form.format ≡ Raw) }
{
    let frame = FileFrame { number, bytes };
    match decoder.decode_next(alloc, frame, &mut Discard {}) {
        Ok(()) => Ok(()),
        Err(Outcome::OutOfMemory) => Err(NotMade::OutOfMemory),
        Err(_) => unreachable!(),
    }
}

/// What is made before a frame that isn't written.
fn ended(out: Vec<u8>, why: NotWritten) -> Result<Vec<u8>, NotMade>
    ensures { IfOk result (λ file. (file.items ≡ out.items) × IsLost why) }
{
    match why {
        NotWritten::OutOfMemory => Err(NotMade::OutOfMemory),
        NotWritten::Unsaid | NotWritten::TooLong => Ok(out),
    }
}

/// The file of `frames` frames that is made from a number. It ends before a frame whose blocks, as they are drawn, break a
/// rule.
pub fn make_stream(alloc: Global, number: u32, frames: u32) -> Result<Vec<u8>, NotMade>
    ensures made { IfOk result (λ file. file.items ≡ made number frames) }
    ensures read { IfOk result (λ file. IsReadAsDrawn number frames file.items) }
{
    let mut draws = Draws {
        x: u64::from(number),
    };
    let mut decoder = Decoder::new(alloc, Format::Raw, (0, 0));
    let mut out = Vec::new(alloc);
    write_header(&mut out, 520, 136, 30, 1, frames)?;
    for n in 0..frames {
        let (written, rest) = write_next(alloc, &decoder, n == 0, draws);
        let written = match written {
            Ok(written) => written,
            Err(why) => return ended(out, why),
        };
        if written.broken.is_some() {
            return Ok(out);
        }
        if written.bytes.len() > u32::MAX as usize {
            return Ok(out);
        }
        write_packet(&mut out, u64::from(n), &written.bytes)?;
        pass(alloc, &mut decoder, u64::from(n), &written.bytes)?;
        draws = rest;
    }
    Ok(out)
}
