//! The encoder.

use crate::bytes::{added, close, spill};
use crate::split::{doublings, narrowed};
use std::alloc::{AllocError, Global};
use std::marker::Model;

/// What the marker, 0 at one half, leaves of the first range of 255.
const MARKED_RANGE: u32 = 128;

/// An arithmetic encoder of bools (9.2 of the standard, in the other direction).
#[derive(Drop)]
pub struct BoolEncoder {
    bytes: Vec<u8>,
    // The last `held` bits of low; those before them are the bytes.
    low: u32,
    held: u32,
    range: u32,
}

impl Model for BoolEncoder {
    ghost use Rattle.std.specs.Prelude.{◌+◌, ◌-◌, ◌*◌, ◌^◌, ◌<◌, ◌≤◌, length};
    ghost use Rattle.bool_encoder.specs.Part.{NumberPart};
    ghost use Rattle.bool_encoder.specs.Code.{be_number};

    ghost Value = { NumberPart };

    ghost view = { λ e. record { n = 8 * length e.bytes.items + (e.held - 8); low = be_number e.bytes.items * 2 ^ e.held + e.low; range = e.range } };

    ghost invariant = { λ e. (e.low < 2 ^ e.held) × (8 ≤ e.held) × (e.held ≤ 22) × (128 ≤ e.range) × (e.range ≤ 255)
        × (be_number e.bytes.items * 2 ^ e.held + e.low + e.range ≤ 2 ^ (8 * length e.bytes.items + e.held)) };
}

impl BoolEncoder {
    ghost use Rattle.std.specs.Prelude.{◌≡◌, IfOk, if◌then◌else◌};
    ghost use Rattle.std.specs.Result.{is_ok};
    ghost use Rattle.prob_contexts.specs.Counted.{bool_number};
    ghost use Rattle.bool_encoder.specs.Part.{behind_marker, after_put, Finishes};

    /// An encoder into which the marker was put and nothing else.
    #[tactic(auto, unfolding(crate::specs::Part::first_part, crate::specs::Part::after_put, crate::specs::Code::be_number, bool_decoder::specs::Coder::doublings_within))]
    pub fn new(alloc: Global) -> Self
        ensures { result ≡ behind_marker }
    {
        BoolEncoder {
            bytes: Vec::new(alloc),
            low: 0,
            held: 8,
            range: MARKED_RANGE,
        }
    }

    /// Puts a bool, which is 0 with a probability of `p` out of 256. After want of memory the encoder is as it was.
    pub fn bit(&mut self, p: u8, value: bool) -> Result<(), AllocError>
        ensures { self.new ≡ (if is_ok result then after_put p (bool_number value) self.old else self.old) }
    {
        let (low, held) = spill(&mut self.bytes, self.low, self.held)?;
        let (offset, range) = narrowed(self.range, p, value);
        let low = added(&mut self.bytes, low, held, offset);
        let shift = doublings(range);
        self.low = low << shift;
        self.held = held + shift;
        self.range = range << shift;
        Ok(())
    }

    /// The bytes that a decoder starts on and reads the bools from, to the end of the last byte. The encoder stays as it is.
    pub fn finish(&self) -> Result<Vec<u8>, AllocError>
        ensures { IfOk result (λ bytes. Finishes self.now bytes.items) }
    {
        let mut bytes = Vec::from_slice(*self.bytes.allocator(), &self.bytes)?;
        close(&mut bytes, self.low, self.held)?;
        Ok(bytes)
    }
}
