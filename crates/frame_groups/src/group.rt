//! Frames that were taken together.

ghost use Rattle.std.specs.Prelude.{◌≡◌, map};
ghost use Rattle.std.specs.List.{All};
ghost use Rattle.superframe_index.specs.PayloadFrames.{IsPart};

use std::alloc::{AllocError, Global};
use superframe_index::Parts;
use vp9_types::Rule;

/// What is behind a group: more packets perhaps, the end of the file, a rule that is broken there, or the reason why it isn't known.
#[derive(Clone, Copy, Debug, PartialEq, Eq)]
pub enum Behind {
    More,
    End,
    Broken(Rule),
    /// The source failed.
    Failed,
    OutOfMemory,
}

/// A packet's payload, and where its frames lie.
#[derive(Drop)]
pub struct FramePayload {
    pub(crate) bytes: Vec<u8>,
    pub(crate) parts: Parts,
    ghost placed: { All (IsPart bytes.items) parts.items },
}

/// The frames of some packets, one after another, and what is behind them.
#[derive(Drop)]
pub struct FrameGroup {
    pub(crate) payloads: Vec<FramePayload>,
    pub behind: Behind,
}

impl FramePayload {
    ghost use Rattle.std.specs.Prelude.{◌++◌, OnErr, OnOk, []};
    ghost use Rattle.frame_groups.specs.Groups.{payload_frames};

    /// Adds its frames to those of the payloads before it.
    fn add_frames<'a>(&'a self, frames: &mut Vec<&'a [u8]>) -> Result<(), AllocError>
        ensures frames { OnOk result (map (λ frame. frame.now) frames.new.items ≡ map (λ frame. frame.now) frames.old.items ++ payload_frames self.now) }
        ensures some { OnErr result (payload_frames self.now ≡ [] → ⊥) }
    {
        for part in self.parts.as_slice() {
            frames.push(&self.bytes[part.from..part.to])?;
        }
        Ok(())
    }
}

impl FrameGroup {
    ghost use Rattle.std.specs.Prelude.{IfOk, OnErr, []};
    ghost use Rattle.frame_groups.specs.Groups.{group_frames};

    /// The frames, in order. A group that has none needs no memory for them.
    pub fn frames(&self, alloc: Global) -> Result<Vec<&[u8]>, AllocError>
        ensures frames { IfOk result (λ frames. map (λ frame. frame.now) frames.items ≡ group_frames self.now) }
        ensures some { OnErr result (group_frames self.now ≡ [] → ⊥) }
    {
        let mut frames = Vec::new(alloc);
        for payload in &self.payloads {
            payload.add_frames(&mut frames)?;
        }
        Ok(frames)
    }
}
