//! What the blocks of a frame are read by.

ghost use Rattle.std.specs.Prelude.{◌≡◌};
ghost use Rattle.frame_state.specs.Sources.{adapts, frame_is_intra};

use crate::frame_blocks::FrameBlocks;
use block_plan::SegmentMap;
use frame_headers::{FrameKind, Header};
use frame_setting::FrameSetting;
use prob_contexts::Contexts;

/// What the frames before a frame leave to the reading of it: the contexts that it starts from, the map of segments that it
/// starts with, and the blocks of the frame before if its vectors may be taken. No sample is needed to read a frame.
#[derive(Drop)]
pub struct FramePast<'a> {
    pub contexts: &'a Contexts,
    pub segments: &'a SegmentMap,
    pub vectors: Option<FrameBlocks<'a>>,
}

/// A frame's header, what its compressed header makes of modes and contexts, and what the frames before leave to it: what its
/// blocks are read by, the same for all of them.
#[derive(Drop)]
pub struct FrameSources<'a> {
    pub setting: FrameSetting,
    pub past: FramePast<'a>,
}

/// Whether all blocks of a frame are intra blocks (FrameIsIntra in 7.2 of the standard).
pub fn frame_is_intra(kind: &FrameKind) -> bool
    ensures { result ≡ frame_is_intra kind.now }
{
    match kind {
        FrameKind::Key | FrameKind::IntraOnly => true,
        FrameKind::Inter(_) => false,
    }
}

/// Whether the probabilities of a frame are adapted after it.
pub fn adapts(header: &Header) -> bool
    ensures { result ≡ adapts header.now }
{
    !(header.error_resilient || header.contexts.parallel)
}
