//! How a coded frame begins: what is read before its tiles, and what the frames before leave to it.

ghost use Rattle.std.specs.Prelude.{◌≡◌, IfOk, Some, length};
ghost use Rattle.std.specs.Arc.{arc_value};
ghost use Rattle.frame_headers.specs.FrameSizes.{IsFrameSize};
ghost use Rattle.frame_headers.specs.Tiles.{AreFewTiles};
ghost use Rattle.seq_decoder.specs.After.{segments_before};
ghost use Rattle.seq_decoder.specs.Code.{HasPlaces, LiesWithin, segments_held};
ghost use Rattle.seq_decoder.specs.DecoderState.{State};
ghost use Rattle.frame_steps.specs.Kept.{MayFollow, StandsFor};
ghost use Rattle.frame_steps.specs.StepResults.{GivesBegun, HaveSizes, IsSound, sources_by};
ghost use Rattle.seq_decoder.specs.frame_state.Code.{sources_of};
ghost use Rattle.seq_decoder.specs.frame_state.Past.{IsPastOf};

use crate::kept::Kept;
use block_plan::SegmentMap;
use frame_headers::{FrameSize, Header};
use frame_setting::FrameSetting;
use prob_contexts::Contexts;
use seq_decoder::frame_state::{FramePast, FrameSources, Halt, begin_frame};
use seq_decoder::{
    LastFrame, SavedContexts, begin_segments, has_size, loses_past, saved_place, segments_of,
    vectors_before,
};
use std::alloc::{AllocError, Global};
use std::sync::Arc;
use vp9_types::Span;

/// A coded frame whose headers are read, and what the frames before leave to it.
#[derive(Drop)]
pub struct BegunFrame<'a> {
    pub bytes: &'a [u8],
    pub compressed: Span,
    pub setting: FrameSetting,
    /// The contexts that it starts from, and the saved ones, which it may have reset.
    pub contexts: Contexts,
    pub saved: SavedContexts,
    pub segments: Arc<Option<SegmentMap>>,
    pub last: Arc<Option<LastFrame>>,
}

/// The map of segments that a frame starts with: that of the last frame, or a new one.
fn segments_for(
    alloc: Global,
    header: &Header,
    before: &Kept,
) -> Result<Arc<Option<SegmentMap>>, AllocError>
    requires { MayFollow before.now }
    ensures map { IfOk result (λ a. segments_held (arc_value a) ≡ segments_before header.now before.now.persist.size (segments_held (arc_value before.now.segments))) }
    ensures places { IfOk result (λ a. HasPlaces (Some header.now.size) (arc_value a)) }
{
    if !loses_past(header) && has_size(header.size, before.persist.size) {
        return Arc::try_clone(&before.segments);
    }
    let mut map = None;
    begin_segments(alloc, header, None, &mut map)?;
    Ok(Arc::new(alloc, map)?)
}

/// Begins a frame, whose compressed header lies at `compressed`, behind what is kept of the frames before it.
pub fn begin<'a>(
    alloc: Global,
    bytes: &'a [u8],
    header: &Header,
    compressed: Span,
    before: &Kept,
) -> Result<BegunFrame<'a>, Halt>
    requires may { MayFollow before.now }
    requires size { IsFrameSize header.now.size }
    requires few { AreFewTiles header.now.params.tiles }
    requires references { HaveSizes header.now.kind }
    requires placed { LiesWithin (length bytes.now) compressed }
    ensures begun { (state : State) → StandsFor before.now state → GivesBegun state bytes.now header.now compressed result }
    ensures sound { IfOk result IsSound }
    ensures bytes { IfOk result (λ b. (b.bytes.now ≡ bytes.now) × (b.setting.header ≡ header.now) × (b.compressed ≡ compressed)) }
{
    let mut saved = before.saved;
    saved.reset(header);
    let contexts = saved.at(saved_place(header));
    let setting = begin_frame(bytes, header, compressed, &contexts)?;
    Ok(BegunFrame {
        bytes,
        compressed,
        setting,
        contexts,
        saved,
        segments: segments_for(alloc, header, before)?,
        last: Arc::try_clone(&before.last)?,
    })
}

impl BegunFrame<'_> {
    /// What its blocks are read by.
    pub fn sources(&self) -> FrameSources<'_>
        requires sound { IsSound self.now }
        ensures is { sources_of result ≡ sources_by self.now }
        ensures header { result.setting.header ≡ self.now.setting.header }
        ensures past { IsPastOf self.now.setting.header result.past }
    {
        let header = &self.setting.header;
        FrameSources {
            setting: FrameSetting::new(header, self.setting.modes, self.setting.contexts),
            past: FramePast {
                contexts: &self.contexts,
                segments: segments_of(&self.segments),
                vectors: vectors_before(header, &self.last),
            },
        }
    }
}
