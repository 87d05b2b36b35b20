//! What a frame leaves to the frames behind it.

ghost use Rattle.std.specs.Prelude.{◌≡◌, ◌&&◌, ℕ, Some, All, IfOk};
ghost use Rattle.std.specs.Arc.{arc_value};
ghost use Rattle.block_geometry.specs.FrameShapes.{places_of};
ghost use Rattle.frame_headers.specs.HeaderState.{shape_of};
ghost use Rattle.seq_decoder.specs.frame_decoder.DecodedFrames.{FrameResult};
ghost use Rattle.seq_decoder.specs.frame_state.KeptColumns.{HasStarts, blocks_of};
ghost use Rattle.seq_decoder.specs.frame_state.FrameReading.{FrameRead, all_blocks};
ghost use Rattle.inter_modes.specs.LeftSegments.{segments_after, updates};
ghost use Rattle.seq_decoder.specs.After.{state_after};
ghost use Rattle.seq_decoder.specs.Code.{HasPlaces, segments_held};
ghost use Rattle.seq_decoder.specs.DecoderState.{State};
ghost use Rattle.frame_steps.specs.StepResults.{BeginsIn, IsDecoded, IsSound, Leaves};
ghost use Rattle.frame_steps.specs.Kept.{MayFollow, StandsFor};

use crate::beginning::BegunFrame;
use crate::kept::Kept;
use block_plan::SegmentMap;
use frame_headers::{Header, refresh_slots};
use seq_decoder::frame_decoder::Decoded;
use seq_decoder::frame_state::TileColumn;
use seq_decoder::{LastFrame, after_key, keep_segments, own_contexts, segments_of};
use std::alloc::{AllocError, Global};
use std::sync::Arc;

/// Whether a frame changes the map of segments.
fn updates_segments(header: &Header) -> bool
    ensures { result ≡ (header.now.params.segmentation.enabled && updates header.now.params.segmentation.map) }
{
    header.params.segmentation.enabled && header.params.segmentation.map.is_some()
}

/// The map of segments that a frame leaves.
fn segments_behind(
    alloc: Global,
    frame: &BegunFrame<'_>,
    columns: &[TileColumn],
) -> Result<Arc<Option<SegmentMap>>, AllocError>
    requires sound { IsSound frame.now }
    requires starts { All (HasStarts frame.now.setting.header) columns.now }
    ensures map { IfOk result (λ a. segments_held (arc_value a) ≡ segments_after frame.now.setting.header.params.segmentation
        (places_of (shape_of frame.now.setting.header)) (all_blocks (blocks_of columns.now)) (segments_held (arc_value frame.now.segments))) }
    ensures places { IfOk result (λ a. HasPlaces (Some frame.now.setting.header.size) (arc_value a)) }
{
    let header = &frame.setting.header;
    if !updates_segments(header) {
        return Arc::try_clone(&frame.segments);
    }
    let mut map = Some(segments_of(&frame.segments).copied(alloc)?);
    keep_segments(&mut map, header, columns);
    Ok(Arc::new(alloc, map)?)
}

/// What is kept behind a frame of this number, which is decoded.
pub fn keep(
    alloc: Global,
    number: u64,
    frame: &BegunFrame<'_>,
    decoded: Decoded,
    before: &Kept,
) -> Result<Kept, AllocError>
    requires sound { IsSound frame.now }
    requires decoded { (read : FrameRead) × IsDecoded frame.now read decoded }
    requires may { MayFollow before.now }
    ensures stands { IfOk result (λ k. (state : State) (r : FrameResult) → StandsFor before.now state → BeginsIn state frame.now →
        Leaves frame.now.setting.header decoded r → StandsFor k (state_after number state frame.now.setting.header r)) }
    ensures form { IfOk result (λ k. k.form ≡ before.now.form) }
    ensures may { IfOk result MayFollow }
{
    let header = &frame.setting.header;
    let own = own_contexts(header, &frame.contexts, &decoded, after_key(&frame.last));
    let mut saved = frame.saved;
    saved.save(header, &own);
    let mut slots = before.slots;
    refresh_slots(&mut slots, header.refresh, number);
    let segments = segments_behind(alloc, frame, &decoded.columns)?;
    let last = LastFrame {
        header: *header,
        columns: decoded.columns,
    };
    Ok(Kept {
        persist: header.next(&before.persist),
        saved,
        slots,
        segments,
        last: Arc::new(alloc, Some(last))?,
        form: before.form,
    })
}
