ghost use Rattle.std.specs.Prelude.{◌≡◌, IfOk, length};
ghost use Rattle.frame_headers.specs.Fields.{Reads};
ghost use Rattle.frame_headers.specs.Header.{coded_profile, frame_profile, frame_sync_code, key_fields, intra_only_fields, intra_and_reset, other_fields, forgets, kept_deltas, kept_features, frame_fields, frame_start, frame_contexts, frame_params, coded_frame, uncompressed_header, head_of, HasFewTiles, HeadHasFewTiles, HasSize, HeadHasSize, LiesIn};
ghost use Rattle.frame_headers.specs.FrameSizes.{IsFrameSize};
ghost use Rattle.frame_headers.specs.HeaderState.{SlotsHaveSizes};
ghost use Rattle.frame_headers.specs.Tiles.{AreFewTiles};

use crate::bits::BitReader;
use crate::color::{read_color_config, read_intra_only_color, read_reserved_zero};
use crate::field::FieldName;
use crate::filter::{LoopDeltas, read_loop_filter};
use crate::header::{
    FrameContexts, FrameFields, FrameHead, FrameKind, FrameParams, FrameStart, Header, Uncompressed,
};
use crate::persist::Persist;
use crate::quantizer::read_quantizer;
use crate::references::{read_inter_fields, read_slot};
use crate::segments::{Features, read_segmentation};
use crate::size::{read_frame_size, read_render_size};
use crate::tiles::read_tile_info;
use vp9_types::{Rule, Span};

#[tactic(auto, unfolding(crate::specs::Header::coded_profile), using(vp9_types::proofs::Runs::run_bind))]
fn read_coded_profile(bits: &mut BitReader<'_>) -> Result<u8, Rule>
    ensures reads { Reads coded_profile bits.old result bits.new }
{
    let low = bits.byte(FieldName::ProfileLowBit, 1)?;
    let high = bits.byte(FieldName::ProfileHighBit, 1)?;
    Ok(2 * high + low)
}

#[tactic(auto, unfolding(crate::specs::Header::frame_profile), using(vp9_types::proofs::Runs::run_bind))]
fn read_frame_profile(bits: &mut BitReader<'_>) -> Result<u8, Rule>
    ensures { Reads frame_profile bits.old result bits.new }
{
    if bits.byte(FieldName::FrameMarker, 2)? != 2 {
        return Err(Rule::FrameMarker);
    }
    let profile = read_coded_profile(bits)?;
    if profile == 3 {
        read_reserved_zero(bits)?;
    }
    Ok(profile)
}

#[tactic(auto, unfolding(crate::specs::Header::frame_sync_code), using(vp9_types::proofs::Runs::run_bind))]
fn read_frame_sync_code(bits: &mut BitReader<'_>) -> Result<(), Rule>
    ensures { Reads frame_sync_code bits.old result bits.new }
{
    if bits.byte(FieldName::FrameSyncByte0, 8)? != 0x49 {
        return Err(Rule::SyncCode);
    }
    if bits.byte(FieldName::FrameSyncByte1, 8)? != 0x83 {
        return Err(Rule::SyncCode);
    }
    if bits.byte(FieldName::FrameSyncByte2, 8)? != 0x42 {
        return Err(Rule::SyncCode);
    }
    Ok(())
}

#[tactic(auto, unfolding(crate::specs::Header::frame_contexts), using(vp9_types::proofs::Runs::run_bind))]
fn read_frame_contexts(
    bits: &mut BitReader<'_>,
    error_resilient: bool,
) -> Result<FrameContexts, Rule>
    ensures { Reads (frame_contexts error_resilient) bits.old result bits.new }
{
    let mut refresh = false;
    let mut parallel = true;
    if !error_resilient {
        refresh = bits.flag_field(FieldName::RefreshFrameContext)?;
        parallel = bits.flag_field(FieldName::FrameParallelDecodingMode)?;
    }
    let index = bits.byte(FieldName::FrameContextIdx, 2)?;
    Ok(FrameContexts {
        refresh,
        parallel,
        index,
    })
}

#[tactic(auto, unfolding(crate::specs::Header::frame_params), using(vp9_types::proofs::Runs::run_bind))]
fn read_frame_params(
    bits: &mut BitReader<'_>,
    deltas: LoopDeltas,
    features: Features,
    width: u32,
) -> Result<FrameParams, Rule>
    ensures reads { Reads (frame_params deltas features width) bits.old result bits.new }
    ensures few { IfOk result (λ params. AreFewTiles params.tiles) }
{
    let loop_filter = read_loop_filter(bits, deltas)?;
    let quantizer = read_quantizer(bits)?;
    let segmentation = read_segmentation(bits, features)?;
    let tiles = read_tile_info(bits, width)?;
    let compressed_size = bits.field(FieldName::HeaderSizeInBytes, 16)?;
    if compressed_size == 0 {
        return Err(Rule::HeaderSizeZero);
    }
    Ok(FrameParams {
        loop_filter,
        quantizer,
        segmentation,
        tiles,
        compressed_size,
    })
}

/// A key frame is coded from its sync code on, and refreshes all slots.
#[tactic(auto, unfolding(crate::specs::Header::key_fields), using(vp9_types::proofs::Runs::run_bind))]
fn read_key_fields(bits: &mut BitReader<'_>, profile: u8) -> Result<FrameFields, Rule>
    ensures reads { Reads (key_fields profile) bits.old result bits.new }
    ensures size { IfOk result (λ fields. IsFrameSize fields.size) }
{
    read_frame_sync_code(bits)?;
    let color = read_color_config(bits, profile)?;
    let size = read_frame_size(bits)?;
    read_render_size(bits)?;
    Ok(FrameFields {
        kind: FrameKind::Key,
        reset_context: 0,
        refresh: 0xff,
        color,
        size,
    })
}

#[tactic(auto, unfolding(crate::specs::Header::intra_only_fields), using(vp9_types::proofs::Runs::run_bind))]
fn read_intra_only_fields(
    bits: &mut BitReader<'_>,
    profile: u8,
    reset_context: u8,
) -> Result<FrameFields, Rule>
    ensures reads { Reads (intra_only_fields profile reset_context) bits.old result bits.new }
    ensures size { IfOk result (λ fields. IsFrameSize fields.size) }
{
    read_frame_sync_code(bits)?;
    let color = read_intra_only_color(bits, profile)?;
    let refresh = bits.byte(FieldName::RefreshFrameFlags, 8)?;
    let size = read_frame_size(bits)?;
    read_render_size(bits)?;
    Ok(FrameFields {
        kind: FrameKind::IntraOnly,
        reset_context,
        refresh,
        color,
        size,
    })
}

/// Whether a frame that is no key frame is intra only, which a shown one isn't, and which contexts it resets.
#[tactic(auto, unfolding(crate::specs::Header::intra_and_reset), using(vp9_types::proofs::Runs::run_bind))]
fn read_intra_and_reset(
    bits: &mut BitReader<'_>,
    show_frame: bool,
    error_resilient: bool,
) -> Result<(bool, u8), Rule>
    ensures { Reads (intra_and_reset show_frame error_resilient) bits.old result bits.new }
{
    let intra_only = if show_frame {
        false
    } else {
        bits.flag_field(FieldName::IntraOnly)?
    };
    let reset_context = if error_resilient {
        0
    } else {
        bits.byte(FieldName::ResetFrameContext, 2)?
    };
    Ok((intra_only, reset_context))
}

#[tactic(auto, unfolding(crate::specs::Header::other_fields), using(vp9_types::proofs::Runs::run_bind))]
fn read_other_fields(
    bits: &mut BitReader<'_>,
    before: &Persist,
    profile: u8,
    show_frame: bool,
    error_resilient: bool,
) -> Result<FrameFields, Rule>
    ensures reads { Reads (other_fields before.now profile show_frame error_resilient) bits.old result bits.new }
    ensures size { SlotsHaveSizes before.now → IfOk result (λ fields. IsFrameSize fields.size) }
{
    let (intra_only, reset) = read_intra_and_reset(bits, show_frame, error_resilient)?;
    if intra_only {
        read_intra_only_fields(bits, profile, reset)
    } else {
        read_inter_fields(bits, before, error_resilient, reset)
    }
}

/// Whether a frame loses the past: an intra frame and an error-resilient one do.
fn loses_past(kind: &FrameKind, error_resilient: bool) -> bool
    ensures { result ≡ forgets kind.now error_resilient }
{
    match kind {
        FrameKind::Inter(_) => error_resilient,
        FrameKind::Key | FrameKind::IntraOnly => true,
    }
}

/// The filter deltas and segment features that a frame starts from.
fn kept_by(before: &Persist, kind: &FrameKind, error_resilient: bool) -> (LoopDeltas, Features)
    ensures deltas { result.0 ≡ kept_deltas before.now (forgets kind.now error_resilient) }
    ensures features { result.1 ≡ kept_features before.now (forgets kind.now error_resilient) }
{
    if loses_past(kind, error_resilient) {
        (LoopDeltas::DEFAULT, Features::NONE)
    } else {
        (before.deltas, before.features)
    }
}

#[tactic(auto, unfolding(crate::specs::Header::frame_fields), using(vp9_types::proofs::Runs::run_bind))]
fn read_frame_fields(
    bits: &mut BitReader<'_>,
    before: &Persist,
    profile: u8,
    start: FrameStart,
) -> Result<FrameFields, Rule>
    ensures reads { Reads (frame_fields before.now profile start) bits.old result bits.new }
    ensures size { SlotsHaveSizes before.now → IfOk result (λ fields. IsFrameSize fields.size) }
{
    if start.is_key {
        read_key_fields(bits, profile)
    } else {
        read_other_fields(
            bits,
            before,
            profile,
            start.show_frame,
            start.error_resilient,
        )
    }
}

#[tactic(auto, unfolding(crate::specs::Header::frame_start), using(vp9_types::proofs::Runs::run_bind))]
fn read_frame_start(bits: &mut BitReader<'_>) -> Result<FrameStart, Rule>
    ensures { Reads frame_start bits.old result bits.new }
{
    let is_key = !bits.flag_field(FieldName::FrameType)?;
    let show_frame = bits.flag_field(FieldName::ShowFrame)?;
    let error_resilient = bits.flag_field(FieldName::ErrorResilientMode)?;
    Ok(FrameStart {
        is_key,
        show_frame,
        error_resilient,
    })
}

/// Reads the header of a coded frame from its frame type on.
#[tactic(auto, unfolding(crate::specs::Header::coded_frame), using(vp9_types::proofs::Runs::run_bind))]
fn read_coded_frame(bits: &mut BitReader<'_>, before: &Persist, profile: u8) -> Result<Header, Rule>
    ensures reads { Reads (coded_frame before.now profile) bits.old result bits.new }
    ensures few { IfOk result (λ header. AreFewTiles header.params.tiles) }
    ensures size { SlotsHaveSizes before.now → IfOk result (λ header. IsFrameSize header.size) }
{
    let start = read_frame_start(bits)?;
    let fields = read_frame_fields(bits, before, profile, start)?;
    let contexts = read_frame_contexts(bits, start.error_resilient)?;
    let (deltas, features) = kept_by(before, &fields.kind, start.error_resilient);
    let params = read_frame_params(bits, deltas, features, fields.size.width)?;
    Ok(Header {
        profile,
        kind: fields.kind,
        show_frame: start.show_frame,
        error_resilient: start.error_resilient,
        reset_context: fields.reset_context,
        color: fields.color,
        size: fields.size,
        refresh: fields.refresh,
        contexts,
        params,
    })
}

#[tactic(auto, unfolding(crate::specs::Header::uncompressed_header), using(vp9_types::proofs::Runs::run_bind))]
fn read_uncompressed(bits: &mut BitReader<'_>, before: &Persist) -> Result<Uncompressed, Rule>
    ensures reads { Reads (uncompressed_header before.now) bits.old result bits.new }
    ensures few { IfOk result HasFewTiles }
    ensures size { SlotsHaveSizes before.now → IfOk result HasSize }
{
    let profile = read_frame_profile(bits)?;
    if bits.flag_field(FieldName::ShowExistingFrame)? {
        let (slot, _) = read_slot(
            bits,
            FieldName::FrameToShowMapIdx,
            before,
            Rule::ShowMissing,
        )?;
        return Ok(Uncompressed::ShowExisting { slot });
    }
    Ok(Uncompressed::Coded(read_coded_frame(bits, before, profile)?))
}

/// Reads the uncompressed header of a frame, after the frames that `before` stands for.
pub fn read(frame: &[u8], before: &Persist) -> Result<FrameHead, Rule>
    ensures exact { result ≡ head_of before.now frame.now }
    ensures few { IfOk result HeadHasFewTiles }
    // A frame may have the size of a slot, so its size is one that a frame can have where the slots' are.
    ensures sizes { SlotsHaveSizes before.now → IfOk result HeadHasSize }
    ensures placed { IfOk result (LiesIn (length frame.now)) }
{
    let mut bits = BitReader::new(frame);
    let uncompressed = read_uncompressed(&mut bits, before)?;
    match uncompressed {
        Uncompressed::ShowExisting { slot } => Ok(FrameHead::ShowExisting { slot }),
        Uncompressed::Coded(header) => {
            let left = bits.bytes_left();
            let size = usize::from(header.params.compressed_size);
            if left < size {
                return Err(Rule::HeaderSizeLong);
            }
            let from = frame.len() - left;
            let to = from + size;
            let compressed = Span { from, to };
            Ok(FrameHead::Coded { header, compressed })
        }
    }
}
