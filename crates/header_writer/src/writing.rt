//! Whole headers.

ghost use Rattle.std.specs.Prelude.{◌≡◌, ◌<◌, ◌++◌, List, ℕ, IfOk, OnErr, true, false};
ghost use Rattle.frame_headers.specs.Header.{coded_profile, frame_profile, frame_sync_code, frame_contexts, frame_params, key_fields, intra_only_fields, intra_and_reset, other_fields, frame_fields, frame_start, forgets, kept_deltas, kept_features, coded_frame, uncompressed_header};
ghost use Rattle.frame_headers.specs.declared.header.FrameKind.TheVariants as kinds;
ghost use Rattle.frame_headers.specs.declared.header.Uncompressed.TheVariants as headers;
ghost use Rattle.frame_headers.specs.FrameSizes.{IsFrameSize};
ghost use Rattle.header_writer.specs.Code.{HasPut, fields_of, start_of};
ghost use Rattle.header_writer.specs.WrittenFields.{Puts};
ghost use Rattle.header_writer.specs.HeaderReads.{HoldsHeader};
ghost use Rattle.header_writer.specs.Spelling.{IsSpelled, spelled_coded_frame, spelled_coded_profile, spelled_contexts, spelled_fields, spelled_header, spelled_intra_and_reset, spelled_intra_only_fields, spelled_key_fields, spelled_params, spelled_profile, spelled_frame_start, spelled_sync_code};
ghost use Rattle.header_writer.specs.WellFormed.{IsColor, IsIntraOnlyColor, IsReset, IsContexts, IsParams, IsOfKind, IsHeader, IsWellFormed, AreKept, CanChoose};

use crate::bits::BitWriter;
use crate::choices::Choices;
use crate::color::{put_color_config, put_intra_only_color, put_reserved_zero};
use crate::filter::put_loop_filter;
use crate::quantizer::put_quantizer;
use crate::references::put_inter_fields;
use crate::segments::put_segmentation;
use crate::size::{put_frame_size, put_render_size};
use crate::tiles::put_tile_info;
use frame_headers::{
    Features, FieldName, FrameContexts, FrameFields, FrameKind, FrameStart, Header, LoopDeltas,
    Persist, Uncompressed,
};
use std::alloc::{AllocError, Global};

/// The bits of the frame marker.
const FRAME_MARKER: u8 = 2;

#[tactic(auto, unfolding(frame_headers::specs::Header::coded_profile, crate::specs::Spelling::spelled_coded_profile), using(vp9_types::proofs::Binds::writes_bind, crate::proofs::Spells::spells_on))]
fn put_coded_profile(bits: &mut BitWriter, profile: u8) -> Result<(), AllocError>
    requires { profile < 4 }
    ensures puts { IfOk result (λ _. Puts coded_profile bits.old profile bits.new) }
    ensures spells { IfOk result (λ _. HasPut bits.old (spelled_coded_profile profile) bits.new) }
{
    bits.byte(FieldName::ProfileLowBit, 1, profile % 2)?;
    bits.byte(FieldName::ProfileHighBit, 1, profile / 2)
}

#[tactic(auto, unfolding(frame_headers::specs::Header::frame_profile, crate::specs::Spelling::spelled_profile), using(vp9_types::proofs::Binds::writes_bind, crate::proofs::Spells::spells_on, crate::proofs::Spells::spells_same))]
fn put_frame_profile(bits: &mut BitWriter, profile: u8) -> Result<(), AllocError>
    requires { profile < 4 }
    ensures puts { IfOk result (λ _. Puts frame_profile bits.old profile bits.new) }
    ensures spells { IfOk result (λ _. HasPut bits.old (spelled_profile profile) bits.new) }
{
    bits.byte(FieldName::FrameMarker, 2, FRAME_MARKER)?;
    put_coded_profile(bits, profile)?;
    if profile == 3 {
        put_reserved_zero(bits)?;
    }
    Ok(())
}

#[tactic(auto, unfolding(frame_headers::specs::Header::frame_sync_code, crate::specs::Spelling::spelled_sync_code), using(vp9_types::proofs::Binds::writes_bind, crate::proofs::Spells::spells_on))]
fn put_frame_sync_code(bits: &mut BitWriter) -> Result<(), AllocError>
    ensures puts { IfOk result (λ u. Puts frame_sync_code bits.old u bits.new) }
    ensures spells { IfOk result (λ _. HasPut bits.old spelled_sync_code bits.new) }
{
    bits.byte(FieldName::FrameSyncByte0, 8, 0x49)?;
    bits.byte(FieldName::FrameSyncByte1, 8, 0x83)?;
    bits.byte(FieldName::FrameSyncByte2, 8, 0x42)
}

#[tactic(auto, unfolding(frame_headers::specs::Header::frame_contexts, crate::specs::Spelling::spelled_contexts), using(vp9_types::proofs::Binds::writes_bind, crate::proofs::Spells::spells_on))]
fn put_frame_contexts(
    bits: &mut BitWriter,
    error_resilient: bool,
    contexts: FrameContexts,
) -> Result<(), AllocError>
    requires { IsContexts error_resilient contexts }
    ensures puts { IfOk result (λ _. Puts (frame_contexts error_resilient) bits.old contexts bits.new) }
    ensures spells { IfOk result (λ _. HasPut bits.old (spelled_contexts error_resilient contexts) bits.new) }
{
    if error_resilient {
        return bits.byte(FieldName::FrameContextIdx, 2, contexts.index);
    }
    bits.flag_field(FieldName::RefreshFrameContext, contexts.refresh)?;
    bits.flag_field(FieldName::FrameParallelDecodingMode, contexts.parallel)?;
    bits.byte(FieldName::FrameContextIdx, 2, contexts.index)
}

#[tactic(auto, unfolding(frame_headers::specs::Header::frame_params, crate::specs::Spelling::spelled_params), using(vp9_types::proofs::Binds::writes_bind, crate::proofs::Spells::spells_on))]
fn put_frame_params(
    bits: &mut BitWriter,
    deltas: LoopDeltas,
    features: &Features,
    header: &Header,
    choices: Choices,
) -> Result<(), AllocError>
    requires are { IsParams deltas features.now header.now.size.width header.now.params }
    requires kept { AreKept deltas features.now choices header.now.params }
    ensures puts { IfOk result (λ _. Puts (frame_params deltas features.now header.now.size.width) bits.old header.now.params bits.new) }
    ensures spells { IfOk result (λ _. HasPut bits.old (spelled_params choices deltas header.now.size.width header.now.params) bits.new) }
{
    let params = &header.params;
    put_loop_filter(bits, deltas, params.loop_filter, choices.deltas)?;
    put_quantizer(bits, params.quantizer)?;
    put_segmentation(bits, features, &params.segmentation, choices.features)?;
    put_tile_info(bits, header.size.width, params.tiles)?;
    bits.field(FieldName::HeaderSizeInBytes, 16, params.compressed_size)
}

#[tactic(auto, unfolding(frame_headers::specs::Header::key_fields, crate::specs::Spelling::spelled_key_fields), using(vp9_types::proofs::Binds::writes_bind, crate::proofs::Spells::spells_on))]
fn put_key_fields(bits: &mut BitWriter, profile: u8, fields: &FrameFields) -> Result<(), AllocError>
    requires size { IsFrameSize fields.now.size }
    requires color { IsColor profile fields.now.color }
    requires kind { fields.now.kind ≡ kinds.Key }
    requires reset { fields.now.reset_context ≡ 0 }
    requires refresh { fields.now.refresh ≡ 255 }
    ensures puts { IfOk result (λ _. Puts (key_fields profile) bits.old fields.now bits.new) }
    ensures spells { IfOk result (λ _. HasPut bits.old (spelled_key_fields profile fields.now.color fields.now.size) bits.new) }
{
    put_frame_sync_code(bits)?;
    put_color_config(bits, profile, fields.color)?;
    put_frame_size(bits, fields.size)?;
    put_render_size(bits)
}

#[tactic(auto, unfolding(frame_headers::specs::Header::intra_only_fields, crate::specs::Spelling::spelled_intra_only_fields), using(vp9_types::proofs::Binds::writes_bind, crate::proofs::Spells::spells_on))]
fn put_intra_only_fields(
    bits: &mut BitWriter,
    profile: u8,
    fields: &FrameFields,
) -> Result<(), AllocError>
    requires size { IsFrameSize fields.now.size }
    requires color { IsIntraOnlyColor profile fields.now.color }
    requires kind { fields.now.kind ≡ kinds.IntraOnly }
    ensures puts { IfOk result (λ _. Puts (intra_only_fields profile fields.now.reset_context) bits.old fields.now bits.new) }
    ensures spells { IfOk result (λ _. HasPut bits.old (spelled_intra_only_fields profile fields.now.color fields.now.refresh fields.now.size) bits.new) }
{
    put_frame_sync_code(bits)?;
    put_intra_only_color(bits, profile, fields.color)?;
    bits.byte(FieldName::RefreshFrameFlags, 8, fields.refresh)?;
    put_frame_size(bits, fields.size)?;
    put_render_size(bits)
}

/// Puts whether a frame that is no key frame is intra only, which a shown one isn't, and which contexts it resets.
#[tactic(auto, unfolding(frame_headers::specs::Header::intra_and_reset, crate::specs::Spelling::spelled_intra_and_reset), using(vp9_types::proofs::Binds::writes_bind, crate::proofs::Spells::spells_on, crate::proofs::Spells::spells_same, crate::proofs::Spells::spells_none))]
fn put_intra_and_reset(
    bits: &mut BitWriter,
    show_frame: bool,
    error_resilient: bool,
    intra_only: bool,
    reset_context: u8,
) -> Result<(), AllocError>
    requires hidden { show_frame ≡ true → intra_only ≡ false }
    requires reset { IsReset error_resilient reset_context }
    ensures puts { IfOk result (λ _. Puts (intra_and_reset show_frame error_resilient) bits.old (intra_only, reset_context) bits.new) }
    ensures spells { IfOk result (λ _. HasPut bits.old (spelled_intra_and_reset show_frame error_resilient intra_only reset_context) bits.new) }
{
    if !show_frame {
        bits.flag_field(FieldName::IntraOnly, intra_only)?;
    }
    if !error_resilient {
        bits.byte(FieldName::ResetFrameContext, 2, reset_context)?;
    }
    Ok(())
}

#[tactic(auto, unfolding(frame_headers::specs::Header::frame_start, crate::specs::Spelling::spelled_frame_start), using(vp9_types::proofs::Binds::writes_bind, crate::proofs::Spells::spells_on))]
fn put_frame_start(bits: &mut BitWriter, start: FrameStart) -> Result<(), AllocError>
    ensures puts { IfOk result (λ _. Puts frame_start bits.old start bits.new) }
    ensures spells { IfOk result (λ _. HasPut bits.old (spelled_frame_start start.is_key start.show_frame start.error_resilient) bits.new) }
{
    bits.flag_field(FieldName::FrameType, !start.is_key)?;
    bits.flag_field(FieldName::ShowFrame, start.show_frame)?;
    bits.flag_field(FieldName::ErrorResilientMode, start.error_resilient)
}

fn start_of(header: &Header) -> FrameStart
    ensures { result ≡ start_of header.now }
{
    FrameStart {
        is_key: matches!(header.kind, FrameKind::Key),
        show_frame: header.show_frame,
        error_resilient: header.error_resilient,
    }
}

fn fields_of(header: &Header) -> FrameFields
    ensures { result ≡ fields_of header.now }
{
    FrameFields {
        kind: header.kind,
        reset_context: header.reset_context,
        refresh: header.refresh,
        color: header.color,
        size: header.size,
    }
}

#[tactic(auto, unfolding(frame_headers::specs::Header::frame_fields, frame_headers::specs::Header::other_fields, crate::specs::Spelling::spelled_fields), using(vp9_types::proofs::Binds::writes_bind, crate::proofs::Spells::spells_on))]
fn put_frame_fields(
    bits: &mut BitWriter,
    before: &Persist,
    header: &Header,
    choices: Choices,
) -> Result<(), AllocError>
    requires size { IsFrameSize header.now.size }
    requires kind { IsOfKind before.now header.now header.now.kind }
    ensures puts { IfOk result (λ _. Puts (frame_fields before.now header.now.profile (start_of header.now)) bits.old (fields_of header.now) bits.new) }
    ensures spells { IfOk result (λ _. HasPut bits.old (spelled_fields choices header.now header.now.kind) bits.new) }
{
    let fields = fields_of(header);
    let (show, resilient, reset) = (
        header.show_frame,
        header.error_resilient,
        header.reset_context,
    );
    match &header.kind {
        FrameKind::Key => put_key_fields(bits, header.profile, &fields),
        FrameKind::IntraOnly => {
            put_intra_and_reset(bits, show, resilient, true, reset)?;
            put_intra_only_fields(bits, header.profile, &fields)
        }
        FrameKind::Inter(inter) => {
            put_intra_and_reset(bits, show, resilient, false, reset)?;
            put_inter_fields(bits, before, resilient, &fields, inter, choices)
        }
    }
}

/// Whether a frame loses the past: an intra frame and an error-resilient one do.
fn loses_past(header: &Header) -> bool
    ensures { result ≡ forgets header.now.kind header.now.error_resilient }
{
    match header.kind {
        FrameKind::Inter(_) => header.error_resilient,
        FrameKind::Key | FrameKind::IntraOnly => true,
    }
}

/// The filter deltas and segment features that a frame starts from.
fn kept_by(before: &Persist, header: &Header) -> (LoopDeltas, Features)
    ensures deltas { result.0 ≡ kept_deltas before.now (forgets header.now.kind header.now.error_resilient) }
    ensures features { result.1 ≡ kept_features before.now (forgets header.now.kind header.now.error_resilient) }
{
    if loses_past(header) {
        (LoopDeltas::DEFAULT, Features::NONE)
    } else {
        (before.deltas, before.features)
    }
}

/// Puts the header of a coded frame from its frame type on.
#[tactic(auto, unfolding(frame_headers::specs::Header::coded_frame, crate::specs::Spelling::spelled_coded_frame), using(vp9_types::proofs::Binds::writes_bind, crate::proofs::Spells::spells_on))]
fn put_coded_frame(
    bits: &mut BitWriter,
    before: &Persist,
    header: &Header,
    choices: Choices,
) -> Result<(), AllocError>
    requires is { IsHeader before.now header.now }
    requires can { CanChoose before.now choices (headers.Coded header.now) }
    ensures puts { IfOk result (λ _. Puts (coded_frame before.now header.now.profile) bits.old header.now bits.new) }
    ensures spells { IfOk result (λ _. HasPut bits.old (spelled_coded_frame before.now choices header.now) bits.new) }
{
    put_frame_start(bits, start_of(header))?;
    put_frame_fields(bits, before, header, choices)?;
    put_frame_contexts(bits, header.error_resilient, header.contexts)?;
    let (deltas, features) = kept_by(before, header);
    put_frame_params(bits, deltas, &features, header, choices)
}

#[tactic(auto, unfolding(frame_headers::specs::Header::uncompressed_header, crate::specs::Spelling::spelled_header), using(vp9_types::proofs::Binds::writes_bind, crate::proofs::Spells::spells_on))]
fn put_uncompressed(
    bits: &mut BitWriter,
    before: &Persist,
    header: &Uncompressed,
    choices: Choices,
) -> Result<(), AllocError>
    requires is { IsWellFormed before.now header.now }
    requires can { CanChoose before.now choices header.now }
    ensures puts { IfOk result (λ _. Puts (uncompressed_header before.now) bits.old header.now bits.new) }
    ensures spells { IfOk result (λ _. HasPut bits.old (spelled_header before.now choices header.now) bits.new) }
{
    match header {
        Uncompressed::ShowExisting { slot } => {
            put_frame_profile(bits, 0)?;
            bits.flag_field(FieldName::ShowExistingFrame, true)?;
            bits.byte(FieldName::FrameToShowMapIdx, 3, *slot)?;
            Ok(())
        }
        Uncompressed::Coded(header) => {
            put_frame_profile(bits, header.profile)?;
            bits.flag_field(FieldName::ShowExistingFrame, false)?;
            put_coded_frame(bits, before, header, choices)
        }
    }
}

/// Puts a header, spelled as it is chosen, behind what is there, in whole bytes. After want of memory all is as it was.
pub fn write_uncompressed_header(
    alloc: Global,
    out: &mut Vec<u8>,
    before: &Persist,
    header: &Uncompressed,
    choices: Choices,
) -> Result<(), AllocError>
    requires is { IsWellFormed before.now header.now }
    requires can { CanChoose before.now choices header.now }
    ensures put { IfOk result (λ _. (bytes : List ℕ) × (out.new.items ≡ out.old.items ++ bytes) × HoldsHeader before.now header.now bytes × IsSpelled before.now choices header.now bytes) }
    ensures same { OnErr result (out.new.items ≡ out.old.items) }
{
    let mut bits = BitWriter::new(alloc);
    put_uncompressed(&mut bits, before, header, choices)?;
    let bytes = bits.finish()?;
    out.extend_from_slice(&bytes)?;
    Ok(())
}
