//! The references of inter frames.

ghost use Rattle.std.specs.Prelude.{◌≡◌, ◌<◌, ◌&&◌, not, IfOk, true, false, if◌then◌else◌};
ghost use Rattle.frame_headers.specs.declared.header.FrameKind.TheVariants as kinds;
ghost use Rattle.frame_headers.specs.References.{reference, references, found_size, filter_of, interpolation_filter, inter_fields};
ghost use Rattle.frame_headers.specs.FrameSizes.{IsFrameSize};
ghost use Rattle.header_writer.specs.Code.{HasPut};
ghost use Rattle.header_writer.specs.WrittenFields.{Puts};
ghost use Rattle.header_writer.specs.Spelling.{filter_code, spelled_frame_filter, spelled_found_size, spelled_inter_fields, spelled_own_size, spelled_reference, spelled_frame_references};
ghost use Rattle.header_writer.specs.WellFormed.{IsReference, AreReferences};

use crate::bits::BitWriter;
use crate::choices::Choices;
use crate::size::{put_frame_size, put_render_size};
use frame_headers::{
    FieldName, FrameFields, FrameFilter, FrameSize, InterFields, Persist, Reference, References,
};
use std::alloc::AllocError;
use vp9_types::InterpFilter;

/// The bias that is coded is what is chosen in an error-resilient frame, where it counts as 0, or else what it is.
fn coded_bias(error_resilient: bool, bias: bool, chosen: bool) -> bool
    requires { error_resilient ≡ true → bias ≡ false }
    ensures counts { (not error_resilient && result) ≡ bias }
    ensures codes { result ≡ (if error_resilient then chosen else bias) }
{
    if error_resilient { chosen } else { bias }
}

#[tactic(auto, unfolding(crate::specs::Spelling::spelled_reference), using(crate::proofs::SlotPuts::reference_put, crate::proofs::Spells::spells_on))]
fn put_reference(
    bits: &mut BitWriter,
    before: &Persist,
    error_resilient: bool,
    r: Reference,
    bias: bool,
) -> Result<(), AllocError>
    requires { IsReference before.now error_resilient r }
    ensures puts { IfOk result (λ _. Puts (reference before.now error_resilient) bits.old r bits.new) }
    ensures spells { IfOk result (λ _. HasPut bits.old (spelled_reference error_resilient r bias) bits.new) }
{
    bits.byte(FieldName::RefFrameIdx, 3, r.slot)?;
    let coded = coded_bias(error_resilient, r.sign_bias, bias);
    bits.flag_field(FieldName::RefFrameSignBias, coded)
}

#[tactic(auto, unfolding(frame_headers::specs::References::references, crate::specs::Spelling::spelled_frame_references), using(vp9_types::proofs::Binds::writes_bind, crate::proofs::Spells::spells_on))]
fn put_references(
    bits: &mut BitWriter,
    before: &Persist,
    error_resilient: bool,
    refs: &References,
    biases: [bool; 3],
) -> Result<(), AllocError>
    requires last { IsReference before.now error_resilient refs.now.last }
    requires golden { IsReference before.now error_resilient refs.now.golden }
    requires altref { IsReference before.now error_resilient refs.now.altref }
    ensures puts { IfOk result (λ _. Puts (references before.now error_resilient) bits.old refs.now bits.new) }
    ensures spells { IfOk result (λ _. HasPut bits.old (spelled_frame_references error_resilient refs.now biases) bits.new) }
{
    put_reference(bits, before, error_resilient, refs.last, biases[0])?;
    put_reference(bits, before, error_resilient, refs.golden, biases[1])?;
    put_reference(bits, before, error_resilient, refs.altref, biases[2])
}

/// Puts that no reference is found to have the size, and the size.
#[tactic(auto, unfolding(frame_headers::specs::References::found_size, crate::specs::Spelling::spelled_own_size), using(vp9_types::proofs::Binds::writes_bind, crate::proofs::Spells::spells_on))]
fn put_own_size(bits: &mut BitWriter, refs: &References, size: FrameSize) -> Result<(), AllocError>
    requires { IsFrameSize size }
    ensures puts { IfOk result (λ _. Puts (found_size refs.now) bits.old size bits.new) }
    ensures spells { IfOk result (λ _. HasPut bits.old (spelled_own_size size) bits.new) }
{
    bits.flag_field(FieldName::FoundRef, false)?;
    bits.flag_field(FieldName::FoundRef, false)?;
    bits.flag_field(FieldName::FoundRef, false)?;
    put_frame_size(bits, size)
}

/// Puts that the size is the first reference's that has it, or the size itself (6.2.5 of the standard).
#[tactic(auto, unfolding(frame_headers::specs::References::found_size, crate::specs::Spelling::spelled_found_size), using(vp9_types::proofs::Binds::writes_bind, crate::proofs::Spells::spells_on))]
fn put_found_size(
    bits: &mut BitWriter,
    refs: &References,
    size: FrameSize,
    own_size: bool,
) -> Result<(), AllocError>
    requires { IsFrameSize size }
    ensures puts { IfOk result (λ _. Puts (found_size refs.now) bits.old size bits.new) }
    ensures spells { IfOk result (λ _. HasPut bits.old (spelled_found_size own_size refs.now size) bits.new) }
{
    if own_size {
        return put_own_size(bits, refs, size);
    }
    if refs.last.size() == size {
        return bits.flag_field(FieldName::FoundRef, true);
    }
    if refs.golden.size() == size {
        bits.flag_field(FieldName::FoundRef, false)?;
        return bits.flag_field(FieldName::FoundRef, true);
    }
    if refs.altref.size() == size {
        bits.flag_field(FieldName::FoundRef, false)?;
        bits.flag_field(FieldName::FoundRef, false)?;
        return bits.flag_field(FieldName::FoundRef, true);
    }
    put_own_size(bits, refs, size)
}

fn filter_code(filter: InterpFilter) -> u8
    ensures is { filter_of result ≡ filter }
    ensures code { result ≡ filter_code filter }
    ensures fits { result < 4 }
{
    match filter {
        InterpFilter::Smooth => 0,
        InterpFilter::Regular => 1,
        InterpFilter::Sharp => 2,
        InterpFilter::Bilinear => 3,
    }
}

#[tactic(auto, unfolding(frame_headers::specs::References::interpolation_filter, crate::specs::Spelling::spelled_frame_filter), using(vp9_types::proofs::Binds::writes_bind, crate::proofs::Spells::spells_on))]
fn put_interpolation_filter(bits: &mut BitWriter, filter: FrameFilter) -> Result<(), AllocError>
    ensures puts { IfOk result (λ _. Puts interpolation_filter bits.old filter bits.new) }
    ensures spells { IfOk result (λ _. HasPut bits.old (spelled_frame_filter filter) bits.new) }
{
    match filter {
        FrameFilter::Switchable => bits.flag_field(FieldName::IsFilterSwitchable, true),
        FrameFilter::Fixed(filter) => {
            bits.flag_field(FieldName::IsFilterSwitchable, false)?;
            let code = filter_code(filter);
            bits.byte(FieldName::RawInterpolationFilter, 2, code)
        }
    }
}

/// Puts what an inter frame codes from its refreshed slots on.
#[tactic(auto, unfolding(frame_headers::specs::References::inter_fields, crate::specs::Spelling::spelled_inter_fields), using(vp9_types::proofs::Binds::writes_bind, crate::proofs::Spells::spells_on))]
pub fn put_inter_fields(
    bits: &mut BitWriter,
    before: &Persist,
    error_resilient: bool,
    fields: &FrameFields,
    inter: &InterFields,
    choices: Choices,
) -> Result<(), AllocError>
    requires size { IsFrameSize fields.now.size }
    requires references { AreReferences before.now error_resilient fields.now.size inter.now.references }
    requires color { fields.now.color ≡ before.now.color }
    requires kind { fields.now.kind ≡ kinds.Inter inter.now }
    ensures puts { IfOk result (λ _. Puts (inter_fields before.now error_resilient fields.now.reset_context) bits.old fields.now bits.new) }
    ensures spells { IfOk result (λ _. HasPut bits.old (spelled_inter_fields error_resilient choices fields.now.refresh fields.now.size inter.now) bits.new) }
{
    bits.byte(FieldName::RefreshFrameFlags, 8, fields.refresh)?;
    let refs = &inter.references;
    put_references(bits, before, error_resilient, refs, choices.biases)?;
    put_found_size(bits, refs, fields.size, choices.own_size)?;
    put_render_size(bits)?;
    bits.flag_field(FieldName::AllowHighPrecisionMv, inter.high_precision)?;
    put_interpolation_filter(bits, inter.filter)
}
