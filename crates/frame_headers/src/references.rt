ghost use Rattle.std.specs.Prelude.{◌≡◌, IfOk};
ghost use Rattle.frame_headers.specs.Fields.{Reads};
ghost use Rattle.frame_headers.specs.References.{same_bit, slot_shape, filter_of, reference, references, found_size, interpolation_filter, inter_fields, HaveFrameSizes};
ghost use Rattle.frame_headers.specs.FrameSizes.{IsFrameSize, HasFrameSize};
ghost use Rattle.frame_headers.specs.HeaderState.{SlotsHaveSizes};

use crate::bits::BitReader;
use crate::color::ColorConfig;
use crate::field::FieldName;
use crate::header::{
    FrameFields, FrameFilter, FrameKind, FrameSize, InterFields, Reference, References,
};
use crate::persist::Persist;
use crate::size::{read_frame_size, read_render_size};
use vp9_types::{InterpFilter, Rule, Shape};

/// What a slot holds. A slot is coded in 3 bits, so there are 8.
#[tactic(auto, unfolding(crate::specs::References::slot_shape), using(vp9_types::proofs::Runs::run_bind))]
pub fn read_slot(
    bits: &mut BitReader<'_>,
    name: FieldName,
    before: &Persist,
    missing: Rule,
) -> Result<(u8, Shape), Rule>
    ensures reads { Reads (slot_shape name before.now missing) bits.old result bits.new }
    ensures size { SlotsHaveSizes before.now → IfOk result (λ held. HasFrameSize held.1) }
{
    let slot = bits.byte(name, 3)?;
    match before.slots[usize::from(slot)] {
        Some(shape) => Ok((slot, shape)),
        None => Err(missing),
    }
}

#[tactic(auto, unfolding(crate::specs::References::reference), using(vp9_types::proofs::Runs::run_bind))]
fn read_reference(
    bits: &mut BitReader<'_>,
    before: &Persist,
    error_resilient: bool,
) -> Result<Reference, Rule>
    ensures reads { Reads (reference before.now error_resilient) bits.old result bits.new }
    ensures size { SlotsHaveSizes before.now → IfOk result (λ reference. HasFrameSize reference.shape) }
{
    let (slot, shape) = read_slot(bits, FieldName::RefFrameIdx, before, Rule::RefMissing)?;
    let bias = bits.flag_field(FieldName::RefFrameSignBias)?;
    Ok(Reference {
        slot,
        sign_bias: !error_resilient && bias,
        shape,
    })
}

#[tactic(auto, unfolding(crate::specs::References::references), using(vp9_types::proofs::Runs::run_bind))]
fn read_references(
    bits: &mut BitReader<'_>,
    before: &Persist,
    error_resilient: bool,
) -> Result<References, Rule>
    ensures reads { Reads (references before.now error_resilient) bits.old result bits.new }
    ensures sizes { SlotsHaveSizes before.now → IfOk result HaveFrameSizes }
{
    let last = read_reference(bits, before, error_resilient)?;
    let golden = read_reference(bits, before, error_resilient)?;
    let altref = read_reference(bits, before, error_resilient)?;
    Ok(References {
        last,
        golden,
        altref,
    })
}

fn are_same(a: bool, b: bool) -> bool
    ensures { result ≡ same_bit a b }
{
    if a { b } else { !b }
}

impl Reference {
    ghost use Rattle.frame_headers.specs.References.{has_format, has_allowed_scale, size_of};

    /// Whether it has the depth and the subsampling of a frame with these colours.
    pub fn has_format(&self, color: &ColorConfig) -> bool
        ensures { result ≡ has_format color.now self.now }
    {
        self.shape.depth.bits() == color.depth.bits()
            && are_same(self.shape.ss_x, color.ss_x)
            && are_same(self.shape.ss_y, color.ss_y)
    }

    /// Whether a frame of this size can be predicted from it.
    pub fn has_allowed_scale(&self, size: &FrameSize) -> bool
        ensures { result ≡ has_allowed_scale size.now self.now }
    {
        let (width, height) = (u64::from(size.width), u64::from(size.height));
        let (w, h) = (u64::from(self.shape.w), u64::from(self.shape.h));
        w <= 2 * width && h <= 2 * height && width <= 16 * w && height <= 16 * h
    }

    /// Its size.
    pub fn size(&self) -> FrameSize
        ensures { result ≡ size_of self.now }
    {
        FrameSize {
            width: self.shape.w,
            height: self.shape.h,
        }
    }
}

/// The size of the first reference that is found to have the frame's, or a size of its own (6.2.5 of the standard).
#[tactic(auto, unfolding(crate::specs::References::found_size), using(vp9_types::proofs::Runs::run_bind))]
fn read_found_size(bits: &mut BitReader<'_>, references: &References) -> Result<FrameSize, Rule>
    ensures reads { Reads (found_size references.now) bits.old result bits.new }
    ensures size { HaveFrameSizes references.now → IfOk result IsFrameSize }
{
    if bits.flag_field(FieldName::FoundRef)? {
        return Ok(references.last.size());
    }
    if bits.flag_field(FieldName::FoundRef)? {
        return Ok(references.golden.size());
    }
    if bits.flag_field(FieldName::FoundRef)? {
        return Ok(references.altref.size());
    }
    read_frame_size(bits)
}

#[tactic(auto, unfolding(crate::specs::References::interpolation_filter), using(vp9_types::proofs::Runs::run_bind))]
fn read_interpolation_filter(bits: &mut BitReader<'_>) -> Result<FrameFilter, Rule>
    ensures { Reads interpolation_filter bits.old result bits.new }
{
    if bits.flag_field(FieldName::IsFilterSwitchable)? {
        return Ok(FrameFilter::Switchable);
    }
    let code = bits.byte(FieldName::RawInterpolationFilter, 2)?;
    Ok(FrameFilter::Fixed(filter(code)))
}

fn filter(code: u8) -> InterpFilter
    ensures { result ≡ filter_of code }
{
    match code {
        0 => InterpFilter::Smooth,
        1 => InterpFilter::Regular,
        2 => InterpFilter::Sharp,
        _ => InterpFilter::Bilinear,
    }
}

impl References {
    ghost use Rattle.frame_headers.specs.References.{all_of, some_of, has_format, has_allowed_scale};

    /// Whether all have the format of a frame with these colours.
    pub fn have_format(&self, color: &ColorConfig) -> bool
        ensures { result ≡ all_of (has_format color.now) self.now }
    {
        self.last.has_format(color)
            && self.golden.has_format(color)
            && self.altref.has_format(color)
    }

    /// Whether a frame of this size can be predicted from one of them.
    pub fn has_one_in_range(&self, size: &FrameSize) -> bool
        ensures { result ≡ some_of (has_allowed_scale size.now) self.now }
    {
        self.last.has_allowed_scale(size)
            || self.golden.has_allowed_scale(size)
            || self.altref.has_allowed_scale(size)
    }
}

/// Reads what an inter frame codes from its refreshed slots on.
#[tactic(auto, unfolding(crate::specs::References::inter_fields), using(vp9_types::proofs::Runs::run_bind))]
pub fn read_inter_fields(
    bits: &mut BitReader<'_>,
    before: &Persist,
    error_resilient: bool,
    reset_context: u8,
) -> Result<FrameFields, Rule>
    ensures reads { Reads (inter_fields before.now error_resilient reset_context) bits.old result bits.new }
    ensures size { SlotsHaveSizes before.now → IfOk result (λ fields. IsFrameSize fields.size) }
{
    let refresh = bits.byte(FieldName::RefreshFrameFlags, 8)?;
    let references = read_references(bits, before, error_resilient)?;
    if !references.have_format(&before.color) {
        return Err(Rule::RefFormat);
    }
    let size = read_found_size(bits, &references)?;
    if !references.has_one_in_range(&size) {
        return Err(Rule::RefScale);
    }
    read_render_size(bits)?;
    let high_precision = bits.flag_field(FieldName::AllowHighPrecisionMv)?;
    let filter = read_interpolation_filter(bits)?;
    Ok(FrameFields {
        kind: FrameKind::Inter(InterFields {
            references,
            high_precision,
            filter,
        }),
        reset_context,
        refresh,
        color: before.color,
        size,
    })
}
