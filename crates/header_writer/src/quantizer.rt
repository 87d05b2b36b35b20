//! The quantisers' parameters.

ghost use Rattle.std.specs.Prelude.{IfOk};
ghost use Rattle.frame_headers.specs.Quantizer.{delta_q, quantization_params};
ghost use Rattle.header_writer.specs.Code.{HasPut};
ghost use Rattle.header_writer.specs.WrittenFields.{Puts};
ghost use Rattle.header_writer.specs.Spelling.{spelled_delta_q, spelled_quantizer};
ghost use Rattle.header_writer.specs.WellFormed.{IsSigned, IsQuantizer};

use crate::bits::BitWriter;
use frame_headers::{FieldName, Quantizer};
use std::alloc::AllocError;

#[tactic(auto, unfolding(frame_headers::specs::Quantizer::delta_q, crate::specs::Spelling::spelled_delta_q), using(vp9_types::proofs::Binds::writes_bind, crate::proofs::Spells::spells_on))]
fn put_delta_q(bits: &mut BitWriter, delta: i16) -> Result<(), AllocError>
    requires { IsSigned 4 delta }
    ensures puts { IfOk result (λ _. Puts delta_q bits.old delta bits.new) }
    ensures spells { IfOk result (λ _. HasPut bits.old (spelled_delta_q delta) bits.new) }
{
    if delta == 0 {
        return bits.flag_field(FieldName::DeltaCoded, false);
    }
    bits.flag_field(FieldName::DeltaCoded, true)?;
    bits.signed_number(FieldName::DeltaQ, 4, delta)
}

/// Puts `quantization_params` (6.2.9 of the standard).
#[tactic(auto, unfolding(frame_headers::specs::Quantizer::quantization_params, crate::specs::Spelling::spelled_quantizer), using(vp9_types::proofs::Binds::writes_bind, crate::proofs::Spells::spells_on))]
pub fn put_quantizer(bits: &mut BitWriter, quantizer: Quantizer) -> Result<(), AllocError>
    requires { IsQuantizer quantizer }
    ensures puts { IfOk result (λ _. Puts quantization_params bits.old quantizer bits.new) }
    ensures spells { IfOk result (λ _. HasPut bits.old (spelled_quantizer quantizer) bits.new) }
{
    bits.byte(FieldName::BaseQIdx, 8, quantizer.base)?;
    put_delta_q(bits, quantizer.y_dc_delta)?;
    put_delta_q(bits, quantizer.uv_dc_delta)?;
    put_delta_q(bits, quantizer.uv_ac_delta)
}
