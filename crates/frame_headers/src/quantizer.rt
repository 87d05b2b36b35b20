ghost use Rattle.std.specs.Prelude.{◌≡◌};
ghost use Rattle.frame_headers.specs.Fields.{Reads};
ghost use Rattle.frame_headers.specs.Quantizer.{delta_q, quantization_params, is_lossless};

use crate::bits::BitReader;
use crate::field::FieldName;
use vp9_types::Rule;

/// `quantization_params` (6.2.9 of the standard): the base index, and what is added to it for the other quantisers,
/// -15 to 15 each.
#[derive(Clone, Copy, Debug, PartialEq, Eq)]
pub struct Quantizer {
    pub base: u8,
    pub y_dc_delta: i16,
    pub uv_dc_delta: i16,
    pub uv_ac_delta: i16,
}

impl Quantizer {
    ghost use Rattle.frame_headers.specs.Quantizer.{is_lossless};

    /// Whether the frame is coded without loss (7.2 of the standard).
    pub fn lossless(&self) -> bool
        ensures { result ≡ is_lossless self.now }
    {
        self.base == 0 && self.y_dc_delta == 0 && self.uv_dc_delta == 0 && self.uv_ac_delta == 0
    }
}

#[tactic(auto, unfolding(crate::specs::Quantizer::delta_q), using(vp9_types::proofs::Runs::run_bind))]
fn read_delta_q(bits: &mut BitReader<'_>) -> Result<i16, Rule>
    ensures { Reads delta_q bits.old result bits.new }
{
    if bits.flag_field(FieldName::DeltaCoded)? {
        bits.signed(FieldName::DeltaQ, 4)
    } else {
        Ok(0)
    }
}

/// Reads `quantization_params`.
#[tactic(auto, unfolding(crate::specs::Quantizer::quantization_params), using(vp9_types::proofs::Runs::run_bind))]
pub fn read_quantizer(bits: &mut BitReader<'_>) -> Result<Quantizer, Rule>
    ensures { Reads quantization_params bits.old result bits.new }
{
    let base = bits.byte(FieldName::BaseQIdx, 8)?;
    let y_dc_delta = read_delta_q(bits)?;
    let uv_dc_delta = read_delta_q(bits)?;
    let uv_ac_delta = read_delta_q(bits)?;
    Ok(Quantizer {
        base,
        y_dc_delta,
        uv_dc_delta,
        uv_ac_delta,
    })
}
