//! The quantisers of a block's plane.

ghost use Rattle.std.specs.Prelude.{◌≡◌, ◌≤◌, ◌+ℤ◌, pos};
ghost use Rattle.vp9_types.specs.Sizes.{clip};
ghost use Rattle.residue_syntax.specs.Quantisers.{quantiser_index, quant_by_index, quant_of};

use frame_headers::{Header, Quantizer, Segmentation};
use residue_transforms::Quant;
use vp9_tables::{ac_q, dc_q};
use vp9_types::{Depth, Plane};

fn clipped(x: i32) -> u8
    ensures { result ≡ clip 255 x }
{
    if x < 0 {
        0
    } else if x > 255 {
        255
    } else {
        x as u8
    }
}

/// The quantiser index of a segment.
#[tactic(auto, unfolding(crate::specs::Quantisers::quantiser_index))]
fn quantiser_index(base: u8, segmentation: &Segmentation, segment: u8) -> u8
    requires { segment ≤ 7 }
    ensures { result ≡ quantiser_index base segmentation.now segment }
{
    if !segmentation.enabled {
        return base;
    }
    let features = segmentation.features.segments[segment as usize];
    match features.quantizer {
        None => base,
        Some(value) if segmentation.features.absolute => clipped(i32::from(value)),
        Some(value) => clipped(i32::from(base) + i32::from(value)),
    }
}

/// The index that is moved by a delta.
fn moved(index: u8, delta: i16) -> u8
    ensures { result ≡ clip 255 (pos index +ℤ delta) }
{
    clipped(i32::from(index) + i32::from(delta))
}

fn quant_by_index(depth: Depth, quantizer: &Quantizer, index: u8, plane: Plane) -> Quant
    ensures { result ≡ quant_by_index depth quantizer.now index plane }
{
    let (dc_delta, ac_delta) = match plane {
        Plane::Y => (quantizer.y_dc_delta, 0),
        Plane::U | Plane::V => (quantizer.uv_dc_delta, quantizer.uv_ac_delta),
    };
    Quant {
        dc: dc_q(depth, moved(index, dc_delta)),
        ac: ac_q(depth, moved(index, ac_delta)),
        depth,
        lossless: quantizer.lossless(),
    }
}

/// The quantisers of a segment's blocks in a plane.
#[tactic(auto, unfolding(crate::specs::Quantisers::quant_of))]
pub(crate) fn quant_of(header: &Header, segment: u8, plane: Plane) -> Quant
    requires { segment ≤ 7 }
    ensures { result ≡ quant_of header.now segment plane }
{
    let params = &header.params;
    let index = quantiser_index(params.quantizer.base, &params.segmentation, segment);
    quant_by_index(header.color.depth, &params.quantizer, index, plane)
}
