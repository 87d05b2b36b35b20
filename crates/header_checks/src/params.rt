//! Tests of the parameters that end a header.

ghost use Rattle.std.specs.Prelude.{◌≡◌, true};
ghost use Rattle.header_writer.specs.WellFormed.{IsParams, IsQuantizer};
ghost use Rattle.header_checks.specs.Params.{are_params, is_quantizer};

use crate::filter::is_loop_filter;
use crate::segments::is_segmentation;
use crate::tiles::is_tile_info;
use frame_headers::{Features, FrameParams, LoopDeltas, Quantizer};

fn is_quantizer(quantizer: &Quantizer) -> bool
    ensures is { result ≡ is_quantizer quantizer.now }
    ensures quantizer { result ≡ true → IsQuantizer quantizer.now }
    ensures complete { IsQuantizer quantizer.now → result ≡ true }
{
    quantizer.y_dc_delta.unsigned_abs() < 16
        && quantizer.uv_dc_delta.unsigned_abs() < 16
        && quantizer.uv_ac_delta.unsigned_abs() < 16
}

/// Whether parameters of a frame of this width can be coded over the deltas and features before.
#[tactic(auto, unfolding(crate::specs::Params::are_params))]
pub(crate) fn are_params(
    deltas: &LoopDeltas,
    features: &Features,
    width: u32,
    params: &FrameParams,
) -> bool
    ensures is { result ≡ are_params deltas.now features.now width params.now }
    ensures params { result ≡ true → IsParams deltas.now features.now width params.now }
    ensures complete { IsParams deltas.now features.now width params.now → result ≡ true }
{
    is_loop_filter(deltas, &params.loop_filter)
        && is_quantizer(&params.quantizer)
        && is_segmentation(features, &params.segmentation)
        && is_tile_info(width, params.tiles)
        && params.compressed_size >= 1
}
