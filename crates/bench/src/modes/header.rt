//! The header of the frames.

ghost use Rattle.std.specs.Prelude.{◌≡◌};

use frame_headers::{
    ColorConfig, Features, FrameContexts, FrameFilter, FrameKind, FrameParams, FrameSize, Header,
    InterFields, LoopDeltas, LoopFilter, Quantizer, Reference, References, Segmentation, TileInfo,
};
use vp9_types::{Depth, Shape};

fn reference(slot: u8, sign_bias: bool) -> Reference {
    Reference {
        slot,
        sign_bias,
        shape: Shape {
            w: 1920,
            h: 1080,
            depth: Depth::Eight,
            ss_x: true,
            ss_y: true,
        },
    }
}

fn params() -> FrameParams {
    FrameParams {
        loop_filter: LoopFilter {
            level: 0,
            sharpness: 0,
            delta_enabled: false,
            deltas: LoopDeltas::DEFAULT,
        },
        quantizer: Quantizer {
            base: 1,
            y_dc_delta: 0,
            uv_dc_delta: 0,
            uv_ac_delta: 0,
        },
        segmentation: Segmentation {
            enabled: false,
            map: None,
            features: Features::NONE,
        },
        tiles: TileInfo {
            columns_log2: 0,
            rows_log2: 0,
        },
        compressed_size: 1,
    }
}

/// An inter frame with compound blocks and vectors of high precision, whose blocks have a filter each.
pub fn header() -> Header
    ensures wide { result.size.width ≡ 1920 }
    ensures high { result.size.height ≡ 1080 }
{
    let fields = InterFields {
        references: References {
            last: reference(0, false),
            golden: reference(1, false),
            altref: reference(2, true),
        },
        high_precision: true,
        filter: FrameFilter::Switchable,
    };
    Header {
        profile: 0,
        kind: FrameKind::Inter(fields),
        show_frame: true,
        error_resilient: false,
        reset_context: 0,
        color: ColorConfig::DEFAULT,
        size: FrameSize {
            width: 1920,
            height: 1080,
        },
        refresh: 255,
        contexts: FrameContexts {
            refresh: false,
            parallel: true,
            index: 0,
        },
        params: params(),
    }
}
