//! Headers of the format's worked rows and of a real stream, byte for byte.

ghost use Rattle.std.specs.Prelude.{◌≡◌, ◌<◌, ◌≤◌, false};
ghost use Rattle.frame_headers.specs.declared.color.ColorSpace.TheVariants as spaces;
ghost use Rattle.header_writer.specs.WellFormed.{IsColor, IsWellFormed, CanChoose};

use frame_headers::{
    ColorConfig, ColorSpace, Features, FrameContexts, FrameFilter, FrameKind, FrameParams,
    FrameSize, Header, InterFields, LoopDeltas, LoopFilter, Persist, Quantizer, Reference,
    References, Segmentation, TileInfo, Uncompressed,
};
use header_writer::{Choices, write_uncompressed_header};
use std::alloc::Global;
use std::process::Abort;
use std::test::Fail;
use vp9_types::{Depth, Shape};

const SHAPE: Shape = Shape {
    w: 96,
    h: 80,
    depth: Depth::Eight,
    ss_x: true,
    ss_y: true,
};

/// A lossless, error-resilient key frame, at most 64 wide and high, that is shown.
fn key_frame(profile: u8, color: ColorConfig, side: u32) -> (Persist, Uncompressed)
    requires profile { profile < 4 }
    requires color { IsColor profile color }
    requires least { 1 ≤ side }
    requires most { side ≤ 64 }
    ensures formed { IsWellFormed result.0 result.1 }
    ensures can { (choices : Choices) → CanChoose result.0 choices result.1 }
{
    let header = Header {
        profile,
        kind: FrameKind::Key,
        show_frame: true,
        error_resilient: true,
        reset_context: 0,
        color,
        size: FrameSize {
            width: side,
            height: side,
        },
        refresh: 0xff,
        contexts: FrameContexts {
            refresh: false,
            parallel: true,
            index: 0,
        },
        params: FrameParams {
            loop_filter: LoopFilter {
                level: 0,
                sharpness: 0,
                delta_enabled: false,
                deltas: LoopDeltas::DEFAULT,
            },
            quantizer: Quantizer {
                base: 0,
                y_dc_delta: 0,
                uv_dc_delta: 0,
                uv_ac_delta: 0,
            },
            segmentation: Segmentation {
                enabled: false,
                map: None,
                features: Features::NONE,
            },
            tiles: TileInfo {
                columns_log2: 0,
                rows_log2: 0,
            },
            compressed_size: 1,
        },
    };
    (Persist::START, Uncompressed::Coded(header))
}

/// The second frame of a real stream, whose slots all hold the first.
fn inter_frame() -> (Persist, Uncompressed)
    ensures formed { IsWellFormed result.0 result.1 }
    ensures can { (choices : Choices) → CanChoose result.0 choices result.1 }
{
    let before = Persist {
        slots: [Some(SHAPE); 8],
        color: ColorConfig::DEFAULT,
        deltas: LoopDeltas::DEFAULT,
        features: Features::NONE,
        size: None,
    };
    let inter = InterFields {
        references: References {
            last: Reference {
                slot: 0,
                sign_bias: false,
                shape: SHAPE,
            },
            golden: Reference {
                slot: 1,
                sign_bias: false,
                shape: SHAPE,
            },
            altref: Reference {
                slot: 2,
                sign_bias: false,
                shape: SHAPE,
            },
        },
        high_precision: true,
        filter: FrameFilter::Switchable,
    };
    let header = Header {
        profile: 0,
        kind: FrameKind::Inter(inter),
        show_frame: true,
        error_resilient: false,
        reset_context: 0,
        color: ColorConfig::DEFAULT,
        size: FrameSize {
            width: 96,
            height: 80,
        },
        refresh: 1,
        contexts: FrameContexts {
            refresh: true,
            parallel: true,
            index: 0,
        },
        params: FrameParams {
            loop_filter: LoopFilter {
                level: 6,
                sharpness: 0,
                delta_enabled: true,
                deltas: LoopDeltas::DEFAULT,
            },
            quantizer: Quantizer {
                base: 100,
                y_dc_delta: 0,
                uv_dc_delta: 0,
                uv_ac_delta: 0,
            },
            segmentation: Segmentation {
                enabled: false,
                map: None,
                features: Features::NONE,
            },
            tiles: TileInfo {
                columns_log2: 0,
                rows_log2: 0,
            },
            compressed_size: 6,
        },
    };
    (before, Uncompressed::Coded(header))
}

/// Nothing is coded that stays as it was.
fn writes(
    rt: &impl Abort,
    alloc: Global,
    frame: (Persist, Uncompressed),
    bytes: &[u8],
) -> Result<(), Fail>
    requires formed { IsWellFormed frame.0 frame.1 }
    requires can { (choices : Choices) → CanChoose frame.0 choices frame.1 }
{
    let choices = Choices {
        biases: [false; 3],
        own_size: false,
        deltas: false,
        features: false,
    };
    let (before, header) = frame;
    let mut out = Vec::new(alloc);
    write_uncompressed_header(alloc, &mut out, &before, &header, choices)?;
    assert_eq!(rt; out.as_slice(), bytes);
    Ok(())
}

/// Of profile 0 with 8 bits, of profile 2 with 10, and of profile 1 in 4:4:4.
fn color(depth: Depth, subsampled: bool) -> ColorConfig
    ensures { result ≡ record { depth = depth; space = spaces.Unknown; full_range = false; ss_x = subsampled; ss_y = subsampled } }
{
    ColorConfig {
        depth,
        space: ColorSpace::Unknown,
        full_range: false,
        ss_x: subsampled,
        ss_y: subsampled,
    }
}

#[test]
fn key_frames(rt: HostRuntime) -> Result<(), Fail> {
    let eight = color(Depth::Eight, true);
    let one = b"\x83\x49\x83\x42\0\0\0\0\0\0\0\0\0\x04";
    writes(&rt, rt.alloc(), key_frame(0, eight, 1), one)?;
    let eight_wide = b"\x83\x49\x83\x42\0\0\x70\0\x70\0\0\0\0\x04";
    writes(&rt, rt.alloc(), key_frame(0, eight, 8), eight_wide)?;
    let ten = color(Depth::Ten, true);
    let ten_bits = b"\x93\x49\x83\x42\0\0\0\0\0\0\0\0\0\x02";
    writes(&rt, rt.alloc(), key_frame(2, ten, 1), ten_bits)?;
    let full = color(Depth::Eight, false);
    let not_subsampled = b"\xa3\x49\x83\x42\0\0\0\0\0\0\0\0\0\0\x80";
    writes(&rt, rt.alloc(), key_frame(1, full, 1), not_subsampled)?;
    Ok(())
}

#[test]
fn inter_frames(rt: HostRuntime) -> Result<(), Fail> {
    let header = b"\x86\0\x40\x92\xf0\x61\x32\0\0\x18";
    writes(&rt, rt.alloc(), inter_frame(), header)?;
    Ok(())
}
