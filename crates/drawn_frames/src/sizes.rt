//! The two sizes of frames, and the colours of key frames.

use frame_headers::{ColorConfig, ColorSpace, FrameSize};
use vp9_types::Depth;

pub(crate) const WHOLE: FrameSize = FrameSize {
    width: 520,
    height: 136,
};

pub(crate) const SMALL: FrameSize = FrameSize {
    width: 260,
    height: 68,
};

pub(crate) const KEY_COLOR: ColorConfig = ColorConfig {
    depth: Depth::Eight,
    space: ColorSpace::Unknown,
    full_range: false,
    ss_x: true,
    ss_y: true,
};
