ghost use Rattle.std.specs.Prelude.{◌≡◌};

use crate::color::ColorConfig;
use crate::filter::LoopFilter;
use crate::quantizer::Quantizer;
use crate::segments::Segmentation;
use crate::tiles::TileInfo;
use vp9_types::{InterpFilter, Shape, Span};

/// Width and height of a frame in luma samples, 1 to 65536 each.
#[derive(Clone, Copy, Debug, PartialEq, Eq)]
pub struct FrameSize {
    pub width: u32,
    pub height: u32,
}

/// A reference of an inter frame: the slot that holds it, its shape, and whether it lies on the other side in time.
#[derive(Clone, Copy, Debug, PartialEq, Eq)]
pub struct Reference {
    pub slot: u8,
    pub sign_bias: bool,
    pub shape: Shape,
}

/// The three references of an inter frame.
#[derive(Clone, Copy, Debug, PartialEq, Eq)]
pub struct References {
    pub last: Reference,
    pub golden: Reference,
    pub altref: Reference,
}

/// The interpolation filter of a frame, or that each block names its own.
#[derive(Clone, Copy, Debug, PartialEq, Eq)]
pub enum FrameFilter {
    Fixed(InterpFilter),
    Switchable,
}

/// What an inter frame has besides: its references, the precision of its vectors, its filter.
#[derive(Clone, Copy, Debug, PartialEq, Eq)]
pub struct InterFields {
    pub references: References,
    pub high_precision: bool,
    pub filter: FrameFilter,
}

/// The kinds of frames.
#[derive(Clone, Copy, Debug, PartialEq, Eq)]
pub enum FrameKind {
    Key,
    IntraOnly,
    Inter(InterFields),
}

/// How the header of a coded frame begins.
#[derive(Clone, Copy, Debug, PartialEq, Eq)]
pub struct FrameStart {
    pub is_key: bool,
    pub show_frame: bool,
    pub error_resilient: bool,
}

/// The fields of a frame up to its size. Bit i of `refresh` says that slot i holds the frame from then on;
/// `reset_context` is 0 to 3.
#[derive(Clone, Copy, Debug, PartialEq, Eq)]
pub struct FrameFields {
    pub kind: FrameKind,
    pub reset_context: u8,
    pub refresh: u8,
    pub color: ColorConfig,
    pub size: FrameSize,
}

/// How a frame uses the four saved contexts: whether it saves its own, adapted or not, and in which place it does
/// and started from, 0 to 3. A frame that loses the past uses place 0, whatever is coded.
#[derive(Clone, Copy, Debug, PartialEq, Eq)]
pub struct FrameContexts {
    pub refresh: bool,
    pub parallel: bool,
    pub index: u8,
}

/// The parameters that end each header. The compressed header has `compressed_size` bytes.
#[derive(Clone, Copy, Debug, PartialEq, Eq)]
pub struct FrameParams {
    pub loop_filter: LoopFilter,
    pub quantizer: Quantizer,
    pub segmentation: Segmentation,
    pub tiles: TileInfo,
    pub compressed_size: u16,
}

/// The uncompressed header of a coded frame (6.2 of the standard). Bit i of `refresh` says that slot i holds the frame
/// from then on; `reset_context` is 0 to 3.
#[derive(Clone, Copy, Debug, PartialEq, Eq)]
pub struct Header {
    pub profile: u8,
    pub kind: FrameKind,
    pub show_frame: bool,
    pub error_resilient: bool,
    pub reset_context: u8,
    pub color: ColorConfig,
    pub size: FrameSize,
    pub refresh: u8,
    pub contexts: FrameContexts,
    pub params: FrameParams,
}

impl Header {
    ghost use Rattle.frame_headers.specs.HeaderState.{shape_of};

    /// The shape of the frame.
    pub fn shape(&self) -> Shape
        ensures { result ≡ shape_of self.now }
    {
        Shape {
            w: self.size.width,
            h: self.size.height,
            depth: self.color.depth,
            ss_x: self.color.ss_x,
            ss_y: self.color.ss_y,
        }
    }
}

/// What an uncompressed header says: a slot is shown again, or a frame is coded.
#[derive(Clone, Copy, Debug, PartialEq, Eq)]
pub enum Uncompressed {
    ShowExisting { slot: u8 },
    Coded(Header),
}

/// The same, with the place of the compressed header in the frame.
#[derive(Clone, Copy, Debug, PartialEq, Eq)]
pub enum FrameHead {
    ShowExisting { slot: u8 },
    Coded { header: Header, compressed: Span },
}
