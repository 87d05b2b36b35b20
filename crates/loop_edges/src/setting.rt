//! What the edges of a frame come from.

ghost use Rattle.std.specs.Prelude.{◌≡◌};

use frame_headers::{Header, LoopFilter, Segmentation};
use vp9_types::Shape;

/// What the edges of a frame come from, besides its blocks.
#[derive(Clone, Copy, Debug, PartialEq, Eq)]
pub struct EdgeSetting {
    pub shape: Shape,
    pub filter: LoopFilter,
    pub segmentation: Segmentation,
}

impl EdgeSetting {
    ghost use Rattle.loop_edges.specs.Cells.{setting_of};

    /// That of a frame with this header.
    pub fn new(header: &Header) -> EdgeSetting
        ensures { result ≡ setting_of header.now }
    {
        EdgeSetting {
            shape: header.shape(),
            filter: header.params.loop_filter,
            segmentation: header.params.segmentation,
        }
    }
}
