ghost use Rattle.std.specs.Prelude.{◌≡◌, ◌≤◌};
ghost use Rattle.frame_headers.specs.FrameSizes.{IsFrameSize};
ghost use Rattle.frame_headers.specs.HeaderState.{shape_of};
ghost use Rattle.block_geometry.specs.FrameShapes.{places_of};

use block_geometry::FramePlaces;
use frame_headers::Header;
use prob_contexts::Contexts;
use vp9_types::Modes;

/// What the blocks of a frame are read and rebuilt by, the same for all of them: the frame's header, the modes and the
/// contexts that its compressed header makes, and its size in places of 8x8 luma samples.
#[derive(Drop)]
pub struct FrameSetting {
    pub header: Header,
    pub modes: Modes,
    pub contexts: Contexts,
    pub places: FramePlaces,
    pub ghost size: { IsFrameSize header.size },
    pub ghost whole: { places ≡ places_of (shape_of header) },
}

impl FrameSetting {
    pub fn new(header: &Header, modes: Modes, contexts: Contexts) -> FrameSetting
        requires { IsFrameSize header.now.size }
        ensures header { result.header ≡ header.now }
        ensures modes { result.modes ≡ modes }
        ensures contexts { result.contexts ≡ contexts }
    {
        FrameSetting {
            header: *header,
            modes,
            contexts,
            places: FramePlaces::of(&header.shape()),
        }
    }
}
