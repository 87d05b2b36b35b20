//! What the blocks of a frame are put in by.

use vp9_types::{ReferenceFrame, Shape};

/// A picture that blocks refer to: its samples, whoever holds them, and its shape.
#[derive(Drop)]
pub struct ReferencePicture<'a, S> {
    pub samples: &'a S,
    pub shape: Shape,
}

/// What the blocks of a frame are put in by, the same for all of them: the frame's shape, and the pictures that they may
/// refer to. An intra frame has none.
#[derive(Drop)]
pub struct Rebuilding<'a, S> {
    pub shape: Shape,
    pub last: Option<ReferencePicture<'a, S>>,
    pub golden: Option<ReferencePicture<'a, S>>,
    pub altref: Option<ReferencePicture<'a, S>>,
}

impl<'a, S> Rebuilding<'a, S> {
    ghost use Rattle.std.specs.Prelude.{◌≡◌};
    ghost use Rattle.std.specs.Option.{option_copied};
    ghost use Rattle.block_rebuild.specs.Code.{reference_of};

    pub(crate) fn reference(&self, reference: ReferenceFrame) -> Option<&ReferencePicture<'a, S>>
        ensures { option_copied result ≡ reference_of self.now reference }
    {
        match reference {
            ReferenceFrame::Last => self.last.as_ref(),
            ReferenceFrame::Golden => self.golden.as_ref(),
            ReferenceFrame::Altref => self.altref.as_ref(),
        }
    }
}
