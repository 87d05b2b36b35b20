//! What vectors are predicted by.

ghost use Rattle.std.specs.Prelude.{◌≡◌};
ghost use Rattle.mv_prediction.specs.Candidates.{bias_of, sign_biases};

use block_geometry::FramePlaces;
use block_plan::BlockAt;
use frame_headers::References;
use vp9_types::ReferenceFrame;

/// Whether each reference of a frame lies on the other side in time.
#[derive(Clone, Copy, Debug, PartialEq, Eq)]
pub struct SignBiases {
    pub last: bool,
    pub golden: bool,
    pub altref: bool,
}

impl SignBiases {
    /// Those of an inter frame's header.
    pub fn of(references: &References) -> SignBiases
        ensures { result ≡ sign_biases references.now }
    {
        SignBiases {
            last: references.last.sign_bias,
            golden: references.golden.sign_bias,
            altref: references.altref.sign_bias,
        }
    }

    pub fn bias_of(&self, reference: ReferenceFrame) -> bool
        ensures { result ≡ bias_of self.now reference }
    {
        match reference {
            ReferenceFrame::Last => self.last,
            ReferenceFrame::Golden => self.golden,
            ReferenceFrame::Altref => self.altref,
        }
    }
}

/// The block whose vectors are predicted, and its frame: the frame's places, and the sign biases of its references.
#[derive(Clone, Copy, Debug, PartialEq, Eq)]
pub struct MvSearch {
    pub places: FramePlaces,
    pub biases: SignBiases,
    pub at: BlockAt,
}
