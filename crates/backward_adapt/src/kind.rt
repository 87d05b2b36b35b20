//! Which kinds of probabilities a frame adapts, by what it is.

ghost use Rattle.std.specs.Prelude.{◌≡◌, if◌then◌else◌};
ghost use Rattle.backward_adapt.specs.declared.merge.Rate.TheVariants.{Coefs, CoefsAfterKey};
ghost use Rattle.backward_adapt.specs.Adaptation.{rate_of};

use crate::merge::Rate;
use prob_contexts::ProbKind;

/// Of an inter frame: whether the last decoded frame was a key frame (hidden and intra frames count as decoded, slots that are
/// shown again don't), and whether its vectors may have high precision (allow_high_precision_mv).
#[derive(Clone, Copy, Debug, PartialEq, Eq)]
pub struct InterKind {
    pub after_key: bool,
    pub high_precision: bool,
}

/// A key frame or an intra-only one, which adapt coefficients alone, or an inter frame.
#[derive(Clone, Copy, Debug, PartialEq, Eq)]
pub enum AdaptKind {
    Intra,
    Inter(InterKind),
}

impl AdaptKind {
    /// At what rate the frame adapts the probabilities of a kind, if it does.
    #[tactic(auto, unfolding(crate::specs::Adaptation::rate_of))]
    pub(crate) fn rate_of(self, kind: ProbKind) -> Option<Rate>
        ensures { result ≡ rate_of self kind }
    {
        match (self, kind) {
            (AdaptKind::Intra, ProbKind::Coef) => Some(Rate::Coefs),
            (AdaptKind::Intra, _) => None,
            (AdaptKind::Inter(frame), ProbKind::Coef) => Some(coef_rate(frame.after_key)),
            (AdaptKind::Inter(frame), ProbKind::VectorClass0High | ProbKind::VectorHigh) => {
                frame.high_precision.then_some(Rate::Others)
            }
            (AdaptKind::Inter(_), _) => Some(Rate::Others),
        }
    }
}

fn coef_rate(after_key: bool) -> Rate
    ensures { result ≡ (if after_key then CoefsAfterKey else Coefs) }
{
    if after_key {
        Rate::CoefsAfterKey
    } else {
        Rate::Coefs
    }
}
