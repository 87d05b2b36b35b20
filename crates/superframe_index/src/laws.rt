//! Laws of the definitions, as contracts of functions that do nothing.

ghost use Rattle.std.specs.Prelude.{◌≡◌, ℕ, List, Result, Ok};
ghost use Rattle.superframe_index.specs.PayloadFrames.{IsSplit, AreParts, frames_of, at_spans};
ghost use Rattle.vp9_types.specs.declared.job.Span.{Span};
ghost use Rattle.vp9_types.specs.declared.rule.Rule.{Rule};

/// A payload has the frames that are computed, and no others; and they lie in it.
pub fn payload_has_these_frames()
    ensures has { (payload : List ℕ) → IsSplit payload (at_spans payload (frames_of payload)) }
    ensures only { (payload : List ℕ) (frames : Result (List (List ℕ)) Rule) → IsSplit payload frames →
        frames ≡ at_spans payload (frames_of payload) }
    ensures placed { (payload : List ℕ) (spans : List Span) → frames_of payload ≡ Ok spans → AreParts payload spans }
{}
