//! Laws of the definitions, as contracts of functions that do nothing.

ghost use Rattle.std.specs.Prelude.{◌≡◌, ◌+◌, ◌++◌, ℕ, List, Option, None, length};
ghost use Rattle.vp9_types.specs.declared.rule.Rule.{Rule};
ghost use Rattle.file_frames.specs.FileFrames.{FileFrames, HasFrames, frames_of_file};
ghost use Rattle.file_frames.specs.Walks.{Walk, walk_from};
ghost use Rattle.file_frames.specs.Laws.{GoesOn};

use ivf_container::file_has_these_packets;
use superframe_index::payload_has_these_frames;

/// A file has the frames that are computed, and no others.
pub fn file_has_these_frames()
    ensures has { (bytes : List ℕ) → HasFrames bytes (frames_of_file bytes) }
    ensures only { (bytes : List ℕ) (file : FileFrames) → HasFrames bytes file → file ≡ frames_of_file bytes }
{
    file_has_these_packets();
    payload_has_these_frames();
}

/// A walk over some frames and then others ends in the first ones, or goes on from the state behind them.
pub fn walks_go_on<S, A, E>()
    ensures { (w : Walk S A E) (number : ℕ) (state : S) (first rest : List (List ℕ)) (ending : Option Rule) → GoesOn w number state first rest ending }
{}
