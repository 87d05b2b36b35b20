//! A law of the definitions, as the contract of a function that does nothing.

ghost use Rattle.std.specs.Prelude.{◌≡◌, ℕ, List, Ok};
ghost use Rattle.vp9_types.specs.declared.block.Modes.{Modes};
ghost use Rattle.frame_headers.specs.declared.header.Header.{Header};
ghost use Rattle.prob_contexts.specs.ProbLists.{ContextLists};
ghost use Rattle.compressed_header.specs.CompressedHeader.{forward};
ghost use Rattle.compressed_writer.specs.CodedUpdates.{CanForward};

/// What can be written is all that any compressed header makes of probabilities.
pub fn what_is_read_can_be_written()
    ensures { (header : Header) (before after : ContextLists) (modes : Modes) (bytes : List ℕ) →
        forward header before bytes ≡ Ok (after, modes) → CanForward header before after modes }
{}
