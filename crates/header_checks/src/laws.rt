//! Laws of the definitions, as the contract of a function that does nothing.

ghost use Rattle.std.specs.Prelude.{◌≡◌, ℕ, List, true, Ok};
ghost use Rattle.vp9_types.specs.Bits.{AreBits};
ghost use Rattle.vp9_types.specs.Reading.{read_bits};
ghost use Rattle.frame_headers.specs.Fields.{past};
ghost use Rattle.frame_headers.specs.Header.{uncompressed_header};
ghost use Rattle.frame_headers.specs.HeaderState.{next_persist, start_persist};
ghost use Rattle.frame_headers.specs.declared.header.Header.{Header};
ghost use Rattle.frame_headers.specs.declared.header.Uncompressed.{Uncompressed};
ghost use Rattle.frame_headers.specs.declared.persist.Persist.{Persist};
ghost use Rattle.header_writer.specs.WellFormed.{CanChoose, IsHeader, IsWellFormed};
ghost use Rattle.header_writer.specs.declared.choices.Choices.{Choices};
ghost use Rattle.header_checks.specs.Laws.{IsLeftByFrames};

/// Each header that is read behind frames can be written.
pub fn what_is_read_can_be_written()
    ensures well { (before : Persist) (bits rest : List ℕ) (x : Uncompressed) → IsLeftByFrames before → AreBits bits →
        read_bits past (uncompressed_header before) bits ≡ Ok (x, rest) → IsWellFormed before x }
    // Any choices that code the deltas and the features will do.
    ensures chosen { (before : Persist) (choices : Choices) (x : Uncompressed) →
        choices.deltas ≡ true → choices.features ≡ true → CanChoose before choices x }
    // What persists before the first frame, and then behind each frame whose header was read, is left by frames.
    ensures first { IsLeftByFrames start_persist }
    ensures next { (before : Persist) (header : Header) → IsLeftByFrames before → IsHeader before header → IsLeftByFrames (next_persist header before) }
{}
