//! Laws of the definitions, as contracts of functions that do nothing.

ghost use Rattle.std.specs.Prelude.{◌≡◌, List, ℕ, ◌++◌, Ok, Err};
ghost use Rattle.vp9_types.specs.Bits.{bits_of};
ghost use Rattle.vp9_types.specs.Entries.{Entry, FailsAfter, joined};
ghost use Rattle.vp9_types.specs.Reading.{read_bits};
ghost use Rattle.vp9_types.specs.declared.rule.Rule.{Rule};
ghost use Rattle.frame_headers.specs.Fields.{past};
ghost use Rattle.frame_headers.specs.Header.{uncompressed_header, IsHeaderOf};
ghost use Rattle.frame_headers.specs.declared.field.FieldName.{FieldName};
ghost use Rattle.frame_headers.specs.declared.header.Uncompressed.{Uncompressed};
ghost use Rattle.frame_headers.specs.declared.persist.Persist.{Persist};
ghost use Rattle.frame_headers.specs.declared.persist.TheConstants.Persist.{START};
ghost use Rattle.frame_headers.specs.HeaderState.{start_persist, SlotsHaveSizes};

/// A frame's uncompressed header is a list of entries: each is the field that the standard's tables ask for after the
/// values before it, and their bits, joined, are a front of the frame's bits. There is at most one such list. Where
/// there is none, the rule is that of the first test that fails, or that of a field past the frame's end.
pub fn header_is_its_entries()
    // What is read is such a list.
    ensures spelled { (before : Persist) (frame : List ℕ) (x : Uncompressed) (rest : List ℕ) →
        read_bits past (uncompressed_header before) (bits_of frame) ≡ Ok (x, rest) →
        (es : List (Entry FieldName)) × IsHeaderOf before frame es x }
    // Such a list is read.
    ensures read { (before : Persist) (frame : List ℕ) (es : List (Entry FieldName)) (x : Uncompressed) →
        IsHeaderOf before frame es x → (rest : List ℕ) × (read_bits past (uncompressed_header before) (bits_of frame) ≡ Ok (x, rest)) }
    // There is no other.
    ensures once { (before : Persist) (frame : List ℕ) (es fs : List (Entry FieldName)) (x y : Uncompressed) →
        IsHeaderOf before frame es x → IsHeaderOf before frame fs y → es ≡ fs }
    // Which rule it is where there is none.
    ensures fault { (before : Persist) (frame : List ℕ) (rule : Rule) →
        read_bits past (uncompressed_header before) (bits_of frame) ≡ Err rule →
        (es : List (Entry FieldName)) × (rest : List ℕ) × FailsAfter past (uncompressed_header before) es rest rule × (bits_of frame ≡ joined es ++ rest) }
{}

/// `Persist::START` is what persists before the first frame. No slot holds anything then, so each that does holds a frame
/// of a size that frames have.
pub fn start_has_no_slots()
    ensures is { START ≡ start_persist }
    ensures sizes { SlotsHaveSizes start_persist }
{}
