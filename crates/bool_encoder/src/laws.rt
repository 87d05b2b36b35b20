//! Laws of the definitions, as contracts of functions that do nothing.

ghost use Rattle.std.specs.Prelude.{◌≡◌, ℕ, List};
ghost use Rattle.vp9_types.specs.Syntax.{Syntax};
ghost use Rattle.vp9_types.specs.declared.rule.Rule.{Rule};
ghost use Rattle.counting_reader.specs.Counting.{Settled, in_order};
ghost use Rattle.bool_encoder.specs.WrittenBools.{WritesBools};
ghost use Rattle.bool_encoder.specs.CountedBools.{PutsCounting};
ghost use Rattle.bool_encoder.specs.Laws.{AreBools, IsLedBy, IsReadFrom, ReadsFrom, ReadsBools, after_all};
ghost use Rattle.bool_encoder.specs.Part.{after_bools, NumberPart, Finishes, behind_marker};
ghost use Rattle.vp9_types.specs.Writing.{followed};

/// What is written for one syntax and then for another is written for both. What is written for a syntax behind the
/// marker is read from the bytes. `E` is the type of faults, and `A` and `B` what syntaxes settle on.
pub fn what_is_written_is_read<E, A, B>()
    ensures bind { (s : Syntax ℕ E A) (f : A → Syntax ℕ E B) (old mid new : NumberPart) (x : A) (y : B) →
        WritesBools s old x mid → WritesBools (f x) mid y new → WritesBools (followed s f) old y new }
    ensures read { (s : Syntax ℕ E A) (x : A) (new : NumberPart) (bytes : List ℕ) →
        WritesBools s behind_marker x new → Finishes new bytes → ReadsFrom s bytes x new }
    // What was put are answers that lead the syntax to the value, and such answers, put in order, are written for it.
    ensures led { (s : Syntax ℕ E A) (vs : List ℕ) (old : NumberPart) (x : A) → IsLedBy s vs x → WritesBools s old x (after_all s vs old) }
    ensures leads { (s : Syntax ℕ E A) (old new : NumberPart) (x : A) → WritesBools s old x new →
        (vs : List ℕ) × IsLedBy s vs x × (new ≡ after_all s vs old) }
{}

/// Bools that are put one after another behind the marker, each at a probability of its own, start a decoder that reads
/// exactly these.
pub fn every_list_of_bools_is_read()
    ensures { (bools : List (ℕ × ℕ)) (bytes : List ℕ) → AreBools bools → Finishes (after_bools bools behind_marker) bytes → ReadsBools bools bytes }
{}

/// What is put for one counting syntax and then for another is put for both. What is put for one behind the marker is read
/// from the bytes, and counted. `A` and `B` are what syntaxes settle on.
pub fn what_is_put_is_counted<A, B>()
    ensures bind { (s : Syntax ℕ Rule (Settled A)) (f : A → Syntax ℕ Rule (Settled B)) (old mid new : NumberPart) (x : A) (y : B) →
        PutsCounting s old x mid → PutsCounting (f x) mid y new → PutsCounting (in_order s f) old y new }
    ensures read { (s : Syntax ℕ Rule (Settled A)) (x : A) (new : NumberPart) (bytes : List ℕ) →
        PutsCounting s behind_marker x new → Finishes new bytes → IsReadFrom s bytes x }
{}
