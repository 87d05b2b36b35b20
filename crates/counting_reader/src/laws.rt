//! Laws of the definitions, as contracts of functions that do nothing.

ghost use Rattle.std.specs.Prelude.{◌≡◌, ℕ, List, Ok};
ghost use Rattle.vp9_types.specs.Syntax.{Syntax};
ghost use Rattle.vp9_types.specs.Reading.{after};
ghost use Rattle.vp9_types.specs.declared.rule.Rule.{Rule};
ghost use Rattle.bool_decoder.specs.Bools.{run_bools};
ghost use Rattle.prob_contexts.specs.declared.kind.CountedBool.{CountedBool};
ghost use Rattle.counting_reader.specs.Counting.{Settled, settle, count, uncounted, in_order};
ghost use Rattle.counting_reader.specs.Code.{Standing, run_counting, counted_at, with_same_counts, silent, read_silently};

/// What a counting syntax reads and counts, part by part; and who doesn't count reads the same, and leaves the counts.
/// `A` and `B` are what syntaxes settle on.
pub fn counting_syntaxes_compose<A, B>()
    ensures settle { (x : A) (m : Standing) → run_counting (settle x) m ≡ Ok (x, m) }
    ensures count { (bools : List CountedBool) (m : Standing) → run_counting (count bools) m ≡ Ok (tt, counted_at m bools) }
    ensures uncounted { (s : Syntax ℕ Rule A) (m : Standing) →
        run_counting (uncounted s) m ≡ with_same_counts (run_bools s m.window) m.counts m.counting }
    ensures bind { (s : Syntax ℕ Rule (Settled A)) (f : A → Syntax ℕ Rule (Settled B)) (m : Standing) →
        run_counting (in_order s f) m ≡ after (run_counting s m) (λ x rest. run_counting (f x) rest) }
    ensures silent { (s : Syntax ℕ Rule (Settled A)) (m : Standing) →
        run_counting s (silent m) ≡ read_silently (run_counting s m) m.counts }
{}
