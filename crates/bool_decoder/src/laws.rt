//! Laws of the definitions, as contracts of functions that do nothing.

ghost use Rattle.std.specs.Prelude.{◌≡◌, ℕ, ◌≤◌, ◌*◌, ◌^◌, List, Ok, Err};
ghost use Rattle.vp9_types.specs.Syntax.{Syntax};
ghost use Rattle.vp9_types.specs.Reading.{run};
ghost use Rattle.bool_decoder.specs.Coder.{Coder, doublings, first_coder, bool_of, after_bool};
ghost use Rattle.bool_decoder.specs.Window.{Window, first_window, bit_of, after_bit, Stands};
ghost use Rattle.bool_decoder.specs.Bools.{run_bools, run_coder};

/// A range doubles the least number of times that makes it 128 or more.
pub fn doublings_are_least()
    ensures enough { (range : ℕ) → 1 ≤ range → 128 ≤ range * 2 ^ doublings range }
    ensures least { (range k : ℕ) → 128 ≤ range * 2 ^ k → doublings range ≤ k }
{}

/// The window stands for the coder: each bool is the same, and after it the window stands for the coder again. So
/// what a syntax reads is the same. `E` is the type of faults, and `A` what the syntax settles on.
pub fn bools_stand_for_the_coder<E, A>()
    ensures start { (bits : List ℕ) → Stands (first_coder bits) (first_window bits) }
    ensures bool { (c : Coder) (w : Window) (p : ℕ) → Stands c w → bit_of p w ≡ bool_of p c }
    ensures step { (c : Coder) (w : Window) (p : ℕ) → Stands c w → Stands (after_bool p c) (after_bit p w) }
    ensures read { (s : Syntax ℕ E A) (c end : Coder) (w : Window) (x : A) → Stands c w →
        run_coder s c ≡ Ok (x, end) → (last : Window) × Stands end last × (run_bools s w ≡ Ok (x, last)) }
    ensures fault { (s : Syntax ℕ E A) (c : Coder) (w : Window) (fault : E) → Stands c w →
        run_coder s c ≡ Err fault → run_bools s w ≡ Err fault }
{}
