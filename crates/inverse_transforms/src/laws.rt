//! Laws of the definitions, as contracts of functions that do nothing.

ghost use Rattle.std.specs.Prelude.{◌≡◌, ℕ, ◌<◌, ◌≤◌, ◌^◌, ℤ, List, Ok, Err};
ghost use Rattle.vp9_types.specs.declared.rule.Rule.{Rule};
ghost use Rattle.inverse_transforms.specs.Flow.{zeros};
ghost use Rattle.inverse_transforms.specs.Transforms.{dct, adst, wht};

/// Zeros stay zeros.
pub fn transforms_leave_zeros()
    ensures dct { (limit log2 : ℕ) → 0 < limit → 2 ≤ log2 → log2 ≤ 5 → dct limit log2 (zeros (2 ^ log2)) ≡ Ok (zeros (2 ^ log2)) }
    ensures adst { (limit log2 : ℕ) → 0 < limit → 2 ≤ log2 → log2 ≤ 4 → adst limit log2 (zeros (2 ^ log2)) ≡ Ok (zeros (2 ^ log2)) }
    ensures wht { (limit shift : ℕ) → 0 < limit → shift ≤ 2 → wht limit shift (zeros 4) ≡ Ok (zeros 4) }
{}

/// What doesn't fit breaks one rule, whichever value it is.
pub fn transforms_break_one_rule()
    ensures dct { (limit log2 : ℕ) (xs : List ℤ) (rule : Rule) → dct limit log2 xs ≡ Err rule → rule ≡ Rule.TransformRange }
    ensures adst { (limit log2 : ℕ) (xs : List ℤ) (rule : Rule) → adst limit log2 xs ≡ Err rule → rule ≡ Rule.TransformRange }
    ensures wht { (limit shift : ℕ) (xs : List ℤ) (rule : Rule) → wht limit shift xs ≡ Err rule → rule ≡ Rule.TransformRange }
{}
