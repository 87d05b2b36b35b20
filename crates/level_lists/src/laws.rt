//! Laws of the definitions, as contracts of functions that do nothing.

ghost use Rattle.std.specs.Prelude.{ℕ, ℤ, List, nat_eq};
ghost use Rattle.std.specs.List.{IsDistinct};
ghost use Rattle.prob_contexts.specs.ProbLists.{ContextLists};
ghost use Rattle.bool_encoder.specs.Part.{NumberPart};
ghost use Rattle.bool_lists.specs.BoolLists.{HasPut};
ghost use Rattle.coef_tokens.specs.TokenKinds.{block_tables};
ghost use Rattle.coef_tokens.specs.Places.{Tables};
ghost use Rattle.coef_tokens.specs.declared.tables.TokenKind.{TokenKind};
ghost use Rattle.token_writer.specs.Code.{PutsLevels};
ghost use Rattle.level_lists.specs.LevelLists.{spelled_levels};

/// Whatever bools lead the tokens of a transform block to levels, they are those of its list: there is one way to put them, if
/// the scan takes each position once. The scans of all sizes and kinds do.
pub fn levels_are_put_in_one_way()
    ensures distinct { (t : Tables) (first : ℕ) (levels : List ℤ) (count : ℕ) (old new : NumberPart) →
        IsDistinct nat_eq t.scan → PutsLevels t first old levels count new → HasPut old (spelled_levels t first levels count) new }
    ensures kinds { (contexts : ContextLists) (at : TokenKind) (first : ℕ) (levels : List ℤ) (count : ℕ) (old new : NumberPart) →
        PutsLevels (block_tables contexts at) first old levels count new → HasPut old (spelled_levels (block_tables contexts at) first levels count) new }
{}
