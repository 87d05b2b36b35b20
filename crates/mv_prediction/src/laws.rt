//! Laws of the definitions, as contracts of functions that do nothing.

ghost use Rattle.std.specs.Prelude.{◌≡◌, ℕ, ◌<◌, ◌≤◌, List, Option};
ghost use Rattle.vp9_types.specs.declared.block.ReferenceFrame.{ReferenceFrame};
ghost use Rattle.block_plan.specs.declared.block.BlockInfo.{BlockInfo};
ghost use Rattle.mv_prediction.specs.Candidates.{ref_list_mv, mode_context};
ghost use Rattle.mv_prediction.specs.Laws.{SameIn};
ghost use Rattle.mv_prediction.specs.declared.search.MvSearch.{MvSearch};

/// What is suggested for a block depends on the blocks of its tile's columns alone, in its frame and in the frame before.
pub fn candidates_are_of_the_tiles_columns()
    ensures candidates { (s : MvSearch) (xs ys xs_before ys_before : List BlockInfo) (reference : ReferenceFrame) (sub : Option ℕ) →
        SameIn s.at.tile_from s.at.tile_to xs ys → SameIn s.at.tile_from s.at.tile_to xs_before ys_before → s.at.tile_from ≤ s.at.col → s.at.col < s.at.tile_to →
        ref_list_mv xs xs_before s reference sub ≡ ref_list_mv ys ys_before s reference sub }
    ensures context { (s : MvSearch) (xs ys : List BlockInfo) → SameIn s.at.tile_from s.at.tile_to xs ys →
        mode_context xs s ≡ mode_context ys s }
{}
