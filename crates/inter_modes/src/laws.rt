//! Laws of the definitions, as contracts of functions that do nothing.

ghost use Rattle.std.specs.Prelude.{◌≡◌, ℕ, ◌<◌, ◌≤◌, List};
ghost use Rattle.vp9_types.specs.Maps.{Map};
ghost use Rattle.vp9_types.specs.declared.block.Modes.{Modes};
ghost use Rattle.frame_headers.specs.declared.header.Header.{Header};
ghost use Rattle.prob_contexts.specs.ProbLists.{ContextLists};
ghost use Rattle.block_plan.specs.declared.block.BlockAt.{BlockAt};
ghost use Rattle.block_plan.specs.declared.block.BlockInfo.{BlockInfo};
ghost use Rattle.mv_prediction.specs.Laws.{SameIn};
ghost use Rattle.inter_modes.specs.ModeInfo.{mode_info};

/// What a block of any frame reads depends on the earlier blocks, and on those of the frame before, only through those in
/// its tile's columns.
pub fn blocks_are_of_their_columns()
    ensures { (header : Header) (modes : Modes) (contexts : ContextLists) (ids : Map) (at : BlockAt) (xs ys xs_before ys_before : List BlockInfo) →
        SameIn at.tile_from at.tile_to xs ys → SameIn at.tile_from at.tile_to xs_before ys_before → at.tile_from ≤ at.col → at.col < at.tile_to →
        mode_info (record { header = header; modes = modes; contexts = contexts; segments = ids; vectors = xs_before }) xs at
        ≡ mode_info (record { header = header; modes = modes; contexts = contexts; segments = ids; vectors = ys_before }) ys at }
{}
