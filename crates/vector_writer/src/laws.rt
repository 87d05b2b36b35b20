//! Laws of the definitions, as contracts of functions that do nothing.

ghost use Rattle.std.specs.Prelude.{ℕ, Bool};
ghost use Rattle.frame_headers.specs.declared.header.FrameFilter.{FrameFilter};
ghost use Rattle.block_plan.specs.declared.block.ReferenceFrames.{ReferenceFrames};
ghost use Rattle.prob_contexts.specs.ProbLists.{InterLists, VectorLists};
ghost use Rattle.counting_reader.specs.Counting.{Yields};
ghost use Rattle.mv_syntax.specs.Differences.{read_mv};
ghost use Rattle.inter_modes.specs.ModeInfo.{inter_prediction};
ghost use Rattle.inter_modes.specs.BlockVectors.{Sources};
ghost use Rattle.vector_writer.specs.VectorFits.{CanDiffer};
ghost use Rattle.vector_writer.specs.Laws.{IsSaid};

/// What can be put is all that is ever read.
pub fn what_is_read_can_be_put()
    ensures difference { (lists : VectorLists) (precise : Bool) → Yields (read_mv lists precise) (CanDiffer precise) }
    ensures block { (s : Sources) (lists : InterLists) (skips : Bool) (filter : FrameFilter) (context : ℕ) (refs : ReferenceFrames) →
        Yields (inter_prediction s lists skips filter context refs) (IsSaid s skips filter refs) }
{}
