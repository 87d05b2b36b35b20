//! Laws of the definitions, as the contract of a function that does nothing.

ghost use Rattle.std.specs.Prelude.{ℕ, Bool, List};
ghost use Rattle.vp9_types.specs.declared.block.Modes.{Modes};
ghost use Rattle.frame_headers.specs.declared.header.Header.{Header};
ghost use Rattle.prob_contexts.specs.ProbLists.{ContextLists};
ghost use Rattle.block_geometry.specs.declared.transform_blocks.FramePlaces.{FramePlaces};
ghost use Rattle.block_plan.specs.declared.block.BlockAt.{BlockAt};
ghost use Rattle.block_plan.specs.declared.block.BlockInfo.{BlockInfo};
ghost use Rattle.counting_reader.specs.Counting.{Yields};
ghost use Rattle.mode_syntax.specs.IntraModeInfo.{intra_frame_mode_info};
ghost use Rattle.mode_syntax.specs.Partitions.{partition_at};
ghost use Rattle.mode_syntax.specs.declared.square_at.SquareAt.{SquareAt};
ghost use Rattle.mode_writer.specs.ModeFits.{CanPutIntraFrame, CanPartitionAt};

/// Whatever bools are read, a block and a partition come of them that can be put.
pub fn what_is_read_can_be_put()
    ensures block { (header : Header) (modes : Modes) (contexts : ContextLists) (earlier : List BlockInfo) (at : BlockAt) →
        Yields (intra_frame_mode_info header modes contexts earlier at) (CanPutIntraFrame header modes at) }
    ensures partition { (intra : Bool) (probs : List ℕ) (earlier : List BlockInfo) (frame : FramePlaces) (at : SquareAt) →
        Yields (partition_at intra probs earlier frame at) (CanPartitionAt frame at) }
{}
