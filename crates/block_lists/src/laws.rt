//! Laws of the definitions, as contracts of functions that do nothing.

ghost use Rattle.std.specs.Prelude.{ℕ, Bool, List, Ok};
ghost use Rattle.vp9_types.specs.declared.block.Partition.{Partition};
ghost use Rattle.bool_encoder.specs.Part.{NumberPart};
ghost use Rattle.bool_lists.specs.BoolLists.{HasPut};
ghost use Rattle.bool_encoder.specs.CountedBools.{PutsValue};
ghost use Rattle.block_geometry.specs.declared.transform_blocks.FramePlaces.{FramePlaces};
ghost use Rattle.block_plan.specs.declared.block.BlockAt.{BlockAt};
ghost use Rattle.block_plan.specs.declared.block.BlockInfo.{BlockInfo};
ghost use Rattle.inter_modes.specs.ModeInfo.{BlockSources, mode_info};
ghost use Rattle.mode_syntax.specs.Partitions.{partition_at};
ghost use Rattle.mode_syntax.specs.declared.square_at.SquareAt.{SquareAt};
ghost use Rattle.block_lists.specs.InterLists.{spelled_mode_info};
ghost use Rattle.block_lists.specs.PartitionLists.{spelled_partition_at};

/// Whatever bools lead the syntax of a partition or of a block to a value, they are those of its list.
pub fn blocks_are_put_in_one_way()
    ensures partition { (intra : Bool) (probs : List ℕ) (earlier : List BlockInfo) (frame : FramePlaces) (at : SquareAt) (p : Partition) (old new : NumberPart) →
        PutsValue (partition_at intra probs earlier frame at) old p new → HasPut old (spelled_partition_at intra probs earlier frame at p) new }
    ensures block { (by : BlockSources) (earlier : List BlockInfo) (at : BlockAt) (block : BlockInfo) (old new : NumberPart) →
        PutsValue (mode_info by earlier at) old (Ok block) new → HasPut old (spelled_mode_info by earlier at block) new }
{}
