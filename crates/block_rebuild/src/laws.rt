//! Laws of the definitions, as contracts of functions that do nothing.

ghost use Rattle.std.specs.Prelude.{◌≡◌, ◌+◌, ◌≤◌, ℕ, List};
ghost use Rattle.std.specs.List.{All};
ghost use Rattle.vp9_types.specs.Maps.{FrameMap};
ghost use Rattle.vp9_types.specs.declared.shape.Shape.{Shape};
ghost use Rattle.block_geometry.specs.BlockSizes.{width_8};
ghost use Rattle.block_plan.specs.Planned.{PlannedBlock};
ghost use Rattle.block_rebuild.specs.RebuiltBlocks.{put_planned};
ghost use Rattle.block_rebuild.specs.InterBlocks.{Rebuilding};
ghost use Rattle.block_rebuild.specs.Strips.{column_blocks};
ghost use Rattle.block_rebuild.specs.Laws.{FrameStaysIn, IsRead, IsInColumn, KeepToColumns, AreInOrder, IsStrip, NeedsLastRow, MakesStrip, StripHolds, own_places, places_around};

/// A block changes the samples of its own place alone, and needs of the others those left of it in its tile and those of the
/// row just above, no further to the right than the block. So blocks of different tile columns may be put in in either order.
#[tactic(auto, using(crate::proofs::Columns::block_stays_in, crate::proofs::Columns::blocks_commute))]
pub fn blocks_stay_in_their_tile_column()
    ensures stays { (by : Rebuilding) (b : PlannedBlock) → IsRead by.shape b →
        FrameStaysIn by.shape (own_places b.info) (places_around b) (put_planned by b) }
    ensures commute { (by : Rebuilding) (a b : PlannedBlock) (m : FrameMap) → IsRead by.shape a → IsRead by.shape b →
        a.info.col + width_8 a.info.size ≤ b.tile_from →
        put_planned by a (put_planned by b m) ≡ put_planned by b (put_planned by a m) }
{}

/// A frame, all of whose blocks are put in, is in each row of superblocks of each tile column what the blocks of this column
/// alone make of the last row of samples above.
#[tactic(auto, using(crate::proofs::Columns::is_strip, crate::proofs::Columns::needs_last_row, crate::proofs::Columns::makes_strip, crate::proofs::Columns::strip_holds))]
pub fn strips_side_by_side_are_the_frame()
    ensures frame { (by : Rebuilding) (from to r : ℕ) (blocks : List PlannedBlock) → All (IsRead by.shape) blocks →
        KeepToColumns from to blocks → AreInOrder (column_blocks from blocks) → IsStrip by from to r blocks }
    ensures last_row { (by : Rebuilding) (from to r : ℕ) (column : List PlannedBlock) → All (IsRead by.shape) column →
        All (IsInColumn from to) column → NeedsLastRow by from to r column }
    ensures made { (by : Rebuilding) (from to r : ℕ) (column : List PlannedBlock) → All (IsRead by.shape) column →
        All (IsInColumn from to) column → MakesStrip by from to r column }
    ensures held { (shape : Shape) (from to : ℕ) (b : PlannedBlock) → IsRead shape b → IsInColumn from to b → StripHolds shape from to b }
{}
