//! Laws of the definitions, as contracts of functions that do nothing.

ghost use Rattle.std.specs.Prelude.{ℕ, ◌≡◌, ◌<◌, List};
ghost use Rattle.std.specs.List.{fold};
ghost use Rattle.vp9_types.specs.Maps.{FrameMap};
ghost use Rattle.vp9_types.specs.Shapes.{mi_rows};
ghost use Rattle.vp9_types.specs.Sizes.{superblocks_along};
ghost use Rattle.vp9_types.specs.declared.block.ReferenceFrame.{ReferenceFrame};
ghost use Rattle.vp9_types.specs.declared.job.Span.{Span};
ghost use Rattle.frame_headers.specs.HeaderState.{shape_of};
ghost use Rattle.counting_reader.specs.Counting.{Settled};
ghost use Rattle.block_plan.specs.Planned.{PlannedBlock};
ghost use Rattle.planes.specs.Pictures.{blank};
ghost use Rattle.planes.specs.declared.frame_planes.FramePlanes.{FramePlanes};
ghost use Rattle.block_rebuild.specs.RebuiltBlocks.{put_planned};
ghost use Rattle.block_rebuild.specs.InterBlocks.{Rebuilding, ReferencePicture};
ghost use Rattle.block_rebuild.specs.Strips.{with_blocks};
ghost use Rattle.recon_rows.specs.frame_state.ColumnPlans.{ColumnRead};
ghost use Rattle.recon_rows.specs.frame_state.FrameReading.{FrameRead};
ghost use Rattle.recon_rows.specs.frame_state.Sources.{FrameSources};
ghost use Rattle.column_strips.specs.StripRows.{AreRow};
ghost use Rattle.column_strips.specs.Laws.{AreColumnStrips, AreFrameColumns, rebuilding};

use vp9_types::Sample;

/// Where all tiles of a frame are read, the strips of its tile columns, each made of the blocks that this column alone has, are a
/// row of superblocks of the frame that all of its blocks make, put in one after another in the order of the tiles.
pub fn strips_of_columns_are_a_frames_row<P: Sample>()
    ensures row { (by : FrameSources) (bytes : List ℕ) (compressed : Span) (read : FrameRead) (plans : ℕ → Settled ColumnRead) (references : ReferenceFrame → ReferencePicture) (r : ℕ) (strips : List (FramePlanes P)) →
        AreFrameColumns by bytes compressed read plans → r < superblocks_along (mi_rows (shape_of by.header)) → AreColumnStrips (rebuilding by references) by plans r strips →
        AreRow (shape_of by.header) (with_blocks (rebuilding by references) blank read.blocks) r strips }
    ensures frame { (put : Rebuilding) (blocks : List PlannedBlock) → with_blocks put blank blocks ≡ fold (λ f b. put_planned put b f) blank blocks }
{}
