//! Laws of the definitions, as contracts of functions that do nothing.

ghost use Rattle.std.specs.Prelude.{ℕ, List};
ghost use Rattle.vp9_types.specs.Maps.{FrameMap, IsAtMost};
ghost use Rattle.vp9_types.specs.Sizes.{greatest};
ghost use Rattle.vp9_types.specs.declared.shape.Plane.{Plane};
ghost use Rattle.block_plan.specs.Planned.{PlannedBlock};
ghost use Rattle.block_plan.specs.declared.block.BlockInfo.{BlockInfo};
ghost use Rattle.block_rebuild.specs.InterBlocks.{Rebuilding};
ghost use Rattle.numbered_frames.specs.frame_decoder.DecodedFrames.{raw};
ghost use Rattle.frame_output.specs.declared.rendering.Format.{Format};
ghost use Rattle.loop_edges.specs.FrameEdges.{filtered_frame};
ghost use Rattle.loop_edges.specs.declared.setting.EdgeSetting.{EdgeSetting};
ghost use Rattle.numbered_frames.specs.Films.{Film};
ghost use Rattle.numbered_frames.specs.NumberedPictures.{pictures};

/// Samples are in the range of their frame's depth: before the loop filter, whatever the blocks and the pictures that they refer to are;
/// behind it; and in all frames of a file.
pub fn samples_are_in_range()
    ensures raw { (put : Rebuilding) (blocks : List PlannedBlock) (p : Plane) → IsAtMost (greatest put.shape.depth) (raw put blocks p) }
    ensures filtered { (f : EdgeSetting) (blocks : List BlockInfo) (m : FrameMap) (p : Plane) →
        IsAtMost (greatest f.shape.depth) (m p) → IsAtMost (greatest f.shape.depth) (filtered_frame f blocks m p) }
    ensures pictures { (format : Format) (film : Film) (f : ℕ) (p : Plane) →
        IsAtMost (greatest (pictures format film f).shape.depth) ((pictures format film f).map p) }
{}
