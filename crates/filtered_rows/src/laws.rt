//! Laws of the definitions, as contracts of functions that do nothing.

ghost use Rattle.std.specs.Prelude.{ℕ, List};
ghost use Rattle.vp9_types.specs.Maps.{FrameMap};
ghost use Rattle.vp9_types.specs.declared.shape.Plane.{Plane};
ghost use Rattle.vp9_types.specs.declared.shape.Shape.{Shape};
ghost use Rattle.block_plan.specs.declared.block.BlockInfo.{BlockInfo};
ghost use Rattle.planes.specs.declared.frame_planes.FramePlanes.{FramePlanes};
ghost use Rattle.block_rebuild.specs.declared.references.ReferencePicture.{ReferencePicture};
ghost use Rattle.band_cells.specs.Bands.{Picture};
ghost use Rattle.band_needs.specs.declared.ranges.BandRange.{BandRange};
ghost use Rattle.loop_edges.specs.declared.setting.EdgeSetting.{EdgeSetting};
ghost use Rattle.filtered_rows.specs.BufferRows.{RowSpan};
ghost use Rattle.filtered_rows.specs.Laws.{AllRowsAreHeld, BecomesFinalWith, FilteredIsFinal, NoneHoldRows, OneMoreHoldsRows, RowsHaveBands};

use vp9_types::Sample;

/// Each row of a frame is made final by one row of superblocks, and is then in its buffer what the filtered frame has there.
pub fn final_rows_are_held<P: Sample>()
    ensures becomes { (shape : Shape) (plane : Plane) (y : ℕ) → BecomesFinalWith shape plane y }
    ensures filtered { (f : EdgeSetting) (blocks : List BlockInfo) (raw : FrameMap) (picture : Picture) (sr : ℕ) (planes : FramePlanes P) → FilteredIsFinal f blocks raw picture sr planes }
{}

/// Buffers are gathered one after another.
pub fn buffers_come_in_order<P: Sample>()
    ensures none { (picture : Picture) (first : ℕ) (buffers : List (FramePlanes P)) → NoneHoldRows picture first buffers }
    ensures more { (picture : Picture) (first : ℕ) (buffers : List (FramePlanes P)) (next : FramePlanes P) → OneMoreHoldsRows picture first buffers next }
{}

/// The buffers of the rows of superblocks of some bands, and of the row below them, have these bands; those of all rows have the frame.
pub fn rows_have_bands()
    ensures bands { (pictures : ℕ → Picture) (shape : Shape) (bands : BandRange) (r : ReferencePicture RowSpan) → RowsHaveBands pictures shape bands r }
    ensures all { (pictures : ℕ → Picture) (rows : RowSpan) → AllRowsAreHeld pictures rows }
{}
