//! Laws of the definitions, as contracts of functions that do nothing.

ghost use Rattle.std.specs.Prelude.{◌≡◌, ℕ, List, Ok};
ghost use Rattle.std.specs.List.{All, flat_map, range_with_len};
ghost use Rattle.vp9_types.specs.declared.block.ReferenceFrame.{ReferenceFrame};
ghost use Rattle.vp9_types.specs.declared.job.Span.{Span};
ghost use Rattle.frame_headers.specs.Spans.{tile_count, tile_spans};
ghost use Rattle.frame_headers.specs.HeaderState.{shape_of};
ghost use Rattle.counting_reader.specs.Counting.{Settled};
ghost use Rattle.mode_syntax.specs.TileColumns.{tiles_of};
ghost use Rattle.column_plan.specs.PlanRows as rows;
ghost use Rattle.block_rebuild.specs.InterBlocks.{ReferencePicture};
ghost use Rattle.block_rebuild.specs.Laws.{AreInOrder, IsInColumn, IsRead};
ghost use Rattle.frame_state.specs.ColumnPlans.{ColumnRead, plan_of, tile_bytes};
ghost use Rattle.frame_state.specs.FrameReading.{FrameRead, infos, read_all_tiles};
ghost use Rattle.frame_state.specs.Sources.{FrameSources};
ghost use Rattle.frame_state.specs.TilePlaces.{column_of};
ghost use Rattle.column_order.specs.ColumnStrips.{IsColumnStrip, column_from, column_to};

/// Where a tile column is read to its end, each of its blocks starts inside the frame and the column, lies in one row of
/// superblocks, has a transform that fits it, and has its residues at its transform blocks; each ends inside the column's
/// superblocks; the rows of superblocks that the blocks lie in ascend, as a column's plan asks of those that it lists; and they
/// are the blocks of the column's tiles, one after another. Nothing is asked of the header or of the bytes.
pub fn blocks_of_a_column_follow_one_another()
    ensures placed { (by : FrameSources) (bytes : ℕ → List ℕ) (k : ℕ) (plan : Settled ColumnRead) → plan_of by bytes k ≡ Ok plan →
        All (IsRead (shape_of by.header)) plan.value.column.blocks }
    ensures inside { (by : FrameSources) (bytes : ℕ → List ℕ) (k : ℕ) (plan : Settled ColumnRead) → plan_of by bytes k ≡ Ok plan →
        All (IsInColumn (column_from by.header k) (column_to by.header k)) plan.value.column.blocks }
    ensures order { (by : FrameSources) (bytes : ℕ → List ℕ) (k : ℕ) (plan : Settled ColumnRead) → plan_of by bytes k ≡ Ok plan →
        AreInOrder plan.value.column.blocks }
    ensures infos { (by : FrameSources) (bytes : ℕ → List ℕ) (k : ℕ) (plan : Settled ColumnRead) → plan_of by bytes k ≡ Ok plan →
        rows.AreInOrder (infos plan.value.column.blocks) }
    ensures tiles { (by : FrameSources) (bytes : ℕ → List ℕ) (k : ℕ) (plan : Settled ColumnRead) → plan_of by bytes k ≡ Ok plan →
        plan.value.column.blocks ≡ flat_map plan.value.tiles (tiles_of (column_of by.header.params.tiles) k (range_with_len 0 (tile_count by.header))) }
{}

/// Where all tiles of a frame are read, its samples before the loop filter, for which its blocks are put in in the order of the
/// tiles, are in each row of superblocks of each tile column the strip that the blocks of this column alone make, as they are
/// read by itself.
pub fn frames_are_strips_of_their_columns()
    ensures { (by : FrameSources) (bytes : List ℕ) (compressed : Span) (spans : List Span) (read : FrameRead) (references : ReferenceFrame → ReferencePicture) (k r : ℕ) (plan : Settled ColumnRead) →
        tile_spans bytes by.header compressed ≡ Ok spans → read_all_tiles by bytes compressed ≡ Ok read → plan_of by (tile_bytes bytes spans) k ≡ Ok plan →
        IsColumnStrip (record { shape = shape_of by.header; references = references }) by.header k r read.blocks plan.value.column.blocks }
{}
