//! Laws of the definitions, as contracts of functions that do nothing.

ghost use Rattle.std.specs.Prelude.{◌≡◌, ◌+◌, ℕ, List};
ghost use Rattle.vp9_types.specs.Maps.{FrameMap};
ghost use Rattle.block_plan.specs.declared.block.BlockInfo.{BlockInfo};
ghost use Rattle.loop_edges.specs.Code.{with_row, filtered_before};
ghost use Rattle.loop_edges.specs.declared.setting.EdgeSetting.{EdgeSetting};
ghost use Rattle.loop_filter.specs.Laws.{LeavesRowsAbove, LeavesRowsBelow, ReadsNoRowAbove, ReadsItsRowsAlone, AreFinal, RowsFollow, BandsAreFinal};

/// A frame is filtered one row of superblocks after another: each goes on from what those before it have left, changes and
/// reads no row of samples above the eight that lie above it, and so leaves final what lies further up.
#[tactic(auto, using(crate::proofs::Frames::row_more, crate::proofs::FinalRows::leaves_above, crate::proofs::FinalRows::reads_below, crate::proofs::FinalRows::are_final))]
pub fn rows_follow_one_another()
    ensures next { (f : EdgeSetting) (blocks : List BlockInfo) (m : FrameMap) (rows : ℕ) →
        filtered_before f blocks m (rows + 1) ≡ with_row f blocks (filtered_before f blocks m rows) rows }
    ensures leaves { (f : EdgeSetting) (blocks : List BlockInfo) (sr : ℕ) → LeavesRowsAbove f blocks sr }
    ensures reads { (f : EdgeSetting) (blocks : List BlockInfo) (sr : ℕ) → ReadsNoRowAbove f blocks sr }
    ensures settled { (f : EdgeSetting) (blocks : List BlockInfo) (rows : ℕ) → AreFinal f blocks rows }
{}

/// So a frame can be filtered in a buffer that has the rows of one row of superblocks at a time, and those above them that are
/// pending: no row of samples above these or below that row is read or changed.
#[tactic(auto, using(crate::proofs::FinalRows::leaves_below, crate::proofs::FinalRows::reads_its_rows, crate::proofs::Following::bands_are_final))]
pub fn a_buffer_of_one_row_is_enough()
    ensures leaves { (f : EdgeSetting) (blocks : List BlockInfo) (sr : ℕ) → LeavesRowsBelow f blocks sr }
    ensures reads { (f : EdgeSetting) (blocks : List BlockInfo) (sr : ℕ) → ReadsItsRowsAlone f blocks sr }
    ensures follows { (f : EdgeSetting) (blocks : List BlockInfo) (sr : ℕ) → RowsFollow f blocks sr }
    ensures bands { (f : EdgeSetting) (blocks : List BlockInfo) (rows : ℕ) → BandsAreFinal f blocks rows }
{}
