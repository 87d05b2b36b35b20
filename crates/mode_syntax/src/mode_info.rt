//! What a block of an intra frame reads.

ghost use Rattle.std.specs.Prelude.{◌≡◌, ◌+◌, ◌-◌, ◌^◌, ◌<◌, ◌≤◌, ℕ};
ghost use Rattle.std.specs.Option.{option_copied};
ghost use Rattle.vp9_tables.specs.BlockTables.{greatest_of};
ghost use Rattle.vp9_tables.specs.Numbers.{tx_number};
ghost use Rattle.prob_contexts.specs.ProbLists.{lists_of};
ghost use Rattle.block_plan.specs.Blocks.{IsIntra};
ghost use Rattle.counting_reader.specs.Code.{Reads};
ghost use Rattle.mode_syntax.specs.IntraModeInfo.{mode_info_beside, intra_frame_mode_info};

use crate::elements::{read_intra_segment_id, read_skip, skip_context};
use crate::intra_modes::{edge_modes, read_default_uv_mode, read_luma_modes};
use crate::tx_sizes::{read_tx_size, tx_context};
use block_plan::{
    BlockAt, BlockInfo, IntraPrediction, Neighbours, Prediction, above_place, left_place,
};
use counting_reader::CountingReader;
use frame_setting::FrameSetting;

/// What a block reads beside the blocks above it and at its left.
#[tactic(auto, unfolding(crate::specs::IntraModeInfo::mode_info_beside), using(counting_reader::proofs::CountingRuns::counting_bind, counting_reader::proofs::CountingRuns::run_settle))]
fn read_beside<const COUNTS: bool>(
    reader: &mut CountingReader<COUNTS>,
    setting: &FrameSetting,
    above: Option<&BlockInfo>,
    left: Option<&BlockInfo>,
    at: BlockAt,
) -> BlockInfo
    ensures read { Reads (mode_info_beside setting.now.header.params.segmentation setting.now.modes.tx_mode (lists_of setting.now.contexts) (option_copied above.entry) (option_copied left.entry) at)
        reader.old result reader.new }
    ensures segment { result.segment ≤ 7 }
    ensures row { result.row ≡ at.row }
    ensures col { result.col ≡ at.col }
    ensures size { result.size ≡ at.size }
    ensures fits { tx_number result.tx ≤ greatest_of at.size }
    ensures intra { IsIntra result.prediction }
{
    let segmentation = &setting.header.params.segmentation;
    let contexts = &setting.contexts;
    let segment = read_intra_segment_id(reader, segmentation);
    let context = skip_context(above, left);
    let skip = read_skip(reader, segmentation, &contexts.skip, context, segment);
    let context = tx_context(at.size, above, left);
    let tx = read_tx_size(
        reader,
        setting.modes.tx_mode,
        &contexts.tx,
        context,
        at.size,
    );
    let luma = read_luma_modes(reader, at.size, edge_modes(above, left));
    let chroma = read_default_uv_mode(reader, luma[3]);
    BlockInfo {
        row: at.row,
        col: at.col,
        size: at.size,
        skip,
        segment,
        segment_predicted: false,
        tx,
        prediction: Prediction::Intra(IntraPrediction { luma, chroma }),
    }
}

/// What a block of an intra frame reads. The block starts inside the frame and its tile; `earlier` has the frame's blocks
/// before it.
#[tactic(auto, unfolding(crate::specs::IntraModeInfo::intra_frame_mode_info))]
pub fn intra_frame_mode_info<N: Neighbours, const COUNTS: bool>(
    reader: &mut CountingReader<COUNTS>,
    setting: &FrameSetting,
    earlier: &N,
    at: BlockAt,
) -> BlockInfo
    requires above { 0 < at.row → N.holds earlier.now (at.row - 1) at.col }
    requires left { at.tile_from < at.col → N.holds earlier.now at.row (at.col - 1) }
    ensures read { Reads (intra_frame_mode_info setting.now.header setting.now.modes (lists_of setting.now.contexts) (N.blocks earlier.now) at) reader.old result reader.new }
    ensures segment { result.segment ≤ 7 }
    ensures row { result.row ≡ at.row }
    ensures col { result.col ≡ at.col }
    ensures size { result.size ≡ at.size }
    ensures fits { tx_number result.tx ≤ greatest_of at.size }
    ensures intra { IsIntra result.prediction }
{
    let above = above_place(earlier, at.row, at.col);
    let left = left_place(earlier, at.tile_from, at.row, at.col);
    read_beside(reader, setting, above, left, at)
}
