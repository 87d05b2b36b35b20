//! What a block of an intra frame says.

ghost use Rattle.std.specs.Prelude.{◌≡◌, ◌-◌, ◌<◌, ◌≤◌, IfOk};
ghost use Rattle.std.specs.Option.{option_copied};
ghost use Rattle.prob_contexts.specs.ProbLists.{lists_of};
ghost use Rattle.bool_encoder.specs.CountedBools.{PutsValue};
ghost use Rattle.mode_syntax.specs.IntraModeInfo.{mode_info_beside, intra_frame_mode_info};
ghost use Rattle.mode_writer.specs.ModeFits.{CanPutIntraFrame};

use crate::elements::{put_intra_segment_id, put_skip};
use crate::intra_modes::{put_default_uv_mode, put_luma_modes};
use crate::tx_sizes::put_tx_size;
use block_plan::{BlockAt, BlockInfo, Neighbours, Prediction, above_place, left_place};
use bool_encoder::BoolEncoder;
use frame_setting::FrameSetting;
use mode_syntax::{edge_modes, skip_context, tx_context};
use std::alloc::AllocError;

/// What a block says beside the blocks above it and at its left.
#[tactic(auto, unfolding(mode_syntax::specs::IntraModeInfo::mode_info_beside), using(bool_encoder::proofs::CountedPuts::valued_in_order, bool_encoder::proofs::CountedPuts::valued_settle, bool_encoder::proofs::CountedPuts::valued_uncounted, vp9_types::proofs::Binds::writes_bind))]
fn put_beside(
    encoder: &mut BoolEncoder,
    setting: &FrameSetting,
    above: Option<&BlockInfo>,
    left: Option<&BlockInfo>,
    at: BlockAt,
    block: &BlockInfo,
) -> Result<(), AllocError>
    requires { CanPutIntraFrame setting.now.header setting.now.modes at block.now }
    ensures { IfOk result (λ _. PutsValue
        (mode_info_beside setting.now.header.params.segmentation setting.now.modes.tx_mode (lists_of setting.now.contexts) (option_copied above.entry) (option_copied left.entry) at)
        encoder.old block.now encoder.new) }
{
    let Prediction::Intra(intra) = block.prediction else {
        return Ok(());
    };
    let segmentation = &setting.header.params.segmentation;
    let contexts = &setting.contexts;
    let segment = block.segment;
    put_intra_segment_id(encoder, segmentation, segment)?;
    let context = skip_context(above, left);
    put_skip(
        encoder,
        segmentation,
        &contexts.skip,
        context,
        segment,
        block.skip,
    )?;
    let context = tx_context(at.size, above, left);
    put_tx_size(
        encoder,
        setting.modes.tx_mode,
        &contexts.tx,
        context,
        at.size,
        block.tx,
    )?;
    put_luma_modes(encoder, at.size, edge_modes(above, left), intra.luma)?;
    put_default_uv_mode(encoder, intra.luma[3], intra.chroma)
}

/// Puts a block of an intra frame, `intra_frame_mode_info` (6.4.6 of the standard). The block starts inside the frame and
/// its tile; `earlier` has the frame's blocks before it. After want of memory some of the bools were put, and the tile is
/// given up as a whole.
#[tactic(auto, unfolding(mode_syntax::specs::IntraModeInfo::intra_frame_mode_info))]
pub fn put_intra_frame_mode_info<N: Neighbours>(
    encoder: &mut BoolEncoder,
    setting: &FrameSetting,
    earlier: &N,
    at: BlockAt,
    block: &BlockInfo,
) -> Result<(), AllocError>
    requires above { 0 < at.row → N.holds earlier.now (at.row - 1) at.col }
    requires left { at.tile_from < at.col → N.holds earlier.now at.row (at.col - 1) }
    requires can { CanPutIntraFrame setting.now.header setting.now.modes at block.now }
    ensures { IfOk result (λ _. PutsValue
        (intra_frame_mode_info setting.now.header setting.now.modes (lists_of setting.now.contexts) (N.blocks earlier.now) at)
        encoder.old block.now encoder.new) }
{
    let above = above_place(earlier, at.row, at.col);
    let left = left_place(earlier, at.tile_from, at.row, at.col);
    put_beside(encoder, setting, above, left, at, block)
}
