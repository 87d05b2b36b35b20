//! What a block of an inter frame says first.

ghost use Rattle.std.specs.Prelude.{◌≡◌, ◌≤◌, IfOk, ℕ, true, false};
ghost use Rattle.bool_encoder.specs.CountedBools.{PutsValue};
ghost use Rattle.inter_modes.specs.BlockStarts.{segment_of, segment_by_tree, temporal_segment, updated_segment, segment_by, inter_segment_id, is_inter_by, read_is_inter, tx_size, block_start};
ghost use Rattle.inter_writer.specs.InterFits.{IsUpdated, IsSegment, CanBeInter, CanTxIf, CanStart};
ghost use Rattle.std.specs.Option.{option_copied};
ghost use Rattle.prob_contexts.specs.ProbLists.{lists_of};

use block_plan::BlockInfo;
use bool_encoder::{BoolEncoder, put_flag, put_tree};
use frame_headers::{MapUpdate, Segmentation};
use frame_setting::FrameSetting;
use inter_contexts::{is_inter_context, predicted_context};
use inter_modes::{BlockStart, SegmentOf, segment_reference};
use mode_syntax::{skip_context, tx_context};
use mode_writer::{put_skip, put_tx_size};
use std::alloc::AllocError;
use vp9_tables::segment_tree;
use vp9_types::{BlockSize, TxSize};

#[tactic(auto, unfolding(inter_modes::specs::BlockStarts::segment_by_tree), using(bool_encoder::proofs::CountedPuts::valued_in_order, bool_encoder::proofs::CountedPuts::valued_settle, bool_encoder::proofs::CountedPuts::valued_uncounted, vp9_types::proofs::Binds::writes_bind))]
fn put_coded_segment(encoder: &mut BoolEncoder, tree: &[u8; 7], id: u8) -> Result<(), AllocError>
    requires { id ≤ 7 }
    ensures { IfOk result (λ _. PutsValue (segment_by_tree tree.now) encoder.old (segment_of false id) encoder.new) }
{
    put_tree(encoder, segment_tree(), tree, id)
}

#[tactic(auto, unfolding(inter_modes::specs::BlockStarts::temporal_segment), using(bool_encoder::proofs::CountedPuts::valued_in_order, bool_encoder::proofs::CountedPuts::valued_settle, bool_encoder::proofs::CountedPuts::valued_uncounted, vp9_types::proofs::Binds::writes_bind))]
fn put_temporal_segment(
    encoder: &mut BoolEncoder,
    update: &MapUpdate,
    context: u8,
    segment: SegmentOf,
) -> Result<(), AllocError>
    requires context { context ≤ 2 }
    requires id { segment.id ≤ 7 }
    ensures { IfOk result (λ _. (least : ℕ) → (segment.predicted ≡ true → segment.id ≡ least) →
        PutsValue (temporal_segment update.now context least) encoder.old segment encoder.new) }
{
    let p = update.prediction[context as usize];
    if segment.predicted {
        return put_flag(encoder, p, true);
    }
    put_flag(encoder, p, false)?;
    put_coded_segment(encoder, &update.tree, segment.id)
}

#[tactic(auto, unfolding(inter_modes::specs::BlockStarts::updated_segment))]
fn put_updated_segment(
    encoder: &mut BoolEncoder,
    update: &MapUpdate,
    context: u8,
    segment: SegmentOf,
) -> Result<(), AllocError>
    requires context { context ≤ 2 }
    requires id { segment.id ≤ 7 }
    ensures { IfOk result (λ _. (least : ℕ) → IsUpdated update.now least segment →
        PutsValue (updated_segment update.now context least) encoder.old segment encoder.new) }
{
    if update.temporal {
        put_temporal_segment(encoder, update, context, segment)
    } else {
        put_coded_segment(encoder, &update.tree, segment.id)
    }
}

/// Puts the segment of a block of an inter frame.
#[tactic(auto, unfolding(inter_modes::specs::BlockStarts::inter_segment_id, inter_modes::specs::BlockStarts::segment_by), using(bool_encoder::proofs::CountedPuts::valued_settle))]
fn put_inter_segment_id(
    encoder: &mut BoolEncoder,
    segmentation: &Segmentation,
    context: u8,
    segment: SegmentOf,
) -> Result<(), AllocError>
    requires context { context ≤ 2 }
    requires id { segment.id ≤ 7 }
    ensures { IfOk result (λ _. (least : ℕ) → IsSegment segmentation.now least segment →
        PutsValue (inter_segment_id segmentation.now context least) encoder.old segment encoder.new) }
{
    if !segmentation.enabled {
        return Ok(());
    }
    match &segmentation.map {
        Some(update) => put_updated_segment(encoder, update, context, segment),
        None => Ok(()),
    }
}

/// Puts whether a block is inter, where its segment takes no reference.
#[tactic(auto, unfolding(inter_modes::specs::BlockStarts::read_is_inter, inter_modes::specs::BlockStarts::is_inter_by), using(bool_encoder::proofs::CountedPuts::valued_settle, bool_encoder::proofs::CountedPuts::valued_flag))]
fn put_is_inter(
    encoder: &mut BoolEncoder,
    segmentation: &Segmentation,
    probs: &[u8; 4],
    context: u8,
    segment: u8,
    is_inter: bool,
) -> Result<(), AllocError>
    requires segment { segment ≤ 7 }
    requires context { context ≤ 3 }
    requires may { CanBeInter segmentation.now segment is_inter }
    ensures { IfOk result (λ _. PutsValue (read_is_inter segmentation.now probs.now context segment) encoder.old is_inter encoder.new) }
{
    match segment_reference(segmentation, segment) {
        Some(_) => Ok(()),
        None => put_flag(encoder, probs[context as usize], is_inter),
    }
}

#[tactic(auto, unfolding(inter_modes::specs::BlockStarts::tx_size), using(bool_encoder::proofs::CountedPuts::valued_settle))]
fn put_tx(
    encoder: &mut BoolEncoder,
    setting: &FrameSetting,
    context: u8,
    size: BlockSize,
    coded: bool,
    tx: TxSize,
) -> Result<(), AllocError>
    requires context { context ≤ 1 }
    requires can { CanTxIf coded setting.now.modes.tx_mode size tx }
    ensures { IfOk result (λ _. PutsValue (tx_size setting.now.modes.tx_mode (lists_of setting.now.contexts).tx context size coded) encoder.old tx encoder.new) }
{
    if coded {
        let mode = setting.modes.tx_mode;
        return put_tx_size(encoder, mode, &setting.contexts.tx, context, size, tx);
    }
    Ok(())
}

/// Puts what a block of an inter frame says before its modes, by the blocks above it and at its left, whatever the least id is
/// that the map before the frame has over it.
#[tactic(auto, unfolding(inter_modes::specs::BlockStarts::block_start), using(bool_encoder::proofs::CountedPuts::valued_in_order, bool_encoder::proofs::CountedPuts::valued_settle, vp9_types::proofs::Binds::writes_bind))]
pub(crate) fn put_block_start(
    encoder: &mut BoolEncoder,
    setting: &FrameSetting,
    above: Option<&BlockInfo>,
    left: Option<&BlockInfo>,
    size: BlockSize,
    start: &BlockStart,
) -> Result<(), AllocError>
    requires segment { start.now.segment.id ≤ 7 }
    requires can { CanStart setting.now.header.params.segmentation setting.now.modes.tx_mode size start.now }
    ensures { IfOk result (λ _. (least : ℕ) → IsSegment setting.now.header.params.segmentation least start.now.segment →
        PutsValue (block_start setting.now.header.params.segmentation setting.now.modes.tx_mode (lists_of setting.now.contexts) (option_copied above.entry) (option_copied left.entry) size least) encoder.old start.now encoder.new) }
{
    let segmentation = &setting.header.params.segmentation;
    let contexts = &setting.contexts;
    let segment = start.segment;
    put_inter_segment_id(
        encoder,
        segmentation,
        predicted_context(above, left),
        segment,
    )?;
    let context = skip_context(above, left);
    put_skip(
        encoder,
        segmentation,
        &contexts.skip,
        context,
        segment.id,
        start.skip,
    )?;
    let context = is_inter_context(above, left);
    let probs = &contexts.inter.is_inter;
    put_is_inter(
        encoder,
        segmentation,
        probs,
        context,
        segment.id,
        start.is_inter,
    )?;
    let context = tx_context(size, above, left);
    let coded = !(start.is_inter && start.skip);
    put_tx(encoder, setting, context, size, coded, start.tx)
}
