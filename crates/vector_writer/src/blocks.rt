//! The predictions of inter blocks.

ghost use Rattle.std.specs.Prelude.{◌≡◌, ◌<◌, ◌≤◌, ℕ, true, false, IfOk};
ghost use Rattle.std.specs.Option.{option_copied};
ghost use Rattle.vp9_types.specs.declared.block.InterMode.TheVariants.{Zero};
ghost use Rattle.block_geometry.specs.BlockSizes.{is_below_8x8};
ghost use Rattle.block_plan.specs.declared.block.Prediction.TheVariants.{Inter};
ghost use Rattle.prob_contexts.specs.ProbLists.{InterLists};
ghost use Rattle.bool_encoder.specs.CountedBools.{PutsValue};
ghost use Rattle.mv_prediction.specs.Code.{PredictsSmall};
ghost use Rattle.mv_prediction.specs.Candidates.{mode_context};
ghost use Rattle.inter_modes.specs.Code.{MaySearch, sources_in};
ghost use Rattle.inter_modes.specs.BlockVectors.{best_mv};
ghost use Rattle.inter_modes.specs.ModeInfo.{filter_of_symbol, interp_filter, block_mode, whole_block, block_of_quarters, inter_prediction};
ghost use Rattle.vector_writer.specs.VectorFits.{CanFilter, CanSayVectors, CanSayInter, quarter_saying};
ghost use Rattle.vector_writer.specs.SaidVectors.{mode_of_part, symbols_at, whole_said, of_quarters_said, inter_said, HasSaid};

use crate::quarters::put_quarters;
use crate::symbols::{InterSymbols, symbols_at};
use crate::vectors::{put_block_vectors, put_inter_mode};
use block_geometry::is_below_8x8;
use block_plan::{InterPrediction, Neighbours};
use bool_encoder::{BoolEncoder, put_tree};
use counting_reader::nodes_from;
use frame_headers::FrameFilter;
use inter_modes::{FilterSource, Sources, quarters_prediction, whole_prediction};
use std::alloc::AllocError;
use vp9_tables::filter_tree;
use vp9_types::{InterMode, InterpFilter, Rule};

/// Puts the filter of a block, by the context of filters, unless the frame's holds for all its blocks.
#[tactic(auto, unfolding(inter_modes::specs::ModeInfo::interp_filter), using(bool_encoder::proofs::CountedPuts::valued_in_order, bool_encoder::proofs::CountedPuts::valued_settle, bool_encoder::proofs::CountedPuts::valued_tree, vp9_types::proofs::Binds::writes_bind))]
pub fn put_filter(
    encoder: &mut BoolEncoder,
    filter: FrameFilter,
    probs: &[u8; 8],
    context: u8,
    said: InterpFilter,
) -> Result<(), AllocError>
    requires context { context ≤ 3 }
    requires can { CanFilter filter said }
    ensures { IfOk result (λ _. PutsValue (interp_filter filter probs.now context) encoder.old said encoder.new) }
{
    match filter {
        FrameFilter::Fixed(_) => Ok(()),
        FrameFilter::Switchable => {
            let nodes = nodes_from(probs, 2 * u16::from(context));
            put_tree(encoder, filter_tree(), nodes, said as u8)?;
            Ok(())
        }
    }
}

#[tactic(auto, unfolding(inter_modes::specs::ModeInfo::block_mode), using(bool_encoder::proofs::CountedPuts::valued_settle))]
fn put_block_mode(
    encoder: &mut BoolEncoder,
    skips: bool,
    probs: &[u8; 21],
    context: u8,
    mode: InterMode,
) -> Result<(), AllocError>
    requires context { context ≤ 6 }
    requires skipped { skips ≡ true → mode ≡ Zero }
    ensures { IfOk result (λ _. PutsValue (block_mode skips probs.now context) encoder.old mode encoder.new) }
{
    if skips {
        return Ok(());
    }
    put_inter_mode(encoder, probs, context, mode)
}

/// The prediction of a block of 8x8 or more.
#[tactic(auto, unfolding(inter_modes::specs::ModeInfo::whole_block, crate::specs::SaidVectors::whole_said), using(bool_encoder::proofs::CountedPuts::valued_in_order, bool_encoder::proofs::CountedPuts::valued_settle, vp9_types::proofs::Binds::writes_bind))]
fn put_whole<N: Neighbours, Q: Neighbours>(
    encoder: &mut BoolEncoder,
    src: &Sources<'_, N, Q>,
    filters: &[u8; 8],
    skips: bool,
    filter: FilterSource,
    symbols: &InterSymbols,
) -> Result<Result<InterPrediction, Rule>, AllocError>
    requires context { src.now.context ≡ mode_context (N.blocks src.now.earlier.now) src.now.search }
    requires few { src.now.context ≤ 6 }
    requires filter { filter.context ≤ 3 }
    requires may { MaySearch N.holds N.blocks Q.holds Q.blocks src.now.earlier.now (option_copied src.now.before) src.now.search }
    requires named { CanFilter filter.frame symbols.now.filter }
    requires skipped { skips ≡ true → mode_of_part symbols.now.modes 0 ≡ Zero }
    requires vectors { CanSayVectors src.now.high_precision (best_mv (sources_in N.blocks Q.blocks src.now) symbols.now.references) symbols.now.references (symbols_at symbols.now 0) }
    ensures put { IfOk result (λ p. (lists : InterLists) → lists.modes ≡ src.now.modes.now → lists.filters ≡ filters.now →
        PutsValue (whole_block (sources_in N.blocks Q.blocks src.now) lists skips filter.frame filter.context symbols.now.references) encoder.old p encoder.new) }
    ensures is { IfOk result (λ p. p ≡ whole_said (sources_in N.blocks Q.blocks src.now) symbols.now) }
    ensures small { IfOk result (λ r. IfOk r (λ p. PredictsSmall (Inter p))) }
{
    let said = symbols_at(symbols, 0);
    put_block_mode(encoder, skips, src.modes, src.context, said.mode)?;
    put_filter(
        encoder,
        filter.frame,
        filters,
        filter.context,
        symbols.filter,
    )?;
    match put_block_vectors(encoder, src, said, symbols.references)? {
        Ok(vectors) => {
            let references = symbols.references;
            Ok(Ok(whole_prediction(references, symbols.filter, said.mode, vectors)))
        }
        Err(rule) => Ok(Err(rule)),
    }
}

/// The prediction of a block below 8x8.
#[tactic(auto, unfolding(inter_modes::specs::ModeInfo::block_of_quarters, crate::specs::SaidVectors::of_quarters_said), using(bool_encoder::proofs::CountedPuts::valued_in_order, bool_encoder::proofs::CountedPuts::valued_settle, vp9_types::proofs::Binds::writes_bind))]
fn put_block_of_quarters<N: Neighbours, Q: Neighbours>(
    encoder: &mut BoolEncoder,
    src: &Sources<'_, N, Q>,
    filters: &[u8; 8],
    filter: FilterSource,
    symbols: &InterSymbols,
) -> Result<Result<InterPrediction, Rule>, AllocError>
    requires below { is_below_8x8 src.now.search.at.size ≡ true }
    requires context { src.now.context ≡ mode_context (N.blocks src.now.earlier.now) src.now.search }
    requires few { src.now.context ≤ 6 }
    requires filter { filter.context ≤ 3 }
    requires may { MaySearch N.holds N.blocks Q.holds Q.blocks src.now.earlier.now (option_copied src.now.before) src.now.search }
    requires named { CanFilter filter.frame symbols.now.filter }
    requires vectors { (k : ℕ) → k < 4 → CanSayVectors src.now.high_precision (best_mv (sources_in N.blocks Q.blocks src.now) symbols.now.references) symbols.now.references (symbols_at symbols.now (quarter_saying src.now.search.at.size k)) }
    ensures put { IfOk result (λ p. (lists : InterLists) → lists.modes ≡ src.now.modes.now → lists.filters ≡ filters.now →
        PutsValue (block_of_quarters (sources_in N.blocks Q.blocks src.now) lists filter.frame filter.context symbols.now.references) encoder.old p encoder.new) }
    ensures is { IfOk result (λ p. p ≡ of_quarters_said (sources_in N.blocks Q.blocks src.now) symbols.now) }
    ensures small { IfOk result (λ r. IfOk r (λ p. PredictsSmall (Inter p))) }
{
    put_filter(
        encoder,
        filter.frame,
        filters,
        filter.context,
        symbols.filter,
    )?;
    match put_quarters(encoder, src, symbols)? {
        Ok(quarters) => Ok(Ok(quarters_prediction(symbols.references, symbols.filter, &quarters))),
        Err(rule) => Ok(Err(rule)),
    }
}

/// Puts what an inter block says behind its references, and answers its prediction, or the rule that a new vector breaks: the
/// block ends behind that vector. After want of memory some of the bools were put, and the tile is given up as a whole.
#[tactic(auto, unfolding(inter_modes::specs::ModeInfo::inter_prediction, crate::specs::SaidVectors::inter_said))]
pub fn put_inter_prediction<N: Neighbours, Q: Neighbours>(
    encoder: &mut BoolEncoder,
    src: &Sources<'_, N, Q>,
    filters: &[u8; 8],
    skips: bool,
    filter: FilterSource,
    symbols: &InterSymbols,
) -> Result<Result<InterPrediction, Rule>, AllocError>
    requires context { src.now.context ≡ mode_context (N.blocks src.now.earlier.now) src.now.search }
    requires few { src.now.context ≤ 6 }
    requires filter { filter.context ≤ 3 }
    requires may { MaySearch N.holds N.blocks Q.holds Q.blocks src.now.earlier.now (option_copied src.now.before) src.now.search }
    requires can { CanSayInter (sources_in N.blocks Q.blocks src.now) skips filter.frame symbols.now }
    ensures put { IfOk result (λ p. (lists : InterLists) → lists.modes ≡ src.now.modes.now → lists.filters ≡ filters.now →
        PutsValue (inter_prediction (sources_in N.blocks Q.blocks src.now) lists skips filter.frame filter.context symbols.now.references) encoder.old p encoder.new) }
    ensures is { IfOk result (λ p. p ≡ inter_said (sources_in N.blocks Q.blocks src.now) symbols.now) }
    ensures said { IfOk result (λ r. IfOk r (HasSaid symbols.now)) }
    ensures small { IfOk result (λ r. IfOk r (λ p. PredictsSmall (Inter p))) }
{
    if is_below_8x8(src.search.at.size) {
        put_block_of_quarters(encoder, src, filters, filter, symbols)
    } else {
        put_whole(encoder, src, filters, skips, filter, symbols)
    }
}
