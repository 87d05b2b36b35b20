//! What a block says.

ghost use Rattle.std.specs.Prelude.{◌≡◌, ◌-◌, ◌<◌, ◌≤◌, ℕ, Ok, IfOk, IfSome};
ghost use Rattle.std.specs.List.{All};
ghost use Rattle.std.specs.Option.{option_copied};
ghost use Rattle.vp9_tables.specs.BlockTables.{greatest_of};
ghost use Rattle.vp9_tables.specs.Numbers.{tx_number};
ghost use Rattle.prob_contexts.specs.ProbLists.{lists_of};
ghost use Rattle.block_plan.specs.declared.block.Prediction.TheVariants as predicted;
ghost use Rattle.bool_encoder.specs.CountedBools.{PutsValue};
ghost use Rattle.mv_prediction.specs.Candidates.{mode_context, sign_biases};
ghost use Rattle.mv_prediction.specs.Code.{HasSmallVectors, IsSite, blocks_of};
ghost use Rattle.block_plan.specs.SegmentMaps.{id_map};
ghost use Rattle.inter_modes.specs.Code.{block_sources_in, MaySearch, IsBlockAt, AreInRange, PredictsInRange, RefersInRange, frame_in, least_of, sources_in};
ghost use Rattle.inter_modes.specs.ModeInfo.{checked_references, inter_block, intra_coded_block, inter_frame_block, inter_frame_mode_info, intra_frame_block, mode_info, block_with, sources_of, least_before};
ghost use Rattle.inter_contexts.specs.BlockReferences.{allowed_or_rule};
ghost use Rattle.mode_writer.specs.ModeFits.{CanLuma, CanPutIntraFrame};
ghost use Rattle.inter_writer.specs.InterFits.{CanRefer, choice_of, IsSegment, CanStart, CanSayInterBlock, CanPredict, CanPutInterFrame, CanPutIntra, CanPut};
ghost use Rattle.inter_writer.specs.SaidBlocks.{inter_block_said, block_said, IsSaidIntra, IsSaid};

use crate::intra_blocks::put_intra_prediction;
use crate::references::{ReferenceChoice, put_references};
use crate::starts::put_block_start;
use block_plan::{
    BlockAt, BlockInfo, IntraPrediction, Neighbours, Prediction, ReferenceFrames, SegmentMap,
    above_place, left_place,
};
use bool_encoder::BoolEncoder;
use frame_headers::FrameKind;
use frame_setting::FrameSetting;
use inter_contexts::{allowed_or_rule, filter_context};
use inter_modes::{BlockStart, FilterSource, Frame, Sources, block_with, segment_reference};
use mode_syntax::skips_segment;
use mode_writer::put_intra_frame_mode_info;
use mv_prediction::{MvSearch, SignBiases, mode_context};
use std::alloc::AllocError;
use vector_writer::{InterSymbols, put_inter_prediction};
use vp9_types::Rule;

/// What a block says: what it says first, and its prediction.
#[derive(Clone, Copy, Debug, PartialEq, Eq)]
pub struct BlockSymbols {
    pub start: BlockStart,
    pub prediction: PredictionSymbols,
}

/// How a block says its prediction.
#[derive(Clone, Copy, Debug, PartialEq, Eq)]
pub enum PredictionSymbols {
    Intra(IntraPrediction),
    Inter(InterSymbols),
}

/// A block that is to be put: where it stands, and what it says.
#[derive(Clone, Copy, Debug, PartialEq, Eq)]
pub struct SaidBlock {
    pub at: BlockAt,
    pub symbols: BlockSymbols,
}

/// The blocks above a block and at its left, where they are.
#[derive(Drop)]
pub(crate) struct Beside<'a> {
    pub above: Option<&'a BlockInfo>,
    pub left: Option<&'a BlockInfo>,
}

/// An intra block of an inter frame.
#[tactic(auto, unfolding(inter_modes::specs::ModeInfo::intra_coded_block), using(bool_encoder::proofs::CountedPuts::valued_in_order, bool_encoder::proofs::CountedPuts::valued_settle, vp9_types::proofs::Binds::writes_bind))]
fn put_intra_block(
    encoder: &mut BoolEncoder,
    frame: &Frame<'_>,
    at: &BlockAt,
    start: &BlockStart,
    prediction: IntraPrediction,
) -> Result<BlockInfo, AllocError>
    requires segment { start.now.segment.id ≤ 7 }
    requires fits { tx_number start.now.tx ≤ greatest_of at.now.size }
    requires can { CanLuma at.now.size prediction.luma }
    ensures put { IfOk result (λ b. PutsValue (intra_coded_block (frame_in frame.now) at.now start.now) encoder.old (Ok b) encoder.new) }
    ensures is { IfOk result (λ b. b ≡ block_with at.now start.now (predicted.Intra prediction)) }
    ensures block { IfOk result (IsBlockAt at.now) }
    ensures in_range { IfOk result (λ b. PredictsInRange frame.now.setting.now.header.size frame.now.fields.now.references b.prediction) }
{
    let contexts = &frame.setting.contexts;
    let y_modes = &contexts.inter.y_modes;
    put_intra_prediction(encoder, y_modes, &contexts.uv_modes, at.size, prediction)?;
    Ok(block_with(at, start, Prediction::Intra(prediction)))
}

/// The references of an inter block, which must be in range.
#[tactic(auto, unfolding(inter_modes::specs::ModeInfo::checked_references), using(bool_encoder::proofs::CountedPuts::valued_in_order, bool_encoder::proofs::CountedPuts::valued_settle, vp9_types::proofs::Binds::writes_bind, inter_modes::proofs::InRange::tested, crate::proofs::InRange::tested_same))]
fn put_checked_references(
    encoder: &mut BoolEncoder,
    frame: &Frame<'_>,
    biases: SignBiases,
    beside: &Beside<'_>,
    segment: u8,
    references: ReferenceFrames,
) -> Result<Result<ReferenceFrames, Rule>, AllocError>
    requires segment { segment ≤ 7 }
    requires can { CanRefer (choice_of (frame_in frame.now) biases segment) references }
    ensures put { IfOk result (λ r. PutsValue (checked_references (frame_in frame.now) biases (option_copied beside.now.above) (option_copied beside.now.left) segment) encoder.old r encoder.new) }
    ensures is { IfOk result (λ r. r ≡ allowed_or_rule frame.now.setting.now.header.size frame.now.fields.now.references references) }
    ensures same { IfOk result (λ r. IfOk r (λ refs. refs ≡ references)) }
    ensures in_range { IfOk result (λ r. IfOk r (AreInRange frame.now.setting.now.header.size frame.now.fields.now.references)) }
{
    let setting = frame.setting;
    let choice = ReferenceChoice {
        feature: segment_reference(&setting.header.params.segmentation, segment),
        mode: setting.modes.reference_mode,
        biases,
    };
    let probs = &setting.contexts.inter;
    put_references(
        encoder,
        &choice,
        probs,
        beside.above,
        beside.left,
        references,
    )?;
    Ok(allowed_or_rule(&setting.header.size, &frame.fields.references, references))
}

/// An inter block, by the blocks above it and at its left.
#[tactic(auto, unfolding(inter_modes::specs::ModeInfo::inter_block, crate::specs::SaidBlocks::inter_block_said), using(bool_encoder::proofs::CountedPuts::valued_in_order, bool_encoder::proofs::CountedPuts::valued_settle, vp9_types::proofs::Binds::writes_bind))]
fn put_inter_block<N: Neighbours, Q: Neighbours>(
    encoder: &mut BoolEncoder,
    src: &Sources<'_, N, Q>,
    frame: &Frame<'_>,
    beside: &Beside<'_>,
    start: &BlockStart,
    symbols: &InterSymbols,
) -> Result<Result<BlockInfo, Rule>, AllocError>
    requires segment { start.now.segment.id ≤ 7 }
    requires fits { tx_number start.now.tx ≤ greatest_of src.now.search.at.size }
    requires context { src.now.context ≡ mode_context (N.blocks src.now.earlier.now) src.now.search }
    requires few { src.now.context ≤ 6 }
    requires modes { src.now.modes.now ≡ frame.now.setting.now.contexts.inter.modes }
    requires may { MaySearch N.holds N.blocks Q.holds Q.blocks src.now.earlier.now (option_copied src.now.before) src.now.search }
    requires can { CanSayInterBlock (frame_in frame.now) (sources_in N.blocks Q.blocks src.now) start.now.segment.id symbols.now }
    ensures put { IfOk result (λ r. PutsValue (inter_block (frame_in frame.now) (sources_in N.blocks Q.blocks src.now) (option_copied beside.now.above) (option_copied beside.now.left) start.now) encoder.old r encoder.new) }
    ensures is { IfOk result (λ r. r ≡ inter_block_said (frame_in frame.now) (sources_in N.blocks Q.blocks src.now) start.now symbols.now) }
    ensures block { IfOk result (λ r. IfOk r (IsBlockAt src.now.search.at)) }
    ensures in_range { IfOk result (λ r. IfOk r (λ b. PredictsInRange frame.now.setting.now.header.size frame.now.fields.now.references b.prediction)) }
{
    let setting = frame.setting;
    let segment = start.segment.id;
    let biases = src.search.biases;
    let references = symbols.references;
    if let Err(rule) = put_checked_references(
        encoder, frame, biases, beside, segment, references,
    )? {
        return Ok(Err(rule));
    }
    let filters = &setting.contexts.inter.filters;
    let skips = skips_segment(&setting.header.params.segmentation, segment);
    let filter = FilterSource {
        frame: frame.fields.filter,
        context: filter_context(beside.above, beside.left),
    };
    match put_inter_prediction(encoder, src, filters, skips, filter, symbols)? {
        Ok(prediction) => {
            let prediction = Prediction::Inter(prediction);
            Ok(Ok(block_with(&src.search.at, start, prediction)))
        }
        Err(rule) => Ok(Err(rule)),
    }
}

/// A block of an inter frame, by the blocks above it and at its left, whatever the least id is that the map before the frame
/// has over it.
#[tactic(auto, unfolding(inter_modes::specs::ModeInfo::inter_frame_block), using(bool_encoder::proofs::CountedPuts::valued_in_order, bool_encoder::proofs::CountedPuts::valued_settle, vp9_types::proofs::Binds::writes_bind, crate::proofs::Below::tx_fits))]
fn put_beside<N: Neighbours, Q: Neighbours>(
    encoder: &mut BoolEncoder,
    src: &Sources<'_, N, Q>,
    frame: &Frame<'_>,
    beside: &Beside<'_>,
    symbols: &BlockSymbols,
) -> Result<Result<BlockInfo, Rule>, AllocError>
    requires segment { symbols.now.start.segment.id ≤ 7 }
    requires first { CanStart frame.now.setting.now.header.params.segmentation frame.now.setting.now.modes.tx_mode src.now.search.at.size symbols.now.start }
    requires prediction { CanPredict (frame_in frame.now) (sources_in N.blocks Q.blocks src.now) symbols.now.start symbols.now.prediction }
    requires context { src.now.context ≡ mode_context (N.blocks src.now.earlier.now) src.now.search }
    requires few { src.now.context ≤ 6 }
    requires modes { src.now.modes.now ≡ frame.now.setting.now.contexts.inter.modes }
    requires may { MaySearch N.holds N.blocks Q.holds Q.blocks src.now.earlier.now (option_copied src.now.before) src.now.search }
    ensures put { IfOk result (λ r. (least : ℕ) → IsSegment frame.now.setting.now.header.params.segmentation least symbols.now.start.segment →
        PutsValue (inter_frame_block (frame_in frame.now) (sources_in N.blocks Q.blocks src.now) (option_copied beside.now.above) (option_copied beside.now.left) least) encoder.old r encoder.new) }
    ensures is { IfOk result (λ r. r ≡ block_said (frame_in frame.now) (sources_in N.blocks Q.blocks src.now) symbols.now.start symbols.now.prediction) }
    ensures block { IfOk result (λ r. IfOk r (IsBlockAt src.now.search.at)) }
    ensures in_range { IfOk result (λ r. IfOk r (λ b. PredictsInRange frame.now.setting.now.header.size frame.now.fields.now.references b.prediction)) }
{
    let at = &src.search.at;
    let start = &symbols.start;
    put_block_start(
        encoder,
        frame.setting,
        beside.above,
        beside.left,
        at.size,
        start,
    )?;
    match &symbols.prediction {
        PredictionSymbols::Intra(prediction) => {
            Ok(Ok(put_intra_block(encoder, frame, at, start, *prediction)?))
        }
        PredictionSymbols::Inter(inter) => {
            put_inter_block(encoder, src, frame, beside, start, inter)
        }
    }
}

/// A block of an inter frame.
#[tactic(auto, unfolding(inter_modes::specs::ModeInfo::inter_frame_mode_info), using(crate::proofs::Below::segment_below))]
fn put_inter_frame_mode_info<N: Neighbours, Q: Neighbours>(
    encoder: &mut BoolEncoder,
    frame: &Frame<'_>,
    earlier: &N,
    map: &SegmentMap,
    before: Option<&Q>,
    block: &SaidBlock,
) -> Result<Result<BlockInfo, Rule>, AllocError>
    requires site { IsSite (record { places = frame.now.setting.now.places; biases = sign_biases frame.now.fields.now.references; at = block.now.at }) }
    requires map { (map.now.rows ≡ frame.now.setting.now.places.rows) × (map.now.cols ≡ frame.now.setting.now.places.cols) }
    requires held { (r c : ℕ) → r < frame.now.setting.now.places.rows → block.now.at.tile_from ≤ c → c < block.now.at.tile_to → N.holds earlier.now r c }
    requires held_before { IfSome (option_copied before) (λ q. Q.holds q block.now.at.row block.now.at.col) }
    requires small { All HasSmallVectors (N.blocks earlier.now) }
    requires small_before { All HasSmallVectors (blocks_of Q.blocks (option_copied before)) }
    requires can { CanPutInterFrame (frame_in frame.now) (sources_of (frame_in frame.now) (N.blocks earlier.now) (blocks_of Q.blocks (option_copied before)) block.now.at)
        (least_before frame.now.setting.now.header (id_map map.now) block.now.at) block.now.symbols.start block.now.symbols.prediction }
    ensures put { IfOk result (λ r. PutsValue (inter_frame_mode_info (frame_in frame.now) (id_map map.now) (N.blocks earlier.now) (blocks_of Q.blocks (option_copied before.entry)) block.now.at) encoder.old r encoder.new) }
    ensures is { IfOk result (λ r. r ≡ block_said (frame_in frame.now) (sources_of (frame_in frame.now) (N.blocks earlier.now) (blocks_of Q.blocks (option_copied before.entry)) block.now.at) block.now.symbols.start block.now.symbols.prediction) }
    ensures block { IfOk result (λ r. IfOk r (IsBlockAt block.now.at)) }
    ensures in_range { IfOk result (λ r. IfOk r (λ b. PredictsInRange frame.now.setting.now.header.size frame.now.fields.now.references b.prediction)) }
{
    let setting = frame.setting;
    let contexts = &setting.contexts;
    let at = block.at;
    let search = MvSearch {
        places: setting.places,
        biases: SignBiases::of(&frame.fields.references),
        at,
    };
    let src = Sources {
        probs: &contexts.vectors,
        modes: &contexts.inter.modes,
        context: mode_context(&search, earlier),
        high_precision: frame.fields.high_precision,
        search,
        earlier,
        before,
    };
    let beside = Beside {
        above: above_place(earlier, at.row, at.col),
        left: left_place(earlier, at.tile_from, at.row, at.col),
    };
    put_beside(encoder, &src, frame, &beside, &block.symbols)
}

/// A block of an intra frame.
#[tactic(auto, unfolding(inter_modes::specs::ModeInfo::intra_frame_block), using(bool_encoder::proofs::CountedPuts::valued_in_order, bool_encoder::proofs::CountedPuts::valued_settle, vp9_types::proofs::Binds::writes_bind, crate::proofs::Below::intra_fits, crate::proofs::Below::coded_below))]
fn put_intra_frame_block<N: Neighbours>(
    encoder: &mut BoolEncoder,
    setting: &FrameSetting,
    earlier: &N,
    said: &SaidBlock,
) -> Result<BlockInfo, AllocError>
    requires above { 0 < said.now.at.row → N.holds earlier.now (said.now.at.row - 1) said.now.at.col }
    requires left { said.now.at.tile_from < said.now.at.col → N.holds earlier.now said.now.at.row (said.now.at.col - 1) }
    requires can { CanPutIntra setting.now.header setting.now.modes said.now.at said.now.symbols.start said.now.symbols.prediction }
    ensures put { IfOk result (λ b. PutsValue (intra_frame_block setting.now.header setting.now.modes (lists_of setting.now.contexts) (N.blocks earlier.now) said.now.at) encoder.old (Ok b) encoder.new) }
    ensures is { IfOk result (λ b. IsSaidIntra said.now.at said.now.symbols.start said.now.symbols.prediction (Ok b)) }
    ensures block { IfOk result (IsBlockAt said.now.at) }
    ensures in_range { IfOk result (λ b. RefersInRange setting.now.header b.prediction) }
{
    let PredictionSymbols::Intra(prediction) = said.symbols.prediction else {
        unreachable!()
    };
    let at = said.at;
    let block = block_with(&at, &said.symbols.start, Prediction::Intra(prediction));
    put_intra_frame_mode_info(encoder, setting, earlier, at, &block)?;
    Ok(block)
}

/// Puts what a block says, and answers the block that it says, or the rule that it breaks: the block ends behind the reference
/// that is out of range, or the new vector. The block starts inside the frame and its tile. After want of memory some of the
/// bools were put, and the tile is given up as a whole.
#[tactic(auto, unfolding(inter_modes::specs::ModeInfo::mode_info), using(inter_modes::proofs::InRange::refers_in_range))]
pub fn put_mode_info<N: Neighbours, Q: Neighbours>(
    encoder: &mut BoolEncoder,
    setting: &FrameSetting,
    earlier: &N,
    map: &SegmentMap,
    before: Option<&Q>,
    block: &SaidBlock,
) -> Result<Result<BlockInfo, Rule>, AllocError>
    requires row { block.now.at.row < setting.now.places.rows }
    requires first { block.now.at.tile_from ≤ block.now.at.col }
    requires last { block.now.at.col < block.now.at.tile_to }
    requires tile { block.now.at.tile_to ≤ setting.now.places.cols }
    requires map { (map.now.rows ≡ setting.now.places.rows) × (map.now.cols ≡ setting.now.places.cols) }
    requires held { (r c : ℕ) → r < setting.now.places.rows → block.now.at.tile_from ≤ c → c < block.now.at.tile_to → N.holds earlier.now r c }
    requires held_before { IfSome (option_copied before) (λ q. Q.holds q block.now.at.row block.now.at.col) }
    requires small { All HasSmallVectors (N.blocks earlier.now) }
    requires small_before { All HasSmallVectors (blocks_of Q.blocks (option_copied before)) }
    requires can { CanPut (block_sources_in setting.now (id_map map.now) (blocks_of Q.blocks (option_copied before))) (N.blocks earlier.now) block.now.at block.now.symbols }
    ensures put { IfOk result (λ r. PutsValue (mode_info (block_sources_in setting.now (id_map map.now) (blocks_of Q.blocks (option_copied before.entry))) (N.blocks earlier.now) block.now.at) encoder.old r encoder.new) }
    ensures is { IfOk result (λ r. IsSaid (block_sources_in setting.now (id_map map.now) (blocks_of Q.blocks (option_copied before.entry))) (N.blocks earlier.now) block.now.at block.now.symbols r) }
    ensures block { IfOk result (λ r. IfOk r (IsBlockAt block.now.at)) }
    ensures in_range { IfOk result (λ r. IfOk r (λ b. RefersInRange setting.now.header b.prediction)) }
{
    match &setting.header.kind {
        FrameKind::Inter(fields) => {
            let frame = Frame { setting, fields };
            put_inter_frame_mode_info(encoder, &frame, earlier, map, before, block)
        }
        FrameKind::Key | FrameKind::IntraOnly => {
            let block = put_intra_frame_block(encoder, setting, earlier, block)?;
            Ok(Ok(block))
        }
    }
}
