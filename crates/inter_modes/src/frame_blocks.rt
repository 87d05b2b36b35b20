//! What a block reads.

ghost use Rattle.std.specs.Prelude.{◌≡◌, ◌-◌, ◌<◌, ◌≤◌, ℕ, IfOk, IfSome};
ghost use Rattle.std.specs.List.{All};
ghost use Rattle.std.specs.Option.{option_copied};
ghost use Rattle.vp9_tables.specs.BlockTables.{greatest_of};
ghost use Rattle.vp9_tables.specs.Numbers.{tx_number};
ghost use Rattle.prob_contexts.specs.ProbLists.{lists_of};
ghost use Rattle.block_plan.specs.declared.block.Prediction.TheVariants.{Intra};
ghost use Rattle.counting_reader.specs.Code.{Reads};
ghost use Rattle.mv_prediction.specs.Candidates.{mode_context, sign_biases};
ghost use Rattle.mv_prediction.specs.Code.{HasSmallVectors, IsSite, blocks_of};
ghost use Rattle.block_plan.specs.SegmentMaps.{id_map};
ghost use Rattle.inter_modes.specs.Code.{MaySearch, IsBlockAt, AreInRange, PredictsInRange, RefersInRange, block_sources_in, frame_in, least_of, sources_in};
ghost use Rattle.inter_modes.specs.ModeInfo.{checked_references, inter_block, intra_coded_block, inter_frame_block, inter_frame_mode_info, intra_frame_block, mode_info, block_with};

use crate::blocks::{FilterSource, read_inter_prediction};
use crate::intra_blocks::read_intra_prediction;
use crate::starts::{BlockStart, read_block_start, segment_reference};
use crate::vectors::Sources;
use block_plan::{
    BlockAt, BlockInfo, Neighbours, Prediction, ReferenceFrames, SegmentMap, above_place,
    left_place,
};
use counting_reader::CountingReader;
use frame_headers::{FrameKind, InterFields};
use frame_setting::FrameSetting;
use inter_contexts::{FrameReferences, allowed_or_rule, filter_context, read_references};
use mode_syntax::{intra_frame_mode_info, skips_segment};
use mv_prediction::{MvSearch, SignBiases, mode_context};
use vp9_types::Rule;

/// An inter frame.
#[derive(Drop)]
pub struct Frame<'a> {
    pub setting: &'a FrameSetting,
    pub fields: &'a InterFields,
}

/// The block of its start and its prediction.
pub fn block_with(at: &BlockAt, start: &BlockStart, prediction: Prediction) -> BlockInfo
    ensures { result ≡ block_with at.now start.now prediction }
{
    BlockInfo {
        row: at.row,
        col: at.col,
        size: at.size,
        skip: start.skip,
        segment: start.segment.id,
        segment_predicted: start.segment.predicted,
        tx: start.tx,
        prediction,
    }
}

/// An intra block of an inter frame.
#[tactic(auto, unfolding(crate::specs::ModeInfo::intra_coded_block), using(counting_reader::proofs::CountingRuns::counting_bind, counting_reader::proofs::CountingRuns::run_settle))]
fn read_intra_block<const COUNTS: bool>(
    reader: &mut CountingReader<COUNTS>,
    frame: &Frame<'_>,
    at: &BlockAt,
    start: &BlockStart,
) -> Result<BlockInfo, Rule>
    requires segment { start.now.segment.id ≤ 7 }
    requires fits { tx_number start.now.tx ≤ greatest_of at.now.size }
    ensures read { Reads (intra_coded_block (frame_in frame.now) at.now start.now) reader.old result reader.new }
    ensures block { IfOk result (IsBlockAt at.now) }
    ensures in_range { IfOk result (λ b. PredictsInRange frame.now.setting.now.header.size frame.now.fields.now.references b.prediction) }
{
    let contexts = &frame.setting.contexts;
    let prediction = read_intra_prediction(
        reader,
        &contexts.inter.y_modes,
        &contexts.uv_modes,
        at.size,
    );
    Ok(block_with(at, start, Prediction::Intra(prediction)))
}

/// The references of an inter block, which must be in range.
#[tactic(auto, unfolding(crate::specs::ModeInfo::checked_references), using(counting_reader::proofs::CountingRuns::counting_bind, counting_reader::proofs::CountingRuns::run_settle, crate::proofs::InRange::tested))]
fn read_checked_references<const COUNTS: bool>(
    reader: &mut CountingReader<COUNTS>,
    frame: &Frame<'_>,
    biases: SignBiases,
    above: Option<&BlockInfo>,
    left: Option<&BlockInfo>,
    segment: u8,
) -> Result<ReferenceFrames, Rule>
    requires segment { segment ≤ 7 }
    ensures read { Reads (checked_references (frame_in frame.now) biases (option_copied above.entry) (option_copied left.entry) segment) reader.old result reader.new }
    ensures in_range { IfOk result (AreInRange frame.now.setting.now.header.size frame.now.fields.now.references) }
{
    let setting = frame.setting;
    let feature = segment_reference(&setting.header.params.segmentation, segment);
    let mode = setting.modes.reference_mode;
    let probs = &setting.contexts.inter;
    let said = FrameReferences {
        reference_mode: mode,
        sign_biases: biases,
    };
    let references = read_references(reader, feature, said, probs, above, left);
    allowed_or_rule(&setting.header.size, &frame.fields.references, references)
}

/// An inter block, from the blocks above it and at its left.
#[tactic(auto, unfolding(crate::specs::ModeInfo::inter_block), using(counting_reader::proofs::CountingRuns::counting_bind, counting_reader::proofs::CountingRuns::run_settle))]
fn read_inter_block<N: Neighbours, Q: Neighbours, const COUNTS: bool>(
    reader: &mut CountingReader<COUNTS>,
    src: &Sources<'_, N, Q>,
    frame: &Frame<'_>,
    above: Option<&BlockInfo>,
    left: Option<&BlockInfo>,
    start: &BlockStart,
) -> Result<BlockInfo, Rule>
    requires segment { start.now.segment.id ≤ 7 }
    requires fits { tx_number start.now.tx ≤ greatest_of src.now.search.at.size }
    requires context { src.now.context ≡ mode_context (N.blocks src.now.earlier.now) src.now.search }
    requires few { src.now.context ≤ 6 }
    requires modes { src.now.modes.now ≡ frame.now.setting.now.contexts.inter.modes }
    requires may { MaySearch N.holds N.blocks Q.holds Q.blocks src.now.earlier.now (option_copied src.now.before) src.now.search }
    ensures read { Reads (inter_block (frame_in frame.now) (sources_in N.blocks Q.blocks src.now) (option_copied above.entry) (option_copied left.entry) start.now) reader.old result reader.new }
    ensures block { IfOk result (IsBlockAt src.now.search.at) }
    ensures in_range { IfOk result (λ b. PredictsInRange frame.now.setting.now.header.size frame.now.fields.now.references b.prediction) }
{
    let setting = frame.setting;
    let segment = start.segment.id;
    let references = read_checked_references(
        reader,
        frame,
        src.search.biases,
        above,
        left,
        segment,
    )?;
    let filters = &setting.contexts.inter.filters;
    let skips = skips_segment(&setting.header.params.segmentation, segment);
    let filter = FilterSource {
        frame: frame.fields.filter,
        context: filter_context(above, left),
    };
    let prediction = read_inter_prediction(reader, src, filters, skips, filter, references)?;
    Ok(block_with(&src.search.at, start, Prediction::Inter(prediction)))
}

/// A block of an inter frame, from the blocks above it and at its left, and the map before its frame.
#[tactic(auto, unfolding(crate::specs::ModeInfo::inter_frame_block), using(counting_reader::proofs::CountingRuns::counting_bind, counting_reader::proofs::CountingRuns::run_settle))]
fn read_beside<N: Neighbours, Q: Neighbours, const COUNTS: bool>(
    reader: &mut CountingReader<COUNTS>,
    src: &Sources<'_, N, Q>,
    frame: &Frame<'_>,
    above: Option<&BlockInfo>,
    left: Option<&BlockInfo>,
    map: &SegmentMap,
) -> Result<BlockInfo, Rule>
    requires row { src.now.search.at.row < map.now.rows }
    requires col { src.now.search.at.col < map.now.cols }
    requires context { src.now.context ≡ mode_context (N.blocks src.now.earlier.now) src.now.search }
    requires few { src.now.context ≤ 6 }
    requires modes { src.now.modes.now ≡ frame.now.setting.now.contexts.inter.modes }
    requires may { MaySearch N.holds N.blocks Q.holds Q.blocks src.now.earlier.now (option_copied src.now.before) src.now.search }
    ensures read { Reads (inter_frame_block (frame_in frame.now) (sources_in N.blocks Q.blocks src.now) (option_copied above.entry) (option_copied left.entry) (least_of map.now src.now.search.at)) reader.old result reader.new }
    ensures block { IfOk result (IsBlockAt src.now.search.at) }
    ensures in_range { IfOk result (λ b. PredictsInRange frame.now.setting.now.header.size frame.now.fields.now.references b.prediction) }
{
    let at = &src.search.at;
    let start = read_block_start(reader, frame.setting, above, left, at, map);
    if start.is_inter {
        read_inter_block(reader, src, frame, above, left, &start)
    } else {
        read_intra_block(reader, frame, at, &start)
    }
}

/// What a block of an inter frame reads.
#[tactic(auto, unfolding(crate::specs::ModeInfo::inter_frame_mode_info))]
fn inter_frame_mode_info<N: Neighbours, Q: Neighbours, const COUNTS: bool>(
    reader: &mut CountingReader<COUNTS>,
    frame: &Frame<'_>,
    at: BlockAt,
    earlier: &N,
    map: &SegmentMap,
    before: Option<&Q>,
) -> Result<BlockInfo, Rule>
    requires site { IsSite (record { places = frame.now.setting.now.places; biases = sign_biases frame.now.fields.now.references; at = at }) }
    requires map { (map.now.rows ≡ frame.now.setting.now.places.rows) × (map.now.cols ≡ frame.now.setting.now.places.cols) }
    requires held { (r c : ℕ) → r < frame.now.setting.now.places.rows → at.tile_from ≤ c → c < at.tile_to → N.holds earlier.now r c }
    requires held_before { IfSome (option_copied before) (λ q. Q.holds q at.row at.col) }
    requires small { All HasSmallVectors (N.blocks earlier.now) }
    requires small_before { All HasSmallVectors (blocks_of Q.blocks (option_copied before)) }
    ensures read { Reads (inter_frame_mode_info (frame_in frame.now) (id_map map.now) (N.blocks earlier.now) (blocks_of Q.blocks (option_copied before.entry)) at) reader.old result reader.new }
    ensures block { IfOk result (IsBlockAt at) }
    ensures in_range { IfOk result (λ b. PredictsInRange frame.now.setting.now.header.size frame.now.fields.now.references b.prediction) }
{
    let contexts = &frame.setting.contexts;
    let search = MvSearch {
        places: frame.setting.places,
        biases: SignBiases::of(&frame.fields.references),
        at,
    };
    let src = Sources {
        probs: &contexts.vectors,
        modes: &contexts.inter.modes,
        context: mode_context(&search, earlier),
        high_precision: frame.fields.high_precision,
        search,
        earlier,
        before,
    };
    let above = above_place(earlier, at.row, at.col);
    let left = left_place(earlier, at.tile_from, at.row, at.col);
    read_beside(reader, &src, frame, above, left, map)
}

/// What a block of an intra frame reads.
#[tactic(auto, unfolding(crate::specs::ModeInfo::intra_frame_block), using(counting_reader::proofs::CountingRuns::counting_bind, counting_reader::proofs::CountingRuns::run_settle, crate::proofs::Rows::intra_small, crate::proofs::InRange::intra_in_range))]
fn intra_frame_block<N: Neighbours, const COUNTS: bool>(
    reader: &mut CountingReader<COUNTS>,
    setting: &FrameSetting,
    at: BlockAt,
    earlier: &N,
) -> Result<BlockInfo, Rule>
    requires above { 0 < at.row → N.holds earlier.now (at.row - 1) at.col }
    requires left { at.tile_from < at.col → N.holds earlier.now at.row (at.col - 1) }
    ensures read { Reads (intra_frame_block setting.now.header setting.now.modes (lists_of setting.now.contexts) (N.blocks earlier.now) at) reader.old result reader.new }
    ensures block { IfOk result (IsBlockAt at) }
    ensures in_range { IfOk result (λ b. RefersInRange setting.now.header b.prediction) }
{
    Ok(intra_frame_mode_info(reader, setting, earlier, at))
}

/// What a block reads: `BlockScale` where it names a reference out of range, `MvRange` where a new vector is; the reader then
/// stands behind the last symbol that it read. The block starts inside the frame and its tile; `earlier` has the frame's
/// blocks before it, `map` the segments before the frame, and `before` the blocks of the frame before, where its vectors are
/// used.
#[tactic(auto, unfolding(crate::specs::ModeInfo::mode_info), using(crate::proofs::InRange::refers_in_range))]
pub fn mode_info<N: Neighbours, Q: Neighbours, const COUNTS: bool>(
    reader: &mut CountingReader<COUNTS>,
    setting: &FrameSetting,
    at: BlockAt,
    earlier: &N,
    map: &SegmentMap,
    before: Option<&Q>,
) -> Result<BlockInfo, Rule>
    requires row { at.row < setting.now.places.rows }
    requires first { at.tile_from ≤ at.col }
    requires last { at.col < at.tile_to }
    requires tile { at.tile_to ≤ setting.now.places.cols }
    requires map { (map.now.rows ≡ setting.now.places.rows) × (map.now.cols ≡ setting.now.places.cols) }
    requires held { (r c : ℕ) → r < setting.now.places.rows → at.tile_from ≤ c → c < at.tile_to → N.holds earlier.now r c }
    requires held_before { IfSome (option_copied before) (λ q. Q.holds q at.row at.col) }
    requires small { All HasSmallVectors (N.blocks earlier.now) }
    requires small_before { All HasSmallVectors (blocks_of Q.blocks (option_copied before)) }
    ensures read { Reads (mode_info (block_sources_in setting.now (id_map map.now) (blocks_of Q.blocks (option_copied before.entry))) (N.blocks earlier.now) at) reader.old result reader.new }
    ensures block { IfOk result (IsBlockAt at) }
    ensures in_range { IfOk result (λ b. RefersInRange setting.now.header b.prediction) }
{
    match &setting.header.kind {
        FrameKind::Inter(fields) => {
            let frame = Frame { setting, fields };
            inter_frame_mode_info(reader, &frame, at, earlier, map, before)
        }
        FrameKind::Key | FrameKind::IntraOnly => intra_frame_block(reader, setting, at, earlier),
    }
}
