//! What a block of an inter frame says first.

ghost use Rattle.std.specs.Prelude.{◌≡◌, ◌<◌, ◌≤◌, not, ◌&&◌};
ghost use Rattle.std.specs.Option.{option_copied};
ghost use Rattle.vp9_tables.specs.BlockTables.{greatest_of};
ghost use Rattle.vp9_tables.specs.Numbers.{tx_number};
ghost use Rattle.prob_contexts.specs.ProbLists.{lists_of, tx_lists};
ghost use Rattle.block_geometry.specs.Parts.{part_inside};
ghost use Rattle.counting_reader.specs.Code.{Reads};
ghost use Rattle.block_plan.specs.SegmentMaps.{id_map, least_id};
ghost use Rattle.inter_contexts.specs.Contexts.{predicted_context};
ghost use Rattle.inter_modes.specs.BlockStarts.{segment_by_tree, temporal_segment, updated_segment, segment_by, inter_segment_id, segment_reference, is_inter_feature, is_inter_by, read_is_inter, tx_size, block_start};
ghost use Rattle.inter_modes.specs.Code.{least_of};

use block_plan::{BlockAt, BlockInfo, SegmentMap};
use counting_reader::CountingReader;
use frame_headers::{FeatureReference, MapUpdate, Segmentation};
use frame_setting::FrameSetting;
use inter_contexts::{is_inter_context, predicted_context};
use mode_syntax::{greatest_allowed, read_skip, read_tx_size, skip_context, tx_context};
use prob_contexts::{ProbKind, TxProbs};
use vp9_tables::segment_tree;
use vp9_types::{BlockSize, TxMode, TxSize};

/// A block's segment, and whether it is predicted from the map before its frame.
#[derive(Clone, Copy, Debug, PartialEq, Eq)]
pub struct SegmentOf {
    pub id: u8,
    pub predicted: bool,
}

/// What a block of an inter frame says before its modes.
#[derive(Clone, Copy, Debug, PartialEq, Eq)]
pub struct BlockStart {
    pub segment: SegmentOf,
    pub skip: bool,
    pub is_inter: bool,
    pub tx: TxSize,
}

#[tactic(auto, unfolding(crate::specs::BlockStarts::segment_by_tree), using(counting_reader::proofs::CountingRuns::counting_bind, counting_reader::proofs::CountingRuns::run_settle))]
fn read_coded_segment<const COUNTS: bool>(
    reader: &mut CountingReader<COUNTS>,
    tree: &[u8; 7],
) -> SegmentOf
    ensures read { Reads (segment_by_tree tree.now) reader.old result reader.new }
    ensures most { result.id ≤ 7 }
{
    let id = reader.tree(segment_tree(), tree);
    SegmentOf {
        id,
        predicted: false,
    }
}

/// The least id of the map before the frame over a block.
pub fn least_id(map: &SegmentMap, at: BlockAt) -> u8
    requires row { at.row < map.now.rows }
    requires col { at.col < map.now.cols }
    ensures is { result ≡ least_of map.now at }
    ensures most { result ≤ 7 }
{
    map.predicted(at.row, at.col, at.size)
}

#[tactic(auto, unfolding(crate::specs::BlockStarts::temporal_segment), using(counting_reader::proofs::CountingRuns::counting_bind, counting_reader::proofs::CountingRuns::run_settle))]
fn read_temporal_segment<const COUNTS: bool>(
    reader: &mut CountingReader<COUNTS>,
    update: &MapUpdate,
    context: u8,
    map: &SegmentMap,
    at: BlockAt,
) -> SegmentOf
    requires context { context ≤ 2 }
    requires row { at.row < map.now.rows }
    requires col { at.col < map.now.cols }
    ensures read { Reads (temporal_segment update.now context (least_of map.now at)) reader.old result reader.new }
    ensures most { result.id ≤ 7 }
{
    if reader.bit(update.prediction[context as usize]) {
        return SegmentOf {
            id: least_id(map, at),
            predicted: true,
        };
    }
    read_coded_segment(reader, &update.tree)
}

#[tactic(auto, unfolding(crate::specs::BlockStarts::updated_segment))]
fn read_updated_segment<const COUNTS: bool>(
    reader: &mut CountingReader<COUNTS>,
    update: &MapUpdate,
    context: u8,
    map: &SegmentMap,
    at: BlockAt,
) -> SegmentOf
    requires context { context ≤ 2 }
    requires row { at.row < map.now.rows }
    requires col { at.col < map.now.cols }
    ensures read { Reads (updated_segment update.now context (least_of map.now at)) reader.old result reader.new }
    ensures most { result.id ≤ 7 }
{
    if update.temporal {
        read_temporal_segment(reader, update, context, map, at)
    } else {
        read_coded_segment(reader, &update.tree)
    }
}

/// The segment of a block of an inter frame.
#[tactic(auto, unfolding(crate::specs::BlockStarts::inter_segment_id, crate::specs::BlockStarts::segment_by), using(counting_reader::proofs::CountingRuns::run_settle))]
fn read_inter_segment_id<const COUNTS: bool>(
    reader: &mut CountingReader<COUNTS>,
    segmentation: &Segmentation,
    context: u8,
    map: &SegmentMap,
    at: BlockAt,
) -> SegmentOf
    requires context { context ≤ 2 }
    requires row { at.row < map.now.rows }
    requires col { at.col < map.now.cols }
    ensures read { Reads (inter_segment_id segmentation.now context (least_of map.now at)) reader.old result reader.new }
    ensures most { result.id ≤ 7 }
{
    if !segmentation.enabled {
        return SegmentOf {
            id: 0,
            predicted: false,
        };
    }
    match &segmentation.map {
        Some(update) => read_updated_segment(reader, update, context, map, at),
        None => SegmentOf {
            id: least_id(map, at),
            predicted: false,
        },
    }
}

/// The reference that the blocks of a segment take.
pub fn segment_reference(segmentation: &Segmentation, segment: u8) -> Option<FeatureReference>
    requires { segment ≤ 7 }
    ensures { result ≡ segment_reference segmentation.now segment }
{
    if segmentation.enabled {
        segmentation.features.segments[segment as usize].reference
    } else {
        None
    }
}

/// Whether the blocks of a segment that takes a reference are inter.
pub fn is_inter_feature(reference: FeatureReference) -> bool
    ensures { result ≡ is_inter_feature reference }
{
    match reference {
        FeatureReference::Intra => false,
        FeatureReference::Last | FeatureReference::Golden | FeatureReference::Altref => true,
    }
}

/// Whether a block is inter.
#[tactic(auto, unfolding(crate::specs::BlockStarts::read_is_inter, crate::specs::BlockStarts::is_inter_by), using(counting_reader::proofs::CountingRuns::run_settle))]
fn read_is_inter<const COUNTS: bool>(
    reader: &mut CountingReader<COUNTS>,
    segmentation: &Segmentation,
    probs: &[u8; 4],
    context: u8,
    segment: u8,
) -> bool
    requires segment { segment ≤ 7 }
    requires context { context ≤ 3 }
    ensures { Reads (read_is_inter segmentation.now probs.now context segment) reader.old result reader.new }
{
    match segment_reference(segmentation, segment) {
        Some(reference) => is_inter_feature(reference),
        None => reader.counted_bit(
            ProbKind::IsInter,
            u16::from(context),
            probs[context as usize],
        ),
    }
}

#[tactic(auto, unfolding(crate::specs::BlockStarts::tx_size), using(counting_reader::proofs::CountingRuns::run_settle))]
fn read_tx<const COUNTS: bool>(
    reader: &mut CountingReader<COUNTS>,
    mode: TxMode,
    probs: &TxProbs,
    context: u8,
    size: BlockSize,
    coded: bool,
) -> TxSize
    requires context { context ≤ 1 }
    ensures read { Reads (tx_size mode (tx_lists probs.now) context size coded) reader.old result reader.new }
    ensures fits { tx_number result ≤ greatest_of size }
{
    if coded {
        read_tx_size(reader, mode, probs, context, size)
    } else {
        greatest_allowed(mode, size)
    }
}

/// What a block of an inter frame says before its modes. `map` is that of the segments before the frame.
#[tactic(auto, unfolding(crate::specs::BlockStarts::block_start), using(counting_reader::proofs::CountingRuns::counting_bind, counting_reader::proofs::CountingRuns::run_settle))]
pub(crate) fn read_block_start<const COUNTS: bool>(
    reader: &mut CountingReader<COUNTS>,
    setting: &FrameSetting,
    above: Option<&BlockInfo>,
    left: Option<&BlockInfo>,
    at: &BlockAt,
    map: &SegmentMap,
) -> BlockStart
    requires row { at.now.row < map.now.rows }
    requires col { at.now.col < map.now.cols }
    ensures read { Reads (block_start setting.now.header.params.segmentation setting.now.modes.tx_mode (lists_of setting.now.contexts) (option_copied above.entry) (option_copied left.entry) at.now.size (least_of map.now at.now)) reader.old result reader.new }
    ensures segment { result.segment.id ≤ 7 }
    ensures fits { tx_number result.tx ≤ greatest_of at.now.size }
{
    let segmentation = &setting.header.params.segmentation;
    let contexts = &setting.contexts;
    let context = predicted_context(above, left);
    let segment = read_inter_segment_id(reader, segmentation, context, map, *at);
    let context = skip_context(above, left);
    let skip = read_skip(reader, segmentation, &contexts.skip, context, segment.id);
    let context = is_inter_context(above, left);
    let probs = &contexts.inter.is_inter;
    let is_inter = read_is_inter(reader, segmentation, probs, context, segment.id);
    let context = tx_context(at.size, above, left);
    let mode = setting.modes.tx_mode;
    let coded = !(is_inter && skip);
    let tx = read_tx(reader, mode, &contexts.tx, context, at.size, coded);
    BlockStart {
        segment,
        skip,
        is_inter,
        tx,
    }
}
