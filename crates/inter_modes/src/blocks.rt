//! The predictions of inter blocks.

ghost use Rattle.std.specs.Prelude.{◌≡◌, ◌<◌, ◌≤◌, ℕ, [], true, slice_index_or, IfOk};
ghost use Rattle.mv_prediction.specs.Vectors.{IsSmallVector};
ghost use Rattle.std.specs.Option.{option_copied};
ghost use Rattle.block_plan.specs.BlockMvs.{no_vector};
ghost use Rattle.block_plan.specs.declared.block.Prediction.TheVariants.{Inter};
ghost use Rattle.prob_contexts.specs.ProbLists.{InterLists, inter_lists};
ghost use Rattle.counting_reader.specs.Code.{Reads};
ghost use Rattle.block_geometry.specs.BlockSizes.{is_below_8x8};
ghost use Rattle.mv_prediction.specs.Code.{AreSmall, PredictsSmall, IsSite};
ghost use Rattle.mv_prediction.specs.Candidates.{mode_context};
ghost use Rattle.inter_modes.specs.Code.{MaySearch, AreSmallQuarters, sources_in};
ghost use Rattle.inter_modes.specs.ModeInfo.{interp_filter, whole_prediction, quarters_prediction, of_each, block_mode, whole_block, block_of_quarters, inter_prediction};

use crate::quarters::{Quarter, read_quarters};
use crate::vectors::{Sources, read_block_vectors, read_inter_mode};
use block_geometry::is_below_8x8;
use block_plan::{InterPrediction, Mv, Neighbours, ReferenceFrames};
use counting_reader::{CountingReader, nodes_from};
use frame_headers::FrameFilter;
use prob_contexts::ProbKind;
use vp9_types::{InterMode, InterpFilter, Rule};

/// What a block's filter is read by: the frame's filter, and the context of filters.
#[derive(Clone, Copy, Debug, PartialEq, Eq)]
pub struct FilterSource {
    pub frame: FrameFilter,
    pub context: u8,
}

#[tactic(auto, unfolding(crate::specs::ModeInfo::interp_filter, counting_reader::specs::CountedSymbols::counted_tree), using(counting_reader::proofs::CountingRuns::counting_bind, counting_reader::proofs::CountingRuns::run_settle))]
fn read_filter<const COUNTS: bool>(
    reader: &mut CountingReader<COUNTS>,
    filter: FrameFilter,
    probs: &[u8; 8],
    context: u8,
) -> InterpFilter
    requires { context ≤ 3 }
    ensures { Reads (interp_filter filter probs.now context) reader.old result reader.new }
{
    match filter {
        FrameFilter::Fixed(filter) => filter,
        FrameFilter::Switchable => {
            let first = 2 * u16::from(context);
            let nodes = nodes_from(probs, first);
            if !reader.counted_bit(ProbKind::Filter, first, nodes[0]) {
                InterpFilter::Regular
            } else if reader.counted_bit(ProbKind::Filter, first + 1, nodes[1]) {
                InterpFilter::Sharp
            } else {
                InterpFilter::Smooth
            }
        }
    }
}

/// The prediction of a block that has one mode, and one vector of each reference.
#[tactic(auto, using(crate::proofs::Rows::four_rows))]
pub fn whole_prediction(
    references: ReferenceFrames,
    filter: InterpFilter,
    mode: InterMode,
    vectors: [Mv; 2],
) -> InterPrediction
    requires { AreSmall vectors }
    ensures is { result ≡ whole_prediction references filter mode vectors }
    ensures small { PredictsSmall (Inter result) }
{
    InterPrediction {
        modes: [mode, mode, mode, mode],
        references,
        filter,
        vectors: [vectors, vectors, vectors, vectors],
    }
}

fn modes_of(quarters: &[Quarter; 4]) -> [InterMode; 4]
    ensures { result ≡ of_each (λ q. q.mode) quarters.now }
{
    let first = quarters[0].mode;
    let second = quarters[1].mode;
    let third = quarters[2].mode;
    let fourth = quarters[3].mode;
    [first, second, third, fourth]
}

#[tactic(auto, using(crate::proofs::Rows::four_rows))]
fn vectors_of(quarters: &[Quarter; 4]) -> [[Mv; 2]; 4]
    requires { AreSmallQuarters quarters.now }
    ensures is { result ≡ of_each (λ q. q.vectors) quarters.now }
    ensures small { (quarter list : ℕ) → IsSmallVector (slice_index_or (slice_index_or result quarter []) list no_vector) }
{
    let first = quarters[0].vectors;
    let second = quarters[1].vectors;
    let third = quarters[2].vectors;
    let fourth = quarters[3].vectors;
    [first, second, third, fourth]
}

/// The prediction of a block of four quarters.
pub fn quarters_prediction(
    references: ReferenceFrames,
    filter: InterpFilter,
    quarters: &[Quarter; 4],
) -> InterPrediction
    requires { AreSmallQuarters quarters.now }
    ensures is { result ≡ quarters_prediction references filter quarters.now }
    ensures small { PredictsSmall (Inter result) }
{
    InterPrediction {
        modes: modes_of(quarters),
        references,
        filter,
        vectors: vectors_of(quarters),
    }
}

#[tactic(auto, unfolding(crate::specs::ModeInfo::block_mode), using(counting_reader::proofs::CountingRuns::run_settle))]
fn read_block_mode<const COUNTS: bool>(
    reader: &mut CountingReader<COUNTS>,
    skips: bool,
    probs: &[u8; 21],
    context: u8,
) -> InterMode
    requires { context ≤ 6 }
    ensures { Reads (block_mode skips probs.now context) reader.old result reader.new }
{
    if skips {
        InterMode::Zero
    } else {
        read_inter_mode(reader, probs, context)
    }
}

/// The prediction of a block of 8x8 or more.
#[tactic(auto, unfolding(crate::specs::ModeInfo::whole_block), using(counting_reader::proofs::CountingRuns::counting_bind, counting_reader::proofs::CountingRuns::run_settle))]
fn read_whole<N: Neighbours, Q: Neighbours, const COUNTS: bool>(
    reader: &mut CountingReader<COUNTS>,
    src: &Sources<'_, N, Q>,
    filters: &[u8; 8],
    skips: bool,
    filter: FilterSource,
    references: ReferenceFrames,
) -> Result<InterPrediction, Rule>
    requires context { src.now.context ≡ mode_context (N.blocks src.now.earlier.now) src.now.search }
    requires few { src.now.context ≤ 6 }
    requires filter { filter.context ≤ 3 }
    requires may { MaySearch N.holds N.blocks Q.holds Q.blocks src.now.earlier.now (option_copied src.now.before) src.now.search }
    ensures read { (lists : InterLists) → lists.modes ≡ src.now.modes.now → lists.filters ≡ filters.now →
        Reads (whole_block (sources_in N.blocks Q.blocks src.now) lists skips filter.frame filter.context references) reader.old result reader.new }
    ensures small { IfOk result (λ p. PredictsSmall (Inter p)) }
    ensures references { IfOk result (λ p. p.references ≡ references) }
{
    let mode = read_block_mode(reader, skips, src.modes, src.context);
    let filter = read_filter(reader, filter.frame, filters, filter.context);
    let vectors = read_block_vectors(reader, src, mode, references)?;
    Ok(whole_prediction(references, filter, mode, vectors))
}

/// The prediction of a block below 8x8.
#[tactic(auto, unfolding(crate::specs::ModeInfo::block_of_quarters), using(counting_reader::proofs::CountingRuns::counting_bind, counting_reader::proofs::CountingRuns::run_settle))]
fn read_block_of_quarters<N: Neighbours, Q: Neighbours, const COUNTS: bool>(
    reader: &mut CountingReader<COUNTS>,
    src: &Sources<'_, N, Q>,
    filters: &[u8; 8],
    filter: FilterSource,
    references: ReferenceFrames,
) -> Result<InterPrediction, Rule>
    requires below { is_below_8x8 src.now.search.at.size ≡ true }
    requires context { src.now.context ≡ mode_context (N.blocks src.now.earlier.now) src.now.search }
    requires few { src.now.context ≤ 6 }
    requires filter { filter.context ≤ 3 }
    requires may { MaySearch N.holds N.blocks Q.holds Q.blocks src.now.earlier.now (option_copied src.now.before) src.now.search }
    ensures read { (lists : InterLists) → lists.modes ≡ src.now.modes.now → lists.filters ≡ filters.now →
        Reads (block_of_quarters (sources_in N.blocks Q.blocks src.now) lists filter.frame filter.context references) reader.old result reader.new }
    ensures small { IfOk result (λ p. PredictsSmall (Inter p)) }
    ensures references { IfOk result (λ p. p.references ≡ references) }
{
    let filter = read_filter(reader, filter.frame, filters, filter.context);
    let quarters = read_quarters(reader, src, references)?;
    Ok(quarters_prediction(references, filter, &quarters))
}

/// The prediction of an inter block, by its references.
#[tactic(auto, unfolding(crate::specs::ModeInfo::inter_prediction))]
pub(crate) fn read_inter_prediction<N: Neighbours, Q: Neighbours, const COUNTS: bool>(
    reader: &mut CountingReader<COUNTS>,
    src: &Sources<'_, N, Q>,
    filters: &[u8; 8],
    skips: bool,
    filter: FilterSource,
    references: ReferenceFrames,
) -> Result<InterPrediction, Rule>
    requires context { src.now.context ≡ mode_context (N.blocks src.now.earlier.now) src.now.search }
    requires few { src.now.context ≤ 6 }
    requires filter { filter.context ≤ 3 }
    requires may { MaySearch N.holds N.blocks Q.holds Q.blocks src.now.earlier.now (option_copied src.now.before) src.now.search }
    ensures read { (lists : InterLists) → lists.modes ≡ src.now.modes.now → lists.filters ≡ filters.now →
        Reads (inter_prediction (sources_in N.blocks Q.blocks src.now) lists skips filter.frame filter.context references) reader.old result reader.new }
    ensures small { IfOk result (λ p. PredictsSmall (Inter p)) }
    ensures references { IfOk result (λ p. p.references ≡ references) }
{
    if is_below_8x8(src.search.at.size) {
        read_block_of_quarters(reader, src, filters, filter, references)
    } else {
        read_whole(reader, src, filters, skips, filter, references)
    }
}
