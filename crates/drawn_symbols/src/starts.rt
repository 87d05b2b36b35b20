//! What blocks say before their modes.

ghost use Rattle.std.specs.Prelude.{◌≡◌, ◌≤◌, ℕ, false};
ghost use Rattle.vp9_tables.specs.BlockTables.{greatest_of};
ghost use Rattle.vp9_tables.specs.Numbers.{tx_number, tx_of};
ghost use Rattle.vp9_tables.specs.SymbolTrees.{segment_tree};
ghost use Rattle.mode_writer.specs.ModeFits.{CanSegment, CanSkip, CanTx};
ghost use Rattle.inter_writer.specs.InterFits.{CanStart, CanTxIf, IsSegment};
ghost use Rattle.drawn_symbols.specs.Draws.{IsDrawn, draw_leaf};
ghost use Rattle.drawn_symbols.specs.DrawnFor.{AreDrawnSegments};
ghost use Rattle.drawn_symbols.specs.StartDraws.{draw_segment, draw_tx_symbol, draw_tx, draw_tx_if, draw_intra_start, draw_inter_start};

use crate::draws::Draws;
use block_geometry::is_below_8x8;
use frame_headers::Segmentation;
use inter_modes::{BlockStart, SegmentOf};
use mode_syntax::greatest_allowed;
use vp9_tables::max_tx_size;
use vp9_types::{BlockSize, TxMode, TxSize};

#[tactic(auto, unfolding(crate::specs::Draws::draw_leaf, crate::specs::StartDraws::draw_segment))]
fn draw_segment(draws: &mut Draws, segmentation: &Segmentation) -> u8
    ensures drawn { IsDrawn (draw_segment segmentation.now) draws.old result draws.new }
    ensures most { result ≤ 7 }
    ensures can { CanSegment segmentation.now.enabled segmentation.now.map result }
{
    if !segmentation.enabled {
        return 0;
    }
    match segmentation.map {
        Some(_) => draw_segment_id(draws),
        None => 0,
    }
}

#[tactic(auto, unfolding(crate::specs::Draws::draw_leaf))]
fn draw_segment_id(draws: &mut Draws) -> u8
    ensures drawn { IsDrawn (draw_leaf segment_tree) draws.old result draws.new }
    ensures most { result ≤ 7 }
{
    match draws.draw(8) {
        0 => 0,
        1 => 1,
        2 => 2,
        3 => 3,
        4 => 4,
        5 => 5,
        6 => 6,
        _ => 7,
    }
}

#[tactic(auto, unfolding(crate::specs::Draws::draw_leaf, crate::specs::StartDraws::draw_tx_symbol))]
fn draw_tx_symbol(draws: &mut Draws, greatest: TxSize) -> TxSize
    requires { 1 ≤ tx_number greatest }
    ensures drawn { IsDrawn (draw_tx_symbol greatest) draws.old result draws.new }
    ensures most { tx_number result ≤ tx_number greatest }
{
    match (greatest, draws.draw(greatest as u32 + 1)) {
        (_, 0) => TxSize::T4x4,
        (_, 1) => TxSize::T8x8,
        (_, 2) => TxSize::T16x16,
        _ => TxSize::T32x32,
    }
}

#[tactic(auto, unfolding(crate::specs::StartDraws::draw_tx), using(mode_syntax::proofs::TxSizes::some_transform, block_plan::proofs::Transforms::tx_of_number))]
fn draw_tx(draws: &mut Draws, mode: TxMode, size: BlockSize) -> TxSize
    ensures drawn { IsDrawn (draw_tx mode size) draws.old result draws.new }
    ensures can { CanTx mode size result }
{
    if matches!(mode, TxMode::Selected) && !is_below_8x8(size) {
        return draw_tx_symbol(draws, max_tx_size(size));
    }
    greatest_allowed(mode, size)
}

#[tactic(auto, unfolding(crate::specs::StartDraws::draw_tx_if))]
fn draw_tx_if(draws: &mut Draws, coded: bool, mode: TxMode, size: BlockSize) -> TxSize
    ensures drawn { IsDrawn (draw_tx_if coded mode size) draws.old result draws.new }
    ensures can { CanTxIf coded mode size result }
{
    if coded {
        return draw_tx(draws, mode, size);
    }
    greatest_allowed(mode, size)
}

/// What a block of an intra frame says first.
#[tactic(auto, unfolding(crate::specs::StartDraws::draw_intra_start))]
pub(crate) fn draw_intra_start(
    draws: &mut Draws,
    segmentation: &Segmentation,
    mode: TxMode,
    size: BlockSize,
) -> BlockStart
    requires { AreDrawnSegments segmentation.now }
    ensures drawn { IsDrawn (draw_intra_start segmentation.now mode size) draws.old result draws.new }
    ensures segment { CanSegment segmentation.now.enabled segmentation.now.map result.segment.id }
    ensures unpredicted { result.segment.predicted ≡ false }
    ensures intra { result.is_inter ≡ false }
    ensures skip { CanSkip segmentation.now result.segment.id result.skip }
    ensures tx { CanTx mode size result.tx }
{
    let id = draw_segment(draws, segmentation);
    let skip = draws.flag();
    let tx = draw_tx(draws, mode, size);
    BlockStart {
        segment: SegmentOf {
            id,
            predicted: false,
        },
        skip,
        is_inter: false,
        tx,
    }
}

/// What a block of an inter frame says first.
#[tactic(auto, unfolding(crate::specs::StartDraws::draw_inter_start))]
pub(crate) fn draw_inter_start(
    draws: &mut Draws,
    segmentation: &Segmentation,
    mode: TxMode,
    size: BlockSize,
) -> BlockStart
    requires { AreDrawnSegments segmentation.now }
    ensures drawn { IsDrawn (draw_inter_start segmentation.now mode size) draws.old result draws.new }
    ensures segment { (least : ℕ) → IsSegment segmentation.now least result.segment }
    ensures can { CanStart segmentation.now mode size result }
{
    let id = draw_segment(draws, segmentation);
    let skip = draws.flag();
    let is_inter = draws.flag();
    let tx = draw_tx_if(draws, !(is_inter && skip), mode, size);
    BlockStart {
        segment: SegmentOf {
            id,
            predicted: false,
        },
        skip,
        is_inter,
        tx,
    }
}
