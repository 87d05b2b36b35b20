//! What a block says.

ghost use Rattle.std.specs.Prelude.{◌≡◌, ◌<◌, ◌≤◌, ℕ, IfSome};
ghost use Rattle.std.specs.List.{All};
ghost use Rattle.std.specs.Option.{option_copied};
ghost use Rattle.frame_headers.specs.declared.header.FrameFilter.TheVariants.{Switchable};
ghost use Rattle.mv_prediction.specs.Candidates.{sign_biases};
ghost use Rattle.mv_prediction.specs.Code.{HasSmallVectors, IsSite, blocks_of};
ghost use Rattle.vp9_types.specs.Maps.{Map};
ghost use Rattle.inter_modes.specs.Code.{block_sources_in, MaySearch, frame_in, sources_in};
ghost use Rattle.inter_modes.specs.ModeInfo.{sources_of};
ghost use Rattle.mode_writer.specs.ModeFits.{CanLuma};
ghost use Rattle.inter_writer.specs.declared.frame_blocks.PredictionSymbols.TheVariants.{Intra};
ghost use Rattle.inter_writer.specs.InterFits.{CanPredict, CanPut, CanPutInterFrame, CanPutIntra};
ghost use Rattle.drawn_symbols.specs.BlockDraws.{draw_intra_prediction, draw_inter_prediction, draw_intra_frame_block, draw_prediction, draw_inter_frame_block, draw_block};
ghost use Rattle.drawn_symbols.specs.Draws.{IsDrawn};
ghost use Rattle.drawn_symbols.specs.DrawnFor.{AreDrawnSegments, IsDrawnFrame};

use crate::draws::Draws;
use crate::inter::draw_inter;
use crate::intra::draw_intra;
use crate::starts::{draw_inter_start, draw_intra_start};
use block_plan::{BlockAt, IntraPrediction, Neighbours};
use frame_headers::FrameKind;
use frame_setting::FrameSetting;
use inter_modes::{BlockStart, Frame, Sources};
use inter_writer::{BlockSymbols, PredictionSymbols};
use mv_prediction::{MvSearch, SignBiases, mode_context};
use vp9_types::BlockSize;

#[tactic(auto, unfolding(crate::specs::BlockDraws::draw_intra_prediction))]
fn draw_intra_prediction(draws: &mut Draws, size: BlockSize) -> IntraPrediction
    ensures drawn { draw_intra_prediction size draws.old.x ≡ (Intra result, draws.new.x) }
    ensures can { CanLuma size result.luma }
{
    draw_intra(draws, size)
}

/// A block of an intra frame.
#[tactic(auto, unfolding(crate::specs::BlockDraws::draw_intra_frame_block), using(crate::proofs::Frames::intra_can))]
fn draw_intra_frame_block(draws: &mut Draws, setting: &FrameSetting, at: &BlockAt) -> BlockSymbols
    requires segments { AreDrawnSegments setting.now.header.params.segmentation }
    ensures drawn { IsDrawn (draw_intra_frame_block setting.now.header setting.now.modes at.now.size) draws.old result draws.new }
    ensures can { CanPutIntra setting.now.header setting.now.modes at.now result.start result.prediction }
{
    let segmentation = &setting.header.params.segmentation;
    let start = draw_intra_start(draws, segmentation, setting.modes.tx_mode, at.size);
    let prediction = draw_intra_prediction(draws, at.size);
    BlockSymbols {
        start,
        prediction: PredictionSymbols::Intra(prediction),
    }
}

/// The prediction of a block of an inter frame.
#[tactic(auto, unfolding(crate::specs::BlockDraws::draw_prediction, crate::specs::BlockDraws::draw_inter_prediction))]
fn draw_prediction<N: Neighbours, Q: Neighbours>(
    draws: &mut Draws,
    src: &Sources<'_, N, Q>,
    frame: &Frame<'_>,
    start: &BlockStart,
) -> PredictionSymbols
    requires segments { AreDrawnSegments frame.now.setting.now.header.params.segmentation }
    requires filter { frame.now.fields.now.filter ≡ Switchable }
    requires may { MaySearch N.holds N.blocks Q.holds Q.blocks src.now.earlier.now (option_copied src.now.before) src.now.search }
    ensures drawn { IsDrawn (draw_prediction start.now.is_inter (frame_in frame.now) (sources_in N.blocks Q.blocks src.now)) draws.old result draws.new }
    ensures can { CanPredict (frame_in frame.now) (sources_in N.blocks Q.blocks src.now) start.now result }
{
    if start.is_inter {
        PredictionSymbols::Inter(draw_inter(draws, src, frame))
    } else {
        PredictionSymbols::Intra(draw_intra_prediction(draws, src.search.at.size))
    }
}

/// A block of an inter frame, by what its vectors are predicted by.
#[tactic(auto, unfolding(crate::specs::BlockDraws::draw_inter_frame_block))]
fn draw_from<N: Neighbours, Q: Neighbours>(
    draws: &mut Draws,
    src: &Sources<'_, N, Q>,
    frame: &Frame<'_>,
) -> BlockSymbols
    requires segments { AreDrawnSegments frame.now.setting.now.header.params.segmentation }
    requires filter { frame.now.fields.now.filter ≡ Switchable }
    requires may { MaySearch N.holds N.blocks Q.holds Q.blocks src.now.earlier.now (option_copied src.now.before) src.now.search }
    ensures drawn { IsDrawn (draw_inter_frame_block (frame_in frame.now) (sources_in N.blocks Q.blocks src.now)) draws.old result draws.new }
    ensures can { (least : ℕ) → CanPutInterFrame (frame_in frame.now) (sources_in N.blocks Q.blocks src.now) least result.start result.prediction }
{
    let setting = frame.setting;
    let segmentation = &setting.header.params.segmentation;
    let size = src.search.at.size;
    let start = draw_inter_start(draws, segmentation, setting.modes.tx_mode, size);
    let prediction = draw_prediction(draws, src, frame, &start);
    BlockSymbols { start, prediction }
}

/// A block of an inter frame.
fn draw_inter_frame_block<N: Neighbours, Q: Neighbours>(
    draws: &mut Draws,
    frame: &Frame<'_>,
    at: BlockAt,
    earlier: &N,
    before: Option<&Q>,
) -> BlockSymbols
    requires segments { AreDrawnSegments frame.now.setting.now.header.params.segmentation }
    requires filter { frame.now.fields.now.filter ≡ Switchable }
    requires site { IsSite (record { places = frame.now.setting.now.places; biases = sign_biases frame.now.fields.now.references; at = at }) }
    requires held { (r c : ℕ) → r < frame.now.setting.now.places.rows → at.tile_from ≤ c → c < at.tile_to → N.holds earlier.now r c }
    requires held_before { IfSome (option_copied before) (λ q. Q.holds q at.row at.col) }
    requires small { All HasSmallVectors (N.blocks earlier.now) }
    requires small_before { All HasSmallVectors (blocks_of Q.blocks (option_copied before)) }
    ensures drawn { IsDrawn (draw_inter_frame_block (frame_in frame.now) (sources_of (frame_in frame.now) (N.blocks earlier.now) (blocks_of Q.blocks (option_copied before.entry)) at)) draws.old result draws.new }
    ensures can { (least : ℕ) → CanPutInterFrame (frame_in frame.now) (sources_of (frame_in frame.now) (N.blocks earlier.now) (blocks_of Q.blocks (option_copied before.entry)) at) least result.start result.prediction }
{
    let setting = frame.setting;
    let contexts = &setting.contexts;
    let search = MvSearch {
        places: setting.places,
        biases: SignBiases::of(&frame.fields.references),
        at,
    };
    let src = Sources {
        probs: &contexts.vectors,
        modes: &contexts.inter.modes,
        context: mode_context(&search, earlier),
        high_precision: frame.fields.high_precision,
        search,
        earlier,
        before,
    };
    draw_from(draws, &src, frame)
}

/// Draws what a block says, which starts inside the frame and its tile: such can be put by `inter_writer::put_mode_info`,
/// whatever the segments before the frame. A block whose references are out of range says nothing behind them. `earlier` has
/// the frame's blocks before it, and `before` those of the frame before, where its vectors are used.
#[tactic(auto, unfolding(crate::specs::BlockDraws::draw_block))]
pub fn draw_block<N: Neighbours, Q: Neighbours>(
    draws: &mut Draws,
    setting: &FrameSetting,
    at: BlockAt,
    earlier: &N,
    before: Option<&Q>,
) -> BlockSymbols
    requires frame { IsDrawnFrame setting.now.header }
    requires row { at.row < setting.now.places.rows }
    requires first { at.tile_from ≤ at.col }
    requires last { at.col < at.tile_to }
    requires tile { at.tile_to ≤ setting.now.places.cols }
    requires held { (r c : ℕ) → r < setting.now.places.rows → at.tile_from ≤ c → c < at.tile_to → N.holds earlier.now r c }
    requires held_before { IfSome (option_copied before) (λ q. Q.holds q at.row at.col) }
    requires small { All HasSmallVectors (N.blocks earlier.now) }
    requires small_before { All HasSmallVectors (blocks_of Q.blocks (option_copied before)) }
    ensures drawn { (segments : Map) → IsDrawn (draw_block (block_sources_in setting.now segments (blocks_of Q.blocks (option_copied before.entry))) (N.blocks earlier.now) at) draws.old result draws.new }
    ensures can { (segments : Map) → CanPut (block_sources_in setting.now segments (blocks_of Q.blocks (option_copied before.entry))) (N.blocks earlier.now) at result }
{
    match &setting.header.kind {
        FrameKind::Inter(fields) => {
            let frame = Frame { setting, fields };
            draw_inter_frame_block(draws, &frame, at, earlier, before)
        }
        FrameKind::Key | FrameKind::IntraOnly => draw_intra_frame_block(draws, setting, &at),
    }
}
