//! Tests of blocks of inter frames.

ghost use Rattle.std.specs.Prelude.{◌≡◌, ◌<◌, ◌≤◌, ℕ, IfSome, true};
ghost use Rattle.std.specs.List.{All};
ghost use Rattle.std.specs.Option.{option_copied};
ghost use Rattle.mv_prediction.specs.Candidates.{sign_biases};
ghost use Rattle.mv_prediction.specs.Code.{HasSmallVectors, IsSite, blocks_of};
ghost use Rattle.inter_modes.specs.Code.{MaySearch, frame_in, least_of, sources_in};
ghost use Rattle.inter_modes.specs.ModeInfo.{sources_of};
ghost use Rattle.inter_writer.specs.InterFits.{CanPredict, CanPutInterFrame, CanSayInterBlock};
ghost use Rattle.listed_symbols.specs.InterTests.{can_predict, can_put_inter, can_say_block};

use crate::intra::can_luma;
use crate::references::can_refer;
use crate::starts::can_start_inter;
use crate::vectors::{Best, can_say_inter};
use block_plan::{BlockAt, Neighbours, SegmentMap};
use inter_contexts::allowed_or_rule;
use inter_modes::{BlockStart, Frame, Sources, best_mv, least_id, segment_reference};
use inter_writer::{BlockSymbols, PredictionSymbols};
use mode_syntax::skips_segment;
use mv_prediction::{MvSearch, SignBiases, mode_context};
use vector_writer::InterSymbols;

/// Whether an inter block of a segment can say this.
#[tactic(auto, unfolding(crate::specs::InterTests::can_say_block), using(crate::proofs::Cans::inter_can, crate::proofs::Cans::references_alone_can))]
fn can_say_block<N: Neighbours, Q: Neighbours>(
    src: &Sources<'_, N, Q>,
    frame: &Frame<'_>,
    segment: u8,
    q: &InterSymbols,
) -> bool
    requires segment { segment ≤ 7 }
    requires may { MaySearch N.holds N.blocks Q.holds Q.blocks src.now.earlier.now (option_copied src.now.before) src.now.search }
    ensures is { result ≡ can_say_block (frame_in frame.now) (sources_in N.blocks Q.blocks src.now) segment q.now }
    ensures can { result ≡ true → CanSayInterBlock (frame_in frame.now) (sources_in N.blocks Q.blocks src.now) segment q.now }
{
    let setting = frame.setting;
    let segmentation = &setting.header.params.segmentation;
    let refs = q.references;
    let feature = segment_reference(segmentation, segment);
    let mode = setting.modes.reference_mode;
    if !can_refer(feature, mode, &src.search.biases, refs) {
        return false;
    }
    match allowed_or_rule(&setting.header.size, &frame.fields.references, refs) {
        Ok(_) => {
            let best = Best {
                allowed: src.high_precision,
                vectors: best_mv(src, refs),
                size: src.search.at.size,
            };
            let skips = skips_segment(segmentation, segment);
            can_say_inter(&best, skips, frame.fields.filter, q)
        }
        Err(_) => true,
    }
}

/// Whether a block of an inter frame can be predicted so.
fn can_predict<N: Neighbours, Q: Neighbours>(
    src: &Sources<'_, N, Q>,
    frame: &Frame<'_>,
    start: &BlockStart,
    prediction: &PredictionSymbols,
) -> bool
    requires segment { start.now.segment.id ≤ 7 }
    requires may { MaySearch N.holds N.blocks Q.holds Q.blocks src.now.earlier.now (option_copied src.now.before) src.now.search }
    ensures is { result ≡ can_predict (frame_in frame.now) (sources_in N.blocks Q.blocks src.now) start.now prediction.now }
    ensures can { result ≡ true → CanPredict (frame_in frame.now) (sources_in N.blocks Q.blocks src.now) start.now prediction.now }
{
    match prediction {
        PredictionSymbols::Intra(p) => { !start.is_inter && can_luma(src.search.at.size, p.luma) }
        PredictionSymbols::Inter(q) => {
            start.is_inter && can_say_block(src, frame, start.segment.id, q)
        }
    }
}

/// Whether a block of an inter frame can say this, by what its vectors are predicted by and the least id that the map before
/// the frame has over it.
#[tactic(auto, unfolding(crate::specs::InterTests::can_put_inter), using(crate::proofs::Cans::put_inter_can))]
fn can_put_by<N: Neighbours, Q: Neighbours>(
    src: &Sources<'_, N, Q>,
    frame: &Frame<'_>,
    least: u8,
    symbols: &BlockSymbols,
) -> bool
    requires least { least ≤ 7 }
    requires may { MaySearch N.holds N.blocks Q.holds Q.blocks src.now.earlier.now (option_copied src.now.before) src.now.search }
    ensures is { result ≡ can_put_inter (frame_in frame.now) (sources_in N.blocks Q.blocks src.now) least symbols.now.start symbols.now.prediction }
    ensures can { result ≡ true → CanPutInterFrame (frame_in frame.now) (sources_in N.blocks Q.blocks src.now) least symbols.now.start symbols.now.prediction }
{
    let setting = frame.setting;
    let segmentation = &setting.header.params.segmentation;
    let mode = setting.modes.tx_mode;
    let size = src.search.at.size;
    if !can_start_inter(segmentation, mode, size, least, &symbols.start) {
        return false;
    }
    can_predict(src, frame, &symbols.start, &symbols.prediction)
}

/// Whether a block of an inter frame can say this.
pub(crate) fn can_put_inter<N: Neighbours, Q: Neighbours>(
    frame: &Frame<'_>,
    at: BlockAt,
    earlier: &N,
    map: &SegmentMap,
    before: Option<&Q>,
    symbols: &BlockSymbols,
) -> bool
    requires site { IsSite (record { places = frame.now.setting.now.places; biases = sign_biases frame.now.fields.now.references; at = at }) }
    requires map { (map.now.rows ≡ frame.now.setting.now.places.rows) × (map.now.cols ≡ frame.now.setting.now.places.cols) }
    requires held { (r c : ℕ) → r < frame.now.setting.now.places.rows → at.tile_from ≤ c → c < at.tile_to → N.holds earlier.now r c }
    requires held_before { IfSome (option_copied before) (λ q. Q.holds q at.row at.col) }
    requires small { All HasSmallVectors (N.blocks earlier.now) }
    requires small_before { All HasSmallVectors (blocks_of Q.blocks (option_copied before)) }
    ensures is { result ≡ can_put_inter (frame_in frame.now) (sources_of (frame_in frame.now) (N.blocks earlier.now) (blocks_of Q.blocks (option_copied before.entry)) at) (least_of map.now at) symbols.now.start symbols.now.prediction }
    ensures can { result ≡ true → CanPutInterFrame (frame_in frame.now) (sources_of (frame_in frame.now) (N.blocks earlier.now) (blocks_of Q.blocks (option_copied before.entry)) at) (least_of map.now at) symbols.now.start symbols.now.prediction }
{
    let setting = frame.setting;
    let contexts = &setting.contexts;
    let search = MvSearch {
        places: setting.places,
        biases: SignBiases::of(&frame.fields.references),
        at,
    };
    let src = Sources {
        probs: &contexts.vectors,
        modes: &contexts.inter.modes,
        context: mode_context(&search, earlier),
        high_precision: frame.fields.high_precision,
        search,
        earlier,
        before,
    };
    can_put_by(&src, frame, least_id(map, at), symbols)
}
