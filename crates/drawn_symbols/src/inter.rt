//! Inter blocks.

ghost use Rattle.std.specs.Prelude.{◌≡◌, ℕ};
ghost use Rattle.std.specs.Option.{option_copied};
ghost use Rattle.frame_headers.specs.declared.header.FrameFilter.TheVariants.{Switchable};
ghost use Rattle.inter_modes.specs.Code.{MaySearch, frame_in, sources_in};
ghost use Rattle.inter_writer.specs.InterFits.{CanSayInterBlock};
ghost use Rattle.drawn_symbols.specs.Draws.{IsDrawn};
ghost use Rattle.drawn_symbols.specs.DrawnFor.{AreDrawnSegments};
ghost use Rattle.drawn_symbols.specs.InterDraws.{draw_inter, references_alone};

use crate::draws::Draws;
use crate::quarters::{Best, draw_modes, symbols_of};
use crate::references::draw_references;
use block_plan::{Neighbours, ReferenceFrames};
use inter_contexts::allowed_or_rule;
use inter_modes::{Frame, NO_VECTORS, Sources, best_mv};
use vector_writer::{InterSymbols, QuarterSymbols};
use vp9_types::{InterMode, InterpFilter};

/// What a block says whose references are out of range.
fn references_alone(references: ReferenceFrames) -> InterSymbols
    ensures { result ≡ references_alone references }
{
    let q = QuarterSymbols {
        mode: InterMode::Zero,
        differences: NO_VECTORS,
    };
    symbols_of(references, InterpFilter::Regular, q, q, q, q)
}

/// What an inter block of an inter frame says.
#[tactic(auto, unfolding(crate::specs::InterDraws::draw_inter), using(crate::proofs::Frames::inter_can, crate::proofs::Frames::references_alone_can))]
pub(crate) fn draw_inter<N: Neighbours, Q: Neighbours>(
    draws: &mut Draws,
    src: &Sources<'_, N, Q>,
    frame: &Frame<'_>,
) -> InterSymbols
    requires segments { AreDrawnSegments frame.now.setting.now.header.params.segmentation }
    requires filter { frame.now.fields.now.filter ≡ Switchable }
    requires may { MaySearch N.holds N.blocks Q.holds Q.blocks src.now.earlier.now (option_copied src.now.before) src.now.search }
    ensures drawn { IsDrawn (draw_inter (frame_in frame.now) (sources_in N.blocks Q.blocks src.now)) draws.old result draws.new }
    ensures can { (segment : ℕ) → CanSayInterBlock (frame_in frame.now) (sources_in N.blocks Q.blocks src.now) segment result }
{
    let setting = frame.setting;
    let mode = setting.modes.reference_mode;
    let references = draw_references(draws, mode, &src.search.biases);
    match allowed_or_rule(&setting.header.size, &frame.fields.references, references) {
        Ok(_) => {
            let best = Best {
                allowed: src.high_precision,
                vectors: best_mv(src, references),
                references,
                size: src.search.at.size,
            };
            draw_modes(draws, &best)
        }
        Err(_) => references_alone(references),
    }
}
