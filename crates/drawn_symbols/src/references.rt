//! The references of inter blocks.

ghost use Rattle.std.specs.Prelude.{◌≡◌, false, true};
ghost use Rattle.std.specs.Option.{is_some};
ghost use Rattle.inter_writer.specs.InterFits.{CanCodeReferences, AreCompound, CanBeCompound};
ghost use Rattle.drawn_symbols.specs.Draws.{IsDrawn};
ghost use Rattle.drawn_symbols.specs.InterDraws.{draw_is_compound, draw_compound, draw_golden_or_altref, draw_single, draw_references};

use crate::draws::Draws;
use block_plan::ReferenceFrames;
use inter_contexts::{fixed_of, single, variable_by, with_fixed};
use mv_prediction::SignBiases;
use vp9_types::{ReferenceFrame, ReferenceMode};

#[tactic(auto, unfolding(crate::specs::InterDraws::draw_is_compound))]
fn draw_is_compound(draws: &mut Draws, mode: ReferenceMode) -> bool
    ensures drawn { IsDrawn (draw_is_compound mode) draws.old result draws.new }
    ensures may { CanBeCompound mode result }
{
    match mode {
        ReferenceMode::Single => false,
        ReferenceMode::Compound => true,
        ReferenceMode::Selected => draws.flag(),
    }
}

#[tactic(auto, unfolding(crate::specs::InterDraws::draw_compound))]
fn draw_compound(draws: &mut Draws, biases: &SignBiases) -> ReferenceFrames
    ensures drawn { IsDrawn (draw_compound biases.now) draws.old result draws.new }
    ensures second { is_some result.second ≡ true }
    ensures can { AreCompound biases.now result }
{
    let fixed = fixed_of(biases);
    let one = draws.flag();
    let other = variable_by(fixed, one);
    with_fixed(biases, fixed, other)
}

#[tactic(auto, unfolding(crate::specs::InterDraws::draw_golden_or_altref))]
fn draw_golden_or_altref(draws: &mut Draws) -> ReferenceFrames
    ensures drawn { IsDrawn draw_golden_or_altref draws.old result draws.new }
    ensures second { is_some result.second ≡ false }
{
    if draws.flag() {
        single(ReferenceFrame::Altref)
    } else {
        single(ReferenceFrame::Golden)
    }
}

#[tactic(auto, unfolding(crate::specs::InterDraws::draw_single))]
fn draw_single(draws: &mut Draws) -> ReferenceFrames
    ensures drawn { IsDrawn draw_single draws.old result draws.new }
    ensures second { is_some result.second ≡ false }
{
    if draws.flag() {
        draw_golden_or_altref(draws)
    } else {
        single(ReferenceFrame::Last)
    }
}

/// The references of a block of a frame that has them by a mode.
#[tactic(auto, unfolding(crate::specs::InterDraws::draw_references))]
pub(crate) fn draw_references(
    draws: &mut Draws,
    mode: ReferenceMode,
    biases: &SignBiases,
) -> ReferenceFrames
    ensures drawn { IsDrawn (draw_references mode biases.now) draws.old result draws.new }
    ensures can { CanCodeReferences mode biases.now result }
{
    if draw_is_compound(draws, mode) {
        draw_compound(draws, biases)
    } else {
        draw_single(draws)
    }
}
