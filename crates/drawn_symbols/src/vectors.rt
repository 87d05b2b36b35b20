//! Differences of new vectors.

ghost use Rattle.std.specs.Prelude.{◌≡◌, ◌%◌, ◌≤◌, false, true};
ghost use Rattle.vp9_tables.specs.SymbolTrees.{mv_fr_tree, mv_joint_tree};
ghost use Rattle.vector_writer.specs.VectorFits.{CanDiffer, IsDifference};
ghost use Rattle.drawn_symbols.specs.Draws.{IsDrawn, draw_leaf};
ghost use Rattle.drawn_symbols.specs.VectorDraws.{draw_high, draw_bits, draw_eighths, draw_size, draw_component, draw_component_if, draw_difference};

use crate::draws::Draws;
use block_plan::Mv;

#[tactic(auto, unfolding(crate::specs::Draws::draw_leaf))]
fn draw_fraction(draws: &mut Draws) -> u16
    ensures drawn { IsDrawn (draw_leaf mv_fr_tree) draws.old result draws.new }
    ensures most { result ≤ 3 }
{
    match draws.draw(4) {
        0 => 0,
        1 => 1,
        2 => 2,
        _ => 3,
    }
}

#[tactic(auto, unfolding(crate::specs::Draws::draw_leaf))]
fn draw_joint(draws: &mut Draws) -> u8
    ensures drawn { IsDrawn (draw_leaf mv_joint_tree) draws.old result draws.new }
    ensures most { result ≤ 3 }
{
    match draws.draw(4) {
        0 => 0,
        1 => 1,
        2 => 2,
        _ => 3,
    }
}

#[tactic(auto, unfolding(crate::specs::VectorDraws::draw_high))]
fn draw_high(draws: &mut Draws, precise: bool) -> bool
    ensures drawn { IsDrawn (draw_high precise) draws.old result draws.new }
    ensures one { precise ≡ false → result ≡ true }
{
    if precise { draws.flag() } else { true }
}

#[tactic(auto, unfolding(crate::specs::VectorDraws::draw_bits))]
fn draw_bits(draws: &mut Draws, n: u16) -> u16
    requires { n ≤ 2 }
    ensures drawn { IsDrawn (draw_bits n) draws.old result draws.new }
    ensures most { result ≤ 3 }
{
    match n {
        0 => 0,
        1 => u16::from(draws.flag()),
        _ => {
            let low = draws.flag();
            let high = draws.flag();
            u16::from(low) + 2 * u16::from(high)
        }
    }
}

/// Above the least size of a class, of which n bits are whole samples.
#[tactic(auto, unfolding(crate::specs::VectorDraws::draw_eighths))]
fn draw_eighths(draws: &mut Draws, precise: bool, n: u16) -> u16
    requires { n ≤ 2 }
    ensures drawn { IsDrawn (draw_eighths precise (draw_bits n)) draws.old result draws.new }
    ensures most { result ≤ 32 }
    ensures even { precise ≡ false → result % 2 ≡ 0 }
{
    let whole = draw_bits(draws, n);
    let fraction = draw_fraction(draws);
    let high = draw_high(draws, precise);
    8 * whole + 2 * fraction + u16::from(high) + 1
}

#[tactic(auto, unfolding(crate::specs::VectorDraws::draw_size))]
fn draw_size(draws: &mut Draws, precise: bool, n: u32) -> u16
    requires { n ≤ 2 }
    ensures drawn { IsDrawn (draw_size precise n) draws.old result draws.new }
    ensures most { result ≤ 64 }
    ensures even { precise ≡ false → result % 2 ≡ 0 }
{
    match n {
        0 => draw_eighths(draws, precise, 1),
        1 => 16 + draw_eighths(draws, precise, 1),
        _ => 32 + draw_eighths(draws, precise, 2),
    }
}

#[tactic(auto, unfolding(crate::specs::VectorDraws::draw_component))]
fn draw_component(draws: &mut Draws, precise: bool) -> i16
    ensures drawn { IsDrawn (draw_component precise) draws.old result draws.new }
    ensures can { IsDifference precise result }
{
    let sign = draws.flag();
    let n = draws.draw(3);
    let size = draw_size(draws, precise, n);
    if sign { -(size as i16) } else { size as i16 }
}

#[tactic(auto, unfolding(crate::specs::VectorDraws::draw_component_if))]
fn draw_component_if(draws: &mut Draws, coded: bool, precise: bool) -> i16
    ensures drawn { IsDrawn (draw_component_if coded precise) draws.old result draws.new }
    ensures can { IsDifference precise result }
{
    if coded {
        draw_component(draws, precise)
    } else {
        0
    }
}

/// A new vector's difference from the best one, with bits of high precision or without.
#[tactic(auto, unfolding(crate::specs::VectorDraws::draw_difference))]
pub(crate) fn draw_difference(draws: &mut Draws, precise: bool) -> Mv
    ensures drawn { IsDrawn (draw_difference precise) draws.old result draws.new }
    ensures can { CanDiffer precise result }
{
    let joint = draw_joint(draws);
    let row = draw_component_if(draws, joint >= 2, precise);
    let column = draw_component_if(draws, joint == 1 || joint == 3, precise);
    Mv { row, column }
}
