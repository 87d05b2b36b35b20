//! Partitions and intra modes.

ghost use Rattle.std.specs.Prelude.{◌≡◌, true};
ghost use Rattle.mode_writer.specs.ModeFits.{AreColumns, AreRows, CanLuma, CanPartition};
ghost use Rattle.drawn_symbols.specs.Code.{draw_one_mode, draw_two_rows, draw_two_columns, draw_four_modes};
ghost use Rattle.drawn_symbols.specs.Draws.{IsDrawn};
ghost use Rattle.drawn_symbols.specs.IntraDraws.{draw_partition, draw_intra_mode, draw_luma, draw_intra};

use crate::draws::Draws;
use block_plan::IntraPrediction;
use vp9_types::{BlockSize, IntraMode, Partition};

#[tactic(auto, unfolding(crate::specs::Draws::draw_leaf, crate::specs::IntraDraws::draw_partition))]
fn draw_whole(draws: &mut Draws) -> Partition
    ensures { IsDrawn (draw_partition true true) draws.old result draws.new }
{
    match draws.draw(4) {
        0 => Partition::Whole,
        1 => Partition::Horizontal,
        2 => Partition::Vertical,
        _ => Partition::Split,
    }
}

/// How a square is partitioned whose lower half begins inside the frame, or doesn't, and its right half.
#[tactic(auto, unfolding(crate::specs::IntraDraws::draw_partition))]
pub fn draw_partition(draws: &mut Draws, has_rows: bool, has_cols: bool) -> Partition
    ensures drawn { IsDrawn (draw_partition has_rows has_cols) draws.old result draws.new }
    ensures can { CanPartition has_rows has_cols result }
{
    match (has_rows, has_cols) {
        (true, true) => draw_whole(draws),
        (false, true) => {
            if draws.flag() {
                Partition::Split
            } else {
                Partition::Horizontal
            }
        }
        (true, false) => {
            if draws.flag() {
                Partition::Split
            } else {
                Partition::Vertical
            }
        }
        (false, false) => Partition::Split,
    }
}

#[tactic(auto, unfolding(crate::specs::Draws::draw_leaf, crate::specs::IntraDraws::draw_intra_mode))]
fn draw_intra_mode(draws: &mut Draws) -> IntraMode
    ensures { IsDrawn draw_intra_mode draws.old result draws.new }
{
    match draws.draw(10) {
        0 => IntraMode::Dc,
        1 => IntraMode::Tm,
        2 => IntraMode::V,
        3 => IntraMode::H,
        4 => IntraMode::D135,
        5 => IntraMode::D117,
        6 => IntraMode::D45,
        7 => IntraMode::D63,
        8 => IntraMode::D153,
        _ => IntraMode::D207,
    }
}

#[tactic(auto, unfolding(crate::specs::Code::draw_one_mode))]
fn draw_one_mode(draws: &mut Draws) -> [IntraMode; 4]
    ensures drawn { IsDrawn draw_one_mode draws.old result draws.new }
    ensures can { AreRows result × AreColumns result }
{
    let mode = draw_intra_mode(draws);
    [mode, mode, mode, mode]
}

#[tactic(auto, unfolding(crate::specs::Code::draw_two_rows))]
fn draw_two_rows(draws: &mut Draws) -> [IntraMode; 4]
    ensures drawn { IsDrawn draw_two_rows draws.old result draws.new }
    ensures can { AreRows result }
{
    let upper = draw_intra_mode(draws);
    let lower = draw_intra_mode(draws);
    [upper, upper, lower, lower]
}

#[tactic(auto, unfolding(crate::specs::Code::draw_two_columns))]
fn draw_two_columns(draws: &mut Draws) -> [IntraMode; 4]
    ensures drawn { IsDrawn draw_two_columns draws.old result draws.new }
    ensures can { AreColumns result }
{
    let left = draw_intra_mode(draws);
    let right = draw_intra_mode(draws);
    [left, right, left, right]
}

#[tactic(auto, unfolding(crate::specs::Code::draw_four_modes))]
fn draw_four_modes(draws: &mut Draws) -> [IntraMode; 4]
    ensures { IsDrawn draw_four_modes draws.old result draws.new }
{
    let first = draw_intra_mode(draws);
    let second = draw_intra_mode(draws);
    let third = draw_intra_mode(draws);
    let fourth = draw_intra_mode(draws);
    [first, second, third, fourth]
}

/// The modes of the quarters of a block.
#[tactic(auto, unfolding(crate::specs::Code::luma_drawn_by_size), using(crate::proofs::DrawnBySize::luma_is_by_size))]
fn draw_luma(draws: &mut Draws, size: BlockSize) -> [IntraMode; 4]
    ensures drawn { IsDrawn (draw_luma size) draws.old result draws.new }
    ensures can { CanLuma size result }
{
    match size {
        BlockSize::B4x4 => draw_four_modes(draws),
        BlockSize::B4x8 => draw_two_columns(draws),
        BlockSize::B8x4 => draw_two_rows(draws),
        _ => draw_one_mode(draws),
    }
}

/// The modes of an intra block.
#[tactic(auto, unfolding(crate::specs::IntraDraws::draw_intra))]
pub(crate) fn draw_intra(draws: &mut Draws, size: BlockSize) -> IntraPrediction
    ensures drawn { IsDrawn (draw_intra size) draws.old result draws.new }
    ensures can { CanLuma size result.luma }
{
    let luma = draw_luma(draws, size);
    let chroma = draw_intra_mode(draws);
    IntraPrediction { luma, chroma }
}
