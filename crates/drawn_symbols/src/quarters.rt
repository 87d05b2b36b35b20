//! The modes and differences of inter blocks.

ghost use Rattle.std.specs.Prelude.{◌≡◌, ◌≢◌, false, true, [], ◌∷◌};
ghost use Rattle.vp9_types.specs.declared.block.BlockSize.TheVariants.{B4x4, B4x8, B8x4};
ghost use Rattle.vp9_types.specs.declared.block.InterpFilter.TheVariants.{Bilinear};
ghost use Rattle.block_geometry.specs.BlockSizes.{is_below_8x8};
ghost use Rattle.vector_writer.specs.VectorFits.{CanBeNew, CanSayVectors};
ghost use Rattle.drawn_symbols.specs.Draws.{IsDrawn};
ghost use Rattle.drawn_symbols.specs.InterDraws.{draw_inter_mode, draw_filter, draw_new, draw_new_if, draw_differences, draw_quarter, symbols_of, draw_whole, draw_quarters, draw_modes};
ghost use Rattle.drawn_symbols.specs.Code.{CanBeSymbols, draw_four, draw_columns, draw_rows};

use crate::draws::Draws;
use crate::vectors::draw_difference;
use block_geometry::is_below_8x8;
use block_plan::{Mv, ReferenceFrames};
use inter_modes::NO_VECTOR;
use mv_prediction::is_short_vector;
use vector_writer::{InterSymbols, QuarterSymbols};
use vp9_types::{BlockSize, InterMode, InterpFilter};

/// What the modes and vectors of a block are drawn by: its references, the best vector of each, whether the frame allows
/// high precision, and the block's size.
#[derive(Clone, Copy)]
pub struct Best {
    pub allowed: bool,
    pub vectors: [Mv; 2],
    pub references: ReferenceFrames,
    pub size: BlockSize,
}

#[tactic(auto, unfolding(crate::specs::Draws::draw_leaf, crate::specs::InterDraws::draw_inter_mode))]
fn draw_inter_mode(draws: &mut Draws) -> InterMode
    ensures { IsDrawn draw_inter_mode draws.old result draws.new }
{
    match draws.draw(4) {
        0 => InterMode::Zero,
        1 => InterMode::Nearest,
        2 => InterMode::Near,
        _ => InterMode::New,
    }
}

#[tactic(auto, unfolding(crate::specs::Draws::draw_leaf, crate::specs::InterDraws::draw_filter))]
fn draw_filter(draws: &mut Draws) -> InterpFilter
    ensures drawn { IsDrawn draw_filter draws.old result draws.new }
    ensures named { result ≢ Bilinear }
{
    match draws.draw(3) {
        0 => InterpFilter::Regular,
        1 => InterpFilter::Smooth,
        _ => InterpFilter::Sharp,
    }
}

#[tactic(auto, unfolding(crate::specs::InterDraws::draw_new))]
fn draw_new(draws: &mut Draws, allowed: bool, mode: InterMode, best: Mv) -> Mv
    ensures drawn { IsDrawn (draw_new allowed mode best) draws.old result draws.new }
    ensures can { CanBeNew allowed mode best result }
{
    match mode {
        InterMode::New => draw_difference(draws, allowed && is_short_vector(best)),
        InterMode::Nearest | InterMode::Near | InterMode::Zero => NO_VECTOR,
    }
}

#[tactic(auto, unfolding(crate::specs::InterDraws::draw_new_if))]
fn draw_new_if(draws: &mut Draws, coded: bool, allowed: bool, mode: InterMode, best: Mv) -> Mv
    ensures drawn { IsDrawn (draw_new_if coded allowed mode best) draws.old result draws.new }
    ensures can { coded ≡ true → CanBeNew allowed mode best result }
{
    if coded {
        draw_new(draws, allowed, mode, best)
    } else {
        NO_VECTOR
    }
}

/// The differences of a block or a quarter of a mode.
#[tactic(auto, unfolding(crate::specs::InterDraws::draw_differences))]
fn draw_differences(draws: &mut Draws, best: &Best, mode: InterMode) -> QuarterSymbols
    ensures drawn { (draw_differences best.now.allowed best.now.vectors best.now.references mode) draws.old.x ≡ (result.differences, draws.new.x) }
    ensures mode { result.mode ≡ mode }
    ensures can { CanSayVectors best.now.allowed best.now.vectors best.now.references result }
{
    let [first, second] = best.vectors;
    let compound = best.references.second.is_some();
    let first = draw_new(draws, best.allowed, mode, first);
    let second = draw_new_if(draws, compound, best.allowed, mode, second);
    QuarterSymbols {
        mode,
        differences: [first, second],
    }
}

#[tactic(auto, unfolding(crate::specs::InterDraws::draw_quarter))]
fn draw_quarter(draws: &mut Draws, best: &Best) -> QuarterSymbols
    ensures drawn { IsDrawn (draw_quarter best.now.allowed best.now.vectors best.now.references) draws.old result draws.new }
    ensures can { CanSayVectors best.now.allowed best.now.vectors best.now.references result }
{
    let mode = draw_inter_mode(draws);
    draw_differences(draws, best, mode)
}

/// What four quarters say.
pub(crate) fn symbols_of(
    references: ReferenceFrames,
    filter: InterpFilter,
    q: QuarterSymbols,
    r: QuarterSymbols,
    t: QuarterSymbols,
    u: QuarterSymbols,
) -> InterSymbols
    ensures { result ≡ symbols_of references filter (q ∷ r ∷ t ∷ u ∷ []) }
{
    let QuarterSymbols {
        mode: first,
        differences: a,
    } = q;
    let QuarterSymbols {
        mode: second,
        differences: b,
    } = r;
    let QuarterSymbols {
        mode: third,
        differences: c,
    } = t;
    let QuarterSymbols {
        mode: fourth,
        differences: d,
    } = u;
    InterSymbols {
        references,
        filter,
        modes: [first, second, third, fourth],
        differences: [a, b, c, d],
    }
}

/// A block of 8x8 or more.
#[tactic(auto, unfolding(crate::specs::InterDraws::draw_whole))]
fn draw_whole(draws: &mut Draws, best: &Best) -> InterSymbols
    requires { is_below_8x8 best.now.size ≡ false }
    ensures drawn { IsDrawn (draw_whole best.now.allowed best.now.vectors best.now.references) draws.old result draws.new }
    ensures can { CanBeSymbols best.now best.now.size result }
{
    let mode = draw_inter_mode(draws);
    let filter = draw_filter(draws);
    let q = draw_differences(draws, best, mode);
    symbols_of(best.references, filter, q, q, q, q)
}

/// A block of 4x4.
#[tactic(auto, unfolding(crate::specs::Code::draw_four), using(crate::proofs::Sayings::four_can))]
fn draw_four(draws: &mut Draws, best: &Best) -> InterSymbols
    ensures drawn { IsDrawn (draw_four best.now.allowed best.now.vectors best.now.references) draws.old result draws.new }
    ensures can { CanBeSymbols best.now B4x4 result }
{
    let filter = draw_filter(draws);
    let q = draw_quarter(draws, best);
    let r = draw_quarter(draws, best);
    let t = draw_quarter(draws, best);
    let u = draw_quarter(draws, best);
    symbols_of(best.references, filter, q, r, t, u)
}

/// A block of 4x8.
#[tactic(auto, unfolding(crate::specs::Code::draw_columns))]
fn draw_columns(draws: &mut Draws, best: &Best) -> InterSymbols
    ensures drawn { IsDrawn (draw_columns best.now.allowed best.now.vectors best.now.references) draws.old result draws.new }
    ensures can { CanBeSymbols best.now B4x8 result }
{
    let filter = draw_filter(draws);
    let q = draw_quarter(draws, best);
    let r = draw_quarter(draws, best);
    symbols_of(best.references, filter, q, r, q, r)
}

/// A block of 8x4.
#[tactic(auto, unfolding(crate::specs::Code::draw_rows))]
fn draw_rows(draws: &mut Draws, best: &Best) -> InterSymbols
    ensures drawn { IsDrawn (draw_rows best.now.allowed best.now.vectors best.now.references) draws.old result draws.new }
    ensures can { CanBeSymbols best.now B8x4 result }
{
    let filter = draw_filter(draws);
    let q = draw_quarter(draws, best);
    let r = draw_quarter(draws, best);
    symbols_of(best.references, filter, q, q, r, r)
}

/// A block below 8x8.
#[tactic(auto, unfolding(crate::specs::Code::quarters_drawn_by_size), using(crate::proofs::DrawnBySize::quarters_are_by_size))]
fn draw_quarters(draws: &mut Draws, best: &Best) -> InterSymbols
    requires { is_below_8x8 best.now.size ≡ true }
    ensures drawn { IsDrawn (draw_quarters best.now.allowed best.now.vectors best.now.references best.now.size) draws.old result draws.new }
    ensures can { CanBeSymbols best.now best.now.size result }
{
    match best.size {
        BlockSize::B4x8 => draw_columns(draws, best),
        BlockSize::B8x4 => draw_rows(draws, best),
        _ => draw_four(draws, best),
    }
}

/// What an inter block says behind its references.
#[tactic(auto, unfolding(crate::specs::InterDraws::draw_modes))]
pub(crate) fn draw_modes(draws: &mut Draws, best: &Best) -> InterSymbols
    ensures drawn { IsDrawn (draw_modes best.now.allowed best.now.vectors best.now.references best.now.size) draws.old result draws.new }
    ensures can { CanBeSymbols best.now best.now.size result }
{
    if is_below_8x8(best.size) {
        draw_quarters(draws, best)
    } else {
        draw_whole(draws, best)
    }
}
