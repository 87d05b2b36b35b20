//! Tests of the modes and vectors of inter blocks.

ghost use Rattle.std.specs.Prelude.{◌≡◌, ◌<◌, true};
ghost use Rattle.vp9_types.specs.declared.block.InterMode.TheVariants.{Zero};
ghost use Rattle.vector_writer.specs.VectorFits.{CanBeNew, CanDiffer, CanFilter, CanSayVectors, IsDifference, quarter_saying};
ghost use Rattle.listed_symbols.specs.Code.{CanSayBehind, CanSayQuarter, CanSayQuarters};
ghost use Rattle.listed_symbols.specs.InterTests.{can_be_new, can_differ, can_filter, can_say_inter, can_say_quarter, can_say_quarters, can_say_vectors, is_difference, is_zero_if};

use block_geometry::is_below_8x8;
use block_plan::{Mv, ReferenceFrames};
use frame_headers::FrameFilter;
use mv_prediction::is_short_vector;
use vector_writer::{InterSymbols, QuarterSymbols};
use vp9_types::{BlockSize, InterMode, InterpFilter};

/// What the vectors of a block are said by: the best vector of each reference, whether its frame allows high precision, and
/// its size.
#[derive(Clone, Copy)]
pub(crate) struct Best {
    pub allowed: bool,
    pub vectors: [Mv; 2],
    pub size: BlockSize,
}

#[tactic(auto, unfolding(crate::specs::InterTests::is_difference))]
fn is_difference(precise: bool, component: i16) -> bool
    ensures is { result ≡ is_difference precise component }
    ensures can { result ≡ true → IsDifference precise component }
{
    let size = component.unsigned_abs();
    size <= 16384 && (precise || size % 2 == 0)
}

#[tactic(auto, unfolding(crate::specs::InterTests::can_differ))]
fn can_differ(precise: bool, difference: Mv) -> bool
    ensures is { result ≡ can_differ precise difference }
    ensures can { result ≡ true → CanDiffer precise difference }
{
    is_difference(precise, difference.row) && is_difference(precise, difference.column)
}

#[tactic(auto, unfolding(crate::specs::InterTests::can_be_new))]
fn can_be_new(allowed: bool, mode: InterMode, best: Mv, difference: Mv) -> bool
    ensures is { result ≡ can_be_new allowed mode best difference }
    ensures can { result ≡ true → CanBeNew allowed mode best difference }
{
    match mode {
        InterMode::New => can_differ(allowed && is_short_vector(best), difference),
        InterMode::Nearest | InterMode::Near | InterMode::Zero => true,
    }
}

#[tactic(auto, unfolding(crate::specs::InterTests::can_say_vectors))]
fn can_say_vectors(best: &Best, refs: ReferenceFrames, said: &QuarterSymbols) -> bool
    ensures is { result ≡ can_say_vectors best.now.allowed best.now.vectors refs said.now }
    ensures can { result ≡ true → CanSayVectors best.now.allowed best.now.vectors refs said.now }
{
    let [first, second] = best.vectors;
    if !can_be_new(best.allowed, said.mode, first, said.differences[0]) {
        return false;
    }
    match refs.second {
        Some(_) => can_be_new(best.allowed, said.mode, second, said.differences[1]),
        None => true,
    }
}

#[tactic(auto, using(crate::proofs::Numbers::same_filter_is))]
fn can_filter(filter: FrameFilter, said: InterpFilter) -> bool
    ensures is { result ≡ can_filter filter said }
    ensures can { result ≡ true → CanFilter filter said }
{
    match (filter, said) {
        (FrameFilter::Fixed(f), _) => f as u8 == said as u8,
        (FrameFilter::Switchable, InterpFilter::Bilinear) => false,
        (FrameFilter::Switchable, _) => true,
    }
}

fn is_zero_if(skips: bool, mode: InterMode) -> bool
    ensures is { result ≡ is_zero_if skips mode }
    ensures can { result ≡ true → skips ≡ true → mode ≡ Zero }
{
    match mode {
        InterMode::Zero => true,
        InterMode::Nearest | InterMode::Near | InterMode::New => !skips,
    }
}

/// By which quarter's symbols a quarter is said.
fn quarter_saying(size: BlockSize, k: usize) -> usize
    requires { k < 4 }
    ensures is { result ≡ quarter_saying size k }
    ensures low { result < 4 }
{
    match size {
        BlockSize::B4x4 => k,
        BlockSize::B4x8 => k % 2,
        BlockSize::B8x4 => 2 * (k / 2),
        _ => 0,
    }
}

#[tactic(auto, unfolding(crate::specs::InterTests::can_say_quarter), using(crate::proofs::Numbers::same_inter_is))]
fn can_say_quarter(best: &Best, q: &InterSymbols, k: usize) -> bool
    requires { k < 4 }
    ensures is { result ≡ can_say_quarter best.now.allowed best.now.vectors best.now.size q.now k }
    ensures can { result ≡ true → CanSayQuarter best.now q.now k }
{
    let by = quarter_saying(best.size, k);
    let said = QuarterSymbols {
        mode: q.modes[by],
        differences: q.differences[by],
    };
    if q.modes[k] as u8 != said.mode as u8 {
        return false;
    }
    can_say_vectors(best, q.references, &said)
}

#[tactic(auto, unfolding(crate::specs::InterTests::can_say_quarters), using(crate::proofs::Cans::quarters_can))]
fn can_say_quarters(best: &Best, q: &InterSymbols) -> bool
    ensures is { result ≡ can_say_quarters best.now.allowed best.now.vectors best.now.size q.now }
    ensures can { result ≡ true → CanSayQuarters best.now q.now }
{
    if !can_say_quarter(best, q, 0) {
        return false;
    }
    if !can_say_quarter(best, q, 1) {
        return false;
    }
    if !can_say_quarter(best, q, 2) {
        return false;
    }
    can_say_quarter(best, q, 3)
}

/// Whether a block can say this behind its references.
#[tactic(auto, unfolding(crate::specs::InterTests::can_say_inter))]
pub(crate) fn can_say_inter(best: &Best, skips: bool, filter: FrameFilter, q: &InterSymbols) -> bool
    ensures is { result ≡ can_say_inter best.now.allowed best.now.vectors skips filter best.now.size q.now }
    ensures can { result ≡ true → CanSayBehind best.now skips filter q.now }
{
    if !can_filter(filter, q.filter) {
        return false;
    }
    if !is_zero_if(!is_below_8x8(best.size) && skips, q.modes[0]) {
        return false;
    }
    can_say_quarters(best, q)
}
