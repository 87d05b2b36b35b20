//! Components of differences.

ghost use Rattle.std.specs.Prelude.{◌≡◌, ◌+◌, ◌*◌, ◌%◌, ◌^◌, ◌<◌, ◌≤◌, ◌≢◌, ℕ, ℤ, pos, length, unsigned_abs, IfOk, false, true};
ghost use Rattle.std.specs.List.{range_with_len};
ghost use Rattle.vp9_tables.specs.Numbers.{flag_number};
ghost use Rattle.vp9_tables.specs.SymbolTrees.{mv_fr_tree};
ghost use Rattle.prob_contexts.specs.declared.kind.ProbKind.{ProbKind};
ghost use Rattle.prob_contexts.specs.ProbLists.{vector_lists};
ghost use Rattle.counting_reader.specs.Counting.{through};
ghost use Rattle.counting_reader.specs.CountedSymbols.{counted_tree};
ghost use Rattle.bool_encoder.specs.CountedBools.{PutsValue};
ghost use Rattle.mv_syntax.specs.Components.{eighths, high_bit, small_magnitude, next_bit, large_magnitude, magnitude, read_mv_component};
ghost use Rattle.vector_writer.specs.VectorFits.{IsDifference};
ghost use Rattle.vector_writer.specs.Code.{IsOfClass, CanBeHigh};

use bool_encoder::{BoolEncoder, put_flag, put_tree};
use counting_reader::nodes_from;
use mv_syntax::power_of_two;
use prob_contexts::VectorProbs;
use std::alloc::AllocError;
use vp9_tables::{Component, mv_class_tree, mv_fr_tree};

/// A size of a component, from 1 on, less what its class begins with: whole samples, quarters, and the bit of high
/// precision.
#[derive(Clone, Copy)]
struct Eighths {
    whole: u16,
    fraction: u8,
    high: bool,
}

fn eighths_of(size: u16) -> Eighths
    requires { 1 ≤ size }
    ensures is { size ≡ eighths result.whole result.fraction result.high }
    ensures low { result.fraction ≤ 3 }
    ensures high { size % 2 ≡ 0 → result.high ≡ true }
{
    let rest = size - 1;
    Eighths {
        whole: rest / 8,
        fraction: (rest / 2 % 4) as u8,
        high: rest % 2 == 1,
    }
}

/// The bit of high precision.
#[tactic(auto, unfolding(mv_syntax::specs::Components::high_bit), using(bool_encoder::proofs::CountedPuts::valued_in_order, bool_encoder::proofs::CountedPuts::valued_settle, bool_encoder::proofs::CountedPuts::valued_flag, bool_encoder::proofs::CountedPuts::valued_count, vp9_types::proofs::Binds::writes_bind))]
fn put_high(encoder: &mut BoolEncoder, precise: bool, p: u8, high: bool) -> Result<(), AllocError>
    requires { CanBeHigh precise high }
    ensures { IfOk result (λ _. (kind : ProbKind) (place : ℕ) → PutsValue (high_bit precise kind place p) encoder.old high encoder.new) }
{
    if precise {
        return put_flag(encoder, p, high);
    }
    Ok(())
}

/// A number by the tree of fractions.
#[tactic(auto, using(bool_encoder::proofs::CountedPuts::valued_tree))]
fn put_fraction(encoder: &mut BoolEncoder, nodes: &[u8], fraction: u8) -> Result<(), AllocError>
    requires enough { 3 ≤ length nodes.now }
    requires most { fraction ≤ 3 }
    ensures { IfOk result (λ _. (kind : ProbKind) (first : ℕ) → PutsValue (counted_tree kind first mv_fr_tree nodes.now) encoder.old fraction encoder.new) }
{
    put_tree(encoder, mv_fr_tree(), nodes, fraction)
}

/// A component of class 0.
#[tactic(auto, unfolding(mv_syntax::specs::Components::small_magnitude), using(bool_encoder::proofs::CountedPuts::valued_in_order, bool_encoder::proofs::CountedPuts::valued_settle, bool_encoder::proofs::CountedPuts::valued_flag, vp9_types::proofs::Binds::writes_bind))]
fn put_small(
    encoder: &mut BoolEncoder,
    probs: &VectorProbs,
    c: u16,
    precise: bool,
    whole: bool,
    part: Eighths,
) -> Result<(), AllocError>
    requires c { c < 2 }
    requires fraction { part.fraction ≤ 3 }
    requires high { CanBeHigh precise part.high }
    ensures { IfOk result (λ _. PutsValue (small_magnitude (vector_lists probs.now) c precise) encoder.old (eighths (flag_number whole) part.fraction part.high) encoder.new) }
{
    put_flag(encoder, probs.class0[c as usize], whole)?;
    let first = 6 * c + 3 * u16::from(whole);
    let nodes = nodes_from(&probs.class0_fractions, first);
    put_fraction(encoder, nodes, part.fraction)?;
    put_high(encoder, precise, probs.class0_high[c as usize], part.high)?;
    Ok(())
}

/// A bit more of the whole samples.
#[tactic(auto, unfolding(mv_syntax::specs::Components::next_bit), using(bool_encoder::proofs::CountedPuts::valued_in_order, bool_encoder::proofs::CountedPuts::valued_settle, bool_encoder::proofs::CountedPuts::valued_flag, vp9_types::proofs::Binds::writes_bind))]
fn put_next_bit(
    encoder: &mut BoolEncoder,
    probs: &VectorProbs,
    c: u16,
    i: u16,
    one: bool,
) -> Result<(), AllocError>
    requires c { c < 2 }
    requires i { i < 10 }
    ensures { IfOk result (λ _. (bits : ℕ) → PutsValue (next_bit (vector_lists probs.now) c i bits) encoder.old (bits + flag_number one * 2 ^ i) encoder.new) }
{
    put_flag(encoder, probs.bits[(10 * c + i) as usize], one)?;
    Ok(())
}

/// The whole samples of a class, as they are above the class's least, the lowest bit first.
fn put_bits(
    encoder: &mut BoolEncoder,
    probs: &VectorProbs,
    c: u16,
    n: u16,
    bits: u16,
) -> Result<(), AllocError>
    requires c { c < 2 }
    requires n { n ≤ 10 }
    requires few { bits < 2 ^ n }
    ensures { IfOk result (λ _. PutsValue (through (next_bit (vector_lists probs.now) c) (range_with_len 0 n) 0) encoder.old bits encoder.new) }
{
    for i in 0..n {
        put_next_bit(encoder, probs, c, i, (bits >> i) % 2 == 1)?;
    }
    Ok(())
}

/// A component of a class from 1 on, `part` being its size less the least one of its class.
#[tactic(auto, unfolding(mv_syntax::specs::Components::large_magnitude), using(bool_encoder::proofs::CountedPuts::valued_in_order, bool_encoder::proofs::CountedPuts::valued_settle, vp9_types::proofs::Binds::writes_bind))]
fn put_large(
    encoder: &mut BoolEncoder,
    probs: &VectorProbs,
    c: u16,
    precise: bool,
    n: u16,
    part: Eighths,
) -> Result<(), AllocError>
    requires c { c < 2 }
    requires n { n ≤ 10 }
    requires whole { part.whole < 2 ^ n }
    requires fraction { part.fraction ≤ 3 }
    requires high { CanBeHigh precise part.high }
    ensures { IfOk result (λ _. PutsValue (large_magnitude (vector_lists probs.now) c precise n) encoder.old (8 * 2 ^ n + eighths part.whole part.fraction part.high) encoder.new) }
{
    put_bits(encoder, probs, c, n, part.whole)?;
    put_fraction(encoder, nodes_from(&probs.fractions, 3 * c), part.fraction)?;
    put_high(encoder, precise, probs.high[c as usize], part.high)?;
    Ok(())
}

/// The class of a size.
fn class_of(size: u16) -> u16
    requires least { 1 ≤ size }
    requires most { size ≤ 16384 }
    ensures { IsOfClass result size }
{
    match size {
        1..=16 => 0,
        17..=32 => 1,
        33..=64 => 2,
        65..=128 => 3,
        129..=256 => 4,
        257..=512 => 5,
        513..=1024 => 6,
        1025..=2048 => 7,
        2049..=4096 => 8,
        4097..=8192 => 9,
        _ => 10,
    }
}

/// A size by its class.
#[tactic(auto, unfolding(mv_syntax::specs::Components::magnitude))]
fn put_magnitude(
    encoder: &mut BoolEncoder,
    probs: &VectorProbs,
    c: u16,
    precise: bool,
    n: u16,
    size: u16,
) -> Result<(), AllocError>
    requires c { c < 2 }
    requires class { IsOfClass n size }
    requires even { precise ≡ false → size % 2 ≡ 0 }
    ensures { IfOk result (λ _. PutsValue (magnitude (vector_lists probs.now) c precise n) encoder.old size encoder.new) }
{
    if n == 0 {
        let part = eighths_of(size);
        put_small(encoder, probs, c, precise, part.whole == 1, part)?;
        return Ok(());
    }
    let part = eighths_of(size - 8 * power_of_two(n));
    put_large(encoder, probs, c, precise, n, part)?;
    Ok(())
}

/// A component that isn't 0.
#[tactic(auto, unfolding(mv_syntax::specs::Components::read_mv_component), using(bool_encoder::proofs::CountedPuts::valued_in_order, bool_encoder::proofs::CountedPuts::valued_settle, bool_encoder::proofs::CountedPuts::valued_flag, bool_encoder::proofs::CountedPuts::valued_tree, vp9_types::proofs::Binds::writes_bind))]
pub(crate) fn put_component(
    encoder: &mut BoolEncoder,
    probs: &VectorProbs,
    component: Component,
    precise: bool,
    value: i16,
) -> Result<(), AllocError>
    requires some { value ≢ pos 0 }
    requires can { IsDifference precise value }
    ensures { IfOk result (λ _. PutsValue (read_mv_component (vector_lists probs.now) component precise) encoder.old value encoder.new) }
{
    let c = component as u16;
    let size = value.unsigned_abs();
    let n = class_of(size);
    put_flag(encoder, probs.signs[c as usize], value < 0)?;
    let nodes = nodes_from(&probs.classes, 10 * c);
    put_tree(encoder, mv_class_tree(), nodes, n as u8)?;
    put_magnitude(encoder, probs, c, precise, n, size)?;
    Ok(())
}
