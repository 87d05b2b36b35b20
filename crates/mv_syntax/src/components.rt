//! Components of differences.

ghost use Rattle.std.specs.Prelude.{◌≡◌, ◌+◌, ◌*◌, ◌^◌, ◌<◌, ◌≤◌, ℕ, drop, length, unsigned_abs};
ghost use Rattle.vp9_tables.specs.Numbers.{component_number};
ghost use Rattle.vp9_tables.specs.SymbolTrees.{mv_fr_tree};
ghost use Rattle.prob_contexts.specs.Kinds.{kind_size};
ghost use Rattle.prob_contexts.specs.ProbLists.{vector_lists};
ghost use Rattle.counting_reader.specs.Counting.{through};
ghost use Rattle.counting_reader.specs.CountedSymbols.{counted_tree};
ghost use Rattle.counting_reader.specs.Code.{Reads};
ghost use Rattle.std.specs.List.{range_with_len};
ghost use Rattle.mv_syntax.specs.Components.{high_bit, small_magnitude, next_bit, large_magnitude, magnitude, read_mv_component};

use counting_reader::{CountingReader, nodes_from};
use prob_contexts::{ProbKind, VectorProbs};
use vp9_tables::{Component, mv_class_tree};

/// The bit of high precision.
#[inline(always)]
#[tactic(auto, unfolding(crate::specs::Components::high_bit), using(counting_reader::proofs::CountingRuns::counting_bind, counting_reader::proofs::CountingRuns::run_settle))]
fn read_high<const COUNTS: bool>(
    reader: &mut CountingReader<COUNTS>,
    precise: bool,
    kind: ProbKind,
    place: u16,
    p: u8,
) -> bool
    requires { place < kind_size kind }
    ensures { Reads (high_bit precise kind place p) reader.old result reader.new }
{
    if precise {
        return reader.counted_bit(kind, place, p);
    }
    reader.count(kind, place, true);
    true
}

/// A number by how many ones come before a zero, three at most: the tree of fractions, which is that of joints too. Bool by
/// bool, since a loop over so small a tree costs more.
#[inline(always)]
#[tactic(auto, unfolding(counting_reader::specs::CountedSymbols::counted_tree), using(counting_reader::proofs::CountingRuns::counting_bind, counting_reader::proofs::CountingRuns::run_settle))]
pub(crate) fn read_ones<const COUNTS: bool>(
    reader: &mut CountingReader<COUNTS>,
    kind: ProbKind,
    first: u16,
    nodes: &[u8],
) -> u8
    requires enough { 3 ≤ length nodes.now }
    requires inside { first + 3 ≤ kind_size kind }
    ensures read { Reads (counted_tree kind first mv_fr_tree nodes.now) reader.old result reader.new }
    ensures most { result ≤ 3 }
{
    if !reader.counted_bit(kind, first, nodes[0]) {
        return 0;
    }
    if !reader.counted_bit(kind, first + 1, nodes[1]) {
        return 1;
    }
    if reader.counted_bit(kind, first + 2, nodes[2]) {
        3
    } else {
        2
    }
}

/// A component of class 0.
#[tactic(auto, unfolding(crate::specs::Components::small_magnitude), using(counting_reader::proofs::CountingRuns::counting_bind, counting_reader::proofs::CountingRuns::run_settle))]
fn read_small<const COUNTS: bool>(
    reader: &mut CountingReader<COUNTS>,
    probs: &VectorProbs,
    c: u16,
    precise: bool,
) -> u16
    requires { c < 2 }
    ensures read { Reads (small_magnitude (vector_lists probs.now) c precise) reader.old result reader.new }
    ensures most { result ≤ 16384 }
{
    let whole = reader.counted_bit(ProbKind::VectorClass0, c, probs.class0[c as usize]);
    let first = 6 * c + 3 * u16::from(whole);
    let nodes = nodes_from(&probs.class0_fractions, first);
    let fraction = read_ones(reader, ProbKind::VectorClass0Fraction, first, nodes);
    let p = probs.class0_high[c as usize];
    let high = read_high(reader, precise, ProbKind::VectorClass0High, c, p);
    8 * u16::from(whole) + 2 * u16::from(fraction) + u16::from(high) + 1
}

/// The power of two of a class.
pub fn power_of_two(n: u16) -> u16
    requires { n ≤ 10 }
    ensures is { result ≡ 2 ^ n }
    ensures most { result ≤ 1024 }
{
    match n {
        0 => 1,
        1 => 2,
        2 => 4,
        3 => 8,
        4 => 16,
        5 => 32,
        6 => 64,
        7 => 128,
        8 => 256,
        9 => 512,
        _ => 1024,
    }
}

/// A bit more of the whole samples.
#[tactic(auto, unfolding(crate::specs::Components::next_bit), using(counting_reader::proofs::CountingRuns::counting_bind, counting_reader::proofs::CountingRuns::run_settle))]
fn read_next_bit<const COUNTS: bool>(
    reader: &mut CountingReader<COUNTS>,
    probs: &VectorProbs,
    c: u16,
    i: u16,
    bits: u16,
) -> u16
    requires c { c < 2 }
    requires i { i < 10 }
    requires few { bits < 2 ^ i }
    ensures read { Reads (next_bit (vector_lists probs.now) c i bits) reader.old result reader.new }
    ensures few { result < 2 ^ (i + 1) }
{
    let place = 10 * c + i;
    let one = reader.counted_bit(ProbKind::VectorBit, place, probs.bits[place as usize]);
    if one { bits + power_of_two(i) } else { bits }
}

/// The whole samples of a class, as they are above the class's least.
fn read_bits<const COUNTS: bool>(
    reader: &mut CountingReader<COUNTS>,
    probs: &VectorProbs,
    c: u16,
    n: u16,
) -> u16
    requires c { c < 2 }
    requires n { n ≤ 10 }
    ensures read { Reads (through (next_bit (vector_lists probs.now) c) (range_with_len 0 n) 0) reader.old result reader.new }
    ensures few { result < 2 ^ n }
{
    let mut bits = 0;
    for i in 0..n {
        bits = read_next_bit(reader, probs, c, i, bits);
    }
    bits
}

/// A component of a class from 1 on.
#[tactic(auto, unfolding(crate::specs::Components::large_magnitude), using(counting_reader::proofs::CountingRuns::counting_bind, counting_reader::proofs::CountingRuns::run_settle))]
fn read_large<const COUNTS: bool>(
    reader: &mut CountingReader<COUNTS>,
    probs: &VectorProbs,
    c: u16,
    precise: bool,
    n: u16,
) -> u16
    requires c { c < 2 }
    requires n { n ≤ 10 }
    ensures read { Reads (large_magnitude (vector_lists probs.now) c precise n) reader.old result reader.new }
    ensures most { result ≤ 16384 }
{
    let bits = read_bits(reader, probs, c, n);
    let nodes = nodes_from(&probs.fractions, 3 * c);
    let fraction = read_ones(reader, ProbKind::VectorFraction, 3 * c, nodes);
    let high = read_high(
        reader,
        precise,
        ProbKind::VectorHigh,
        c,
        probs.high[c as usize],
    );
    8 * power_of_two(n) + (8 * bits + 2 * u16::from(fraction) + u16::from(high) + 1)
}

#[tactic(auto, unfolding(crate::specs::Components::magnitude))]
fn read_magnitude<const COUNTS: bool>(
    reader: &mut CountingReader<COUNTS>,
    probs: &VectorProbs,
    c: u16,
    precise: bool,
    n: u16,
) -> u16
    requires c { c < 2 }
    requires n { n ≤ 10 }
    ensures read { Reads (magnitude (vector_lists probs.now) c precise n) reader.old result reader.new }
    ensures most { result ≤ 16384 }
{
    if n == 0 {
        read_small(reader, probs, c, precise)
    } else {
        read_large(reader, probs, c, precise, n)
    }
}

/// A component of a difference.
#[tactic(auto, unfolding(crate::specs::Components::read_mv_component), using(counting_reader::proofs::CountingRuns::counting_bind, counting_reader::proofs::CountingRuns::run_settle))]
pub(crate) fn read_component<const COUNTS: bool>(
    reader: &mut CountingReader<COUNTS>,
    probs: &VectorProbs,
    component: Component,
    precise: bool,
) -> i16
    ensures read { Reads (read_mv_component (vector_lists probs.now) component precise) reader.old result reader.new }
    ensures most { unsigned_abs result ≤ 16384 }
{
    let c = component as u16;
    let sign = reader.counted_bit(ProbKind::VectorSign, c, probs.signs[c as usize]);
    let nodes = nodes_from(&probs.classes, 10 * c);
    let n = reader.counted_tree(ProbKind::VectorClass, 10 * c, mv_class_tree(), nodes);
    let size = read_magnitude(reader, probs, c, precise, u16::from(n)) as i16;
    if sign { -size } else { size }
}
