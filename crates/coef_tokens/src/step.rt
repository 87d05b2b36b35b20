//! One place of the scan.

ghost use Rattle.std.specs.Prelude.{◌≡◌, ◌≤◌, ◌<◌, ◌^◌, ◌+◌, ◌-◌, unsigned_abs, ℕ, length, slice_index};
ghost use Rattle.bool_decoder.specs.Bools.{Reads};
ghost use Rattle.bool_decoder.specs.Held.{window_of};
ghost use Rattle.coef_tokens.specs.TokenSymbols.{bits_from, category_base, coef_magnitude, level};
ghost use Rattle.coef_tokens.specs.Steps.{token, token_from_one, more_coefs, token_step};
ghost use Rattle.coef_tokens.specs.Code.{IsSmallStep};
ghost use Rattle.counting_reader.specs.Code.{ReadsAway};

use crate::tail::read_tail;
use bool_decoder::BoolDecoder;
use counting_reader::CountingReader;
use prob_contexts::ProbKind;
use vp9_tables::{category_probs, energy_class};
use vp9_types::Depth;

/// What stands at a place of the scan: nothing more, a zero, or a level with the class of its token.
#[derive(Clone, Copy, Debug, PartialEq, Eq)]
pub enum Step {
    End,
    Zero,
    Level { level: i32, class: u8 },
}

/// The bits of a category, the highest first.
#[inline(always)]
fn read_bits(decoder: &mut BoolDecoder, probs: &[u8]) -> u32
    requires { length probs.now ≤ 18 }
    ensures read { Reads (bits_from probs.now 0) (window_of decoder.old) result (window_of decoder.new) }
    ensures fits { result < 2 ^ 18 }
{
    let mut value = 0;
    for p in probs {
        value = 2 * value + u32::from(decoder.bit(*p));
    }
    value
}

/// The least magnitude of a category from 1 to 6.
#[inline(always)]
pub fn category_base(category: u8) -> u32
    requires least { 1 ≤ category }
    requires most { category ≤ 6 }
    ensures value { result ≡ category_base category }
    ensures small { result ≤ 67 }
{
    match category {
        1 => 5,
        2 => 7,
        3 => 11,
        4 => 19,
        5 => 35,
        _ => 67,
    }
}

/// The magnitude of a level, by its token from one on.
#[inline(always)]
#[tactic(auto, unfolding(crate::specs::TokenSymbols::coef_magnitude), using(vp9_types::proofs::Runs::run_bind))]
fn read_magnitude(decoder: &mut BoolDecoder, depth: Depth, token: u8) -> u32
    requires { token ≤ 10 }
    ensures read { Reads (coef_magnitude depth token) (window_of decoder.old) result (window_of decoder.new) }
    ensures fits { result < 2 ^ 19 }
{
    if token < 5 {
        return u32::from(token);
    }
    let bits = read_bits(decoder, category_probs(token - 4, depth));
    category_base(token - 4) + bits
}

/// A level, by its token from one on.
#[inline(always)]
#[tactic(auto, unfolding(crate::specs::TokenSymbols::level, bool_decoder::specs::Bools::flag), using(vp9_types::proofs::Runs::run_bind))]
fn read_level(decoder: &mut BoolDecoder, depth: Depth, token: u8) -> Step
    requires { token ≤ 10 }
    ensures read { Reads (level depth token) (window_of decoder.old) result (window_of decoder.new) }
    ensures small { IsSmallStep result }
{
    let magnitude = read_magnitude(decoder, depth, token) as i32;
    let class = energy_class(token);
    let level = if decoder.bit(128) {
        -magnitude
    } else {
        magnitude
    };
    Step::Level { level, class }
}

/// One or more, by the third node's probability.
#[inline(always)]
#[tactic(auto, unfolding(crate::specs::Steps::token_from_one), using(counting_reader::proofs::CountingRuns::counting_bind, counting_reader::proofs::CountingRuns::run_settle, counting_reader::proofs::CountingRuns::run_uncounted))]
fn read_from_one<const COUNTS: bool>(
    decoder: &mut BoolDecoder,
    reader: &mut CountingReader<COUNTS>,
    node: u16,
    third: u8,
) -> u8
    requires node { node + 2 < 1584 }
    requires some { 1 ≤ third }
    ensures read { ReadsAway (token_from_one node third) reader.old decoder.old result reader.new decoder.new }
    ensures most { result ≤ 10 }
{
    if reader.counted_branch_of(decoder, ProbKind::Coef, node + 2, third) {
        read_tail(decoder, third)
    } else {
        1
    }
}

/// What stands behind more_coefs.
#[inline(always)]
#[tactic(auto, unfolding(crate::specs::Steps::token), using(counting_reader::proofs::CountingRuns::counting_bind, counting_reader::proofs::CountingRuns::run_settle, counting_reader::proofs::CountingRuns::run_uncounted))]
fn read_token<const COUNTS: bool>(
    decoder: &mut BoolDecoder,
    reader: &mut CountingReader<COUNTS>,
    depth: Depth,
    node: u16,
    probs: &[u8],
) -> Step
    requires node { node + 2 < 1584 }
    requires three { 3 ≤ length probs.now }
    requires some { 1 ≤ slice_index probs.now 2 }
    ensures read { ReadsAway (token depth node (slice_index probs.now 1) (slice_index probs.now 2)) reader.old decoder.old result reader.new decoder.new }
    ensures small { IsSmallStep result }
{
    if !reader.counted_branch_of(decoder, ProbKind::Coef, node + 1, probs[1]) {
        return Step::Zero;
    }
    let token = read_from_one(decoder, reader, node, probs[2]);
    read_level(decoder, depth, token)
}

/// Whether there are more tokens. It isn't asked after a zero.
#[inline(always)]
#[tactic(auto, unfolding(crate::specs::Steps::more_coefs), using(counting_reader::proofs::CountingRuns::run_settle))]
fn read_more<const COUNTS: bool>(
    decoder: &mut BoolDecoder,
    reader: &mut CountingReader<COUNTS>,
    check: bool,
    node: u16,
    first: u8,
) -> bool
    requires { node < 1584 }
    ensures { ReadsAway (more_coefs check node first) reader.old decoder.old result reader.new decoder.new }
{
    if check {
        reader.counted_branch_of(decoder, ProbKind::Coef, node, first)
    } else {
        true
    }
}

/// What stands at a place, by its first node and the probabilities of the three.
#[inline(always)]
#[tactic(auto, unfolding(crate::specs::Steps::token_step), using(counting_reader::proofs::CountingRuns::counting_bind, counting_reader::proofs::CountingRuns::run_settle))]
pub(crate) fn read_step<const COUNTS: bool>(
    decoder: &mut BoolDecoder,
    reader: &mut CountingReader<COUNTS>,
    depth: Depth,
    check: bool,
    node: u16,
    probs: &[u8],
) -> Step
    requires node { node + 2 < 1584 }
    requires three { 3 ≤ length probs.now }
    requires some { 1 ≤ slice_index probs.now 2 }
    ensures read { ReadsAway (token_step depth check node (slice_index probs.now 0) (slice_index probs.now 1) (slice_index probs.now 2)) reader.old decoder.old result reader.new decoder.new }
    ensures small { IsSmallStep result }
{
    if !read_more(decoder, reader, check, node, probs[0]) {
        return Step::End;
    }
    read_token(decoder, reader, depth, node, probs)
}
