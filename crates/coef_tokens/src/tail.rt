//! Tokens of two or more.

ghost use Rattle.std.specs.Prelude.{◌≡◌, ◌≤◌, ◌<◌, slice_index, ℕ};
ghost use Rattle.bool_decoder.specs.Bools.{Reads};
ghost use Rattle.bool_decoder.specs.Held.{window_of};
ghost use Rattle.coef_tokens.specs.TokenSymbols.{tail_prob, tail_token};

use crate::tails::TAILS;
use bool_decoder::BoolDecoder;

/// The probability of a node of a token's tail, by the probability `q` of its third node.
#[inline(always)]
pub fn tail_prob(q: u8, node: u8) -> u8
    requires least { 1 ≤ q }
    requires node { node < 8 }
    ensures { result ≡ tail_prob q node }
{
    TAILS[q as usize - 1][node as usize]
}

/// The token behind a bool of 1 at the third probability `q`.
#[inline(always)]
#[tactic(auto, unfolding(crate::specs::TokenSymbols::tail_token))]
pub(crate) fn read_tail(decoder: &mut BoolDecoder, q: u8) -> u8
    requires { 1 ≤ q }
    ensures read { Reads (tail_token q) (window_of decoder.old) result (window_of decoder.new) }
    ensures least { 2 ≤ result }
    ensures most { result ≤ 10 }
{
    if !decoder.branch(tail_prob(q, 0)) {
        if !decoder.branch(tail_prob(q, 1)) {
            return 2;
        }
        return if decoder.bit(tail_prob(q, 2)) { 4 } else { 3 };
    }
    if !decoder.branch(tail_prob(q, 3)) {
        return if decoder.bit(tail_prob(q, 4)) { 6 } else { 5 };
    }
    if !decoder.branch(tail_prob(q, 5)) {
        return if decoder.bit(tail_prob(q, 6)) { 8 } else { 7 };
    }
    if decoder.bit(tail_prob(q, 7)) { 10 } else { 9 }
}
