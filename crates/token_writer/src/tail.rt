//! Tokens of two or more.

ghost use Rattle.std.specs.Prelude.{◌≡◌, ◌≤◌, ◌<◌, IfOk};
ghost use Rattle.bool_decoder.specs.Bools.{flag};
ghost use Rattle.bool_encoder.specs.WrittenBools.{Puts};
ghost use Rattle.coef_tokens.specs.TokenSymbols.{tail_prob, tail_token};

use bool_encoder::{BoolEncoder, put_flag};
use coef_tokens::tail_prob;
use std::alloc::AllocError;

fn put_node(encoder: &mut BoolEncoder, q: u8, node: u8, one: bool) -> Result<(), AllocError>
    requires least { 1 ≤ q }
    requires node { node < 8 }
    ensures { IfOk result (λ _. Puts (flag (tail_prob q node)) encoder.old one encoder.new) }
{
    put_flag(encoder, tail_prob(q, node), one)
}

/// Two, three or four.
fn put_small(encoder: &mut BoolEncoder, q: u8, token: u8) -> Result<(), AllocError>
    requires q { 1 ≤ q }
    requires least { 2 ≤ token }
    requires most { token ≤ 4 }
    ensures { IfOk result (λ _. Puts (tail_token q) encoder.old token encoder.new) }
{
    put_node(encoder, q, 0, false)?;
    if token == 2 {
        put_node(encoder, q, 1, false)?;
        return Ok(());
    }
    put_node(encoder, q, 1, true)?;
    put_node(encoder, q, 2, token == 4)?;
    Ok(())
}

/// A category from 3 to 6.
fn put_large(encoder: &mut BoolEncoder, q: u8, token: u8) -> Result<(), AllocError>
    requires q { 1 ≤ q }
    requires least { 7 ≤ token }
    requires most { token ≤ 10 }
    ensures { IfOk result (λ _. Puts (tail_token q) encoder.old token encoder.new) }
{
    put_node(encoder, q, 0, true)?;
    put_node(encoder, q, 3, true)?;
    if token < 9 {
        put_node(encoder, q, 5, false)?;
        put_node(encoder, q, 6, token == 8)?;
        return Ok(());
    }
    put_node(encoder, q, 5, true)?;
    put_node(encoder, q, 7, token == 10)?;
    Ok(())
}

/// The token behind a bool of 1 at the third probability `q`.
pub(crate) fn put_tail(encoder: &mut BoolEncoder, q: u8, token: u8) -> Result<(), AllocError>
    requires q { 1 ≤ q }
    requires least { 2 ≤ token }
    requires most { token ≤ 10 }
    ensures { IfOk result (λ _. Puts (tail_token q) encoder.old token encoder.new) }
{
    if token < 5 {
        return put_small(encoder, q, token);
    }
    if 6 < token {
        return put_large(encoder, q, token);
    }
    put_node(encoder, q, 0, true)?;
    put_node(encoder, q, 3, false)?;
    put_node(encoder, q, 4, token == 6)?;
    Ok(())
}
