//! A level by its token: the bits of its category, and its sign.

ghost use Rattle.std.specs.Prelude.{◌≡◌, ◌≤◌, ◌<◌, ◌^◌, IfOk, length, unsigned_abs};
ghost use Rattle.bool_encoder.specs.WrittenBools.{Puts};
ghost use Rattle.coef_tokens.specs.TokenSymbols.{bits_from, class_of, coef_magnitude, level};
ghost use Rattle.coef_tokens.specs.declared.step.Step.TheVariants.{Level};
ghost use Rattle.token_writer.specs.TokenFits.{IsCoded};
ghost use Rattle.token_writer.specs.Code.{IsTokenOf};

use bool_encoder::{BoolEncoder, put_flag};
use coef_tokens::category_base;
use std::alloc::AllocError;
use vp9_tables::category_probs;
use vp9_types::Depth;

/// The token of a magnitude.
pub(crate) fn token_of(depth: Depth, magnitude: u32) -> u8
    requires some { 1 ≤ magnitude }
    requires coded { IsCoded depth magnitude }
    ensures { IsTokenOf depth result magnitude }
{
    match magnitude {
        1 => 1,
        2 => 2,
        3 => 3,
        4 => 4,
        5..=6 => 5,
        7..=10 => 6,
        11..=18 => 7,
        19..=34 => 8,
        35..=66 => 9,
        _ => 10,
    }
}

/// The bits of a category, the highest first.
fn put_bits(encoder: &mut BoolEncoder, probs: &[u8], value: u32) -> Result<(), AllocError>
    requires few { length probs.now ≤ 18 }
    requires fits { value < 2 ^ length probs.now }
    ensures { IfOk result (λ _. Puts (bits_from probs.now 0) encoder.old value encoder.new) }
{
    for i in 0..probs.len() {
        let left = (probs.len() - 1 - i) as u32;
        encoder.bit(probs[i], (value >> left) % 2 == 1)?;
    }
    Ok(())
}

#[tactic(auto, unfolding(coef_tokens::specs::TokenSymbols::coef_magnitude), using(vp9_types::proofs::Binds::writes_bind))]
fn put_magnitude(
    encoder: &mut BoolEncoder,
    depth: Depth,
    token: u8,
    number: u32,
) -> Result<(), AllocError>
    requires { IsTokenOf depth token number }
    ensures { IfOk result (λ _. Puts (coef_magnitude depth token) encoder.old number encoder.new) }
{
    if token < 5 {
        return Ok(());
    }
    let bits = number - category_base(token - 4);
    put_bits(encoder, category_probs(token - 4, depth), bits)
}

#[tactic(auto, unfolding(coef_tokens::specs::TokenSymbols::level), using(vp9_types::proofs::Binds::writes_bind))]
pub(crate) fn put_level(
    encoder: &mut BoolEncoder,
    depth: Depth,
    token: u8,
    value: i32,
) -> Result<(), AllocError>
    requires { IsTokenOf depth token (unsigned_abs value) }
    ensures { IfOk result (λ _. Puts (level depth token) encoder.old (Level value (class_of token)) encoder.new) }
{
    put_magnitude(encoder, depth, token, value.unsigned_abs())?;
    put_flag(encoder, 128, value < 0)
}
