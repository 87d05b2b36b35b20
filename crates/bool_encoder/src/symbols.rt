//! What bools are put together to.

ghost use Rattle.std.specs.Prelude.{◌≡◌, ◌<◌, ◌≤◌, ◌^◌, IfOk};
ghost use Rattle.bool_decoder.specs.Bools.{flag, literal, difference};
ghost use Rattle.bool_encoder.specs.WrittenBools.{Puts};

use crate::encoder::BoolEncoder;
use std::alloc::AllocError;

/// The probability that stands for one half.
const HALF: u8 = 128;

/// Puts one bool.
#[tactic(auto, unfolding(bool_decoder::specs::Bools::flag))]
pub fn put_flag(encoder: &mut BoolEncoder, p: u8, value: bool) -> Result<(), AllocError>
    ensures { IfOk result (λ _. Puts (flag p) encoder.old value encoder.new) }
{
    encoder.bit(p, value)
}

/// Puts a number as `n` bools at one half, most significant first.
pub fn put_literal(encoder: &mut BoolEncoder, n: u32, value: u32) -> Result<(), AllocError>
    requires most { n ≤ 32 }
    requires fits { value < 2 ^ n }
    ensures { IfOk result (λ _. Puts (literal n) encoder.old value encoder.new) }
{
    let mut left = n;
    while 0 < left {
        left -= 1;
        encoder.bit(HALF, (value >> left) % 2 == 1)?;
    }
    Ok(())
}

/// Puts the difference of a probability.
#[tactic(auto, unfolding(bool_decoder::specs::Bools::difference, bool_decoder::specs::Bools::wide_difference), using(vp9_types::proofs::Binds::writes_bind))]
pub fn put_difference(encoder: &mut BoolEncoder, number: u8) -> Result<(), AllocError>
    requires { number ≤ 254 }
    ensures { IfOk result (λ _. Puts difference encoder.old number encoder.new) }
{
    let number = u32::from(number);
    if number < 16 {
        put_literal(encoder, 1, 0)?;
        return put_literal(encoder, 4, number);
    }
    put_literal(encoder, 1, 1)?;
    if number < 32 {
        put_literal(encoder, 1, 0)?;
        return put_literal(encoder, 4, number - 16);
    }
    put_literal(encoder, 1, 1)?;
    if number < 64 {
        put_literal(encoder, 1, 0)?;
        return put_literal(encoder, 5, number - 32);
    }
    put_literal(encoder, 1, 1)?;
    if number < 129 {
        return put_literal(encoder, 7, number - 64);
    }
    put_literal(encoder, 7, (number + 1) / 2)?;
    put_literal(encoder, 1, (number + 1) % 2)
}
