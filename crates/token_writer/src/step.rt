//! One place of the scan.

ghost use Rattle.std.specs.Prelude.{◌≡◌, ◌≢◌, ◌≤◌, IfOk, true, false, ℕ, pos, slice_index, unsigned_abs};
ghost use Rattle.vp9_types.specs.declared.shape.Depth.{Depth};
ghost use Rattle.coef_tokens.specs.TokenSymbols.{class_of};
ghost use Rattle.coef_tokens.specs.Steps.{token_from_one, more_coefs, token};
ghost use Rattle.coef_tokens.specs.declared.step.Step.TheVariants.{End, Zero, Level};
ghost use Rattle.bool_encoder.specs.CountedBools.{PutsValue};
ghost use Rattle.token_writer.specs.TokenFits.{IsCoded};
ghost use Rattle.token_writer.specs.Code.{IsTokenOf, PutsStep};

use crate::level::{put_level, token_of};
use crate::tail::put_tail;
use bool_encoder::{BoolEncoder, put_flag};
use std::alloc::AllocError;
use vp9_tables::energy_class;
use vp9_types::Depth;

/// One or more, by the third node's probability.
#[tactic(auto, unfolding(coef_tokens::specs::Steps::token_from_one), using(bool_encoder::proofs::CountedPuts::valued_in_order, bool_encoder::proofs::CountedPuts::valued_settle, bool_encoder::proofs::CountedPuts::valued_uncounted, bool_encoder::proofs::CountedPuts::valued_flag, vp9_types::proofs::Binds::writes_bind))]
fn put_from_one(encoder: &mut BoolEncoder, third: u8, token: u8) -> Result<(), AllocError>
    requires some { 1 ≤ third }
    requires least { 1 ≤ token }
    requires most { token ≤ 10 }
    ensures { IfOk result (λ _. (node : ℕ) → PutsValue (token_from_one node third) encoder.old token encoder.new) }
{
    if token == 1 {
        return put_flag(encoder, third, false);
    }
    put_flag(encoder, third, true)?;
    put_tail(encoder, third, token)
}

/// Whether there are more tokens. It isn't put after a zero.
#[tactic(auto, unfolding(coef_tokens::specs::Steps::more_coefs), using(bool_encoder::proofs::CountedPuts::valued_settle, bool_encoder::proofs::CountedPuts::valued_flag))]
fn put_more(encoder: &mut BoolEncoder, check: bool, first: u8) -> Result<(), AllocError>
    ensures { IfOk result (λ _. (node : ℕ) → PutsValue (more_coefs check node first) encoder.old true encoder.new) }
{
    if check {
        return put_flag(encoder, first, true);
    }
    Ok(())
}

/// The end, before the scan's.
#[tactic(auto, unfolding(coef_tokens::specs::Steps::token_step, coef_tokens::specs::Steps::more_coefs), using(bool_encoder::proofs::CountedPuts::valued_in_order, bool_encoder::proofs::CountedPuts::valued_settle, bool_encoder::proofs::CountedPuts::valued_flag, vp9_types::proofs::Binds::writes_bind))]
pub(crate) fn put_end(encoder: &mut BoolEncoder, probs: [u8; 3]) -> Result<(), AllocError>
    ensures { IfOk result (λ _. (depth : Depth) → PutsStep depth true probs encoder.old End encoder.new) }
{
    put_flag(encoder, probs[0], false)
}

#[tactic(auto, unfolding(coef_tokens::specs::Steps::token_step, coef_tokens::specs::Steps::token), using(bool_encoder::proofs::CountedPuts::valued_in_order, bool_encoder::proofs::CountedPuts::valued_settle, bool_encoder::proofs::CountedPuts::valued_flag, vp9_types::proofs::Binds::writes_bind))]
pub(crate) fn put_zero(
    encoder: &mut BoolEncoder,
    check: bool,
    probs: [u8; 3],
) -> Result<(), AllocError>
    ensures { IfOk result (λ _. (depth : Depth) → PutsStep depth check probs encoder.old Zero encoder.new) }
{
    put_more(encoder, check, probs[0])?;
    put_flag(encoder, probs[1], false)
}

/// What stands behind more_coefs, for a level by its token.
#[tactic(auto, unfolding(coef_tokens::specs::Steps::token), using(bool_encoder::proofs::CountedPuts::valued_in_order, bool_encoder::proofs::CountedPuts::valued_settle, bool_encoder::proofs::CountedPuts::valued_uncounted, bool_encoder::proofs::CountedPuts::valued_flag, vp9_types::proofs::Binds::writes_bind))]
fn put_token(
    encoder: &mut BoolEncoder,
    depth: Depth,
    probs: [u8; 3],
    symbol: u8,
    level: i32,
) -> Result<(), AllocError>
    requires some { 1 ≤ slice_index probs 2 }
    requires is { IsTokenOf depth symbol (unsigned_abs level) }
    ensures { IfOk result (λ _. (node : ℕ) →
        PutsValue (token depth node (slice_index probs 1) (slice_index probs 2)) encoder.old (Level level (class_of symbol)) encoder.new) }
{
    put_flag(encoder, probs[1], true)?;
    put_from_one(encoder, probs[2], symbol)?;
    put_level(encoder, depth, symbol, level)
}

/// A level that isn't 0, and the class of its token.
#[tactic(auto, unfolding(coef_tokens::specs::Steps::token_step), using(bool_encoder::proofs::CountedPuts::valued_in_order, vp9_types::proofs::Binds::writes_bind))]
pub(crate) fn put_some(
    encoder: &mut BoolEncoder,
    depth: Depth,
    check: bool,
    probs: [u8; 3],
    level: i32,
) -> Result<u8, AllocError>
    requires third { 1 ≤ slice_index probs 2 }
    requires some { level ≢ pos 0 }
    requires coded { IsCoded depth (unsigned_abs level) }
    ensures put { IfOk result (λ class. PutsStep depth check probs encoder.old (Level level class) encoder.new) }
    ensures low { IfOk result (λ class. class ≤ 5) }
{
    let token = token_of(depth, level.unsigned_abs());
    put_more(encoder, check, probs[0])?;
    put_token(encoder, depth, probs, token, level)?;
    Ok(energy_class(token))
}
