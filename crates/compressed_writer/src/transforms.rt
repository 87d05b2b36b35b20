//! Transform sizes and coefficients.

ghost use Rattle.std.specs.Prelude.{◌≡◌, ◌≤◌, IfOk, length, false};
ghost use Rattle.std.specs.List.{All};
ghost use Rattle.bool_encoder.specs.WrittenBools.{Puts};
ghost use Rattle.bool_lists.specs.BoolLists.{HasPut};
ghost use Rattle.compressed_writer.specs.Spelling.{are_changed, spelled_coefficients, spelled_size_updates, spelled_tx_probs, spelled_tx_updates};
ghost use Rattle.prob_contexts.specs.ProbLists.{tx_lists, coef_lists};
ghost use Rattle.compressed_header.specs.TransformProbs.{tx_mode_probs, tx_probs_of, size_coef_probs, allows, read_coef_probs};
ghost use Rattle.compressed_writer.specs.CodedUpdates.{AreTxUpdates, AreCoefUpdates};

use crate::update::{put_updates, put_updates_if};
use bool_encoder::{BoolEncoder, put_literal};
use prob_contexts::{CoefProbs, TxProbs};
use std::alloc::AllocError;
use vp9_tables::biggest_tx_size;
use vp9_types::{TxMode, TxSize};

#[tactic(auto, unfolding(crate::specs::Spelling::spelled_tx_probs, compressed_header::specs::TransformProbs::tx_mode_probs), using(bool_lists::proofs::Ways::spells_on, vp9_types::proofs::Binds::writes_bind))]
fn put_tx_mode_probs(
    encoder: &mut BoolEncoder,
    before: &TxProbs,
    after: &TxProbs,
) -> Result<(), AllocError>
    ensures puts { IfOk result (λ _. Puts (tx_mode_probs (tx_lists before.now)) encoder.old (tx_lists after.now) encoder.new) }
    ensures spells { IfOk result (λ _. HasPut encoder.old (spelled_tx_probs (tx_lists before.now) (tx_lists after.now)) encoder.new) }
{
    put_updates(encoder, &before.of_8x8, &after.of_8x8)?;
    put_updates(encoder, &before.of_16x16, &after.of_16x16)?;
    put_updates(encoder, &before.of_32x32, &after.of_32x32)
}

/// Puts those of transform sizes, where blocks say which size they have.
#[tactic(auto, unfolding(crate::specs::Spelling::spelled_tx_updates, compressed_header::specs::TransformProbs::tx_probs_of), using(bool_lists::proofs::Ways::spells_none))]
pub fn put_tx_probs(
    encoder: &mut BoolEncoder,
    mode: TxMode,
    before: &TxProbs,
    after: &TxProbs,
) -> Result<(), AllocError>
    requires { AreTxUpdates mode (tx_lists before.now) (tx_lists after.now) }
    ensures puts { IfOk result (λ _. Puts (tx_probs_of mode (tx_lists before.now)) encoder.old (tx_lists after.now) encoder.new) }
    ensures spells { IfOk result (λ _. HasPut encoder.old (spelled_tx_updates mode (tx_lists before.now) (tx_lists after.now)) encoder.new) }
{
    if mode == TxMode::Selected {
        return put_tx_mode_probs(encoder, before, after);
    }
    Ok(())
}

fn allows(mode: TxMode, size: TxSize) -> bool
    ensures { result ≡ allows mode size }
{
    size as u8 <= biggest_tx_size(mode) as u8
}

/// Whether there is a change.
fn changes(before: &[u8], after: &[u8]) -> bool
    ensures is { result ≡ are_changed before.now after.now }
    ensures same { result ≡ false → after.now ≡ before.now }
{
    before != after
}

#[tactic(auto, unfolding(crate::specs::Spelling::spelled_size_updates, compressed_header::specs::TransformProbs::size_coef_probs), using(bool_lists::proofs::Ways::spells_on, bool_lists::proofs::Ways::literal_way, bool_lists::proofs::Ways::flag_way, bool_lists::proofs::Ways::spells_none, vp9_types::proofs::Binds::writes_bind))]
fn put_size(
    encoder: &mut BoolEncoder,
    allowed: bool,
    before: &[u8],
    after: &[u8],
) -> Result<(), AllocError>
    requires size { length before.now ≡ length after.now }
    requires old { All (λ p. 1 ≤ p) before.now }
    requires new { All (λ p. 1 ≤ p) after.now }
    requires kept { allowed ≡ false → after.now ≡ before.now }
    ensures puts { IfOk result (λ _. Puts (size_coef_probs allowed before.now) encoder.old after.now encoder.new) }
    ensures spells { IfOk result (λ _. HasPut encoder.old (spelled_size_updates allowed before.now after.now) encoder.new) }
{
    if !allowed {
        return Ok(());
    }
    let update = changes(before, after);
    put_literal(encoder, 1, u32::from(update))?;
    put_updates_if(encoder, update, before, after)
}

/// Puts `read_coef_probs` (6.3.7 of the standard). A size without a change has no updates.
#[tactic(auto, unfolding(crate::specs::Spelling::spelled_coefficients, compressed_header::specs::TransformProbs::read_coef_probs), using(bool_lists::proofs::Ways::spells_on, vp9_types::proofs::Binds::writes_bind))]
pub fn put_coefficients(
    encoder: &mut BoolEncoder,
    mode: TxMode,
    before: &CoefProbs,
    after: &CoefProbs,
) -> Result<(), AllocError>
    requires { AreCoefUpdates mode (coef_lists before.now) (coef_lists after.now) }
    ensures puts { IfOk result (λ _. Puts (read_coef_probs mode (coef_lists before.now)) encoder.old (coef_lists after.now) encoder.new) }
    ensures spells { IfOk result (λ _. HasPut encoder.old (spelled_coefficients mode (coef_lists before.now) (coef_lists after.now)) encoder.new) }
{
    put_size(
        encoder,
        allows(mode, TxSize::T4x4),
        &before.of_4x4,
        &after.of_4x4,
    )?;
    put_size(
        encoder,
        allows(mode, TxSize::T8x8),
        &before.of_8x8,
        &after.of_8x8,
    )?;
    put_size(
        encoder,
        allows(mode, TxSize::T16x16),
        &before.of_16x16,
        &after.of_16x16,
    )?;
    put_size(
        encoder,
        allows(mode, TxSize::T32x32),
        &before.of_32x32,
        &after.of_32x32,
    )
}
