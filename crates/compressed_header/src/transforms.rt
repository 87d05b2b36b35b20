//! Transform sizes and coefficients.

ghost use Rattle.std.specs.Prelude.{◌≡◌, ◌≤◌};
ghost use Rattle.std.specs.List.{All};
ghost use Rattle.bool_decoder.specs.Bools.{Reads};
ghost use Rattle.bool_decoder.specs.Held.{window_of};
ghost use Rattle.prob_contexts.specs.ProbLists.{tx_lists, coef_lists};
ghost use Rattle.compressed_header.specs.TransformProbs.{tx_mode_probs, tx_probs_of, size_coef_probs, allows, read_coef_probs};

use crate::update::{read_updates, read_updates_if};
use bool_decoder::BoolDecoder;
use prob_contexts::{CoefProbs, TxProbs};
use vp9_tables::biggest_tx_size;
use vp9_types::{TxMode, TxSize};

#[tactic(auto, unfolding(crate::specs::TransformProbs::tx_mode_probs), using(vp9_types::proofs::Runs::run_bind))]
fn read_tx_mode_probs(decoder: &mut BoolDecoder<'_>, tx: &mut TxProbs)
    ensures { Reads (tx_mode_probs (tx_lists tx.old)) (window_of decoder.old) (tx_lists tx.new) (window_of decoder.new) }
{
    read_updates(decoder, &mut tx.of_8x8);
    read_updates(decoder, &mut tx.of_16x16);
    read_updates(decoder, &mut tx.of_32x32);
}

#[tactic(auto, unfolding(crate::specs::TransformProbs::tx_probs_of))]
pub fn read_tx_probs(decoder: &mut BoolDecoder<'_>, mode: TxMode, tx: &mut TxProbs)
    ensures { Reads (tx_probs_of mode (tx_lists tx.old)) (window_of decoder.old) (tx_lists tx.new) (window_of decoder.new) }
{
    if mode == TxMode::Selected {
        read_tx_mode_probs(decoder, tx);
    }
}

fn allows(mode: TxMode, size: TxSize) -> bool
    ensures { result ≡ allows mode size }
{
    size as u8 <= biggest_tx_size(mode) as u8
}

#[tactic(auto, unfolding(crate::specs::TransformProbs::size_coef_probs), using(vp9_types::proofs::Runs::run_bind))]
fn read_size(decoder: &mut BoolDecoder<'_>, allowed: bool, probs: &mut [u8])
    requires { All (λ p. 1 ≤ p) probs.old }
    ensures read { Reads (size_coef_probs allowed probs.old) (window_of decoder.old) probs.new (window_of decoder.new) }
    ensures kept { All (λ p. 1 ≤ p) probs.new }
{
    if allowed {
        let update = decoder.literal(1) == 1;
        read_updates_if(decoder, update, probs);
    }
}

#[tactic(auto, unfolding(crate::specs::TransformProbs::read_coef_probs), using(vp9_types::proofs::Runs::run_bind))]
pub fn read_coefficients(decoder: &mut BoolDecoder<'_>, mode: TxMode, coef: &mut CoefProbs)
    ensures { Reads (read_coef_probs mode (coef_lists coef.old)) (window_of decoder.old) (coef_lists coef.new) (window_of decoder.new) }
{
    read_size(decoder, allows(mode, TxSize::T4x4), &mut coef.of_4x4);
    read_size(decoder, allows(mode, TxSize::T8x8), &mut coef.of_8x8);
    read_size(decoder, allows(mode, TxSize::T16x16), &mut coef.of_16x16);
    read_size(decoder, allows(mode, TxSize::T32x32), &mut coef.of_32x32);
}
