//! Transform sizes.

ghost use Rattle.std.specs.Prelude.{◌≡◌, ◌*◌, ◌≤◌, ℕ, IfOk, drop};
ghost use Rattle.vp9_types.specs.declared.block.TxSize.TheVariants as size;
ghost use Rattle.vp9_tables.specs.Numbers.{tx_number};
ghost use Rattle.prob_contexts.specs.ProbLists.{tx_lists};
ghost use Rattle.bool_encoder.specs.CountedBools.{PutsValue};
ghost use Rattle.mode_syntax.specs.Elements.{tx_symbol, read_tx_size};
ghost use Rattle.mode_writer.specs.ModeFits.{CanTx};

use block_geometry::is_below_8x8;
use bool_encoder::{BoolEncoder, put_tree};
use counting_reader::nodes_from;
use prob_contexts::TxProbs;
use std::alloc::AllocError;
use vp9_tables::{max_tx_size, tx8_tree, tx16_tree, tx32_tree};
use vp9_types::{BlockSize, TxMode, TxSize};

#[tactic(auto, unfolding(mode_syntax::specs::Elements::tx_symbol), using(bool_encoder::proofs::CountedPuts::valued_in_order, bool_encoder::proofs::CountedPuts::valued_settle, bool_encoder::proofs::CountedPuts::valued_tree, vp9_types::proofs::Binds::writes_bind, block_plan::proofs::Transforms::tx_of_number))]
fn put_up_to_8x8(
    encoder: &mut BoolEncoder,
    probs: &TxProbs,
    context: u8,
    tx: TxSize,
) -> Result<(), AllocError>
    requires context { context ≤ 1 }
    requires can { tx_number tx ≤ 1 }
    ensures { IfOk result (λ _. PutsValue (tx_symbol (tx_lists probs.now) size.T8x8 context) encoder.old tx encoder.new) }
{
    let probs = nodes_from(&probs.of_8x8, u16::from(context));
    put_tree(encoder, tx8_tree(), probs, tx as u8)
}

#[tactic(auto, unfolding(mode_syntax::specs::Elements::tx_symbol), using(bool_encoder::proofs::CountedPuts::valued_in_order, bool_encoder::proofs::CountedPuts::valued_settle, bool_encoder::proofs::CountedPuts::valued_tree, vp9_types::proofs::Binds::writes_bind, block_plan::proofs::Transforms::tx_of_number))]
fn put_up_to_16x16(
    encoder: &mut BoolEncoder,
    probs: &TxProbs,
    context: u8,
    tx: TxSize,
) -> Result<(), AllocError>
    requires context { context ≤ 1 }
    requires can { tx_number tx ≤ 2 }
    ensures { IfOk result (λ _. PutsValue (tx_symbol (tx_lists probs.now) size.T16x16 context) encoder.old tx encoder.new) }
{
    let probs = nodes_from(&probs.of_16x16, 2 * u16::from(context));
    put_tree(encoder, tx16_tree(), probs, tx as u8)
}

#[tactic(auto, unfolding(mode_syntax::specs::Elements::tx_symbol), using(bool_encoder::proofs::CountedPuts::valued_in_order, bool_encoder::proofs::CountedPuts::valued_settle, bool_encoder::proofs::CountedPuts::valued_tree, vp9_types::proofs::Binds::writes_bind, block_plan::proofs::Transforms::tx_of_number))]
fn put_up_to_32x32(
    encoder: &mut BoolEncoder,
    probs: &TxProbs,
    context: u8,
    tx: TxSize,
) -> Result<(), AllocError>
    requires context { context ≤ 1 }
    ensures { IfOk result (λ _. PutsValue (tx_symbol (tx_lists probs.now) size.T32x32 context) encoder.old tx encoder.new) }
{
    let probs = nodes_from(&probs.of_32x32, 3 * u16::from(context));
    put_tree(encoder, tx32_tree(), probs, tx as u8)
}

/// The size of a block of 8x8 or more, which it says.
fn put_tx_symbol(
    encoder: &mut BoolEncoder,
    probs: &TxProbs,
    greatest: TxSize,
    context: u8,
    tx: TxSize,
) -> Result<(), AllocError>
    requires some { 1 ≤ tx_number greatest }
    requires context { context ≤ 1 }
    requires can { tx_number tx ≤ tx_number greatest }
    ensures { IfOk result (λ _. PutsValue (tx_symbol (tx_lists probs.now) greatest context) encoder.old tx encoder.new) }
{
    match greatest {
        TxSize::T4x4 | TxSize::T8x8 => put_up_to_8x8(encoder, probs, context, tx),
        TxSize::T16x16 => put_up_to_16x16(encoder, probs, context, tx),
        TxSize::T32x32 => put_up_to_32x32(encoder, probs, context, tx),
    }
}

/// Puts `read_tx_size` (6.4.10 of the standard) in a context of 0 or 1, nothing where the frame or the block's size settles
/// the transform size.
#[tactic(auto, unfolding(mode_syntax::specs::Elements::read_tx_size), using(bool_encoder::proofs::CountedPuts::valued_settle))]
pub fn put_tx_size(
    encoder: &mut BoolEncoder,
    mode: TxMode,
    probs: &TxProbs,
    context: u8,
    size: BlockSize,
    tx: TxSize,
) -> Result<(), AllocError>
    requires context { context ≤ 1 }
    requires can { CanTx mode size tx }
    ensures { IfOk result (λ _. PutsValue (read_tx_size mode (tx_lists probs.now) context size) encoder.old tx encoder.new) }
{
    if matches!(mode, TxMode::Selected) && !is_below_8x8(size) {
        return put_tx_symbol(encoder, probs, max_tx_size(size), context, tx);
    }
    Ok(())
}
