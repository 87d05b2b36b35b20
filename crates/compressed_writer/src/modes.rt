//! The modes of a frame.

ghost use Rattle.std.specs.Prelude.{◌≡◌, IfOk};
ghost use Rattle.bool_encoder.specs.WrittenBools.{Puts};
ghost use Rattle.bool_lists.specs.BoolLists.{HasPut};
ghost use Rattle.compressed_writer.specs.Spelling.{spelled_reference_mode, spelled_tx_mode};
ghost use Rattle.compressed_header.specs.HeaderModes.{read_tx_mode, frame_reference_mode, is_compound_allowed, tx_mode_of};
ghost use Rattle.compressed_writer.specs.CodedUpdates.{IsTxMode, IsReferenceMode};

use bool_encoder::{BoolEncoder, put_literal};
use frame_headers::References;
use std::alloc::AllocError;
use vp9_types::{ReferenceMode, TxMode};

/// Puts `read_tx_mode` (6.3.1 of the standard).
#[tactic(auto, unfolding(crate::specs::Spelling::spelled_tx_mode, compressed_header::specs::HeaderModes::read_tx_mode), using(bool_lists::proofs::Ways::literal_way, bool_lists::proofs::Ways::numbers_way, bool_lists::proofs::Ways::spells_none, vp9_types::proofs::Binds::writes_bind))]
pub fn put_tx_mode(
    encoder: &mut BoolEncoder,
    lossless: bool,
    mode: TxMode,
) -> Result<(), AllocError>
    requires { IsTxMode lossless mode }
    ensures puts { IfOk result (λ _. Puts (read_tx_mode lossless) encoder.old mode encoder.new) }
    ensures spells { IfOk result (λ _. HasPut encoder.old (spelled_tx_mode lossless mode) encoder.new) }
{
    if lossless {
        return Ok(());
    }
    match mode {
        TxMode::Only4x4 => put_literal(encoder, 2, 0),
        TxMode::UpTo8x8 => put_literal(encoder, 2, 1),
        TxMode::UpTo16x16 => put_literal(encoder, 2, 2),
        TxMode::UpTo32x32 => {
            put_literal(encoder, 2, 3)?;
            put_literal(encoder, 1, 0)
        }
        TxMode::Selected => {
            put_literal(encoder, 2, 3)?;
            put_literal(encoder, 1, 1)
        }
    }
}

pub fn is_compound_allowed(references: &References) -> bool
    ensures { result ≡ is_compound_allowed references.now }
{
    references.golden.sign_bias != references.last.sign_bias
        || references.altref.sign_bias != references.last.sign_bias
}

/// Puts `frame_reference_mode` (6.3.12 of the standard).
#[tactic(auto, unfolding(crate::specs::Spelling::spelled_reference_mode, compressed_header::specs::HeaderModes::frame_reference_mode), using(bool_lists::proofs::Ways::literal_way, bool_lists::proofs::Ways::numbers_way, bool_lists::proofs::Ways::spells_none, vp9_types::proofs::Binds::writes_bind))]
pub fn put_reference_mode(
    encoder: &mut BoolEncoder,
    allowed: bool,
    mode: ReferenceMode,
) -> Result<(), AllocError>
    requires { IsReferenceMode allowed mode }
    ensures puts { IfOk result (λ _. Puts (frame_reference_mode allowed) encoder.old mode encoder.new) }
    ensures spells { IfOk result (λ _. HasPut encoder.old (spelled_reference_mode allowed mode) encoder.new) }
{
    if !allowed {
        return Ok(());
    }
    match mode {
        ReferenceMode::Single => put_literal(encoder, 1, 0),
        ReferenceMode::Compound => {
            put_literal(encoder, 1, 1)?;
            put_literal(encoder, 1, 0)
        }
        ReferenceMode::Selected => {
            put_literal(encoder, 1, 1)?;
            put_literal(encoder, 1, 1)
        }
    }
}
