//! The modes of a frame.

ghost use Rattle.std.specs.Prelude.{◌≡◌, ◌≤◌};
ghost use Rattle.bool_decoder.specs.Bools.{Reads};
ghost use Rattle.bool_decoder.specs.Held.{window_of};
ghost use Rattle.compressed_header.specs.HeaderModes.{tx_mode_of, read_tx_mode, is_compound_allowed, frame_reference_mode};

use bool_decoder::BoolDecoder;
use frame_headers::References;
use vp9_types::{ReferenceMode, TxMode};

fn tx_mode_of(code: u32) -> TxMode
    ensures { result ≡ tx_mode_of code }
{
    match code {
        0 => TxMode::Only4x4,
        1 => TxMode::UpTo8x8,
        2 => TxMode::UpTo16x16,
        3 => TxMode::UpTo32x32,
        _ => TxMode::Selected,
    }
}

#[tactic(auto, unfolding(crate::specs::HeaderModes::read_tx_mode), using(vp9_types::proofs::Runs::run_bind))]
pub fn read_tx_mode(decoder: &mut BoolDecoder<'_>, lossless: bool) -> TxMode
    ensures { Reads (read_tx_mode lossless) (window_of decoder.old) result (window_of decoder.new) }
{
    if lossless {
        return TxMode::Only4x4;
    }
    let code = decoder.literal(2);
    if code == 3 {
        tx_mode_of(code + decoder.literal(1))
    } else {
        tx_mode_of(code)
    }
}

pub fn is_compound_allowed(references: &References) -> bool
    ensures { result ≡ is_compound_allowed references.now }
{
    references.golden.sign_bias != references.last.sign_bias
        || references.altref.sign_bias != references.last.sign_bias
}

#[tactic(auto, unfolding(crate::specs::HeaderModes::frame_reference_mode), using(vp9_types::proofs::Runs::run_bind))]
pub fn read_reference_mode(decoder: &mut BoolDecoder<'_>, allowed: bool) -> ReferenceMode
    ensures { Reads (frame_reference_mode allowed) (window_of decoder.old) result (window_of decoder.new) }
{
    if !allowed || decoder.literal(1) == 0 {
        return ReferenceMode::Single;
    }
    if decoder.literal(1) == 0 {
        ReferenceMode::Compound
    } else {
        ReferenceMode::Selected
    }
}
