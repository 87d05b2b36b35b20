//! Tests of modes.

ghost use Rattle.std.specs.Prelude.{◌≡◌, true};
ghost use Rattle.prob_contexts.specs.ProbLists.{ContextLists};
ghost use Rattle.compressed_header.specs.HeaderModes.{is_compound_allowed};
ghost use Rattle.compressed_writer.specs.CodedUpdates.{CanForward, IsKindUpdate, IsTxMode};
ghost use Rattle.header_checks.specs.ModeTests.{can_say_modes, can_say_references, can_say_tx};

use frame_headers::{FrameKind, Header, References};
use vp9_types::{Modes, ReferenceMode, TxMode};

fn can_say_tx(lossless: bool, mode: TxMode) -> bool
    ensures is { result ≡ can_say_tx lossless mode }
    ensures can { result ≡ true → IsTxMode lossless mode }
    ensures complete { IsTxMode lossless mode → result ≡ true }
{
    match mode {
        TxMode::Only4x4 => true,
        _ => !lossless,
    }
}

fn is_compound_allowed(references: &References) -> bool
    ensures { result ≡ is_compound_allowed references.now }
{
    references.golden.sign_bias != references.last.sign_bias
        || references.altref.sign_bias != references.last.sign_bias
}

fn can_say_references(kind: &FrameKind, mode: ReferenceMode) -> bool
    ensures is { result ≡ can_say_references kind.now mode }
    ensures can { result ≡ true → (lists : ContextLists) → IsKindUpdate kind.now mode lists lists }
    ensures complete { (lists : ContextLists) → IsKindUpdate kind.now mode lists lists → result ≡ true }
{
    if matches!(mode, ReferenceMode::Single) {
        return true;
    }
    match kind {
        FrameKind::Inter(fields) => is_compound_allowed(&fields.references),
        FrameKind::Key | FrameKind::IntraOnly => false,
    }
}

/// Whether the compressed header of a frame can say its modes, and leave all probabilities as they are.
#[tactic(auto, unfolding(crate::specs::ModeTests::can_say_modes))]
pub fn can_say_modes(header: &Header, modes: Modes) -> bool
    ensures is { result ≡ can_say_modes header.now modes }
    ensures can { result ≡ true → (lists : ContextLists) → CanForward header.now lists lists modes }
    ensures complete { (lists : ContextLists) → CanForward header.now lists lists modes → result ≡ true }
{
    can_say_tx(header.params.quantizer.lossless(), modes.tx_mode)
        && can_say_references(&header.kind, modes.reference_mode)
}
