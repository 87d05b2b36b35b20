//! The modes of frames.

ghost use Rattle.std.specs.Prelude.{◌≡◌};
ghost use Rattle.prob_contexts.specs.ProbLists.{ContextLists};
ghost use Rattle.compressed_header.specs.HeaderModes.{is_compound_allowed};
ghost use Rattle.compressed_writer.specs.CodedUpdates.{CanForward, IsTxMode};
ghost use Rattle.drawn_symbols.specs.Draws.{IsDrawn};
ghost use Rattle.drawn_frames.specs.ModeDraws.{draw_frame_modes, draw_tx_mode, reference_mode};

use drawn_symbols::Draws;
use frame_headers::{FrameKind, Header, References};
use vp9_types::{Modes, ReferenceMode, TxMode};

#[tactic(auto, unfolding(crate::specs::ModeDraws::draw_tx_mode))]
fn draw_tx_mode(draws: &mut Draws, lossless: bool) -> TxMode
    ensures drawn { IsDrawn (draw_tx_mode lossless) draws.old result draws.new }
    ensures can { IsTxMode lossless result }
{
    if lossless {
        return TxMode::Only4x4;
    }
    match draws.draw(5) {
        0 => TxMode::Only4x4,
        1 => TxMode::UpTo8x8,
        2 => TxMode::UpTo16x16,
        3 => TxMode::UpTo32x32,
        _ => TxMode::Selected,
    }
}

fn is_compound_allowed(references: &References) -> bool
    ensures { result ≡ is_compound_allowed references.now }
{
    references.golden.sign_bias != references.last.sign_bias
        || references.altref.sign_bias != references.last.sign_bias
}

fn reference_mode(kind: &FrameKind) -> ReferenceMode
    ensures { result ≡ reference_mode kind.now }
{
    match kind {
        FrameKind::Key | FrameKind::IntraOnly => ReferenceMode::Single,
        FrameKind::Inter(fields) => {
            if is_compound_allowed(&fields.references) {
                ReferenceMode::Selected
            } else {
                ReferenceMode::Single
            }
        }
    }
}

/// Draws the modes of a frame. A compressed header can say them, and leave all probabilities as they are.
#[tactic(auto, unfolding(crate::specs::ModeDraws::draw_frame_modes))]
pub fn draw_frame_modes(draws: &mut Draws, header: &Header) -> Modes
    ensures drawn { IsDrawn (draw_frame_modes header.now) draws.old result draws.new }
    ensures can { (lists : ContextLists) → CanForward header.now lists lists result }
{
    let tx_mode = draw_tx_mode(draws, header.params.quantizer.lossless());
    Modes {
        tx_mode,
        reference_mode: reference_mode(&header.kind),
    }
}
