//! What is drawn between a frame's size and its parameters.

ghost use Rattle.std.specs.Prelude.{◌≡◌, false, Bool};
ghost use Rattle.frame_headers.specs.declared.header.FrameFields.{FrameFields};
ghost use Rattle.frame_headers.specs.declared.persist.Persist.{Persist};
ghost use Rattle.header_writer.specs.WellFormed.{IsContexts};
ghost use Rattle.drawn_symbols.specs.Draws.{IsDrawn};
ghost use Rattle.drawn_frames.specs.Code.{IsMadeKind};
ghost use Rattle.drawn_frames.specs.Heads.{all_counted, counted, draw_contexts, draw_kind};

use drawn_symbols::Draws;
use frame_headers::{FrameContexts, FrameKind, InterFields, Reference, References};

/// How a frame uses the saved contexts.
#[tactic(auto, unfolding(crate::specs::Heads::draw_contexts))]
pub(crate) fn draw_contexts(draws: &mut Draws, resilient: bool) -> FrameContexts
    ensures drawn { IsDrawn (draw_contexts resilient) draws.old result draws.new }
    ensures are { IsContexts resilient result }
{
    if resilient {
        let index = draws.draw(4) as u8;
        return FrameContexts {
            refresh: false,
            parallel: true,
            index,
        };
    }
    let refresh = draws.flag();
    let parallel = draws.flag();
    let index = draws.draw(4) as u8;
    FrameContexts {
        refresh,
        parallel,
        index,
    }
}

fn counted(resilient: bool, reference: Reference) -> Reference
    ensures { result ≡ counted resilient reference }
{
    Reference {
        slot: reference.slot,
        sign_bias: !resilient && reference.sign_bias,
        shape: reference.shape,
    }
}

fn all_counted(resilient: bool, references: &References) -> References
    ensures { result ≡ all_counted resilient references.now }
{
    References {
        last: counted(resilient, references.last),
        golden: counted(resilient, references.golden),
        altref: counted(resilient, references.altref),
    }
}

/// The kind of a frame, with the precision of its vectors.
#[tactic(auto, unfolding(crate::specs::Heads::draw_kind))]
pub(crate) fn draw_kind(draws: &mut Draws, resilient: bool, kind: &FrameKind) -> FrameKind
    ensures drawn { IsDrawn (draw_kind resilient kind.now) draws.old result draws.new }
    ensures made { (before : Persist) (show : Bool) (fields : FrameFields) → IsMadeKind before false show fields kind.now → IsMadeKind before resilient show fields result }
{
    match kind {
        FrameKind::Key => FrameKind::Key,
        FrameKind::IntraOnly => FrameKind::IntraOnly,
        FrameKind::Inter(fields) => FrameKind::Inter(InterFields {
            references: all_counted(resilient, &fields.references),
            high_precision: draws.flag(),
            filter: fields.filter,
        }),
    }
}
