//! Uncompressed headers.

ghost use Rattle.std.specs.Prelude.{◌≡◌, ◌≤◌, ℕ, false, length};
ghost use Rattle.frame_headers.specs.FrameSizes.{IsFrameSize};
ghost use Rattle.frame_headers.specs.HeaderState.{next_persist};
ghost use Rattle.frame_headers.specs.Tiles.{AreFewTiles};
ghost use Rattle.frame_headers.specs.declared.persist.Persist.{Persist};
ghost use Rattle.header_writer.specs.WellFormed.{CanChoose, IsWellFormed};
ghost use Rattle.drawn_symbols.specs.Draws.{IsDrawn};
ghost use Rattle.drawn_symbols.specs.DrawnFor.{IsDrawnFrame};
ghost use Rattle.drawn_frames.specs.Code.{IfCoded, IsMadeHead, IsMadeHeader, IsStart, with_size};
ghost use Rattle.drawn_frames.specs.Heads.{draw_coded, draw_head, draw_later, draw_rest, draw_shown};
ghost use Rattle.drawn_frames.specs.MadeFrames.{IsMade, IsMadeSize};

use crate::kinds::{draw_contexts, draw_kind};
use crate::params::draw_params;
use crate::starts::{
    Start, choices_of, draw_chance, draw_inter_fields, draw_intra_only, key_start,
};
use drawn_symbols::Draws;
use frame_headers::{Header, Persist, Uncompressed};
use header_writer::Choices;
use vp9_types::Shape;

/// A header that is drawn, and how it is coded.
#[derive(Clone, Copy, Debug, PartialEq, Eq)]
pub struct DrawnHead {
    pub header: Uncompressed,
    pub choices: Choices,
}

#[tactic(auto, unfolding(crate::specs::Heads::draw_rest))]
fn draw_rest(draws: &mut Draws, start: &Start) -> Header
    requires { IsMadeSize start.now.fields.size }
    ensures drawn { IsDrawn (draw_rest start.now) draws.old result draws.new }
    ensures made { (before : Persist) → IsStart before start.now → IsMadeHeader before result }
{
    let resilient = draw_chance(draws, 8);
    let contexts = draw_contexts(draws, resilient);
    let kind = draw_kind(draws, resilient, &start.fields.kind);
    let params = draw_params(draws, start.fields.size);
    Header {
        profile: 0,
        kind,
        show_frame: start.show_frame,
        error_resilient: resilient,
        reset_context: start.fields.reset_context,
        color: start.fields.color,
        size: start.fields.size,
        refresh: start.fields.refresh,
        contexts,
        params,
    }
}

#[tactic(auto, unfolding(crate::specs::Heads::draw_coded))]
fn draw_coded(draws: &mut Draws, start: &Start) -> DrawnHead
    requires { IsMadeSize start.now.fields.size }
    ensures drawn { IsDrawn (draw_coded start.now) draws.old result draws.new }
    ensures made { (before : Persist) → IsStart before start.now → IsMadeHead before result.header }
{
    let header = draw_rest(draws, start);
    DrawnHead {
        header: Uncompressed::Coded(header),
        choices: start.choices,
    }
}

#[tactic(auto, unfolding(crate::specs::Heads::draw_shown))]
fn draw_shown(draws: &mut Draws) -> DrawnHead
    ensures drawn { IsDrawn draw_shown draws.old result draws.new }
    ensures made { (before : Persist) → IsMade before → IsMadeHead before result.header }
{
    let slot = draws.draw(8) as u8;
    DrawnHead {
        header: Uncompressed::ShowExisting { slot },
        choices: choices_of(false, false),
    }
}

#[tactic(auto, unfolding(crate::specs::Heads::draw_later))]
fn draw_later(draws: &mut Draws, before: &Persist) -> DrawnHead
    requires { IsMade before.now }
    ensures drawn { IsDrawn (draw_later before.now) draws.old result draws.new }
    ensures made { IsMadeHead before.now result.header }
{
    match draws.draw(8) {
        0 => draw_coded(draws, &key_start()),
        1 => {
            let start = draw_intra_only(draws);
            draw_coded(draws, &start)
        }
        2 => draw_shown(draws),
        _ => {
            let start = draw_inter_fields(draws, before);
            draw_coded(draws, &start)
        }
    }
}

#[tactic(auto, unfolding(crate::specs::Heads::draw_head))]
fn draw_any(draws: &mut Draws, first: bool, before: &Persist) -> DrawnHead
    requires { first ≡ false → IsMade before.now }
    ensures drawn { IsDrawn (draw_head first before.now) draws.old result draws.new }
    ensures made { IsMadeHead before.now result.header }
{
    if first {
        draw_coded(draws, &key_start())
    } else {
        draw_later(draws, before)
    }
}

/// There are eight slots (a law: it does nothing).
fn slots_are_eight(slots: [Option<Shape>; 8])
    ensures { length slots ≡ 8 }
{}

/// Draws the header of a frame, whose compressed header counts as one byte until it is written. The first frame of a stream is
/// a key frame, whatever persists before it. Behind each coded frame what persists is that of a made stream again.
pub fn draw_head(draws: &mut Draws, first: bool, before: &Persist) -> DrawnHead
    requires made { first ≡ false → IsMade before.now }
    ensures drawn { IsDrawn (draw_head first before.now) draws.old result draws.new }
    ensures well { (bytes : ℕ) → 1 ≤ bytes → IsWellFormed before.now (with_size bytes result.header) }
    ensures can { (bytes : ℕ) → CanChoose before.now result.choices (with_size bytes result.header) }
    ensures frame { (bytes : ℕ) → IfCoded (with_size bytes result.header) IsDrawnFrame }
    ensures size { IfCoded result.header (λ header. IsFrameSize header.size) }
    ensures tiles { IfCoded result.header (λ header. AreFewTiles header.params.tiles) }
    ensures next { IfCoded result.header (λ header. IsMade (next_persist header before.now)) }
{
    slots_are_eight(before.slots);
    draw_any(draws, first, before)
}
