//! The fields of a frame up to its size.

ghost use Rattle.std.specs.Prelude.{◌≡◌, ◌<◌, ◌^◌};
ghost use Rattle.frame_headers.specs.declared.persist.Persist.{Persist};
ghost use Rattle.drawn_symbols.specs.Draws.{IsDrawn};
ghost use Rattle.drawn_frames.specs.Code.{IsStart};
ghost use Rattle.drawn_frames.specs.MadeFrames.{IsMade};
ghost use Rattle.drawn_frames.specs.FrameStarts.{choices_of, draw_chance, draw_inter_fields, draw_intra_only, intra_start, key_start};

use crate::references::{draw_frame_references, draw_frame_size};
use crate::sizes::{KEY_COLOR, WHOLE};
use drawn_symbols::Draws;
use frame_headers::{ColorConfig, FrameFields, FrameFilter, FrameKind, InterFields, Persist};
use header_writer::Choices;

/// What is drawn of a frame first: whether it is shown, its fields up to its size, and how these are coded.
#[derive(Clone, Copy, Debug, PartialEq, Eq)]
pub struct Start {
    pub show_frame: bool,
    pub fields: FrameFields,
    pub choices: Choices,
}

/// Whether it is the first of `n` values.
#[tactic(auto, unfolding(crate::specs::FrameStarts::draw_chance))]
pub(crate) fn draw_chance(draws: &mut Draws, n: u32) -> bool
    requires { 0 < n }
    ensures { IsDrawn (draw_chance n) draws.old result draws.new }
{
    draws.draw(n) == 0
}

pub(crate) fn choices_of(bias: bool, own_size: bool) -> Choices
    ensures { result ≡ choices_of bias own_size }
{
    Choices {
        biases: [false, false, bias],
        own_size,
        deltas: false,
        features: false,
    }
}

fn intra_start(kind: FrameKind, show_frame: bool, refresh: u8, color: ColorConfig) -> Start
    ensures { result ≡ intra_start kind show_frame refresh color }
{
    Start {
        show_frame,
        fields: FrameFields {
            kind,
            reset_context: 0,
            refresh,
            color,
            size: WHOLE,
        },
        choices: choices_of(false, false),
    }
}

pub(crate) fn key_start() -> Start
    ensures is { result ≡ key_start }
    ensures made { (before : Persist) → IsStart before result }
{
    intra_start(FrameKind::Key, true, 0xff, KEY_COLOR)
}

/// The flags that say one slot.
fn flag_of(slot: u8) -> u8
    requires { slot < 8 }
    ensures { result ≡ 2 ^ slot }
{
    1 << slot
}

#[tactic(auto, unfolding(crate::specs::FrameStarts::draw_intra_only))]
pub(crate) fn draw_intra_only(draws: &mut Draws) -> Start
    ensures drawn { IsDrawn draw_intra_only draws.old result draws.new }
    ensures made { (before : Persist) → IsMade before → IsStart before result }
{
    let slot = draws.draw(8) as u8;
    intra_start(
        FrameKind::IntraOnly,
        false,
        flag_of(slot),
        ColorConfig::DEFAULT,
    )
}

#[tactic(auto, unfolding(crate::specs::FrameStarts::draw_inter_fields))]
pub(crate) fn draw_inter_fields(draws: &mut Draws, before: &Persist) -> Start
    requires { IsMade before.now }
    ensures drawn { IsDrawn (draw_inter_fields before.now) draws.old result draws.new }
    ensures made { IsStart before.now result }
{
    let hidden = draw_chance(draws, 4);
    let refresh = draws.draw(256) as u8;
    let references = draw_frame_references(draws, before);
    let own_size = draw_chance(draws, 16);
    let size = draw_frame_size(draws, own_size, &references.last);
    let fields = InterFields {
        references,
        high_precision: false,
        filter: FrameFilter::Switchable,
    };
    Start {
        show_frame: !hidden,
        fields: FrameFields {
            kind: FrameKind::Inter(fields),
            reset_context: 0,
            refresh,
            color: before.color,
            size,
        },
        choices: choices_of(references.altref.sign_bias, own_size),
    }
}
