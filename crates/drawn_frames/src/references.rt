//! The references of inter frames, and the sizes that they give.

ghost use Rattle.std.specs.Prelude.{◌≡◌, ◌<◌, false, None, Some, slice_index_or};
ghost use Rattle.drawn_symbols.specs.Draws.{IsDrawn};
ghost use Rattle.drawn_frames.specs.Code.{AreMadeReferences, IsMadeReference};
ghost use Rattle.drawn_frames.specs.MadeFrames.{IsMade, IsMadeShape, IsMadeSize};
ghost use Rattle.drawn_frames.specs.FrameStarts.{draw_reference, draw_frame_references, draw_frame_size, shape_in};

use crate::sizes::{SMALL, WHOLE};
use drawn_symbols::Draws;
use frame_headers::{FrameSize, Persist, Reference, References};
use vp9_types::{Depth, Shape};

/// What a slot holds.
fn shape_in(slot: Option<Shape>) -> Shape
    ensures { result ≡ shape_in slot }
{
    match slot {
        Some(shape) => shape,
        None => Shape {
            w: 520,
            h: 136,
            depth: Depth::Eight,
            ss_x: true,
            ss_y: true,
        },
    }
}

#[tactic(auto, unfolding(crate::specs::FrameStarts::draw_reference))]
fn draw_reference(draws: &mut Draws, before: &Persist) -> Reference
    requires { IsMade before.now }
    ensures drawn { IsDrawn (draw_reference before.now) draws.old result draws.new }
    ensures made { IsMadeReference before.now result }
{
    let slot = draws.draw(8) as u8;
    Reference {
        slot,
        sign_bias: false,
        shape: shape_in(before.slots[usize::from(slot)]),
    }
}

/// The three references of an inter frame.
#[tactic(auto, unfolding(crate::specs::FrameStarts::draw_frame_references))]
pub(crate) fn draw_frame_references(draws: &mut Draws, before: &Persist) -> References
    requires { IsMade before.now }
    ensures drawn { IsDrawn (draw_frame_references before.now) draws.old result draws.new }
    ensures made { AreMadeReferences before.now result }
{
    let last = draw_reference(draws, before);
    let golden = draw_reference(draws, before);
    let altref = draw_reference(draws, before);
    let sign_bias = draws.flag();
    References {
        last,
        golden,
        altref: Reference {
            slot: altref.slot,
            sign_bias,
            shape: altref.shape,
        },
    }
}

/// The size of an inter frame: one of its own, or that of the first reference.
#[tactic(auto, unfolding(crate::specs::FrameStarts::draw_frame_size))]
pub(crate) fn draw_frame_size(draws: &mut Draws, own_size: bool, last: &Reference) -> FrameSize
    requires { IsMadeShape last.now.shape }
    ensures drawn { IsDrawn (draw_frame_size own_size last.now) draws.old result draws.new }
    ensures made { IsMadeSize result }
{
    if !own_size {
        return last.size();
    }
    if draws.flag() { SMALL } else { WHOLE }
}
