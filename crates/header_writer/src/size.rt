//! Sizes.

ghost use Rattle.std.specs.Prelude.{IfOk};
ghost use Rattle.frame_headers.specs.FrameSizes.{frame_size, render_size, IsFrameSize};
ghost use Rattle.header_writer.specs.Code.{HasPut};
ghost use Rattle.header_writer.specs.WrittenFields.{Puts};
ghost use Rattle.header_writer.specs.Spelling.{spelled_render_size, spelled_frame_size};

use crate::bits::BitWriter;
use frame_headers::{FieldName, FrameSize};
use std::alloc::AllocError;

#[tactic(auto, unfolding(frame_headers::specs::FrameSizes::frame_size, crate::specs::Spelling::spelled_frame_size), using(vp9_types::proofs::Binds::writes_bind, crate::proofs::Spells::spells_on))]
pub fn put_frame_size(bits: &mut BitWriter, size: FrameSize) -> Result<(), AllocError>
    requires { IsFrameSize size }
    ensures puts { IfOk result (λ _. Puts frame_size bits.old size bits.new) }
    ensures spells { IfOk result (λ _. HasPut bits.old (spelled_frame_size size) bits.new) }
{
    bits.field(FieldName::FrameWidthMinus1, 16, (size.width - 1) as u16)?;
    bits.field(FieldName::FrameHeightMinus1, 16, (size.height - 1) as u16)
}

/// The size to show the frame at is its own.
#[tactic(auto, unfolding(frame_headers::specs::FrameSizes::render_size, crate::specs::Spelling::spelled_render_size), using(vp9_types::proofs::Binds::writes_bind, crate::proofs::Spells::spells_on))]
pub fn put_render_size(bits: &mut BitWriter) -> Result<(), AllocError>
    ensures puts { IfOk result (λ u. Puts render_size bits.old u bits.new) }
    ensures spells { IfOk result (λ _. HasPut bits.old spelled_render_size bits.new) }
{
    bits.flag_field(FieldName::RenderAndFrameSizeDifferent, false)
}
