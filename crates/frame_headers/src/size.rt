ghost use Rattle.std.specs.Prelude.{◌≡◌, IfOk};
ghost use Rattle.frame_headers.specs.Fields.{Reads};
ghost use Rattle.frame_headers.specs.FrameSizes.{frame_size, render_size, IsFrameSize};

use crate::bits::BitReader;
use crate::field::FieldName;
use crate::header::FrameSize;
use vp9_types::Rule;

/// Reads `frame_size` (6.2.3 of the standard).
#[tactic(auto, unfolding(crate::specs::FrameSizes::frame_size), using(vp9_types::proofs::Runs::run_bind))]
pub fn read_frame_size(bits: &mut BitReader<'_>) -> Result<FrameSize, Rule>
    ensures reads { Reads frame_size bits.old result bits.new }
    ensures size { IfOk result IsFrameSize }
{
    let width = u32::from(bits.field(FieldName::FrameWidthMinus1, 16)?) + 1;
    let height = u32::from(bits.field(FieldName::FrameHeightMinus1, 16)?) + 1;
    Ok(FrameSize { width, height })
}

/// Reads `render_size` (6.2.4 of the standard), which isn't used.
#[tactic(auto, unfolding(crate::specs::FrameSizes::render_size), using(vp9_types::proofs::Runs::run_bind))]
pub fn read_render_size(bits: &mut BitReader<'_>) -> Result<(), Rule>
    ensures { Reads render_size bits.old result bits.new }
{
    if bits.flag_field(FieldName::RenderAndFrameSizeDifferent)? {
        let _ = bits.field(FieldName::RenderWidthMinus1, 16)?;
        let _ = bits.field(FieldName::RenderHeightMinus1, 16)?;
    }
    Ok(())
}
