//! Segment and skip.

ghost use Rattle.std.specs.Prelude.{◌≡◌, ◌≤◌, IfOk};
ghost use Rattle.bool_encoder.specs.WrittenBools.{Puts};
ghost use Rattle.bool_encoder.specs.CountedBools.{PutsValue};
ghost use Rattle.mode_syntax.specs.Elements.{intra_segment_id, read_skip};
ghost use Rattle.mode_writer.specs.ModeFits.{CanSegment, CanSkip};

use bool_encoder::{BoolEncoder, put_flag, put_tree};
use frame_headers::Segmentation;
use mode_syntax::skips_segment;
use std::alloc::AllocError;
use vp9_tables::segment_tree;

/// Puts `intra_segment_id` (6.4.7 of the standard), nothing where the frame doesn't code the segments of its blocks.
#[tactic(auto, unfolding(mode_syntax::specs::Elements::intra_segment_id, mode_syntax::specs::Elements::coded_segment))]
pub fn put_intra_segment_id(
    encoder: &mut BoolEncoder,
    segmentation: &Segmentation,
    segment: u8,
) -> Result<(), AllocError>
    requires { CanSegment segmentation.now.enabled segmentation.now.map segment }
    ensures { IfOk result (λ _. Puts (intra_segment_id segmentation.now) encoder.old segment encoder.new) }
{
    if !segmentation.enabled {
        return Ok(());
    }
    match segmentation.map {
        Some(update) => put_tree(encoder, segment_tree(), &update.tree, segment),
        None => Ok(()),
    }
}

/// Puts `read_skip` (6.4.8 of the standard): whether a block is skipped, in a context of 0 to 2. The blocks of a segment
/// that skips put nothing.
#[tactic(auto, unfolding(mode_syntax::specs::Elements::read_skip), using(bool_encoder::proofs::CountedPuts::valued_settle, bool_encoder::proofs::CountedPuts::valued_flag))]
pub fn put_skip(
    encoder: &mut BoolEncoder,
    segmentation: &Segmentation,
    probs: &[u8; 3],
    context: u8,
    segment: u8,
    skip: bool,
) -> Result<(), AllocError>
    requires segment { segment ≤ 7 }
    requires context { context ≤ 2 }
    requires can { CanSkip segmentation.now segment skip }
    ensures { IfOk result (λ _. PutsValue (read_skip segmentation.now probs.now context segment) encoder.old skip encoder.new) }
{
    if skips_segment(segmentation, segment) {
        return Ok(());
    }
    put_flag(encoder, probs[context as usize], skip)
}
