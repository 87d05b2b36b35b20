//! The frames that blocks are drawn for.

ghost use Rattle.std.specs.Prelude.{◌≡◌};
ghost use Rattle.std.specs.Bool.{OnTrue};
ghost use Rattle.std.specs.List.{list_all};
ghost use Rattle.drawn_symbols.specs.DrawnFor.{IsDrawnFrame};
ghost use Rattle.drawn_frames.specs.FrameTests.{draws_segments, is_drawn_frame, is_plain, names_filters};

use frame_headers::{FrameFilter, FrameKind, Header, SegmentFeatures, Segmentation};

fn is_plain(features: &SegmentFeatures) -> bool
    ensures { result ≡ is_plain features.now }
{
    features.quantizer.is_none()
        && features.level.is_none()
        && features.reference.is_none()
        && !features.skip
}

fn are_plain(segments: &[SegmentFeatures]) -> bool
    ensures { result ≡ list_all is_plain segments.now }
{
    segments.iter().all(is_plain)
}

fn draws_segments(segmentation: &Segmentation) -> bool
    ensures { result ≡ draws_segments segmentation.now }
{
    if !segmentation.enabled {
        return true;
    }
    match segmentation.map {
        Some(update) => !update.temporal && are_plain(&segmentation.features.segments),
        None => false,
    }
}

fn names_filters(kind: &FrameKind) -> bool
    ensures { result ≡ names_filters kind.now }
{
    match kind {
        FrameKind::Inter(fields) => matches!(fields.filter, FrameFilter::Switchable),
        FrameKind::Key | FrameKind::IntraOnly => true,
    }
}

/// Whether what the blocks of a frame say can be drawn.
#[tactic(auto, unfolding(crate::specs::FrameTests::is_drawn_frame), using(crate::proofs::DrawnKinds::drawn_frame))]
pub fn is_drawn_frame(header: &Header) -> bool
    ensures is { result ≡ is_drawn_frame header.now }
    ensures drawn { OnTrue result (IsDrawnFrame header.now) }
{
    draws_segments(&header.params.segmentation) && names_filters(&header.kind)
}
