//! The segments that a frame finds.

ghost use Rattle.std.specs.Prelude.{IfOk};
ghost use Rattle.stream_forge.specs.Code.{HasOne, IsFresh, IsOneOf};

use block_plan::SegmentMap;
use frame_headers::{FrameSize, Header};
use seq_decoder::{has_size, loses_past, segments_of};
use std::alloc::{AllocError, Global};

/// A map of segments of its own, for a frame that doesn't start with the one before. `last` is the size of the last decoded
/// frame.
pub(crate) fn fresh_segments(
    alloc: Global,
    header: &Header,
    last: Option<FrameSize>,
) -> Result<Option<SegmentMap>, AllocError>
    ensures { IfOk result (IsFresh header.now last) }
{
    if loses_past(header) || !has_size(header.size, last) {
        let shape = header.shape();
        let (rows, cols) = (shape.place_rows(), shape.place_cols());
        let map = SegmentMap::new(alloc, rows, cols)?;
        return Ok(Some(map));
    }
    Ok(None)
}

/// The map of segments that a frame starts with: its own, or the one before.
pub(crate) fn segments_for<'a>(
    fresh: &'a Option<SegmentMap>,
    kept: &'a Option<SegmentMap>,
) -> &'a SegmentMap
    requires { HasOne fresh.now kept.now }
    ensures { IsOneOf fresh.now kept.now result.now }
{
    match fresh {
        Some(map) => map,
        None => segments_of(kept),
    }
}
