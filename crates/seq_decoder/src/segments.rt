//! The map of segments, around a frame.

ghost use Rattle.std.specs.Prelude.{◌≡◌, Some, All, IsSome, OnOk};
ghost use Rattle.block_geometry.specs.FrameShapes.{places_of};
ghost use Rattle.frame_headers.specs.HeaderState.{shape_of};
ghost use Rattle.frame_state.specs.KeptColumns.{HasStarts, blocks_of};
ghost use Rattle.frame_state.specs.FrameReading.{all_blocks};
ghost use Rattle.inter_modes.specs.LeftSegments.{segments_after};
ghost use Rattle.seq_decoder.specs.After.{has_size, segments_before};
ghost use Rattle.seq_decoder.specs.Code.{HasPlaces, segments_held};

use crate::saved::loses_past;
use block_plan::SegmentMap;
use frame_headers::{FrameSize, Header};
use frame_state::TileColumn;
use inter_modes::update_segments;
use std::alloc::{AllocError, Global};

/// Whether a frame of a size has that of another frame, which there may not be.
pub fn has_size(size: FrameSize, other: Option<FrameSize>) -> bool
    ensures { result ≡ has_size size other }
{
    match other {
        Some(other) => size.width == other.width && size.height == other.height,
        None => false,
    }
}

/// Makes the map of segments the one that a frame starts with. `last` is the size of the last decoded frame.
pub fn begin_segments(
    alloc: Global,
    header: &Header,
    last: Option<FrameSize>,
    map: &mut Option<SegmentMap>,
) -> Result<(), AllocError>
    requires { HasPlaces last map.old }
    ensures map { OnOk result (segments_held map.new ≡ segments_before header.now last (segments_held map.old)) }
    ensures places { OnOk result (HasPlaces (Some header.now.size) map.new) }
{
    if loses_past(header) || !has_size(header.size, last) {
        let shape = header.shape();
        let (rows, cols) = (shape.place_rows(), shape.place_cols());
        match map {
            Some(map) => map.renew(alloc, rows, cols)?,
            None => *map = Some(SegmentMap::new(alloc, rows, cols)?),
        }
    }
    Ok(())
}

/// The map of segments that a frame starts with.
pub fn segments_of(map: &Option<SegmentMap>) -> &SegmentMap
    requires { IsSome map.now }
    ensures { map.now ≡ Some result.now }
{
    match map {
        Some(map) => map,
        None => unreachable!(),
    }
}

/// Makes of the map of segments that a frame started with the one that it leaves, tile column by tile column.
pub fn keep_segments(map: &mut Option<SegmentMap>, header: &Header, columns: &[TileColumn])
    requires places { HasPlaces (Some header.now.size) map.old }
    requires starts { All (HasStarts header.now) columns.now }
    ensures map { segments_held map.new ≡ segments_after header.now.params.segmentation (places_of (shape_of header.now)) (all_blocks (blocks_of columns.now)) (segments_held map.old) }
    ensures places { HasPlaces (Some header.now.size) map.new }
{
    let Some(map) = map else {
        return;
    };
    for column in columns {
        update_segments(map, &header.params.segmentation, column.grid.blocks());
    }
}
