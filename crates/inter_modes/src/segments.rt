//! The map of segments that a frame leaves.

ghost use Rattle.std.specs.Prelude.{◌≡◌, ◌<◌, ◌≤◌};
ghost use Rattle.std.specs.List.{All};
ghost use Rattle.block_plan.specs.SegmentMaps.{id_map};
ghost use Rattle.inter_modes.specs.Code.{IsMapped};
ghost use Rattle.inter_modes.specs.LeftSegments.{segments_of, segments_after};

use block_plan::{BlockInfo, SegmentMap};
use frame_headers::Segmentation;

/// Puts the segment of each block of a frame at its places, block after block.
fn put_segments(map: &mut SegmentMap, blocks: &[BlockInfo])
    requires { All (IsMapped map.old) blocks.now }
    ensures rows { map.new.rows ≡ map.old.rows }
    ensures cols { map.new.cols ≡ map.old.cols }
    ensures map { id_map map.new ≡ segments_of (record { rows = map.old.rows; cols = map.old.cols }) blocks.now (id_map map.old) }
{
    for block in blocks {
        map.set(block.row, block.col, block.size, block.segment);
    }
}

/// Makes of the map of segments before a frame the one after it, by all of its blocks. Each starts in the map.
pub fn update_segments(map: &mut SegmentMap, segmentation: &Segmentation, blocks: &[BlockInfo])
    requires { All (IsMapped map.old) blocks.now }
    ensures rows { map.new.rows ≡ map.old.rows }
    ensures cols { map.new.cols ≡ map.old.cols }
    ensures map { id_map map.new ≡ segments_after segmentation.now (record { rows = map.old.rows; cols = map.old.cols }) blocks.now (id_map map.old) }
{
    if segmentation.enabled && segmentation.map.is_some() {
        put_segments(map, blocks);
    }
}
