//! Tile columns of worked files, read by themselves.

ghost use Rattle.std.specs.Prelude.{◌≡◌, ◌≤◌, length, IsOk};
ghost use Rattle.frame_headers.specs.Spans.{tile_spans};
ghost use Rattle.frame_headers.specs.Tiles.{AreFewTiles};
ghost use Rattle.tile_syntax.specs.frame_state.Past.{IsPastOf};

use crate::listed_frames_tests::Row;
use crate::listed_frames_tests::rows::ROWS;
use block_plan::SegmentMap;
use frame_headers::{FrameHead, Persist, read};
use frame_setting::FrameSetting;
use prob_contexts::{Contexts, default_contexts};
use std::alloc::Global;
use std::test::Fail;
use tile_syntax::frame_state::{FramePast, FrameSources, begin_frame};
use tile_syntax::{ColumnPlan, Unplanned, column};
use vp9_types::Span;

// How many blocks the first tile column of an intra frame says, or nothing if it breaks a rule.
fn blocks_of(
    alloc: Global,
    bytes: &[u8],
    by: &FrameSources<'_>,
    compressed: Span,
) -> Result<Option<usize>, Fail>
    requires past { IsPastOf by.now.setting.header by.now.past }
    requires few { AreFewTiles by.now.setting.header.params.tiles }
    requires within { compressed.to ≤ length bytes.now }
    requires tested { IsOk (tile_spans bytes.now by.now.setting.header compressed) }
{
    let mut plan = ColumnPlan::new(alloc, &by.setting, 0)?;
    match column(&mut plan, alloc, bytes, by, compressed, 0) {
        Ok(_) => Ok(Some(plan.column.grid.blocks().len())),
        Err(Unplanned::Broken(..)) => Ok(None),
        Err(Unplanned::OutOfMemory) => Err(Fail::new("no memory")),
    }
}

// What a first frame is read by.
fn first<'a>(
    setting: FrameSetting,
    contexts: &'a Contexts,
    segments: &'a SegmentMap,
) -> FrameSources<'a>
    requires rows { segments.now.rows ≡ setting.places.rows }
    requires cols { segments.now.cols ≡ setting.places.cols }
    ensures setting { result.setting ≡ setting }
    ensures past { IsPastOf setting.header result.past }
{
    let past = FramePast {
        contexts,
        segments,
        vectors: None,
    };
    FrameSources { setting, past }
}

// The same of a file's first frame.
#[tactic(auto, using(frame_headers::proofs::SizeLemmas::start_has_sizes))]
fn blocks_of_first(alloc: Global, bytes: &[u8]) -> Result<Option<usize>, Fail> {
    let Ok(FrameHead::Coded { header, compressed }) = read(bytes, &Persist::START) else {
        return Ok(None);
    };
    let contexts = default_contexts();
    let Ok(setting) = begin_frame(bytes, &header, compressed, &contexts) else {
        return Ok(None);
    };
    let segments = SegmentMap::new(alloc, setting.places.rows, setting.places.cols)?;
    let by = first(setting, &contexts, &segments);
    blocks_of(alloc, bytes, &by, compressed)
}

// The first of these files whose first frame breaks no rule and doesn't have as many blocks as it is to.
fn first_wrong(alloc: Global, rows: &[Row]) -> Result<Option<&'static str>, Fail> {
    for row in rows {
        let Some(frame) = row.frames.first() else {
            return Ok(Some(row.name));
        };
        match blocks_of_first(alloc, frame.bytes)? {
            Some(count) if count != frame.blocks.len() => return Ok(Some(row.name)),
            _ => {}
        }
    }
    Ok(None)
}

#[test]
fn blocks_are_as_many(rt: HostRuntime) -> Result<(), Fail> {
    assert_eq!(rt; first_wrong(rt.alloc(), &ROWS)?, None);
    Ok(())
}

#[test]
fn one_block(rt: HostRuntime) -> Result<(), Fail> {
    let bytes = b"\x83I\x83B\0\0p\0p\0\0\0\0\x04\0\0";
    assert_eq!(rt; blocks_of_first(rt.alloc(), bytes)?, Some(1));
    Ok(())
}
