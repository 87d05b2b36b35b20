//! A frame, from its bytes to its samples.

ghost use Rattle.std.specs.Prelude.{◌≤◌, ◌≡◌, IsOk, Ok, OnOk, length};
ghost use Rattle.vp9_types.specs.Sizes.{greatest};
ghost use Rattle.frame_headers.specs.Spans.{tile_count, tile_spans};
ghost use Rattle.frame_headers.specs.HeaderState.{shape_of};
ghost use Rattle.frame_headers.specs.Tiles.{AreFewTiles};
ghost use Rattle.planes.specs.Pictures.{IsBlank};
ghost use Rattle.prob_contexts.specs.Code.{no_counts};
ghost use Rattle.prob_contexts.specs.ProbLists.{lists_of};
ghost use Rattle.frame_state.specs.Code.{IsBegun, sources_of};
ghost use Rattle.frame_state.specs.KeptColumns.{AreTileColumns};
ghost use Rattle.frame_state.specs.FrameReading.{nothing_read, read_all_tiles};
ghost use Rattle.frame_state.specs.Sources.{adapts};
ghost use Rattle.frame_decoder.specs.Code.{ArePlanes, CanPredict, GivesRead, HoldsRead, IsDecoded, input_of, pictures_of};

use crate::plain::PlainSources;
use crate::tiles::decode_tiles;
use block_rebuild::RoomSample;
use frame_state::{FrameBlocks, Halt, TileColumn, adapts};
use line_filter::EdgeSample;
use loop_edges::EdgeSetting;
use loop_filter::filter_frame;
use planes::{FramePlanes, Picture};
use prob_contexts::{Contexts, Counts};
use std::mem::replace;
use vp9_types::{Rule, Span};

/// What a frame leaves beside its samples: its contexts after the forward update, its blocks by tile column, and what was
/// counted, if its probabilities are adapted.
#[derive(Drop)]
pub struct Decoded {
    pub contexts: Contexts,
    pub columns: Vec<TileColumn>,
    pub counts: Counts,
}

/// All tiles of a frame, and what was counted in them, if its probabilities are adapted.
fn decode_counted<P: RoomSample>(
    bytes: &[u8],
    by: &PlainSources<'_, P>,
    compressed: Span,
    columns: &mut [TileColumn],
    planes: &mut FramePlanes<P>,
    none: Counts,
) -> Result<Counts, Rule>
    requires past { CanPredict by.now }
    requires kept { P.takes (greatest (shape_of by.now.reading.setting.header).depth) }
    requires few { AreFewTiles by.now.reading.setting.header.params.tiles }
    requires within { compressed.to ≤ length bytes.now }
    requires tested { IsOk (tile_spans bytes.now by.now.reading.setting.header compressed) }
    requires columns { AreTileColumns by.now.reading.setting.header 0 columns.old }
    requires planes { ArePlanes (shape_of by.now.reading.setting.header) planes.old }
    requires start { HoldsRead (pictures_of by.now) columns.old planes.old (nothing_read by.now.reading.setting.header) }
    requires none { none ≡ no_counts }
    ensures gives { GivesRead (pictures_of by.now) (adapts by.now.reading.setting.header)
        (read_all_tiles (sources_of by.now.reading) bytes.now compressed) result columns.new planes.new }
    ensures columns { OnOk result (AreTileColumns by.now.reading.setting.header (tile_count by.now.reading.setting.header) columns.new) }
    ensures planes { OnOk result (ArePlanes (shape_of by.now.reading.setting.header) planes.new) }
{
    if adapts(&by.reading.setting.header) {
        decode_tiles::<P, true>(bytes, by, compressed, columns, planes, none)
    } else {
        decode_tiles::<P, false>(bytes, by, compressed, columns, planes, none)
    }
}

/// Decodes a coded frame that is begun, into a picture of zeros of its shape. Its blocks are kept in the memory of an earlier
/// frame's tile columns, if there are as many and they suffice, which stay where they are if there is no frame.
pub fn decode_frame<P: RoomSample + EdgeSample>(
    columns: &mut Vec<TileColumn>,
    bytes: &[u8],
    by: PlainSources<'_, P>,
    compressed: Span,
    picture: &mut Picture<P>,
) -> Result<Decoded, Halt>
    requires few { AreFewTiles by.reading.setting.header.params.tiles }
    requires within { compressed.to ≤ length bytes.now }
    requires begun { IsBegun by.reading.setting.header bytes.now compressed (lists_of by.reading.past.contexts.now) (Ok by.reading.setting) }
    requires past { CanPredict by }
    requires kept { P.takes (greatest (shape_of by.reading.setting.header).depth) }
    requires blank { IsBlank (shape_of by.reading.setting.header) picture.old }
    ensures { IsDecoded (pictures_of by.entry).references (input_of by.entry bytes.now compressed) picture.new result }
{
    let alloc = *columns.allocator();
    let none = Counts::new(alloc)?;
    let setting = &by.reading.setting;
    TileColumn::begin_all(columns, alloc, setting)?;
    let planes = picture.planes_mut();
    let counts = decode_counted(bytes, &by, compressed, columns, planes, none)?;
    let blocks = FrameBlocks::new(&setting.header, columns);
    filter_frame(
        picture.planes_mut(),
        &EdgeSetting::new(&setting.header),
        &blocks,
    );
    Ok(Decoded {
        contexts: by.reading.setting.contexts,
        columns: replace(columns, Vec::new(alloc)),
        counts,
    })
}
