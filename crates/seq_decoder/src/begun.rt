//! A frame that is begun, decoded by what its samples are kept as.

ghost use Rattle.std.specs.Prelude.{◌≡◌, ◌≤◌, List, Ok, Option, IfOk, length, map};
ghost use Rattle.vp9_types.specs.Sizes.{greatest};
ghost use Rattle.frame_headers.specs.HeaderState.{shape_of};
ghost use Rattle.frame_headers.specs.Tiles.{AreFewTiles};
ghost use Rattle.prob_contexts.specs.ProbLists.{lists_of};
ghost use Rattle.planes.specs.Pictures.{IsBlank};
ghost use Rattle.picture_table.specs.Code.{IsTable, held};
ghost use Rattle.picture_table.specs.KeptPictures.{IsBlankAs};
ghost use Rattle.frame_state.specs.Code.{IsBegun};
ghost use Rattle.frame_state.specs.Past.{IsPastOf};
ghost use Rattle.frame_decoder.specs.Code.{HoldsResult, IsDecoded};
ghost use Rattle.frame_decoder.specs.DecodedFrames.{FrameResult};
ghost use Rattle.seq_decoder.specs.After.{references_of};
ghost use Rattle.seq_decoder.specs.Code.{HoldsFrame, IsFrame, NamesHeld, input_by, shown_of};
ghost use Rattle.seq_decoder.specs.DecoderState.{Picture as Shown};

use crate::past::pictures_for;
use block_rebuild::RoomSample;
use frame_decoder::{Decoded, PlainSources, decode_frame};
use frame_state::{FrameSources, Halt, TileColumn};
use line_filter::EdgeSample;
use picture_table::{AnyPicture, PictureSample, PictureTable};
use planes::Picture;
use vp9_types::Span;

/// What a frame that is begun is decoded from: what it is read by, and the pictures that its references are among.
#[derive(Drop)]
pub struct BegunFrame<'a> {
    pub reading: FrameSources<'a>,
    pub table: &'a PictureTable,
}

/// Decodes a frame that is begun into a picture of zeros that keeps its samples so, as those of the table do that it refers to.
fn decode_kept<P: PictureSample + RoomSample + EdgeSample>(
    columns: &mut Vec<TileColumn>,
    bytes: &[u8],
    reading: FrameSources<'_>,
    compressed: Span,
    table: &PictureTable,
    picture: &mut Picture<P>,
) -> Result<Decoded, Halt>
    requires few { AreFewTiles reading.setting.header.params.tiles }
    requires within { compressed.to ≤ length bytes.now }
    requires begun { IsBegun reading.setting.header bytes.now compressed (lists_of reading.past.contexts.now) (Ok reading.setting) }
    requires past { IsPastOf reading.setting.header reading.past }
    requires table { IsTable table.now }
    requires held { NamesHeld reading.setting.header (held table.now) }
    requires kept { P.keeps (shape_of reading.setting.header).depth }
    requires taken { P.takes (greatest (shape_of reading.setting.header).depth) }
    requires blank { IsBlank (shape_of reading.setting.header) picture.old }
    ensures decoded { (slots : List (Option Shown)) → held table.now ≡ map shown_of slots →
        IsDecoded (references_of slots reading.entry.setting.header.kind) (input_by reading.entry bytes.now compressed) picture.new result }
    ensures left { IfOk result (λ d. (r : FrameResult) × HoldsResult reading.entry.setting.header picture.new d r) }
{
    let pictures = pictures_for(&reading.setting.header, table);
    let by = PlainSources { reading, pictures };
    decode_frame(columns, bytes, by, compressed, picture)
}

/// Decodes a frame that is begun into a picture of zeros of its shape, from the pictures of the table that it refers to.
pub fn decode_begun(
    columns: &mut Vec<TileColumn>,
    bytes: &[u8],
    by: BegunFrame<'_>,
    compressed: Span,
    picture: &mut AnyPicture,
) -> Result<Decoded, Halt>
    requires few { AreFewTiles by.reading.setting.header.params.tiles }
    requires within { compressed.to ≤ length bytes.now }
    requires begun { IsBegun by.reading.setting.header bytes.now compressed (lists_of by.reading.past.contexts.now) (Ok by.reading.setting) }
    requires past { IsPastOf by.reading.setting.header by.reading.past }
    requires table { IsTable by.table.now }
    requires held { NamesHeld by.reading.setting.header (held by.table.now) }
    requires blank { IsBlankAs (shape_of by.reading.setting.header) picture.old }
    ensures decoded { (slots : List (Option Shown)) → held by.entry.table.now ≡ map shown_of slots →
        IsFrame (references_of slots by.entry.reading.setting.header.kind) (input_by by.entry.reading bytes.now compressed) picture.new result }
    ensures left { IfOk result (λ d. (r : FrameResult) × HoldsFrame by.entry.reading.setting.header picture.new d r) }
{
    let BegunFrame { reading, table } = by;
    match picture {
        AnyPicture::Bytes(picture) => {
            decode_kept(columns, bytes, reading, compressed, table, picture)
        }
        AnyPicture::Words(picture) => {
            decode_kept(columns, bytes, reading, compressed, table, picture)
        }
    }
}
