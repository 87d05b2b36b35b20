//! What the frames before leave to a frame.

ghost use Rattle.std.specs.Prelude.{◌≡◌, List, Option, None, Some, IfSome, get_or, if◌then◌else◌, map, slice_index_or};
ghost use Rattle.block_rebuild.specs.Code.{rebuilding_of};
ghost use Rattle.frame_headers.specs.FrameSizes.{IsFrameSize};
ghost use Rattle.frame_headers.specs.HeaderState.{shape_of};
ghost use Rattle.mv_prediction.specs.Code as vectors;
ghost use Rattle.picture_table.specs.Code.{IsTable, held};
ghost use Rattle.picture_table.specs.KeptPictures.{IsWhole};
ghost use Rattle.planes.specs.Pictures.{map_of};
ghost use Rattle.frame_state.specs.KeptColumns.{AreColumnsOf};
ghost use Rattle.frame_state.specs.Past.{AreVectors, blocks_in};
ghost use Rattle.frame_decoder.specs.ReferencePictures.{HasPictures};
ghost use Rattle.seq_decoder.specs.After.{references_of, takes_vectors, vectors_before};
ghost use Rattle.seq_decoder.specs.Code.{NamesHeld, last_held, last_of_code, shown_of, told_of};
ghost use Rattle.seq_decoder.specs.DecoderState.{Picture as Shown, last_is_key};

use crate::last::LastFrame;
use block_rebuild::{Rebuilding, ReferencePicture};
use frame_headers::{FrameKind, Header, Reference};
use frame_state::FrameBlocks;
use picture_table::{PictureSample, PictureTable};
use planes::Picture;

/// The place of what a slot holds, if it holds something.
pub fn place_in(slots: &[Option<usize>; 8], slot: u8) -> Option<usize>
    ensures { result ≡ get_or slots.now slot None }
{
    if slot < 8 {
        slots[usize::from(slot)]
    } else {
        None
    }
}

/// Where the picture of a frame stands, if it is shown.
pub fn shown_place(header: &Header, place: usize) -> Option<usize>
    ensures { result ≡ (if header.now.show_frame then Some place else None) }
{
    if header.show_frame { Some(place) } else { None }
}

/// Whether the last decoded frame was a key frame.
pub fn after_key(last: &Option<LastFrame>) -> bool
    ensures { result ≡ last_is_key (last_held last.now) }
{
    match last {
        Some(last) => matches!(last.header.kind, FrameKind::Key),
        None => false,
    }
}

fn takes_vectors(header: &Header, last: &LastFrame) -> bool
    ensures { result ≡ takes_vectors header.now (last_of_code last.now) }
{
    let (size, other) = (header.size, last.header.size);
    !header.error_resilient
        && size.width == other.width
        && size.height == other.height
        && last.header.show_frame
}

/// The blocks of the last decoded frame, if a frame may take their vectors.
pub fn vectors_before<'a>(header: &Header, last: &'a Option<LastFrame>) -> Option<FrameBlocks<'a>>
    ensures blocks { vectors.blocks_of blocks_in result ≡ vectors_before header.now (last_held last.now) }
    ensures are { IfSome result (AreVectors header.now) }
{
    match last {
        Some(last) if takes_vectors(header, last) => {
            Some(FrameBlocks::new(&last.header, &last.columns))
        }
        _ => None,
    }
}

/// What the slot of a reference holds.
fn picture_in<'a, P: PictureSample>(
    table: &'a PictureTable,
    reference: &Reference,
) -> Option<ReferencePicture<'a, Picture<P>>>
    requires table { IsTable table.now }
    requires kept { IfSome (slice_index_or (held table.now) reference.now.slot None) (λ told. P.keeps told.0.depth) }
    ensures told { told_of result ≡ slice_index_or (held table.now) reference.now.slot None }
    ensures from { IfSome result (λ r. IsWhole r.samples.now × (r.shape ≡ r.samples.now.shape)) }
{
    let place = place_in(&table.slots, reference.slot)?;
    let picture = P::picture_of(&table.pictures[place])?;
    Some(ReferencePicture {
        samples: picture,
        shape: picture.shape(),
    })
}

/// The pictures that a frame refers to.
pub fn pictures_for<'a, P: PictureSample>(
    header: &Header,
    table: &'a PictureTable,
) -> Rebuilding<'a, Picture<P>>
    requires size { IsFrameSize header.now.size }
    requires table { IsTable table.now }
    requires held { NamesHeld header.now (held table.now) }
    requires kept { P.keeps (shape_of header.now).depth }
    ensures shape { result.shape ≡ shape_of header.now }
    ensures pictures { (slots : List (Option Shown)) → held table.now ≡ map shown_of slots → (rebuilding_of map_of result).references ≡ references_of slots header.now.kind }
    ensures has { HasPictures header.now result }
{
    let shape = header.shape();
    match &header.kind {
        FrameKind::Key | FrameKind::IntraOnly => Rebuilding {
            shape,
            last: None,
            golden: None,
            altref: None,
        },
        FrameKind::Inter(fields) => Rebuilding {
            shape,
            last: picture_in(table, &fields.references.last),
            golden: picture_in(table, &fields.references.golden),
            altref: picture_in(table, &fields.references.altref),
        },
    }
}
