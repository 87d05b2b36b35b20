//! What a frame shows.

ghost use Rattle.std.specs.Prelude.{◌≡◌, ◌≤◌, OnOk, length};
ghost use Rattle.planes.specs.Pictures.{map_of};
ghost use Rattle.picture_table.specs.KeptPictures.{IsSound, IsWhole, map_of_any, shape_of_any};
ghost use Rattle.frame_output.specs.Formats.{output_text};
ghost use Rattle.seq_decoder.specs.Code.{Shows};
ghost use Rattle.seq_decoder.specs.Outputs.{is_first};

use crate::form::OutputForm;
use edge_io::{PutFault, Sink};
use frame_output::render_as;
use picture_table::AnyPicture;
use planes::Picture;
use std::alloc::{AllocError, Global};
use vp9_types::{Sample, Shape};

/// The least size of the buffer that rows are put into the sink from.
pub const LEAST_BUFFER: usize = 1 << 16;

/// Makes a buffer at least so long. One that is long enough stays.
pub fn lengthen(alloc: Global, buffer: &mut Vec<u8>, least: usize) -> Result<(), AllocError>
    ensures { OnOk result (least ≤ length buffer.new.items) }
{
    if buffer.len() < least {
        *buffer = Vec::from_elem(alloc, 0, least)?;
    }
    Ok(())
}

/// Puts the text of a picture into a sink, by a buffer that may be used again.
fn show_kept<P: Sample, K: Sink>(
    alloc: Global,
    form: &OutputForm,
    picture: &Picture<P>,
    buffer: &mut Vec<u8>,
    sink: &mut K,
) -> Result<(), PutFault>
    requires whole { IsWhole picture.now }
    requires sink { K.can_put sink.old }
    ensures shows { Shows (output_text form.now.format form.now.rate (is_first form.now.first) picture.now.shape (map_of picture.now))
        (K.taken sink.old) (K.taken sink.new) (K.faults sink.old) (K.faults sink.new) result }
    ensures grows { K.grows sink.new ≡ K.grows sink.old }
    ensures again { K.faults sink.new ≡ K.faults sink.old → K.can_put sink.new }
{
    let shape = picture.shape();
    let least = LEAST_BUFFER.max(2 * shape.w as usize);
    if lengthen(alloc, buffer, least).is_err() {
        return Err(PutFault::OutOfMemory);
    }
    render_as(&form.rendering(), &shape, picture, buffer, sink)
}

/// Puts the text of a picture into a sink, by a buffer that may be used again.
pub fn show<K: Sink>(
    alloc: Global,
    form: &OutputForm,
    picture: &AnyPicture,
    buffer: &mut Vec<u8>,
    sink: &mut K,
) -> Result<(), PutFault>
    requires sound { IsSound picture.now }
    requires sink { K.can_put sink.old }
    ensures shows { Shows (output_text form.now.format form.now.rate (is_first form.now.first) (shape_of_any picture.now) (map_of_any picture.now)) (K.taken sink.old) (K.taken sink.new) (K.faults sink.old) (K.faults sink.new) result }
    ensures grows { K.grows sink.new ≡ K.grows sink.old }
    ensures again { K.faults sink.new ≡ K.faults sink.old → K.can_put sink.new }
{
    match picture {
        AnyPicture::Bytes(picture) => show_kept(alloc, form, picture, buffer, sink),
        AnyPicture::Words(picture) => show_kept(alloc, form, picture, buffer, sink),
    }
}

/// The shape of a picture, whatever its samples are kept as.
pub fn shape_of_any(picture: &AnyPicture) -> Shape
    ensures { result ≡ shape_of_any picture.now }
{
    match picture {
        AnyPicture::Bytes(picture) => picture.shape(),
        AnyPicture::Words(picture) => picture.shape(),
    }
}
