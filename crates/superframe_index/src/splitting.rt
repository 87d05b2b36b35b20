ghost use Rattle.std.specs.Prelude.{◌≡◌, [], ◌∷◌, length};
ghost use Rattle.superframe_index.specs.PayloadFrames.{IsSplitAs, IsPlaced, Gives, sizes_of, spans_from, frames_within};

use crate::index::{Index, find_index};
use arrayvec::ArrayVec;
use byteorder::{ByteOrder, LittleEndian};
use vp9_types::{Rule, Span};

/// Where the frames of a payload lie, in order.
pub type Parts = ArrayVec<Span, 8>;

/// The frames of a payload, by the index at its end (Annex B of the standard). A payload with no index is one frame.
pub fn split(payload: &[u8]) -> Result<Parts, Rule>
    ensures { IsSplitAs payload.now result }
{
    match find_index(payload) {
        Some(index) => split_by(payload, index),
        None => Ok(whole(payload)),
    }
}

/// All of a payload, as one frame. An empty payload has none.
fn whole(payload: &[u8]) -> Parts
    ensures { result.items ≡ spans_from 0 (length payload.now ∷ []) }
{
    let mut parts = Parts::new();
    if !payload.is_empty() {
        parts.push(Span {
            from: 0,
            to: payload.len(),
        });
    }
    parts
}

/// Frames of the index's sizes, one after another from the payload's start.
fn split_by(payload: &[u8], index: Index) -> Result<Parts, Rule>
    requires { IsPlaced payload.now index }
    ensures { Gives (frames_within index.from (sizes_of payload.now index)) result }
{
    let mut parts = Parts::new();
    let mut at = 0;
    let mut sizes = &payload[index.from + 1..];
    for done in 0..index.frames {
        let (size, rest) = sizes.split_at(index.size_bytes);
        let size = LittleEndian::read_uint(size, index.size_bytes) as usize;
        if index.from - at < size {
            return Err(Rule::SuperframeSizes);
        }
        if size > 0 {
            parts.push(Span {
                from: at,
                to: at + size,
            });
            at += size;
        }
        sizes = rest;
    }
    Ok(parts)
}
