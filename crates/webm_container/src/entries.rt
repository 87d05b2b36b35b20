//! What is read of the entries of tracks.

ghost use Rattle.std.specs.Prelude.{◌≡◌, ◌≤◌, length};
ghost use Rattle.webm_container.specs.TrackEntries.{new_entry, are_zeros, is_vp9, number_in, noted, chosen};

use crate::elements::{CODEC_ID, CONTENT_ENCODINGS, Element, TRACK_NUMBER};
use byteorder::{BigEndian, ByteOrder};
use vp9_types::Rule;

/// The number of a track, which has 1 to 8 bytes.
#[derive(Clone, Copy, Debug)]
pub enum TrackNumber {
    Malformed,
    Is(u64),
}

/// What an entry has said so far. Its first CodecID and its first TrackNumber count.
#[derive(Clone, Copy, Debug)]
pub struct TrackEntry {
    pub is_vp9: Option<bool>,
    pub number: Option<TrackNumber>,
    pub encoded: bool,
}

/// An entry of which nothing is read.
pub fn new_entry() -> TrackEntry
    ensures { result ≡ new_entry }
{
    TrackEntry {
        is_vp9: None,
        number: None,
        encoded: false,
    }
}

fn are_zeros(bytes: &[u8]) -> bool
    ensures { result ≡ are_zeros bytes.now }
{
    bytes.iter().all(|byte| *byte == 0)
}

fn is_vp9(content: &[u8]) -> bool
    ensures { result ≡ is_vp9 content.now }
{
    if content.len() < 5 {
        return false;
    }
    content.starts_with(b"V_VP9") && are_zeros(&content[5..])
}

fn number_in(content: &[u8]) -> TrackNumber
    ensures { result ≡ number_in content.now }
{
    let count = content.len();
    if count == 0 {
        return TrackNumber::Malformed;
    }
    if 8 < count {
        return TrackNumber::Malformed;
    }
    TrackNumber::Is(BigEndian::read_uint(content, count))
}

/// The entry, and this element of it.
pub fn noted(bytes: &[u8], entry: TrackEntry, element: Element) -> TrackEntry
    requires in_order { element.from ≤ element.to }
    requires placed { element.to ≤ length bytes.now }
    ensures { result ≡ noted bytes.now entry element }
{
    let content = &bytes[element.from..element.to];
    let mut more = entry;
    if element.id == CODEC_ID {
        if entry.is_vp9.is_none() {
            more.is_vp9 = Some(is_vp9(content));
        }
    } else if element.id == TRACK_NUMBER {
        if entry.number.is_none() {
            more.number = Some(number_in(content));
        }
    } else if element.id == CONTENT_ENCODINGS {
        more.encoded = true;
    }
    more
}

/// The chosen track at the end of an entry: the first one of VP9, for the whole file.
pub fn chosen(track: Option<u64>, entry: TrackEntry) -> Result<Option<u64>, Rule>
    ensures { result ≡ chosen track entry }
{
    if track.is_some() {
        return Ok(track);
    }
    match entry.is_vp9 {
        Some(true) => {}
        _ => return Ok(None),
    }
    match entry.number {
        Some(TrackNumber::Is(number)) => {
            if entry.encoded {
                return Err(Rule::WebmEncoding);
            }
            Ok(Some(number))
        }
        _ => Err(Rule::WebmElement),
    }
}
