ghost use Rattle.std.specs.Prelude.{◌≡◌, ◌<◌, ◌≤◌, length, IfOk};
ghost use Rattle.webm_container.specs.Elements.{coded_at, element_at, known_at};

use byteorder::{BigEndian, ByteOrder};
use vp9_types::Rule;

/// The ids of the elements that are looked at, with their markers.
pub const EBML: u64 = 0x1A45_DFA3;

pub const SEGMENT: u64 = 0x1853_8067;

pub const TRACKS: u64 = 0x1654_AE6B;

pub const TRACK_ENTRY: u64 = 0xAE;

pub const TRACK_NUMBER: u64 = 0xD7;

pub const CODEC_ID: u64 = 0x86;

pub const CONTENT_ENCODINGS: u64 = 0x6D80;

pub const CLUSTER: u64 = 0x1F43_B675;

pub const SIMPLE_BLOCK: u64 = 0xA3;

pub const BLOCK_GROUP: u64 = 0xA0;

pub const BLOCK: u64 = 0xA1;

/// The other children of a Segment, before which a Cluster of unknown size ends.
pub const CUES: u64 = 0x1C53_BB6B;

pub const TAGS: u64 = 0x1254_C367;

pub const SEEK_HEAD: u64 = 0x114D_9B74;

pub const INFO: u64 = 0x1549_A966;

pub const CHAPTERS: u64 = 0x1043_A770;

pub const ATTACHMENTS: u64 = 0x1941_A469;

/// A number whose first byte says how many bytes it has: with its marker, without it, and where it ends.
#[derive(Clone, Copy)]
pub struct Coded {
    pub marked: u64,
    pub value: u64,
    pub all_ones: bool,
    pub to: usize,
}

/// An element's id, and where its content lies. Content of unknown size is taken to reach to the end of its parent.
#[derive(Clone, Copy)]
pub struct Element {
    pub id: u64,
    pub from: usize,
    pub to: usize,
    pub unknown: bool,
}

/// The number at a place, of at most so many bytes.
#[tactic(auto, unfolding(crate::specs::Elements::coded_at))]
pub fn coded_at(bytes: &[u8], at: usize, end: usize, most: usize) -> Result<Coded, Rule>
    requires within { end ≤ length bytes.now }
    requires few { most ≤ 8 }
    ensures exact { result ≡ coded_at bytes.now at end most }
    ensures behind { IfOk result (λ coded. at < coded.to) }
    ensures placed { IfOk result (λ coded. coded.to ≤ end) }
{
    if end <= at {
        return Err(Rule::WebmElement);
    }
    let count = bytes[at].leading_zeros() as usize + 1;
    if most < count {
        return Err(Rule::WebmElement);
    }
    if end - at < count {
        return Err(Rule::WebmElement);
    }
    let to = at + count;
    let marked = BigEndian::read_uint(&bytes[at..to], count);
    let marker = 1u64 << (7 * count);
    let value = marked % marker;
    Ok(Coded {
        marked,
        value,
        all_ones: value + 1 == marker,
        to,
    })
}

/// The element at a place of a parent that ends at `end`.
#[tactic(auto, unfolding(crate::specs::Elements::element_at))]
pub fn element_at(bytes: &[u8], at: usize, end: usize) -> Result<Element, Rule>
    requires { end ≤ length bytes.now }
    ensures exact { result ≡ element_at bytes.now at end }
    ensures in_order { IfOk result (λ element. element.from ≤ element.to) }
    ensures placed { IfOk result (λ element. element.to ≤ end) }
{
    let id = coded_at(bytes, at, end, 4)?;
    let size = coded_at(bytes, id.to, end, 8)?;
    let from = size.to;
    if size.all_ones {
        return Ok(Element {
            id: id.marked,
            from,
            to: end,
            unknown: true,
        });
    }
    if ((end - from) as u64) < size.value {
        return Err(Rule::WebmElement);
    }
    Ok(Element {
        id: id.marked,
        from,
        to: from + size.value as usize,
        unknown: false,
    })
}

/// The element at a place where its size has to be known.
#[tactic(auto, unfolding(crate::specs::Elements::known_at))]
pub fn known_at(bytes: &[u8], at: usize, end: usize) -> Result<Element, Rule>
    requires { end ≤ length bytes.now }
    ensures exact { result ≡ known_at bytes.now at end }
    ensures in_order { IfOk result (λ element. element.from ≤ element.to) }
    ensures placed { IfOk result (λ element. element.to ≤ end) }
{
    let element = element_at(bytes, at, end)?;
    if element.unknown {
        return Err(Rule::WebmElement);
    }
    Ok(element)
}
