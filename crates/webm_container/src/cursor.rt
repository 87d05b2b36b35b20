ghost use Rattle.std.specs.Prelude.{◌≡◌, ◌≤◌, ℕ, List, length};
ghost use Rattle.webm_container.specs.Walk.{webm_packets};
ghost use Rattle.webm_container.specs.Code.{Fits, blocks_ahead, IsNextBlock};

use crate::entries::TrackEntry;
use crate::steps::{WebmStep, step_at};
use vp9_types::{Rule, Span};

/// A Cluster that is open: where it ends, or where its parent does if its size is unknown.
#[derive(Clone, Copy, Debug)]
pub struct Cluster {
    pub to: usize,
    pub unknown: bool,
}

/// What a cursor stands in, with the places where what is open ends.
#[derive(Clone, Copy, Debug)]
pub enum Parent {
    /// The file, before its Segment.
    File,
    Segment,
    Tracks(usize),
    /// An entry of tracks that end at a place; it ends at another.
    Entry(usize, usize, TrackEntry),
    Cluster(Cluster),
    /// A BlockGroup of a cluster, and where it ends.
    Group(Cluster, usize),
}

/// Goes over the blocks of a WebM file that are of the first track of VP9. It takes no memory and holds no bytes: each
/// call is given those of the file.
#[derive(Clone, Copy, Debug)]
pub struct WebmCursor {
    /// The place of the element that is read next.
    pub at: usize,
    pub(crate) segment: usize,
    pub(crate) parent: Parent,
    pub(crate) track: Option<u64>,
}

impl WebmCursor {
    /// Before the first block.
    pub fn new() -> WebmCursor
        ensures all { (bytes : List ℕ) → blocks_ahead bytes result ≡ webm_packets bytes }
        ensures fits { (length : ℕ) → Fits length result }
        ensures first { result.at ≡ 0 }
    {
        WebmCursor {
            at: 0,
            segment: 0,
            parent: Parent::File,
            track: None,
        }
    }
}

/// The payload of the next block, as it lies in the bytes of the file, or nothing at the end; or the rule that is broken
/// before another block. There the cursor stays.
pub fn next_block(bytes: &[u8], cursor: &mut WebmCursor) -> Result<Option<Span>, Rule>
    requires { Fits (length bytes.now) cursor.old }
    ensures next { IsNextBlock bytes.now cursor.old result cursor.new }
    ensures fits { Fits (length bytes.now) cursor.new }
    ensures onward { cursor.old.at ≤ cursor.new.at }
    ensures within { cursor.new.at ≤ length bytes.now }
{
    let mut place = *cursor;
    'steps: loop {
        match step_at(bytes, place) {
            Ok(WebmStep::Moved(next)) => place = next,
            Ok(WebmStep::Block(span, next)) => {
                *cursor = next;
                return Ok(Some(span));
            }
            Ok(WebmStep::End) => {
                *cursor = place;
                return Ok(None);
            }
            Err(rule) => {
                *cursor = place;
                return Err(rule);
            }
        }
    }
}
