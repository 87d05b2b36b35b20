//! The steps of the walk over a file, by what they stand in. None of them keeps anything but in the cursor.

ghost use Rattle.std.specs.Prelude.{◌≡◌, ◌≤◌, length};
ghost use Rattle.webm_container.specs.Ids.{is_top_level};
ghost use Rattle.webm_container.specs.Walk.{file_step, segment_step, tracks_step, entry_step, block_step, cluster_step, group_step, step_at};
ghost use Rattle.webm_container.specs.Code.{Fits};

use crate::blocks::payload_at;
use crate::cursor::{Cluster, Parent, WebmCursor};
use crate::elements::{
    ATTACHMENTS, BLOCK, BLOCK_GROUP, CHAPTERS, CLUSTER, CUES, EBML, Element, INFO, SEEK_HEAD,
    SEGMENT, SIMPLE_BLOCK, TAGS, TRACK_ENTRY, TRACKS, element_at, known_at,
};
use crate::entries::{TrackEntry, chosen, new_entry, noted};
use vp9_types::{Rule, Span};

/// What a step comes to.
#[derive(Clone, Copy)]
pub enum WebmStep {
    Moved(WebmCursor),
    Block(Span, WebmCursor),
    End,
}

/// Whether a Cluster of unknown size ends before an element with this id.
fn is_top_level(id: u64) -> bool
    ensures { result ≡ is_top_level id }
{
    id == CLUSTER
        || id == TRACKS
        || id == CUES
        || id == TAGS
        || id == SEEK_HEAD
        || id == INFO
        || id == CHAPTERS
        || id == ATTACHMENTS
}

/// The same cursor at another place, in another parent.
fn moved_on(cursor: WebmCursor, at: usize, parent: Parent) -> WebmStep
    ensures { result ≡ WebmStep.Moved (record cursor { at = at; parent = parent }) }
{
    WebmStep::Moved(WebmCursor {
        at,
        segment: cursor.segment,
        parent,
        track: cursor.track,
    })
}

/// Before the Segment.
#[tactic(auto, unfolding(crate::specs::Walk::file_step))]
fn file_step(bytes: &[u8], cursor: WebmCursor) -> Result<WebmStep, Rule>
    ensures { result ≡ file_step bytes.now cursor }
{
    let element = element_at(bytes, cursor.at, bytes.len())?;
    if cursor.at == 0 && element.id != EBML {
        return Err(Rule::WebmElement);
    }
    if element.id == SEGMENT {
        return Ok(WebmStep::Moved(WebmCursor {
            at: element.from,
            segment: element.to,
            parent: Parent::Segment,
            track: cursor.track,
        }));
    }
    if element.unknown {
        return Err(Rule::WebmElement);
    }
    Ok(moved_on(cursor, element.to, Parent::File))
}

/// Among the children of the Segment.
#[tactic(auto, unfolding(crate::specs::Walk::segment_step))]
fn segment_step(bytes: &[u8], cursor: WebmCursor) -> Result<WebmStep, Rule>
    requires { cursor.segment ≤ length bytes.now }
    ensures { result ≡ segment_step bytes.now cursor }
{
    if cursor.segment <= cursor.at {
        return match cursor.track {
            Some(_) => Ok(WebmStep::End),
            None => Err(Rule::WebmTrack),
        };
    }
    let element = element_at(bytes, cursor.at, cursor.segment)?;
    if element.id == CLUSTER {
        let (to, unknown) = (element.to, element.unknown);
        let parent = Parent::Cluster(Cluster { to, unknown });
        return match cursor.track {
            Some(_) => Ok(moved_on(cursor, element.from, parent)),
            None => Err(Rule::WebmTrack),
        };
    }
    if element.unknown {
        return Err(Rule::WebmElement);
    }
    if element.id == TRACKS {
        return Ok(moved_on(cursor, element.from, Parent::Tracks(element.to)));
    }
    Ok(moved_on(cursor, element.to, Parent::Segment))
}

/// Among the entries of Tracks that end at `to`.
#[tactic(auto, unfolding(crate::specs::Walk::tracks_step))]
fn tracks_step(bytes: &[u8], cursor: WebmCursor, to: usize) -> Result<WebmStep, Rule>
    requires { to ≤ length bytes.now }
    ensures { result ≡ tracks_step bytes.now cursor to }
{
    if to <= cursor.at {
        return Ok(moved_on(cursor, cursor.at, Parent::Segment));
    }
    let element = known_at(bytes, cursor.at, to)?;
    if element.id == TRACK_ENTRY {
        let parent = Parent::Entry(to, element.to, new_entry());
        return Ok(moved_on(cursor, element.from, parent));
    }
    Ok(moved_on(cursor, element.to, Parent::Tracks(to)))
}

/// In an entry that ends at `to`, of Tracks that end at `tracks`.
#[tactic(auto, unfolding(crate::specs::Walk::entry_step))]
fn entry_step(
    bytes: &[u8],
    cursor: WebmCursor,
    tracks: usize,
    to: usize,
    entry: TrackEntry,
) -> Result<WebmStep, Rule>
    requires { to ≤ length bytes.now }
    ensures { result ≡ entry_step bytes.now cursor tracks to entry }
{
    if to <= cursor.at {
        let track = chosen(cursor.track, entry)?;
        return Ok(WebmStep::Moved(WebmCursor {
            at: cursor.at,
            segment: cursor.segment,
            parent: Parent::Tracks(tracks),
            track,
        }));
    }
    let element = known_at(bytes, cursor.at, to)?;
    let parent = Parent::Entry(tracks, to, noted(bytes, entry, element));
    Ok(moved_on(cursor, element.to, parent))
}

/// At a block.
#[tactic(auto, unfolding(crate::specs::Walk::block_step))]
fn block_step(bytes: &[u8], cursor: WebmCursor, block: Element) -> Result<WebmStep, Rule>
    requires { block.to ≤ length bytes.now }
    ensures { result ≡ block_step bytes.now cursor block }
{
    let payload = payload_at(bytes, cursor.track, block.from, block.to)?;
    let behind = WebmCursor {
        at: block.to,
        segment: cursor.segment,
        parent: cursor.parent,
        track: cursor.track,
    };
    match payload {
        Some(span) => Ok(WebmStep::Block(span, behind)),
        None => Ok(WebmStep::Moved(behind)),
    }
}

/// In a Cluster.
#[tactic(auto, unfolding(crate::specs::Walk::cluster_step))]
fn cluster_step(bytes: &[u8], cursor: WebmCursor, cluster: Cluster) -> Result<WebmStep, Rule>
    requires { cluster.to ≤ length bytes.now }
    ensures { result ≡ cluster_step bytes.now cursor cluster }
{
    if cluster.to <= cursor.at {
        return Ok(moved_on(cursor, cursor.at, Parent::Segment));
    }
    let element = element_at(bytes, cursor.at, cluster.to)?;
    if cluster.unknown && is_top_level(element.id) {
        return Ok(moved_on(cursor, cursor.at, Parent::Segment));
    }
    if element.unknown {
        return Err(Rule::WebmElement);
    }
    if element.id == SIMPLE_BLOCK {
        return block_step(bytes, cursor, element);
    }
    if element.id == BLOCK_GROUP {
        let parent = Parent::Group(cluster, element.to);
        return Ok(moved_on(cursor, element.from, parent));
    }
    Ok(moved_on(cursor, element.to, cursor.parent))
}

/// In a BlockGroup that ends at `to`.
#[tactic(auto, unfolding(crate::specs::Walk::group_step))]
fn group_step(
    bytes: &[u8],
    cursor: WebmCursor,
    cluster: Cluster,
    to: usize,
) -> Result<WebmStep, Rule>
    requires { to ≤ length bytes.now }
    ensures { result ≡ group_step bytes.now cursor cluster to }
{
    if to <= cursor.at {
        return Ok(moved_on(cursor, cursor.at, Parent::Cluster(cluster)));
    }
    let element = known_at(bytes, cursor.at, to)?;
    if element.id == BLOCK {
        return block_step(bytes, cursor, element);
    }
    Ok(moved_on(cursor, element.to, cursor.parent))
}

/// The next step.
pub fn step_at(bytes: &[u8], cursor: WebmCursor) -> Result<WebmStep, Rule>
    requires { Fits (length bytes.now) cursor }
    ensures { result ≡ step_at bytes.now cursor }
{
    match cursor.parent {
        Parent::File => file_step(bytes, cursor),
        Parent::Segment => segment_step(bytes, cursor),
        Parent::Tracks(to) => tracks_step(bytes, cursor, to),
        Parent::Entry(tracks, to, entry) => entry_step(bytes, cursor, tracks, to, entry),
        Parent::Cluster(cluster) => cluster_step(bytes, cursor, cluster),
        Parent::Group(cluster, to) => group_step(bytes, cursor, cluster, to),
    }
}
