//! The reader.

ghost use Rattle.std.specs.Prelude.{◌≡◌, [], length};
ghost use Rattle.packet_reader.specs.TakenPackets as packets;
ghost use Rattle.packet_reader.specs.declared.reader.Stage.TheVariants.{Header};
ghost use Rattle.frame_groups.specs.Groups.{CountsGroup, NoneBegun, StandsBehind, IsReady, TakesGroup, TellsGroupRate, ahead, begun_of, group_frames, rate_told, source_of, stage_of};
ghost use Rattle.frame_groups.specs.Code.{AddsGroup, CanGoOn};

use crate::group::{Behind, FrameGroup, FramePayload};
use crate::opening::Looked;
use edge_io::Source;
use packet_reader::{PacketReader, PacketRefusal};
use std::alloc::Global;
use superframe_index::split;

/// So many bytes of payloads are enough for a group, however few frames they have.
const GROUP_BYTES: usize = 4 << 20;

/// And so many packets, however few bytes they have.
const GROUP_PACKETS: u32 = 1 << 16;

/// With so many bytes at hand a source gave more at once than a pipe holds. It is a file, say, and gives the next ones as soon.
const FILE_LIKE: usize = 1 << 17;

/// How many frames a group has: as many as are waited for, and more up to a number where their packets are at hand, or the source
/// is like a file.
#[derive(Clone, Copy, Debug, PartialEq, Eq)]
pub struct GroupSize {
    pub least: usize,
    pub most: usize,
}

impl GroupSize {
    /// The size of a group of a source that has so many bytes at hand.
    fn with_at_hand(self, bytes: usize) -> GroupSize {
        if bytes < FILE_LIKE {
            return self;
        }
        GroupSize {
            least: self.most,
            most: self.most,
        }
    }
}

/// The frames of an IVF file, taken from a source in groups of whole packets.
#[derive(Drop)]
pub struct GroupReader<S> {
    alloc: Global,
    packets: PacketReader<S>,
}

impl<S> GroupReader<S> {
    /// A reader of the file that the source gives from here on. Nothing is read yet.
    pub fn new(alloc: Global, source: S) -> GroupReader<S>
        ensures source { source_of result ≡ source }
        ensures begun { begun_of result ≡ [] }
        ensures stage { stage_of result ≡ Header }
        ensures rate { rate_told result ≡ (0, 0) }
    {
        GroupReader {
            alloc,
            packets: PacketReader::new(alloc, source),
        }
    }

    /// A reader of the file that begins with the bytes that were looked at.
    pub fn behind(alloc: Global, looked: Looked<S>) -> GroupReader<S>
        ensures source { source_of result ≡ looked.source }
        ensures begun { begun_of result ≡ looked.front }
        ensures stage { stage_of result ≡ Header }
        ensures rate { rate_told result ≡ (0, 0) }
    {
        let Looked { front, source } = looked;
        GroupReader {
            alloc,
            packets: PacketReader::behind(alloc, front, source),
        }
    }

    /// The frame rate that the file header names: frames for each so many seconds. It is 0 and 0 before the header is passed, and
    /// where that breaks a rule.
    pub fn rate(&self) -> (u32, u32)
        ensures { result ≡ rate_told self.now }
    {
        self.packets.rate()
    }

    /// The source as it stands, behind what was taken of it.
    pub fn into_source(self) -> S
        ensures { result ≡ source_of self }
    {
        self.packets.into_source()
    }
}

impl<S: Source> GroupReader<S> {
    /// The frames of the next packets: of one, and then of more until there are as many as the size says, or 4 MiB of payloads, or 65,536
    /// packets. What was wholly taken before a fault or want of memory is in the group.
    pub fn next_group(&mut self, size: GroupSize) -> FrameGroup
        requires { IsReady S.can_fill self.old }
        ensures group { TakesGroup (stage_of self.old) (ahead S.rest self.old) (S.rest (source_of self.new)) (group_frames result) result.behind }
        ensures begun { NoneBegun result.behind (ahead S.rest self.new) (S.rest (source_of self.new)) }
        ensures stage { StandsBehind result.behind (stage_of self.new) (S.can_fill (source_of self.new)) }
        ensures faults { CountsGroup (S.faults (source_of self.old)) (S.faults (source_of self.new)) result.behind }
        ensures again { S.faults (source_of self.new) ≡ S.faults (source_of self.old) → S.can_fill (source_of self.new) }
        ensures rate { TellsGroupRate (stage_of self.old) (ahead S.rest self.old) (rate_told self.old) (rate_told self.new) (group_frames result) result.behind }
    {
        let mut payloads = Vec::new(self.alloc);
        let behind = take_payloads(&mut self.packets, &mut payloads, size);
        FrameGroup { payloads, behind }
    }
}

/// Takes the next packet, and adds its payload to those before it. Room for it is there before the packet is taken: so none is
/// lost for want of memory.
fn take_payload<S: Source>(reader: &mut PacketReader<S>, payloads: &mut Vec<FramePayload>) -> Behind
    requires { CanGoOn S.can_fill reader.old }
    ensures group { AddsGroup reader.old reader.new S.rest payloads.old.items payloads.new.items result }
    ensures begun { NoneBegun result (packets.ahead S.rest reader.new) (S.rest (packets.source_of reader.new)) }
    ensures stage { StandsBehind result (packets.stage_of reader.new) (S.can_fill (packets.source_of reader.new)) }
    ensures faults { CountsGroup (S.faults (packets.source_of reader.old)) (S.faults (packets.source_of reader.new)) result }
    ensures again { S.faults (packets.source_of reader.new) ≡ S.faults (packets.source_of reader.old) → S.can_fill (packets.source_of reader.new) }
{
    if payloads.reserve(1).is_err() {
        // Nothing was asked, and what is in front is too little for a frame.
        reader.begun();
        return Behind::OutOfMemory;
    }
    let bytes = match reader.next() {
        Ok(Some(bytes)) => bytes,
        Ok(None) => return Behind::End,
        Err(PacketRefusal::Rule(rule)) => return Behind::Broken(rule),
        Err(PacketRefusal::Failed) => return Behind::Failed,
        Err(PacketRefusal::OutOfMemory) => return Behind::OutOfMemory,
    };
    match split(&bytes) {
        Ok(parts) => payloads.push_reserved(FramePayload { bytes, parts }),
        Err(rule) => return Behind::Broken(rule),
    }
    Behind::More
}

/// How many frames and how many bytes the last of some payloads has.
fn last_counts(payloads: &[FramePayload]) -> (usize, usize) {
    match payloads.last() {
        Some(last) => (last.parts.len(), last.bytes.len()),
        None => (0, 0),
    }
}

/// Whether so many frames are enough for a group.
fn is_enough(size: GroupSize, frames: usize, next_at_hand: bool) -> bool {
    frames >= size.most || (frames >= size.least && !next_at_hand)
}

/// Takes packets until they are enough for a group.
fn take_payloads<S: Source>(
    reader: &mut PacketReader<S>,
    payloads: &mut Vec<FramePayload>,
    size: GroupSize,
) -> Behind
    requires { CanGoOn S.can_fill reader.old }
    ensures group { AddsGroup reader.old reader.new S.rest payloads.old.items payloads.new.items result }
    ensures begun { NoneBegun result (packets.ahead S.rest reader.new) (S.rest (packets.source_of reader.new)) }
    ensures stage { StandsBehind result (packets.stage_of reader.new) (S.can_fill (packets.source_of reader.new)) }
    ensures faults { CountsGroup (S.faults (packets.source_of reader.old)) (S.faults (packets.source_of reader.new)) result }
    ensures again { S.faults (packets.source_of reader.new) ≡ S.faults (packets.source_of reader.old) → S.can_fill (packets.source_of reader.new) }
{
    let mut behind = take_payload(reader, payloads);
    let size = size.with_at_hand(reader.at_hand());
    let mut frames: usize = 0;
    let mut bytes: usize = 0;
    'packets: for _ in 1..GROUP_PACKETS {
        match behind {
            Behind::More => {}
            _ => return behind,
        }
        let (more_frames, more_bytes) = last_counts(payloads);
        frames = frames.saturating_add(more_frames);
        bytes = bytes.saturating_add(more_bytes);
        if is_enough(size, frames, reader.is_next_at_hand()) || bytes >= GROUP_BYTES {
            return behind;
        }
        behind = take_payload(reader, payloads);
    }
    behind
}
