//! The reader.

ghost use Rattle.std.specs.Prelude.{◌≡◌, ◌≤◌, [], length};
ghost use Rattle.packet_reader.specs.declared.reader.PacketRefusal.TheVariants as refused;
ghost use Rattle.packet_reader.specs.declared.reader.Stage.TheVariants.{Header};
ghost use Rattle.packet_reader.specs.TakenPackets.{ahead, begun_at, begun_of, source_of, stage_of, rate_told, CountsNext, GivesNext, IsAgain, IsReady, IsReadyAt, TellsRate, stage_after};

use crate::packets::{is_packet_whole, take_first, take_packet};
use edge_io::{ReadError, Source};
use std::alloc::Global;
use thiserror::Error;
use vp9_types::Rule;

/// Why a source gives no next packet.
#[derive(Clone, Copy, Debug, PartialEq, Eq, Error)]
pub enum PacketRefusal {
    #[error("{0}")]
    Rule(Rule),
    /// The source failed.
    #[error("read fault")]
    Failed,
    #[error("out of memory")]
    OutOfMemory,
}

impl From<Rule> for PacketRefusal {
    ghost from_gives = { λ rule e. e ≡ refused.Rule rule };

    fn from(rule: Rule) -> Self {
        PacketRefusal::Rule(rule)
    }
}

impl From<ReadError> for PacketRefusal {
    ghost use Rattle.packet_reader.specs.TakenPackets.{refusal_of};

    ghost from_gives = { λ error e. e ≡ refusal_of error };

    fn from(error: ReadError) -> Self {
        match error {
            ReadError::Failed => PacketRefusal::Failed,
            ReadError::OutOfMemory => PacketRefusal::OutOfMemory,
        }
    }
}

/// Where a reader stands: before the file header, before a packet, or at its end, with the refusal if there was one.
#[derive(Clone, Copy, Debug, PartialEq, Eq)]
pub enum Stage {
    Header,
    Packet,
    Ended(Option<PacketRefusal>),
}

/// How many bytes may be looked at before a reader has the source.
const FRONT: usize = 4;

/// The packets of an IVF file, taken from a source one after another.
#[derive(Drop)]
pub struct PacketReader<S> {
    alloc: Global,
    front: Option<[u8; FRONT]>,
    source: S,
    stage: Stage,
    rate: (u32, u32),
}

impl<S> PacketReader<S> {
    /// A reader of the file that the source gives from here on. Nothing is read yet.
    pub fn new(alloc: Global, source: S) -> PacketReader<S>
        ensures source { source_of result ≡ source }
        ensures begun { begun_of result ≡ [] }
        ensures stage { stage_of result ≡ Header }
        ensures rate { rate_told result ≡ (0, 0) }
    {
        PacketReader {
            alloc,
            front: None,
            source,
            stage: Stage::Header,
            rate: (0, 0),
        }
    }

    /// A reader of the file that begins with these bytes, which the source gave.
    pub fn behind(alloc: Global, front: [u8; FRONT], source: S) -> PacketReader<S>
        ensures source { source_of result ≡ source }
        ensures begun { begun_of result ≡ front }
        ensures stage { stage_of result ≡ Header }
        ensures rate { rate_told result ≡ (0, 0) }
    {
        PacketReader {
            alloc,
            front: Some(front),
            source,
            stage: Stage::Header,
            rate: (0, 0),
        }
    }

    /// The frame rate that the file header names: frames for each so many seconds. It is 0 and 0 before the header is passed, and
    /// where that breaks a rule.
    pub fn rate(&self) -> (u32, u32)
        ensures { result ≡ rate_told self.now }
    {
        self.rate
    }

    /// The bytes in front of the source that weren't taken yet.
    pub fn begun(&self) -> &[u8]
        ensures bytes { result.now ≡ begun_of self.now }
        ensures few { length result.now ≤ 4 }
    {
        match self.stage {
            Stage::Header => begun(&self.front),
            Stage::Packet | Stage::Ended(_) => &[],
        }
    }

    /// The source as it stands, behind what was taken of it.
    pub fn into_source(self) -> S
        ensures { result ≡ source_of self }
    {
        self.source
    }
}

impl<S: Source> PacketReader<S> {
    /// The payload of the next packet, or None at the end of the file. After the end or a refusal it answers the same again, and
    /// doesn't ask the source.
    pub fn next(&mut self) -> Result<Option<Vec<u8>>, PacketRefusal>
        requires { IsReady S.can_fill self.old }
        ensures next { GivesNext (stage_of self.old) (ahead S.rest self.old) (S.rest (source_of self.new)) result }
        ensures begun { begun_of self.new ≡ [] }
        ensures stage { stage_of self.new ≡ stage_after result }
        ensures again { IsAgain self.old self.new result }
        ensures faults { CountsNext (stage_of self.old) (S.faults (source_of self.old)) (S.faults (source_of self.new)) result }
        ensures ready { IsReady S.can_fill self.new }
        ensures asked { IsReadyAt (stage_of self.old) (S.faults (source_of self.new) ≡ S.faults (source_of self.old) → S.can_fill (source_of self.new)) }
        ensures rate { TellsRate (stage_of self.old) (ahead S.rest self.old) (rate_told self.old) (rate_told self.new) result }
    {
        let answer = match self.stage {
            Stage::Header => take_first(
                self.alloc,
                begun(&self.front),
                &mut self.source,
                &mut self.rate,
            ),
            Stage::Packet => take_packet(self.alloc, &mut self.source),
            Stage::Ended(None) => return Ok(None),
            Stage::Ended(Some(refusal)) => return Err(refusal),
        };
        self.stage = stage_after(&answer);
        answer
    }

    /// How many bytes the source has at hand.
    pub fn at_hand(&self) -> usize {
        self.source.at_hand().len()
    }

    /// Whether the next packet is here already, so that taking it waits for nothing.
    pub fn is_next_at_hand(&self) -> bool {
        match self.stage {
            Stage::Packet => is_packet_whole(self.source.at_hand()),
            Stage::Header | Stage::Ended(_) => false,
        }
    }
}

/// The bytes in front of the source before the header is taken.
fn begun(front: &Option<[u8; FRONT]>) -> &[u8]
    ensures bytes { result.now ≡ begun_at Header front.now }
    ensures few { length result.now ≤ 4 }
{
    match front {
        Some(front) => front,
        None => &[],
    }
}

/// Where a reader stands after an answer.
fn stage_after(answer: &Result<Option<Vec<u8>>, PacketRefusal>) -> Stage
    ensures { result ≡ stage_after answer.now }
{
    match answer {
        Ok(Some(_)) => Stage::Packet,
        Ok(None) => Stage::Ended(None),
        Err(refusal) => Stage::Ended(Some(*refusal)),
    }
}
