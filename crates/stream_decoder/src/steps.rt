//! The steps of a decode that takes its source group by group.

ghost use Rattle.std.specs.Prelude.{◌≡◌, false, map};
ghost use Rattle.edge_io.specs.Filling.{WhereTold};
ghost use Rattle.file_frames.specs.Containers.{is_webm};
ghost use Rattle.frame_groups.specs.Groups.{source_of};
ghost use Rattle.job_decoder.specs.Pasts.{IsPast};
ghost use Rattle.job_decoder.specs.Reaches as reaches;
ghost use Rattle.job_decoder.specs.Reaches.{HasReached};
ghost use Rattle.stream_decoder.specs.Code.{Begun, MayGoOn, MayTurn, OnWay, StopsInFrames, Turned, sink_of, source_in, turn_of};

use crate::streamed::Streamed;
use edge_io::{Gate, Sink, Source};
use frame_groups::{Behind, GroupReader, GroupSize};
use frame_output::Format;
use job_decoder::{Crew, Decoded, NextFrames, Past, Reached, decode_group};
use std::alloc::Global;
use std::sync::Wait;
use std::thread::Threads;
use vp9_types::{Outcome, Stop};

/// What stays the same in a decode.
#[derive(Drop)]
pub(crate) struct Work<'w, 'g, G> {
    pub(crate) alloc: Global,
    pub(crate) crew: &'w Crew<'g, G>,
    pub(crate) format: Format,
}

/// Where a decode stands: what has the rest of its source, what is kept of the frames that are decoded, and what takes their texts.
#[derive(Drop)]
pub(crate) struct Way<S, K> {
    pub(crate) reader: GroupReader<S>,
    pub(crate) past: Past,
    pub(crate) sink: K,
}

/// How it goes on behind a group.
#[derive(Drop)]
pub(crate) enum Turn<S, K> {
    On(Way<S, K>),
    Over(Streamed<S, K>),
}

/// Decodes the frames that come next, if there are some.
fn decode_next<K: Sink + Send + Drop, G: Gate + Sync, R: Threads + Wait + Sync>(
    rt: &R,
    work: &Work<'_, '_, G>,
    next: NextFrames<'_>,
    past: Past,
    sink: K,
) -> Reached<K>
    requires sink { K.can_put sink }
    requires past { IsPast next.format next.rate past }
    ensures reached { HasReached next.entry.format next.entry.rate past (map (λ frame. frame.now) next.entry.frames.items) (K.taken sink) (K.faults sink) K.taken K.faults result }
    ensures some { StopsInFrames (map (λ frame. frame.now) next.entry.frames.items) result }
    ensures grows { K.grows (reaches.sink_of result) ≡ K.grows sink }
    ensures again { K.faults (reaches.sink_of result) ≡ K.faults sink → K.can_put (reaches.sink_of result) }
{
    if next.frames.is_empty() {
        return Reached::Further { past, sink };
    }
    decode_group(rt, work.alloc, work.crew, next, past, sink)
}

/// How a decode goes on behind a group whose frames are all decoded.
fn turn_behind<S, K>(behind: Behind, way: Way<S, K>) -> Turn<S, K>
    ensures { result ≡ turn_of behind way }
{
    let outcome = match behind {
        Behind::More => return Turn::On(way),
        Behind::End => Outcome::Done,
        Behind::Broken(rule) => Outcome::Broken(Stop {
            frame: way.past.count(),
            rule,
        }),
        Behind::Failed => Outcome::ReadFault,
        Behind::OutOfMemory => Outcome::OutOfMemory,
    };
    let Way { reader, sink, .. } = way;
    Turn::Over(Streamed {
        outcome,
        source: reader.into_source(),
        sink,
    })
}

/// Takes the next group, and decodes it. A rule that one of its frames breaks is told, also where the source failed behind them.
pub(crate) fn take_turn<S: Source, K: Sink + Send + Drop, G: Gate + Sync, R: Threads + Wait + Sync>(
    rt: &R,
    work: &Work<'_, '_, G>,
    way: Way<S, K>,
    size: GroupSize,
) -> Turn<S, K>
    requires { MayGoOn work.now.format S.can_fill K.can_put way }
    ensures turns { (b : Begun) → WhereTold b.told (λ bytes. is_webm bytes ≡ false) → OnWay work.now.format b S.rest S.faults K.taken K.faults way
        → Turned work.now.format b S.rest S.faults K.taken K.faults result }
    ensures again { MayTurn work.now.format S.can_fill K.can_put result }
    ensures source_again { S.faults (source_in result) ≡ S.faults (source_of way.reader) → S.can_fill (source_in result) }
    ensures grows { K.grows (sink_of result) ≡ K.grows way.sink }
    ensures sink_again { K.faults (sink_of result) ≡ K.faults way.sink → K.can_put (sink_of result) }
{
    let Way { reader, past, sink } = way;
    let mut reader = reader;
    let group = reader.next_group(size);
    let behind = group.behind;
    let Ok(frames) = group.frames(work.alloc) else {
        return Turn::Over(Streamed {
            outcome: Outcome::OutOfMemory,
            source: reader.into_source(),
            sink,
        });
    };
    let next = NextFrames {
        format: work.format,
        rate: reader.rate(),
        frames,
    };
    match decode_next(rt, work, next, past, sink) {
        Reached::Further { past, sink } => turn_behind(behind, Way { reader, past, sink }),
        Reached::Ended(decoded) => {
            let Decoded { outcome, sink } = decoded;
            Turn::Over(Streamed {
                outcome,
                source: reader.into_source(),
                sink,
            })
        }
    }
}
