//! Files that are decoded as they come.

ghost use Rattle.std.specs.Prelude.{◌≡◌, false};
ghost use Rattle.edge_io.specs.Filling.{WhereTold};
ghost use Rattle.file_frames.specs.Containers.{is_webm};
ghost use Rattle.packet_reader.specs.declared.reader.Stage.TheVariants.{Header};
ghost use Rattle.frame_groups.specs.Groups.{ahead, source_of, stage_of};
ghost use Rattle.stream_decoder.specs.Streams.{DecodesSource};

use crate::steps::{Turn, Way, Work, take_turn};
use crate::streamed::Streamed;
use edge_io::{Gate, Sink, Source};
use frame_groups::{GroupReader, GroupSize};
use frame_output::Format;
use job_decoder::{Crew, Past};
use std::alloc::Global;
use std::sync::Wait;
use std::thread::Threads;

/// The first frame is shown as soon as it is there.
const FIRST_GROUP: GroupSize = GroupSize { least: 1, most: 64 };

/// Between two groups workers wait, so the others aren't small.
const LATER_GROUP: GroupSize = GroupSize {
    least: 64,
    most: 64,
};

/// Decodes the file that a reader has ahead, group by group.
pub(crate) fn decode_packets<
    S: Source,
    K: Sink + Send + Drop,
    G: Gate + Sync,
    R: Threads + Wait + Sync,
>(
    rt: &R,
    alloc: Global,
    crew: &Crew<'_, G>,
    format: Format,
    reader: GroupReader<S>,
    sink: K,
) -> Streamed<S, K>
    requires stage { stage_of reader ≡ Header }
    requires source { S.can_fill (source_of reader) }
    requires sink { K.can_put sink }
    requires ivf { WhereTold (ahead S.rest reader) (λ bytes. is_webm bytes ≡ false) }
    ensures decodes { DecodesSource format (ahead S.rest reader) (S.rest result.source) (S.faults (source_of reader)) (S.faults result.source)
        (K.taken sink) (K.taken result.sink) (K.faults sink) (K.faults result.sink) result.outcome }
    ensures source_again { S.faults result.source ≡ S.faults (source_of reader) → S.can_fill result.source }
    ensures grows { K.grows result.sink ≡ K.grows sink }
    ensures sink_again { K.faults result.sink ≡ K.faults sink → K.can_put result.sink }
{
    let work = Work {
        alloc,
        crew,
        format,
    };
    let mut way = Way {
        reader,
        past: Past::none(alloc),
        sink,
    };
    let mut size = FIRST_GROUP;
    'turns: for _ in rt.forever() {
        way = match take_turn(rt, &work, way, size) {
            Turn::On(next) => next,
            Turn::Over(streamed) => return streamed,
        };
        size = LATER_GROUP;
    }
    unreachable!()
}
