//! Files that are read whole before they are decoded.

ghost use Rattle.std.specs.Prelude.{◌≡◌, ◌<◌, ◌≤◌, ◌^◌, true};
ghost use Rattle.edge_io.specs.Prefixed.{all_of};
ghost use Rattle.file_frames.specs.Containers.{is_webm};
ghost use Rattle.stream_decoder.specs.Streams.{DecodesSource};

use crate::streamed::Streamed;
use edge_io::{Gate, Prefixed, ReadError, Sink, Source, read_all};
use frame_groups::Looked;
use frame_output::Format;
use job_decoder::{Crew, Decoded, decode_by_jobs};
use std::alloc::Global;
use std::sync::Wait;
use std::thread::Threads;
use vp9_types::Outcome;

/// Reads a WebM file, whose first bytes were looked at, to its end, and decodes it. What was given of it before a fault is lost.
pub(crate) fn decode_whole<
    S: Source,
    K: Sink + Send + Drop,
    G: Gate + Sync,
    R: Threads + Wait + Sync,
>(
    rt: &R,
    alloc: Global,
    crew: &Crew<'_, G>,
    format: Format,
    looked: Looked<S>,
    sink: K,
) -> Streamed<S, K>
    requires webm { is_webm looked.front ≡ true }
    requires given { 4 ≤ S.given looked.source }
    requires most { S.given looked.source < 2 ^ 63 }
    requires source { S.can_fill looked.source }
    requires sink { K.can_put sink }
    ensures decodes { DecodesSource format (all_of looked.front 4 (S.rest looked.source)) (S.rest result.source) (S.faults looked.source) (S.faults result.source)
        (K.taken sink) (K.taken result.sink) (K.faults sink) (K.faults result.sink) result.outcome }
    ensures source_again { S.faults result.source ≡ S.faults looked.source → S.can_fill result.source }
    ensures grows { K.grows result.sink ≡ K.grows sink }
    ensures sink_again { K.faults result.sink ≡ K.faults sink → K.can_put result.sink }
{
    let Looked { front, source } = looked;
    let mut whole = Prefixed::new(front, source);
    let read = read_all(alloc, &mut whole);
    let source = whole.into_source();
    let bytes = match read {
        Ok(bytes) => bytes,
        Err(ReadError::Failed) => {
            return Streamed {
                outcome: Outcome::ReadFault,
                source,
                sink,
            };
        }
        Err(ReadError::OutOfMemory) => {
            return Streamed {
                outcome: Outcome::OutOfMemory,
                source,
                sink,
            };
        }
    };
    let Decoded { outcome, sink } = decode_by_jobs(rt, alloc, crew, format, bytes.as_slice(), sink);
    Streamed {
        outcome,
        source,
        sink,
    }
}
