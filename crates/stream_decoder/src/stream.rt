//! A decode of a source.

ghost use Rattle.std.specs.Prelude.{◌≡◌};
ghost use Rattle.stream_decoder.specs.Streams.{DecodesSource};

use crate::packets::decode_packets;
use crate::streamed::Streamed;
use crate::whole::decode_whole;
use edge_io::{Gate, Sink, Source};
use frame_groups::{GroupReader, Opened, open};
use frame_output::Format;
use job_decoder::Crew;
use std::alloc::Global;
use std::sync::Wait;
use std::thread::Threads;
use vp9_types::{Outcome, Rule, Stop};

/// Decodes what a source has by a crew, and writes the frames that it shows, in this format, in order and each as soon as all before it
/// are written, up to the end or the first frame that breaks a rule. An IVF file is decoded as it comes, packets by packets; a WebM file
/// is read to its end first. What didn't fail may be used on.
pub fn decode_source<S: Source, K: Sink + Send + Drop, G: Gate + Sync, R: Threads + Wait + Sync>(
    rt: &R,
    alloc: Global,
    crew: &Crew<'_, G>,
    format: Format,
    source: S,
    sink: K,
) -> Streamed<S, K>
    requires source { S.can_fill source }
    requires sink { K.can_put sink }
    ensures decodes { DecodesSource format (S.rest source) (S.rest result.source) (S.faults source) (S.faults result.source)
        (K.taken sink) (K.taken result.sink) (K.faults sink) (K.faults result.sink) result.outcome }
    ensures source_again { S.faults result.source ≡ S.faults source → S.can_fill result.source }
    ensures grows { K.grows result.sink ≡ K.grows sink }
    ensures sink_again { K.faults result.sink ≡ K.faults sink → K.can_put result.sink }
{
    match open(source) {
        Opened::Webm(looked) => decode_whole(rt, alloc, crew, format, looked, sink),
        Opened::Ivf(looked) => {
            let reader = GroupReader::behind(alloc, looked);
            decode_packets(rt, alloc, crew, format, reader, sink)
        }
        Opened::Short(source) => Streamed {
            outcome: Outcome::Broken(Stop {
                frame: 0,
                rule: Rule::IvfHeader,
            }),
            source,
            sink,
        },
        Opened::Failed(source) => Streamed {
            outcome: Outcome::ReadFault,
            source,
            sink,
        },
    }
}
