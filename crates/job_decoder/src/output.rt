//! The sink of a decode.

use edge_io::Sink;
use job_crew::Output;
use job_rows::job_results::{DecodeRun, JobResult};
use std::alloc::Global;
use std::marker::PhantomData;

/// A sink, room for the text that it is to take, which is used again, and the decode that writes to it.
#[derive(Drop)]
pub struct DecodeSink<K, B> {
    pub(crate) sink: K,
    pub(crate) room: Vec<u8>,
    of: PhantomData<B>,
}

impl<K: Sink, B: DecodeRun> DecodeSink<K, B> {
    ghost use Rattle.std.specs.Prelude.{◌≡◌};

    pub(crate) fn new(alloc: Global, sink: K) -> DecodeSink<K, B>
        ensures { result.sink ≡ sink }
    {
        DecodeSink {
            sink,
            room: Vec::new(alloc),
            of: PhantomData,
        }
    }
}

impl<'a, K: Sink, B: DecodeRun> Output<JobResult<'a>> for DecodeSink<K, B> {
    ghost use Rattle.job_decoder.specs.SinkOutputs.{HasRefusedSo, IsQuiet};

    ghost taken = { λ o. K.taken o.sink };

    ghost may_put = { λ o. IsQuiet (K.can_put o.sink) B.faults (K.faults o.sink) B.grows (K.grows o.sink) };

    ghost has_refused = { λ o x. HasRefusedSo (K.can_put o.sink) B.faults (K.faults o.sink) B.grows (K.grows o.sink) x };
}
