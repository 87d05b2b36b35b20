//! A whole decode by jobs.

ghost use Rattle.std.specs.Prelude.{◌≡◌, ◌≤◌};
ghost use Rattle.job_rows.specs.seq_decoder.Outcomes.{Decodes};
ghost use Rattle.job_rows.specs.numbered_frames.Films.{film_of};
ghost use Rattle.job_rows.specs.seq_decoder.Outputs.{output_of};
ghost use Rattle.job_rows.specs.job_results.Endings.{IsOutcome};
ghost use Rattle.job_decoder.specs.Code.{TellsEvents, frames_at_once};
ghost use Rattle.job_decoder.specs.SinkOutputs.{TellsOutcome};

use crate::decoder::JobDecoder;
use crate::kept_frames::KeptFrames;
use crate::output::DecodeSink;
use edge_io::{Gate, Sink};
use file_frames::rate_of_file;
use frame_output::Format;
use job_crew::{Ending, Ran, Run, run_jobs};
use job_heads::{FrameList, find_frames};
use job_rows::job_results::{DecodeRun, Group, JobResult};
use job_rows::seq_decoder::{OutputForm, refusal_outcome};
use std::alloc::Global;
use std::marker::Brand;
use std::sync::Wait;
use std::thread::Threads;
use vp9_types::Outcome;

/// How many workers do the jobs of a decode, 1 to 64, how many frames are at work at once, 2 to 16, and who sees each job begin and end.
/// A number out of its range counts as the nearest one in it.
#[derive(Drop)]
pub struct Crew<'g, G> {
    pub workers: u8,
    pub window: u8,
    pub gate: &'g G,
}

/// How a decode ended, and its sink.
#[derive(Drop)]
pub struct Decoded<K> {
    pub outcome: Outcome,
    pub sink: K,
}

/// How many frames are at work at once, as asked for.
pub(crate) fn frames_at_once(window: u8) -> u8
    ensures is { result ≡ frames_at_once window }
    ensures least { 2 ≤ result }
    ensures most { result ≤ 16 }
{
    if window < 2 {
        2
    } else if window > 16 {
        16
    } else {
        window
    }
}

/// The outcome that an ending tells.
pub(crate) fn outcome_of(ending: &Ending<JobResult<'_>>) -> Outcome
    requires { TellsOutcome ending.now }
    ensures { IsOutcome ending.now result }
{
    match ending {
        Ending::Whole {
            value: JobResult::Ended(outcome),
            ..
        } => *outcome,
        Ending::Refused {
            value: JobResult::Refused(fault),
            ..
        } => refusal_outcome(*fault),
        _ => unreachable!(),
    }
}

/// Nothing was done, for want of memory.
fn without_memory<K: Sink, B: DecodeRun>(output: DecodeSink<K, B>) -> Decoded<K>
    ensures { result ≡ record { outcome = Outcome.OutOfMemory; sink = output.sink } }
{
    let DecodeSink { sink, .. } = output;
    Decoded {
        outcome: Outcome::OutOfMemory,
        sink,
    }
}

/// Decodes a file whose bytes, format and sink are named.
#[tactic(auto, using(crate::proofs::GroupRules::rules_can))]
fn decode_as<
    B: DecodeRun + Send + Sync,
    K: Sink + Send + Drop,
    G: Gate + Sync,
    R: Threads + Wait + Sync,
>(rt: &R, alloc: Global, crew: &Crew<'_, G>, format: Format, bytes: &[u8], sink: K) -> Decoded<K>
    requires format { B.format ≡ format }
    requires film { B.film ≡ film_of bytes.now }
    requires first { B.first ≡ 0 }
    requires taken { B.taken ≡ K.taken sink }
    requires faults { B.faults ≡ K.faults sink }
    requires grows { B.grows ≡ K.grows sink }
    requires sink { K.can_put sink }
    ensures decodes { Decodes (output_of format bytes.now) (K.taken sink) (K.taken result.sink) (K.faults sink) (K.faults result.sink) result.outcome }
    ensures events { TellsEvents B.first B.format B.film (frames_at_once crew.now.window) result.outcome }
    ensures grows { K.grows result.sink ≡ K.grows sink }
    ensures again { K.faults result.sink ≡ K.faults sink → K.can_put result.sink }
{
    let output: DecodeSink<K, B> = DecodeSink::new(alloc, sink);
    let Ok(found) = find_frames(alloc, bytes) else {
        return without_memory(output);
    };
    let list: FrameList<'_, B> = FrameList::new(
        0,
        found,
        OutputForm::new(format, rate_of_file(bytes)),
    );
    let Ok(none) = KeptFrames::shared(alloc, Vec::new(alloc)) else {
        return without_memory(output);
    };
    let jobs = JobDecoder::new(rt, alloc, list, none);
    let run = Run {
        alloc,
        jobs: &jobs,
        gate: crew.gate,
        workers: crew.workers.clamp(1, 64),
        window: frames_at_once(crew.window),
    };
    let Ran { ending, output, .. } = match run_jobs::<
        JobResult<'_>,
        Group<B>,
        DecodeSink<K, B>,
        JobDecoder<'_, '_, B, R>,
        G,
        R,
    >(rt, &run, output)
    {
        Ok(ran) => ran,
        Err(output) => return without_memory(output),
    };
    let outcome = outcome_of(&ending);
    let DecodeSink { sink, .. } = output;
    Decoded { outcome, sink }
}

/// Decodes a file by a crew, and writes the frames that it shows, in this format, in order and each as soon as all before it are
/// written, up to its end or the first frame that breaks a rule. It never answers a read fault. A sink that didn't fail may be used on.
pub fn decode_by_jobs<K: Sink + Send + Drop, G: Gate + Sync, R: Threads + Wait + Sync>(
    rt: &R,
    alloc: Global,
    crew: &Crew<'_, G>,
    format: Format,
    bytes: &[u8],
    sink: K,
) -> Decoded<K>
    requires sink { K.can_put sink }
    ensures decodes { Decodes (output_of format bytes.now) (K.taken sink) (K.taken result.sink) (K.faults sink) (K.faults result.sink) result.outcome }
    ensures events { TellsEvents 0 format (film_of bytes.now) (frames_at_once crew.now.window) result.outcome }
    ensures grows { K.grows result.sink ≡ K.grows sink }
    ensures again { K.faults result.sink ≡ K.faults sink → K.can_put result.sink }
{
    decode_as::<Brand, K, G, R>(rt, alloc, crew, format, bytes, sink)
}
