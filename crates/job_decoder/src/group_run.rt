//! The run of a group of frames.

ghost use Rattle.std.specs.Prelude.{◌≡◌, ◌≤◌, ◌<◌, All, None, IfSome, length};
ghost use Rattle.vp9_types.specs.declared.job.JobName.TheVariants.{Head};
ghost use Rattle.job_crew.specs.Runs.{IsDue};
ghost use Rattle.job_rows.specs.job_results.Endings.{IsOutcome};
ghost use Rattle.job_rows.specs.job_results.Meaning.{decode_rules, decode_truth};
ghost use Rattle.job_decoder.specs.Code.{HasRun, TellsEvents, frames_at_once};
ghost use Rattle.job_decoder.specs.SinkOutputs.{TellsOutcome};
ghost use Rattle.job_decoder.specs.Pasts.{IsKept};

use crate::decoder::JobDecoder;
use crate::kept::{kept_behind, kept_beside};
use crate::output::DecodeSink;
use crate::whole::{Crew, frames_at_once, outcome_of};
use edge_io::{Gate, Sink};
use job_crew::{FrameResults, Ran, Run, run_jobs};
use job_heads::FrameList;
use job_rows::job_results::{DecodeRun, Group, JobResult};
use std::alloc::Global;
use std::sync::Wait;
use std::thread::Threads;
use vp9_types::Outcome;

/// Frames to decode, what is kept of those before them, and the number behind the last of them.
#[derive(Drop)]
pub(crate) struct GroupFrames<'a, B: DecodeRun> {
    pub(crate) list: FrameList<'a, B>,
    pub(crate) kept: Vec<FrameResults<JobResult<'static>>>,
    pub(crate) reached: u64,
}

/// How the run of a group ended, its sink, and what is kept behind it, if there was memory for that.
#[derive(Drop)]
pub(crate) struct GroupRan<K> {
    pub(crate) outcome: Outcome,
    pub(crate) sink: K,
    pub(crate) kept: Option<Vec<FrameResults<JobResult<'static>>>>,
}

/// Nothing was done, for want of memory.
fn without_memory<K: Sink, B: DecodeRun>(output: DecodeSink<K, B>) -> GroupRan<K>
    ensures { result ≡ record { outcome = Outcome.OutOfMemory; sink = output.sink; kept = None } }
{
    let DecodeSink { sink, .. } = output;
    GroupRan {
        outcome: Outcome::OutOfMemory,
        sink,
        kept: None,
    }
}

/// Decodes the frames of a group by a crew.
#[tactic(auto, using(crate::proofs::GroupRules::rules_can))]
pub(crate) fn run_group<
    'a,
    B: DecodeRun + Send + Sync,
    K: Sink + Send + Drop,
    G: Gate + Sync,
    R: Threads + Wait + Sync,
>(rt: &R, alloc: Global, crew: &Crew<'_, G>, group: GroupFrames<'a, B>, sink: K) -> GroupRan<K>
    requires kept { All (IsKept B.format B.film) group.kept.items }
    requires due { IsDue (decode_rules B.format B.film) (decode_truth B.format B.film) (Head B.first) }
    requires first { B.first ≤ length B.film.frames }
    requires reached { group.reached ≡ length B.film.frames }
    requires some { 0 < group.reached }
    requires ending { B.film.ending ≡ None }
    requires taken { B.taken ≡ K.taken sink }
    requires faults { B.faults ≡ K.faults sink }
    requires grows { B.grows ≡ K.grows sink }
    requires sink { K.can_put sink }
    ensures events { TellsEvents B.first B.format B.film (frames_at_once crew.now.window) result.outcome }
    ensures run { HasRun B.format B.film B.first (K.taken sink) (K.taken result.sink) (K.faults sink) (K.faults result.sink) result.outcome }
    ensures kept { IfSome result.kept (λ kept. All (IsKept B.format B.film) kept.items) }
    ensures due { IfSome result.kept (λ kept. IsDue (decode_rules B.format B.film) (decode_truth B.format B.film) (Head (length B.film.frames))) }
    ensures grows { K.grows result.sink ≡ K.grows sink }
    ensures again { K.faults result.sink ≡ K.faults sink → K.can_put result.sink }
{
    let first = group.list.first();
    let output: DecodeSink<K, B> = DecodeSink::new(alloc, sink);
    let Ok(kept) = kept_beside::<B>(alloc, group.kept) else {
        return without_memory(output);
    };
    let jobs: JobDecoder<'_, 'a, B, R> = JobDecoder::new(rt, alloc, group.list, kept);
    let run = Run {
        alloc,
        jobs: &jobs,
        gate: crew.gate,
        workers: crew.workers.clamp(1, 64),
        window: frames_at_once(crew.window),
    };
    let ran = run_jobs::<JobResult<'_>, Group<B>, DecodeSink<K, B>, JobDecoder<'_, '_, B, R>, G, R>(
        rt, &run, output,
    );
    let (ending, output, results) = match ran {
        Ok(
            Ran {
                ending,
                output,
                results,
            },
        ) => (ending, output, results),
        Err(output) => return without_memory(output),
    };
    let outcome = outcome_of(&ending);
    let DecodeSink { sink, .. } = output;
    let kept = match jobs.into_kept() {
        Ok(old) => kept_behind::<B>(alloc, first, group.reached, results, old),
        Err(_) => None,
    };
    GroupRan {
        outcome,
        sink,
        kept,
    }
}
