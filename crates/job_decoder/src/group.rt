//! A decode of frames that come behind others.

ghost use Rattle.std.specs.Prelude.{◌≡◌, ◌+◌, ◌<◌, ◌^◌, ◌++◌, true, length, map};
ghost use Rattle.job_decoder.specs.Pasts.{IsPast, film_with, frames_behind};
ghost use Rattle.job_decoder.specs.SinkOutputs.{is_done};
ghost use Rattle.job_decoder.specs.Reaches.{HasReached, sink_of};

use crate::group_run::{GroupFrames, GroupRan, run_group};
use crate::past::{Appended, FramesBehind, Past};
use crate::whole::{Crew, Decoded};
use boxcar::tag::Tag;
use edge_io::{Gate, Sink};
use frame_output::Format;
use job_heads::{FoundFrames, FrameList};
use job_rows::job_results::DecodeRun;
use job_rows::seq_decoder::OutputForm;
use std::alloc::Global;
use std::marker::Brand;
use std::sync::Wait;
use std::thread::Threads;
use vp9_types::Outcome;

/// Frames that come next, and how those that they show are put.
#[derive(Drop)]
pub struct NextFrames<'a> {
    pub format: Format,
    /// How many frames a second are told.
    pub rate: (u32, u32),
    pub frames: Vec<&'a [u8]>,
}

/// Where a decode stands behind some frames.
#[derive(Drop)]
pub enum Reached<K> {
    /// They are decoded, and what they show is written.
    Further { past: Past, sink: K },
    /// One of them breaks a rule, the sink failed, or memory was wanting: the decode has ended.
    Ended(Decoded<K>),
}

fn is_done(outcome: &Outcome) -> bool
    ensures { result ≡ is_done outcome.now }
{
    matches!(outcome, Outcome::Done)
}

/// The decode stops for want of memory.
fn without_memory<K>(sink: K) -> Reached<K>
    ensures { result ≡ Reached.Ended (record { outcome = Outcome.OutOfMemory; sink = sink }) }
{
    Reached::Ended(Decoded {
        outcome: Outcome::OutOfMemory,
        sink,
    })
}

/// The same, of a decode that is named.
fn decode_behind<
    B: DecodeRun + Send + Sync,
    K: Sink + Send + Drop,
    G: Gate + Sync,
    R: Threads + Wait + Sync,
>(
    rt: &R,
    alloc: Global,
    crew: &Crew<'_, G>,
    next: NextFrames<'_>,
    past: Past,
    sink: K,
) -> Reached<K>
    requires sink { K.can_put sink }
    requires past { IsPast next.format next.rate past }
    requires format { B.format ≡ next.format }
    requires film { B.film ≡ film_with next.rate (frames_behind past ++ map (λ frame. frame.now) next.frames.items) }
    requires first { B.first ≡ past.count }
    requires taken { B.taken ≡ K.taken sink }
    requires faults { B.faults ≡ K.faults sink }
    requires grows { B.grows ≡ K.grows sink }
    requires few { past.count + length next.frames.items < 2 ^ 64 }
    requires some { 0 < length next.frames.items }
    ensures reached { HasReached next.entry.format next.entry.rate past (map (λ frame. frame.now) next.entry.frames.items) (K.taken sink) (K.faults sink) K.taken K.faults result }
    ensures grows { K.grows (sink_of result) ≡ K.grows sink }
    ensures again { K.faults (sink_of result) ≡ K.faults sink → K.can_put (sink_of result) }
{
    let Past {
        count,
        kept,
        frames: before,
    } = past;
    let reached = count + next.frames.len() as u64;
    let behind = FramesBehind {
        before: &before,
        frames: &next.frames,
    };
    let after = Tag::of::<FramesBehind<'_, '_>, Appended>(&behind);
    let form = OutputForm::new(next.format, next.rate);
    let found = FoundFrames {
        frames: next.frames,
        ending: None,
    };
    let list: FrameList<'_, B> = FrameList::new(count, found, form);
    let group = GroupFrames {
        list,
        kept,
        reached,
    };
    let GroupRan {
        outcome,
        sink,
        kept,
    } = run_group::<B, K, G, R>(rt, alloc, crew, group, sink);
    if !is_done(&outcome) {
        return Reached::Ended(Decoded { outcome, sink });
    }
    let Some(kept) = kept else {
        return without_memory(sink);
    };
    let past = Past {
        count: reached,
        kept,
        frames: after,
    };
    Reached::Further { past, sink }
}

/// The number of the frame behind these, if numbers reach so far.
fn are_numbered(count: u64, frames: &[&[u8]]) -> bool
    ensures { result ≡ true → count + length frames.now < 2 ^ 64 }
{
    count.checked_add(frames.len() as u64).is_some()
}

/// Decodes the frames that come behind those of the past by a crew, and writes the frames that they show, in order and each as soon as all
/// before it are written.
pub fn decode_group<K: Sink + Send + Drop, G: Gate + Sync, R: Threads + Wait + Sync>(
    rt: &R,
    alloc: Global,
    crew: &Crew<'_, G>,
    next: NextFrames<'_>,
    past: Past,
    sink: K,
) -> Reached<K>
    requires sink { K.can_put sink }
    requires past { IsPast next.format next.rate past }
    ensures reached { HasReached next.entry.format next.entry.rate past (map (λ frame. frame.now) next.entry.frames.items) (K.taken sink) (K.faults sink) K.taken K.faults result }
    ensures grows { K.grows (sink_of result) ≡ K.grows sink }
    ensures again { K.faults (sink_of result) ≡ K.faults sink → K.can_put (sink_of result) }
{
    let NextFrames {
        format,
        rate,
        frames,
    } = next;
    if frames.is_empty() {
        return Reached::Further { past, sink };
    }
    let count = past.count;
    if !are_numbered(count, &frames) {
        return without_memory(sink);
    }
    let next = NextFrames {
        format,
        rate,
        frames,
    };
    decode_behind::<Brand, K, G, R>(rt, alloc, crew, next, past, sink)
}
