//! The head of a frame.

ghost use Rattle.std.specs.Prelude.{◌≡◌, ◌≤◌, Some, Ok, length};
ghost use Rattle.vp9_types.specs.declared.job.JobName.TheVariants.{Head};
ghost use Rattle.frame_headers.specs.Header.{head_of};
ghost use Rattle.frame_headers.specs.FrameSizes.{IsFrameSize};
ghost use Rattle.frame_headers.specs.Tiles.{AreFewTiles};
ghost use Rattle.frame_headers.specs.declared.header.FrameHead.TheVariants as head;
ghost use Rattle.job_results.specs.seq_decoder.Code.{LiesWithin};
ghost use Rattle.job_results.specs.numbered_frames.FrameNumbers.{frame_at};
ghost use Rattle.job_crew.specs.Runs.{IsDue};
ghost use Rattle.job_results.specs.Meaning.{decode_rules, decode_truth};
ghost use Rattle.job_results.specs.Lent.{IsKeptBefore};
ghost use Rattle.job_results.specs.JobResults.{IsHead};

use crate::frames::FrameList;
use frame_headers::{FrameHead, Header, read};
use job_results::frame_steps::{Kept, begin};
use job_results::seq_decoder::{halt_outcome, outcome_at};
use job_results::{Decode, DecodeRun, JobResult, Lookup, closed};
use std::alloc::Global;
use vp9_types::{Outcome, Span};

/// Begins a coded frame.
fn begin_coded<'a, B: DecodeRun>(
    alloc: Global,
    number: u64,
    bytes: &'a [u8],
    header: &Header,
    compressed: Span,
    before: &Kept,
) -> JobResult<'a>
    requires kept { IsKeptBefore B.format B.film number before.now }
    requires frame { frame_at B.film number ≡ Some bytes.now }
    requires head { head_of before.now.persist bytes.now ≡ Ok (head.Coded header.now compressed) }
    requires size { IsFrameSize header.now.size }
    requires few { AreFewTiles header.now.params.tiles }
    requires placed { LiesWithin (length bytes.now) compressed }
    ensures { IsHead B.format B.film number result }
{
    let begun = match begin(alloc, bytes, header, compressed, before) {
        Ok(begun) => begun,
        Err(halt) => return JobResult::Ended(halt_outcome(number, halt)),
    };
    match Box::new(alloc, begun) {
        Ok(begun) => JobResult::Begun(begun),
        Err(_) => JobResult::Ended(Outcome::OutOfMemory),
    }
}

/// Reads the head of a frame behind what is kept of the frames before it.
fn read_head<'a, B: DecodeRun>(
    alloc: Global,
    list: &FrameList<'a, B>,
    number: u64,
    before: &Kept,
) -> JobResult<'a>
    requires kept { IsKeptBefore B.format B.film number before.now }
    requires first { B.first ≤ number }
    ensures { IsHead B.format B.film number result }
{
    let Some(bytes) = list.frame(number) else {
        return JobResult::Ended(list.outcome(number));
    };
    match read(bytes, &before.persist) {
        Ok(FrameHead::Coded { header, compressed }) => {
            begin_coded::<B>(alloc, number, bytes, &header, compressed, before)
        }
        Ok(FrameHead::ShowExisting { slot }) => JobResult::Existing(slot),
        Err(rule) => JobResult::Ended(outcome_at(number, rule)),
    }
}

/// Reads the head of the first frame.
fn read_first<'a, B: DecodeRun>(alloc: Global, list: &FrameList<'a, B>) -> JobResult<'a>
    requires { B.first ≡ 0 }
    ensures { IsHead B.format B.film 0 result }
{
    let form = list.form();
    match Kept::start(alloc, form.format, form.rate) {
        Ok(start) => read_head(alloc, list, 0, &start),
        Err(_) => JobResult::Ended(Outcome::OutOfMemory),
    }
}

/// The head of a frame: the end of the run, if there is no frame, or it breaks a rule before its tiles; what a coded frame begins
/// with, or the slot that is shown.
pub fn do_head<'a, B: DecodeRun, R: Lookup<JobResult<'a>, Decode<B>>>(
    alloc: Global,
    list: &FrameList<'a, B>,
    number: u64,
    results: &R,
) -> JobResult<'a>
    requires due { IsDue (decode_rules B.format B.film) (decode_truth B.format B.film) (Head number) }
    requires first { B.first ≤ number }
    ensures { IsHead B.format B.film number result }
{
    match number.checked_sub(1) {
        None => read_first(alloc, list),
        Some(before) => read_head(alloc, list, number, &closed::<B, R>(results, before).kept),
    }
}
