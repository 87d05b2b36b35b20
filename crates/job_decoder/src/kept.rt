//! Results that are kept for frames to come.

ghost use Rattle.std.specs.Prelude.{◌≡◌, ◌+◌, ◌<◌, ◌≤◌, ◌∷◌, All, None, Some, IfSome, IfOk, length};
ghost use Rattle.vp9_types.specs.declared.job.JobName.TheVariants.{Head};
ghost use Rattle.job_crew.specs.Left.{AreRightRows, HasRightResults};
ghost use Rattle.job_crew.specs.Runs.{IsDue};
ghost use Rattle.job_rows.specs.job_results.Groups.{group_truth};
ghost use Rattle.job_rows.specs.job_results.Meaning.{decode_rules, decode_truth};
ghost use Rattle.job_decoder.specs.Code.{renumbered};
ghost use Rattle.job_decoder.specs.Pasts.{IsKept};

use crate::kept_frames::{KeptFrames, Shared, Slots, is_named};
use job_crew::FrameResults;
use job_rows::job_results::{DecodeRun, JobResult};
use std::alloc::{AllocError, Global};

fn take_row<'a>(row: &mut Option<JobResult<'a>>) -> Option<JobResult<'a>>
    ensures taken { result ≡ row.old }
    ensures none { row.new ≡ None }
{
    row.take()
}

/// A result that later frames may ask for. Such a one borrows nothing of the file.
fn lasting<'k>(row: Option<JobResult<'_>>) -> Option<JobResult<'k>>
    ensures { IfSome result (λ x. row.entry ≡ Some x) }
{
    match row {
        Some(JobResult::Closed(closed)) => Some(JobResult::Closed(closed)),
        Some(JobResult::Filtered(planes)) => Some(JobResult::Filtered(planes)),
        Some(JobResult::Starved) => Some(JobResult::Starved),
        _ => None,
    }
}

fn lasting_rows<'k, B: DecodeRun>(
    alloc: Global,
    number: u64,
    rows: Vec<Option<JobResult<'_>>>,
) -> Result<Vec<Option<JobResult<'k>>>, AllocError>
    requires { AreRightRows (decode_truth B.format B.film) number rows.items }
    ensures { IfOk result (λ kept. AreRightRows (decode_truth B.format B.film) number kept.items) }
{
    let mut rows = rows;
    let mut kept = Vec::new(alloc);
    kept.reserve(rows.len())?;
    for row in 0..rows.len() {
        let taken = take_row(&mut rows[row]);
        kept.push(lasting(taken))?;
    }
    Ok(kept)
}

/// Keeps the results of one frame more, under this number.
fn keep_frame<'k, B: DecodeRun>(
    alloc: Global,
    number: u64,
    results: FrameResults<JobResult<'_>>,
    kept: Vec<FrameResults<JobResult<'k>>>,
) -> Result<Vec<FrameResults<JobResult<'k>>>, AllocError>
    requires right { HasRightResults (decode_truth B.format B.film) (renumbered number results) }
    requires within { number < length B.film.frames }
    requires kept { All (IsKept B.format B.film) kept.items }
    ensures { IfOk result (λ all. All (IsKept B.format B.film) all.items) }
{
    let FrameResults { close, filters, .. } = results;
    let frame = FrameResults {
        frame: number,
        close: lasting(close),
        filters: lasting_rows::<B>(alloc, number, filters)?,
    };
    let mut kept = kept;
    kept.push(frame)?;
    Ok(kept)
}

/// The same results with another lifetime.
fn rebuilt<'k, B: DecodeRun>(
    alloc: Global,
    old: Vec<FrameResults<JobResult<'static>>>,
) -> Result<Vec<FrameResults<JobResult<'k>>>, AllocError>
    requires { All (IsKept B.format B.film) old.items }
    ensures { IfOk result (λ kept. All (IsKept B.format B.film) kept.items) }
{
    let mut old = old;
    let mut kept = Vec::new(alloc);
    while let Some(results) = old.pop() {
        let number = results.frame;
        kept = keep_frame::<B>(alloc, number, results, kept)?;
    }
    Ok(kept)
}

/// What is kept, for a run that goes on behind it.
pub(crate) fn kept_beside<'k, B: DecodeRun>(
    alloc: Global,
    old: Vec<FrameResults<JobResult<'static>>>,
) -> Result<Shared<KeptFrames<'k, B>>, AllocError>
    requires { All (IsKept B.format B.film) old.items }
{
    KeptFrames::shared(alloc, rebuilt::<B>(alloc, old)?)
}

/// The number in the film of a frame of a group, if it is below this one.
fn number_below(first: u64, frame: u64, reached: u64) -> Option<u64>
    ensures is { IfSome result (λ n. n ≡ first + frame) }
    ensures below { IfSome result (λ n. n < reached) }
{
    let number = first.checked_add(frame)?;
    if number < reached { Some(number) } else { None }
}

/// Keeps the results of a frame of a group.
fn keep_left_frame<'k, B: DecodeRun>(
    alloc: Global,
    first: u64,
    reached: u64,
    results: FrameResults<JobResult<'_>>,
    kept: Vec<FrameResults<JobResult<'k>>>,
) -> Result<Vec<FrameResults<JobResult<'k>>>, AllocError>
    requires first { first ≡ B.first }
    requires reached { reached ≡ length B.film.frames }
    requires right { HasRightResults (group_truth B.first B.format B.film) results }
    requires kept { All (IsKept B.format B.film) kept.items }
    ensures { IfOk result (λ all. All (IsKept B.format B.film) all.items) }
{
    let frame = results.frame;
    match number_below(first, frame, reached) {
        Some(number) => keep_frame::<B>(alloc, number, results, kept),
        None => Ok(kept),
    }
}

/// Keeps what the run of a group leaves.
fn keep_left<'k, B: DecodeRun>(
    alloc: Global,
    first: u64,
    reached: u64,
    left: Vec<FrameResults<JobResult<'_>>>,
) -> Result<Vec<FrameResults<JobResult<'k>>>, AllocError>
    requires first { first ≡ B.first }
    requires reached { reached ≡ length B.film.frames }
    requires right { All (HasRightResults (group_truth B.first B.format B.film)) left.items }
    ensures { IfOk result (λ kept. All (IsKept B.format B.film) kept.items) }
{
    let mut left = left;
    let mut kept = Vec::new(alloc);
    while let Some(results) = left.pop() {
        kept = keep_left_frame::<B>(alloc, first, reached, results, kept)?;
    }
    Ok(kept)
}

/// Keeps the results of an earlier frame, if a slot holds it.
fn keep_named_frame<'k, B: DecodeRun>(
    alloc: Global,
    slots: &Slots,
    reached: u64,
    results: FrameResults<JobResult<'_>>,
    kept: Vec<FrameResults<JobResult<'k>>>,
) -> Result<Vec<FrameResults<JobResult<'k>>>, AllocError>
    requires reached { reached ≡ length B.film.frames }
    requires right { HasRightResults (decode_truth B.format B.film) results }
    requires kept { All (IsKept B.format B.film) kept.items }
    ensures { IfOk result (λ all. All (IsKept B.format B.film) all.items) }
{
    let number = results.frame;
    if number < reached && is_named(slots, number) {
        keep_frame::<B>(alloc, number, results, kept)
    } else {
        Ok(kept)
    }
}

/// Keeps of what was kept before a group what the slots behind it hold.
fn keep_named<'k, B: DecodeRun>(
    alloc: Global,
    slots: &Slots,
    reached: u64,
    old: Vec<FrameResults<JobResult<'_>>>,
    kept: Vec<FrameResults<JobResult<'k>>>,
) -> Result<Vec<FrameResults<JobResult<'k>>>, AllocError>
    requires reached { reached ≡ length B.film.frames }
    requires right { All (HasRightResults (decode_truth B.format B.film)) old.items }
    requires kept { All (IsKept B.format B.film) kept.items }
    ensures { IfOk result (λ all. All (IsKept B.format B.film) all.items) }
{
    let mut old = old;
    let mut kept = kept;
    while let Some(results) = old.pop() {
        kept = keep_named_frame::<B>(alloc, slots, reached, results, kept)?;
    }
    Ok(kept)
}

/// The slots behind a frame that built one, by its close.
fn slots_in<B: DecodeRun>(results: &FrameResults<JobResult<'_>>) -> Option<Slots>
    requires { HasRightResults (decode_truth B.format B.film) results.now }
    ensures { IfSome result (λ slots. IsDue (decode_rules B.format B.film) (decode_truth B.format B.film) (Head (results.now.frame + 1))) }
{
    match &results.close {
        Some(close) => match close {
            JobResult::Closed(closed) => Some(closed.kept.slots),
            _ => None,
        },
        None => None,
    }
}

/// The slots behind a frame, where its close is kept.
fn slots_behind<B: DecodeRun>(kept: &[FrameResults<JobResult<'_>>], frame: u64) -> Option<Slots>
    requires { All (IsKept B.format B.film) kept.now }
    ensures { IfSome result (λ slots. IsDue (decode_rules B.format B.film) (decode_truth B.format B.film) (Head (frame + 1))) }
{
    for at in 0..kept.len() {
        let results = &kept[at];
        if results.frame == frame {
            return slots_in::<B>(results);
        }
    }
    None
}

/// What is kept behind a group: of what its run leaves, and of what was kept before it, what later frames may ask for. There is nothing
/// where memory is wanting.
pub(crate) fn kept_behind<'k, 'a, B: DecodeRun>(
    alloc: Global,
    first: u64,
    reached: u64,
    left: Option<Vec<FrameResults<JobResult<'a>>>>,
    old: Vec<FrameResults<JobResult<'a>>>,
) -> Option<Vec<FrameResults<JobResult<'k>>>>
    requires first { first ≡ B.first }
    requires reached { reached ≡ length B.film.frames }
    requires some { 0 < reached }
    requires left { IfSome left (λ left. All (HasRightResults (group_truth B.first B.format B.film)) left.items) }
    requires old { All (HasRightResults (decode_truth B.format B.film)) old.items }
    ensures kept { IfSome result (λ kept. All (IsKept B.format B.film) kept.items) }
    ensures due { IfSome result (λ kept. IsDue (decode_rules B.format B.film) (decode_truth B.format B.film) (Head reached)) }
{
    let Ok(kept) = keep_left::<B>(alloc, first, reached, left?) else {
        return None;
    };
    let slots = slots_behind::<B>(&kept, reached - 1)?;
    match keep_named::<B>(alloc, &slots, reached, old, kept) {
        Ok(kept) => Some(kept),
        Err(_) => None,
    }
}
