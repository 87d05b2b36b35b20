//! Results that a job is lent, by what they are results of.

ghost use Rattle.std.specs.Prelude.{◌≡◌, ◌+◌, Some, IfSome};
ghost use Rattle.numbered_frames.specs.Coded.{CodedFrame, coded};
ghost use Rattle.job_results.specs.JobResults.{IsClosedAs, IsEnd};
ghost use Rattle.job_results.specs.Lent.{IsBegunFrame, IsColumnOf, IsFilteredOf, IsHeadRead, IsStripOf};

use crate::any_planes::AnyPlanes;
use crate::lookup::Lookup;
use crate::meaning::{Decode, DecodeRun, Group};
use crate::result::{ClosedFrame, JobResult};
use frame_steps::tile_syntax::Unplanned;
use frame_steps::{BegunFrame, PlannedColumn};
use job_crew::LastResult;
use vp9_types::{JobName, Outcome};

/// What a head has read: a coded frame, or one that shows what a slot holds.
#[derive(Drop)]
pub enum HeadRead<'r, 'a> {
    Coded(&'r BegunFrame<'a>),
    Shows(u8),
}

/// What the head of a frame has read, by which the run goes on.
pub fn head_read<'r, 'a: 'r, B: DecodeRun, R: Lookup<JobResult<'a>, Decode<B>>>(
    results: &'r R,
    frame: u64,
) -> HeadRead<'r, 'a>
    ensures { IsHeadRead B.format B.film frame result }
{
    match results.result(JobName::Head { frame }) {
        JobResult::Begun(begun) => HeadRead::Coded(begun),
        JobResult::Existing(slot) => HeadRead::Shows(*slot),
        _ => unreachable!(),
    }
}

/// A coded frame as it has begun.
pub fn begun<'r, 'a: 'r, B: DecodeRun, R: Lookup<JobResult<'a>, Decode<B>>>(
    results: &'r R,
    frame: u64,
) -> &'r BegunFrame<'a>
    requires { (c : CodedFrame) × (coded B.format B.film frame ≡ Some c) }
    ensures { IsBegunFrame B.format B.film frame result.now }
{
    match head_read::<B, R>(results, frame) {
        HeadRead::Coded(begun) => begun,
        HeadRead::Shows(_) => unreachable!(),
    }
}

/// What a tile column came to.
pub fn column<'r, 'a: 'r, B: DecodeRun, R: Lookup<JobResult<'a>, Decode<B>>>(
    results: &'r R,
    frame: u64,
    column: u32,
) -> &'r Result<PlannedColumn, Unplanned>
    ensures { IsColumnOf B.format B.film frame column result.now }
{
    match results.result(JobName::Column { frame, column }) {
        JobResult::Column(planned) => planned,
        _ => unreachable!(),
    }
}

/// A frame whose tile columns are joined, by which the run goes on.
pub fn closed<'r, 'a: 'r, B: DecodeRun, R: Lookup<JobResult<'a>, Decode<B>>>(
    results: &'r R,
    frame: u64,
) -> &'r ClosedFrame
    ensures { IsClosedAs B.format B.film frame result.now }
{
    match results.result(JobName::Close { frame }) {
        JobResult::Closed(closed) => closed,
        _ => unreachable!(),
    }
}

/// A row of superblocks of a tile column, unless there was no memory for it.
pub fn strip<'r, 'a: 'r, B: DecodeRun, R: Lookup<JobResult<'a>, Decode<B>>>(
    results: &'r R,
    frame: u64,
    column: u32,
    row: u32,
) -> Option<&'r AnyPlanes>
    ensures { IfSome result (λ planes. IsStripOf B.format B.film frame column row planes.now) }
{
    match results.result(JobName::Rows { frame, column, row }) {
        JobResult::Strip(planes) => Some(planes),
        JobResult::Starved => None,
        _ => unreachable!(),
    }
}

/// What a row of superblocks leaves when it is filtered, unless there was no memory for it.
pub fn filtered<'r, 'a: 'r, B: DecodeRun, R: Lookup<JobResult<'a>, Decode<B>>>(
    results: &'r R,
    frame: u64,
    row: u32,
) -> Option<&'r AnyPlanes>
    ensures { IfSome result (λ planes. IsFilteredOf B.format B.film frame row planes.now) }
{
    match results.result(JobName::Filter { frame, row }) {
        JobResult::Filtered(planes) => Some(planes),
        JobResult::Starved => None,
        _ => unreachable!(),
    }
}

/// The end of a run at a frame of its group, as the frame's head or its close has told it.
pub fn ended<'r, 'a: 'r, B: DecodeRun, R: LastResult<JobResult<'a>, Group<B>>>(
    results: &'r R,
    frame: u64,
) -> &'r Outcome
    ensures { IsEnd B.format B.film (B.first + frame) result.now }
{
    match results.last(frame) {
        JobResult::Ended(outcome) => outcome,
        _ => unreachable!(),
    }
}
