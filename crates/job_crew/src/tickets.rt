//! The ticket of a job.

ghost use Rattle.std.specs.Prelude.{◌≡◌, ℕ, ◌+◌, ◌*◌, Option, Some, None, IfSome, slice_get};
ghost use Rattle.vp9_types.specs.declared.job.JobName.TheVariants.{Head};
ghost use Rattle.job_order.specs.declared.segment.Segment.TheVariants.{Parse, Build, Last};
ghost use Rattle.job_order.specs.declared.segment.Shown.{Shown};
ghost use Rattle.job_order.specs.JobSegments.{jobs_of, job_at};
ghost use Rattle.job_crew.specs.Events.{AreStarts};

use crate::cells::frame_of;
use job_order::Segment;
use vp9_types::JobName;

// The segment of a job, if it is published.
fn home_of(segments: usize, job: JobName) -> Option<usize> {
    let first = (frame_of(job) as usize).checked_mul(2)?;
    match job {
        JobName::Head { .. } => Some(first),
        JobName::Column { .. } | JobName::Close { .. } => first.checked_add(1),
        JobName::Rows { .. } | JobName::Filter { .. } | JobName::Write { .. } => {
            first.checked_add(2)
        }
        JobName::End { .. } => segments.checked_sub(1),
    }
}

// The place of a job in a segment, where it stands there.
fn place_in(segment: Segment, job: JobName) -> Option<u64>
    ensures { IfSome result (λ place. slice_get (jobs_of segment) place ≡ Some job) }
{
    match segment {
        Segment::Opening => first_place(0, job),
        Segment::Parse { frame, columns } => parse_place(frame, columns, job),
        Segment::Build {
            frame,
            columns,
            rows,
            ..
        } => build_place(frame, columns, rows, job),
        Segment::Last { frame } => last_place(frame, job),
    }
}

// A head of this frame stands first.
fn first_place(frame: u64, job: JobName) -> Option<u64>
    ensures { IfSome result (λ place. (job ≡ Head frame) × (place ≡ 0)) }
{
    match job {
        JobName::Head { frame: own } if own == frame => Some(0),
        _ => None,
    }
}

fn last_place(frame: u64, job: JobName) -> Option<u64>
    ensures { IfSome result (λ place. slice_get (jobs_of (Last frame)) place ≡ Some job) }
{
    match job {
        JobName::End { frame: own } if own == frame => Some(0),
        _ => None,
    }
}

fn parse_place(frame: u64, columns: u32, job: JobName) -> Option<u64>
    ensures { IfSome result (λ place. slice_get (jobs_of (Parse frame columns)) place ≡ Some job) }
{
    match job {
        JobName::Column { frame: own, column } if own == frame && column < columns => {
            Some(column as u64)
        }
        JobName::Close { frame: own } if own == frame => Some(columns as u64),
        _ => None,
    }
}

fn build_place(frame: u64, columns: u32, rows: u32, job: JobName) -> Option<u64>
    ensures { IfSome result (λ place. slice_get (jobs_of (Build frame columns rows None)) place ≡ Some job) }
{
    let wide = columns as u64 + 1;
    match job {
        JobName::Rows {
            frame: own,
            column,
            row,
        } if own == frame && column < columns && row < rows => {
            (row as u64 * wide + column as u64).checked_add(1)
        }
        JobName::Filter { frame: own, row } if own == frame && row < rows => {
            (row as u64 * wide + columns as u64).checked_add(1)
        }
        JobName::Write { frame: own } if own == frame => (rows as u64 * wide).checked_add(1),
        _ => first_place(frame.checked_add(1)?, job),
    }
}

/// The ticket of a job, where it is published. A start is the first ticket of a segment.
pub(crate) fn ticket_of(segments: &[Segment], starts: &[u64], job: JobName) -> Option<u64>
    requires { AreStarts segments.now starts.now }
    ensures { IfSome result (λ ticket. job_at segments.now ticket ≡ Some job) }
{
    let home = home_of(segments.len(), job)?;
    if home >= segments.len() || home >= starts.len() {
        return None;
    }
    let place = place_in(segments[home], job)?;
    starts[home].checked_add(place)
}

/// How many superblock rows a frame has, once its close is finished.
pub(crate) fn rows_of(segments: &[Segment], frame: u64) -> Option<u32>
    ensures { IfSome result (λ rows. (f : ℕ) × (columns : ℕ) × (shown : Option Shown) × (slice_get segments.now (2 * frame + 2) ≡ Some (Build f columns rows shown))) }
{
    let at = frame.checked_mul(2)?.checked_add(2)? as usize;
    if at >= segments.len() {
        return None;
    }
    match segments[at] {
        Segment::Build { rows, .. } => Some(rows),
        _ => None,
    }
}
