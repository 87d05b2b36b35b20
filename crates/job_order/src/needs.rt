ghost use Rattle.std.specs.Prelude.{◌≡◌, ◌↔◌, ℕ, ◌+◌, ◌*◌, List, [], ◌∷◌, Option, Some, None, slice_get};
ghost use Rattle.vp9_types.specs.declared.job.JobName.{JobName};
ghost use Rattle.vp9_types.specs.declared.job.JobName.TheVariants.{Close, Rows, Filter, Write};
ghost use Rattle.job_order.specs.declared.segment.Segment.TheVariants.{Parse, Build};
ghost use Rattle.job_order.specs.declared.segment.Shown.{Shown};
ghost use Rattle.job_order.specs.JobSegments.{InOrder, IsListed};
ghost use Rattle.job_order.specs.Needs.{IsNeed};
ghost use Rattle.job_order.specs.declared.needs.JobSpan.TheVariants.{One, Columns, RowOf};
ghost use Rattle.job_order.specs.Code.{Names, IsParsed, IsBuilt, job_before, first_bands, shown_bands, needs, no_bands};

use crate::segment::{Segment, Shown};
use vp9_types::{BandSpan, JobName};

/// Some jobs: one, the columns of a frame below a number, or a superblock row in the columns below a number.
#[derive(Clone, Copy, Debug, PartialEq, Eq)]
pub enum JobSpan {
    One { job: JobName },
    Columns { frame: u64, columns: u32 },
    RowOf { frame: u64, row: u32, columns: u32 },
}

/// What a job needs: jobs, and bands, which filters publish.
#[derive(Clone, Copy, Debug, PartialEq, Eq)]
pub struct Needs {
    pub jobs: [Option<JobSpan>; 2],
    pub bands: [Option<BandSpan>; 3],
}

// How a frame is built.
#[derive(Clone, Copy)]
struct Built {
    columns: u32,
    rows: u32,
    shown: Option<Shown>,
}

/// The needs of a job. `reads` is what a job of a superblock row of a column reads of other frames.
pub fn needs_of(
    segments: &[Segment],
    window: u8,
    job: JobName,
    reads: [Option<BandSpan>; 3],
) -> Needs
    requires order { InOrder segments.now }
    requires listed { IsListed segments.now job }
    ensures { (need : JobName) → IsNeed segments.now window reads job need ↔ Names segments.now result need }
{
    match job {
        JobName::Head { frame } => by_jobs(close_before(frame), write_before(frame, window as u64)),
        JobName::Column { frame, .. } => by_jobs(one(JobName::Head { frame }), None),
        JobName::Close { frame } => by_jobs(
            one(JobName::Head { frame }),
            columns_of(segments, frame),
        ),
        JobName::Rows { frame, column, row } => Needs {
            jobs: [
                one(JobName::Close { frame }),
                rows_above(frame, column, row),
            ],
            bands: reads,
        },
        JobName::Filter { frame, row } => by_jobs(
            row_of(segments, frame, row),
            filter_above(frame, row),
        ),
        JobName::Write { frame } => needs_of_write(segments, frame),
        JobName::End { frame } => by_jobs(write_before(frame, 1), None),
    }
}

fn by_jobs(first: Option<JobSpan>, second: Option<JobSpan>) -> Needs
    ensures { result ≡ needs first second no_bands }
{
    Needs {
        jobs: [first, second],
        bands: [None, None, None],
    }
}

fn one(job: JobName) -> Option<JobSpan>
    ensures { result ≡ Some (One job) }
{
    Some(JobSpan::One { job })
}

fn close_before(frame: u64) -> Option<JobSpan>
    ensures { result ≡ job_before Close frame 1 }
{
    if frame < 1 {
        None
    } else {
        one(JobName::Close { frame: frame - 1 })
    }
}

fn write_before(frame: u64, back: u64) -> Option<JobSpan>
    ensures { result ≡ job_before Write frame back }
{
    if frame < back {
        None
    } else {
        one(JobName::Write {
            frame: frame - back,
        })
    }
}

fn rows_above(frame: u64, column: u32, row: u32) -> Option<JobSpan>
    ensures { result ≡ job_before (λ r. Rows frame column r) row 1 }
{
    if row < 1 {
        None
    } else {
        one(JobName::Rows {
            frame,
            column,
            row: row - 1,
        })
    }
}

fn filter_above(frame: u64, row: u32) -> Option<JobSpan>
    ensures { result ≡ job_before (λ r. Filter frame r) row 1 }
{
    if row < 1 {
        None
    } else {
        one(JobName::Filter {
            frame,
            row: row - 1,
        })
    }
}

// The columns that are parsed of a frame.
fn columns_of(segments: &[Segment], frame: u64) -> Option<JobSpan>
    requires { IsParsed segments.now frame }
    ensures { (columns : ℕ) × (slice_get segments.now (2 * frame + 1) ≡ Some (Parse frame columns)) × (result ≡ Some (Columns frame columns)) }
{
    match segments[(2 * frame + 1) as usize] {
        Segment::Parse { columns, .. } => Some(JobSpan::Columns { frame, columns }),
        _ => unreachable!(),
    }
}

fn building_of(segments: &[Segment], frame: u64) -> Built
    requires { IsBuilt segments.now frame }
    ensures { slice_get segments.now (2 * frame + 2) ≡ Some (Build frame result.columns result.rows result.shown) }
{
    match segments[(2 * frame + 2) as usize] {
        Segment::Build {
            columns,
            rows,
            shown,
            ..
        } => Built {
            columns,
            rows,
            shown,
        },
        _ => unreachable!(),
    }
}

// A superblock row in all columns.
fn row_of(segments: &[Segment], frame: u64, row: u32) -> Option<JobSpan>
    requires { IsBuilt segments.now frame }
    ensures { (columns : ℕ) × (rows : ℕ) × (shown : Option Shown) × (slice_get segments.now (2 * frame + 2) ≡ Some (Build frame columns rows shown)) × (result ≡ Some (RowOf frame row columns)) }
{
    let columns = building_of(segments, frame).columns;
    Some(JobSpan::RowOf {
        frame,
        row,
        columns,
    })
}

fn first_bands(frame: u64, bands: u32) -> Option<BandSpan>
    ensures { result ≡ first_bands frame bands }
{
    if 0 < bands {
        Some(BandSpan {
            frame,
            first: 0,
            last: bands - 1,
        })
    } else {
        None
    }
}

fn shown_bands(shown: Option<Shown>) -> Option<BandSpan>
    ensures { result ≡ shown_bands shown }
{
    match shown {
        Some(shown) => first_bands(shown.frame, shown.bands),
        None => None,
    }
}

// The write of a frame needs the frame's bands, and those of the frame that it shows.
fn needs_of_write(segments: &[Segment], frame: u64) -> Needs
    requires { IsBuilt segments.now frame }
    ensures { (columns : ℕ) × (rows : ℕ) × (shown : Option Shown) × (slice_get segments.now (2 * frame + 2) ≡ Some (Build frame columns rows shown))
        × (result ≡ needs (Some (One (Close frame))) (job_before Write frame 1) (first_bands frame rows ∷ shown_bands shown ∷ None ∷ [])) }
{
    let built = building_of(segments, frame);
    Needs {
        jobs: [one(JobName::Close { frame }), write_before(frame, 1)],
        bands: [
            first_bands(frame, built.rows),
            shown_bands(built.shown),
            None,
        ],
    }
}
