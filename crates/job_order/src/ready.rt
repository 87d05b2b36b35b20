ghost use Rattle.std.specs.Prelude.{◌≡◌, ◌↔◌, ℕ, ◌+◌, ◌<◌, ◌≤◌, true, false, reverse, Some, None};
ghost use Rattle.vp9_types.specs.declared.job.JobName.{JobName};
ghost use Rattle.vp9_types.specs.declared.job.JobName.TheVariants.{Column, Rows, Filter};
ghost use Rattle.job_order.specs.JobSegments.{InOrder, IsBelow};
ghost use Rattle.job_order.specs.Needs.{IsInSpan, Publishes};
ghost use Rattle.job_order.specs.Worlds.{IsFinished};
ghost use Rattle.job_order.specs.Code.{IsIn, IsInIf, IsInOne, PublishesOne, Names};

use crate::event::Done;
use crate::needs::{JobSpan, Needs};
use crate::order::{Mark, job_from};
use crate::segment::Segment;
use vp9_types::{BandSpan, JobName};

// The job has a ticket below this number.
pub fn is_drawn(segments: &[Segment], drawn: u64, job: JobName) -> bool
    requires { InOrder segments.now }
    ensures yes { result ≡ true → IsBelow segments.now drawn job }
    ensures no { result ≡ false → ¬ IsBelow segments.now drawn job }
{
    let mut mark = Mark::first();
    let mut ticket = 0;
    while ticket < drawn {
        match job_from(segments, &mut mark, ticket) {
            Some(found) => {
                if found == job {
                    return true;
                }
            }
            None => return false,
        }
        ticket += 1;
    }
    false
}

// The job is one of the finished.
pub fn is_done<X>(finished: &[Done<X>], job: JobName) -> bool
    ensures yes { result ≡ true → IsFinished (reverse finished.now) job }
    ensures no { result ≡ false → ¬ IsFinished (reverse finished.now) job }
{
    let mut place = 0;
    while place < finished.len() {
        if finished[place].job == job {
            return true;
        }
        place += 1;
    }
    false
}

// All that is named is finished.
pub fn are_done<X>(segments: &[Segment], finished: &[Done<X>], needs: Needs) -> bool
    requires { InOrder segments.now }
    ensures yes { result ≡ true → (need : JobName) → Names segments.now needs need → IsFinished (reverse finished.now) need }
    ensures no { result ≡ false → ¬ ((need : JobName) → Names segments.now needs need → IsFinished (reverse finished.now) need) }
{
    if !are_jobs_done(finished, needs.jobs) {
        return false;
    }
    are_all_out(segments, finished, needs.bands)
}

fn are_jobs_done<X>(finished: &[Done<X>], jobs: [Option<JobSpan>; 2]) -> bool
    ensures yes { result ≡ true → (need : JobName) → IsInOne jobs need → IsFinished (reverse finished.now) need }
    ensures no { result ≡ false → ¬ ((need : JobName) → IsInOne jobs need → IsFinished (reverse finished.now) need) }
{
    if !is_span_done(finished, jobs[0]) {
        return false;
    }
    is_span_done(finished, jobs[1])
}

fn are_all_out<X>(segments: &[Segment], finished: &[Done<X>], bands: [Option<BandSpan>; 3]) -> bool
    requires { InOrder segments.now }
    ensures yes { result ≡ true → (need : JobName) → PublishesOne segments.now bands need → IsFinished (reverse finished.now) need }
    ensures no { result ≡ false → ¬ ((need : JobName) → PublishesOne segments.now bands need → IsFinished (reverse finished.now) need) }
{
    if !are_bands_out(segments, finished, bands[0])
        || !are_bands_out(segments, finished, bands[1])
    {
        return false;
    }
    are_bands_out(segments, finished, bands[2])
}

fn is_span_done<X>(finished: &[Done<X>], span: Option<JobSpan>) -> bool
    ensures yes { result ≡ true → (need : JobName) → IsInIf span need → IsFinished (reverse finished.now) need }
    ensures no { result ≡ false → ¬ ((need : JobName) → IsInIf span need → IsFinished (reverse finished.now) need) }
{
    match span {
        None => true,
        Some(span) => is_each_done(finished, span),
    }
}

fn is_each_done<X>(finished: &[Done<X>], span: JobSpan) -> bool
    ensures yes { result ≡ true → (need : JobName) → IsIn span need → IsFinished (reverse finished.now) need }
    ensures no { result ≡ false → ¬ ((need : JobName) → IsIn span need → IsFinished (reverse finished.now) need) }
{
    match span {
        JobSpan::One { job } => is_done(finished, job),
        JobSpan::Columns { frame, columns } => are_columns_done(finished, frame, columns),
        JobSpan::RowOf {
            frame,
            row,
            columns,
        } => is_row_done(finished, frame, row, columns),
    }
}

fn are_columns_done<X>(finished: &[Done<X>], frame: u64, columns: u32) -> bool
    ensures yes { result ≡ true → (c : ℕ) → c < columns → IsFinished (reverse finished.now) (Column frame c) }
    ensures no { result ≡ false → ¬ ((c : ℕ) → c < columns → IsFinished (reverse finished.now) (Column frame c)) }
{
    let mut column = 0;
    while column < columns {
        if !is_done(finished, JobName::Column { frame, column }) {
            return false;
        }
        column += 1;
    }
    true
}

fn is_row_done<X>(finished: &[Done<X>], frame: u64, row: u32, columns: u32) -> bool
    ensures yes { result ≡ true → (c : ℕ) → c < columns → IsFinished (reverse finished.now) (Rows frame c row) }
    ensures no { result ≡ false → ¬ ((c : ℕ) → c < columns → IsFinished (reverse finished.now) (Rows frame c row)) }
{
    let mut column = 0;
    while column < columns {
        if !is_done(finished, JobName::Rows { frame, column, row }) {
            return false;
        }
        column += 1;
    }
    true
}

// Each band of the span is published.
fn are_bands_out<X>(segments: &[Segment], finished: &[Done<X>], span: Option<BandSpan>) -> bool
    requires { InOrder segments.now }
    ensures yes { result ≡ true → (g band row : ℕ) → IsInSpan span g band → Publishes segments.now g row band → IsFinished (reverse finished.now) (Filter g row) }
    ensures no { result ≡ false → ¬ ((g band row : ℕ) → IsInSpan span g band → Publishes segments.now g row band → IsFinished (reverse finished.now) (Filter g row)) }
{
    match span {
        None => true,
        Some(span) => are_out(segments, finished, span),
    }
}

fn are_out<X>(segments: &[Segment], finished: &[Done<X>], span: BandSpan) -> bool
    requires { InOrder segments.now }
    ensures yes { result ≡ true → (band row : ℕ) → span.first ≤ band → band ≤ span.last → Publishes segments.now span.frame row band → IsFinished (reverse finished.now) (Filter span.frame row) }
    ensures no { result ≡ false → ¬ ((band row : ℕ) → span.first ≤ band → band ≤ span.last → Publishes segments.now span.frame row band → IsFinished (reverse finished.now) (Filter span.frame row)) }
{
    let mut band = span.first as u64;
    while band <= span.last as u64 {
        if !is_out(segments, finished, span.frame, band) {
            return false;
        }
        band += 1;
    }
    true
}

fn is_out<X>(segments: &[Segment], finished: &[Done<X>], frame: u64, band: u64) -> bool
    requires { InOrder segments.now }
    ensures yes { result ≡ true → (row : ℕ) → Publishes segments.now frame row band → IsFinished (reverse finished.now) (Filter frame row) }
    ensures no { result ≡ false → ¬ ((row : ℕ) → Publishes segments.now frame row band → IsFinished (reverse finished.now) (Filter frame row)) }
{
    match publisher(segments, frame, band) {
        None => true,
        Some(row) => is_done(finished, JobName::Filter { frame, row }),
    }
}

// The row of the filter that publishes a band, if one does.
fn publisher(segments: &[Segment], frame: u64, band: u64) -> Option<u32>
    requires { InOrder segments.now }
    ensures { (row : ℕ) → result ≡ Some row ↔ Publishes segments.now frame row band }
{
    if frame >= segments.len() as u64 / 2 {
        return None;
    }
    let place = (2 * frame + 2) as usize;
    if place >= segments.len() {
        return None;
    }
    match segments[place] {
        Segment::Build { rows, .. } => row_of_band(rows, band),
        _ => None,
    }
}

fn row_of_band(rows: u32, band: u64) -> Option<u32>
    ensures next { band + 1 < rows → result ≡ Some (band + 1) }
    ensures last { band + 1 ≡ rows → result ≡ Some band }
    ensures none { rows ≤ band → result ≡ None }
{
    if band >= rows as u64 {
        None
    } else if band + 1 == rows as u64 {
        Some(band as u32)
    } else {
        Some(band as u32 + 1)
    }
}
