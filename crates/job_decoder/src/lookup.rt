//! The results that the jobs of a group of frames may ask for, by their numbers in the film.

ghost use Rattle.std.specs.Prelude.{◌≡◌, ◌+◌, ◌<◌, ◌≤◌, ◌^◌, IfNone, IfSome};
ghost use Rattle.job_order.specs.Sound.{frame_of};
ghost use Rattle.job_crew.specs.Runs.{GoesOn};
ghost use Rattle.job_rows.specs.job_results.Groups.{in_film, numbered};
ghost use Rattle.job_rows.specs.job_results.Meaning.{decode_rules};
ghost use Rattle.job_rows.specs.job_results.JobResults.{IsRight};

use crate::kept_frames::{KeptFrames, Shared};
use job_crew::{Results, frame_of};
use job_rows::job_results::{Decode, DecodeRun, Group, JobResult, Lookup};
use std::marker::Model;
use std::sync::{Arc, Mutex, OnceLock, Wait};
use std::thread;
use vp9_types::JobName;

/// The results of the group's jobs, and those that are kept of the frames before it. A frame that a later one asks for is kept, so each is there
/// and no job waits for one. What is kept as a job first asks stays as long as it has these.
#[derive(Drop)]
pub(crate) struct FilmResults<'r, 'a: 'r, B: DecodeRun, R, T> {
    pub(crate) rt: &'r T,
    pub(crate) first: u64,
    pub(crate) kept: &'r Mutex<Shared<KeptFrames<'a, B>>>,
    pub(crate) held: OnceLock<Shared<KeptFrames<'a, B>>>,
    pub(crate) results: &'r R,
}

impl<'r, 'a: 'r, B: DecodeRun, R, T> Model for FilmResults<'r, 'a, B, R, T> {
    ghost use Rattle.std.specs.Prelude.{◌≡◌, ℕ};

    ghost Value = { ℕ };

    ghost view = { λ r. r.first };

    ghost invariant = { λ r. r.first ≡ B.first };
}

/// The job of a frame by another number of it.
fn with_number(job: JobName, number: u64) -> JobName
    ensures { result ≡ numbered number job }
{
    match job {
        JobName::Head { .. } => JobName::Head { frame: number },
        JobName::Column { column, .. } => JobName::Column {
            frame: number,
            column,
        },
        JobName::Close { .. } => JobName::Close { frame: number },
        JobName::Rows { column, row, .. } => JobName::Rows {
            frame: number,
            column,
            row,
        },
        JobName::Filter { row, .. } => JobName::Filter { frame: number, row },
        JobName::Write { .. } => JobName::Write { frame: number },
        JobName::End { .. } => JobName::End { frame: number },
    }
}

/// The job of a frame of a group, by its number in the film.
pub(crate) fn in_film(first: u64, job: JobName) -> JobName
    requires { first + frame_of job < 2 ^ 64 }
    ensures { result ≡ in_film first job }
{
    with_number(job, first + frame_of(job))
}

/// The job by its number in the group, where it is of one of the group's frames.
fn in_group(first: u64, job: JobName) -> Option<JobName>
    ensures { IfSome result (λ own. in_film first own ≡ job) }
{
    Some(with_number(job, frame_of(job).checked_sub(first)?))
}

impl<'r, 'a: 'r, B: DecodeRun, R, T: Wait> FilmResults<'r, 'a, B, R, T> {
    /// What is kept, as it was when this was first asked.
    fn held(&self) -> Option<&KeptFrames<'a, B>> {
        if self.held.get().is_none() {
            let kept = Arc::try_clone(&*self.kept.lock(self.rt)).ok()?;
            let _ = self.held.try_set(kept);
        }
        let held = self.held.get()?;
        Some(&**held)
    }

    fn kept_result(&self, job: JobName) -> Option<&JobResult<'a>>
        ensures right { IfSome result (λ x. IsRight B.format B.film job x.now) }
        ensures goes_on { IfSome result (λ x. GoesOn (decode_rules B.format B.film) job x.now) }
    {
        self.held()?.result(job)
    }
}

impl<'r, 'a: 'r, B: DecodeRun, R: Results<JobResult<'a>, Group<B>>, T: Wait> Lookup<
    JobResult<'a>,
    Decode<B>,
> for FilmResults<'r, 'a, B, R, T> {
    fn result(&self, job: JobName) -> &JobResult<'a> {
        if let Some(own) = in_group(self.first, job) {
            return self.results.result(own);
        }
        for _ in self.rt.forever() {
            if let Some(kept) = self.kept_result(job) {
                return kept;
            }
            thread::yield_now();
        }
        unreachable!()
    }
}
