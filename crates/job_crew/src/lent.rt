ghost use Rattle.std.specs.Prelude.{◌≡◌, true, IfSome};
ghost use Rattle.job_crew.specs.Runs.{GoesOn, IsLast};
ghost use Rattle.job_crew.specs.Events.{HasHappened, HasEndedBy};

use crate::cells::Cell;
use crate::jobs::{Jobs, LastResult, Output, Results};
use crate::work::{AtWork, Strips, find};
use job_order::Meaning;
use std::marker::PhantomData;
use std::sync::Wait;
use std::thread;
use vp9_types::JobName;

/// The results that a job may ask for: those of its own frame, and of the frames before it that this has. A job is begun when its needs are
/// finished, and a frame keeps what its jobs may ask for, so each result is there and no job waits for one.
#[derive(Drop)]
pub(crate) struct Lent<'r, 'c, 'f, X: Drop, M: Meaning<X>, K, J, R> {
    pub(crate) rt: &'r R,
    pub(crate) jobs: &'c J,
    pub(crate) at_work: Option<&'f AtWork<X, M>>,
    pub(crate) strips: Option<&'f Strips<X, M>>,
    pub(crate) last: &'c Cell<X, M>,
    pub(crate) outputs: PhantomData<K>,
}

impl<'r, 'c, 'f, X: Drop, M: Meaning<X>, K: Output<X>, J: Jobs<X, M, K>, R> Lent<
    'r,
    'c,
    'f,
    X,
    M,
    K,
    J,
    R,
> {
    // A result by which the run doesn't end.
    fn find(&self, job: JobName) -> Option<&X>
        ensures right { IfSome result (λ x. M.truth.right job x.now) }
        ensures event { IfSome result (λ x. HasHappened M.rules job x.now) }
        ensures goes_on { IfSome result (λ x. GoesOn M.rules job x.now) }
    {
        let value = find(self.at_work?, self.strips, job)?;
        let goes_on = match job {
            JobName::Head { .. } => self.jobs.layout(value).is_some(),
            JobName::Close { .. } => self.jobs.building(value).is_some(),
            _ => true,
        };
        if goes_on { Some(value) } else { None }
    }

    // The close's result by which the run ends, or the head's, which no frame has.
    fn find_last(&self, frame: u64) -> Option<&X>
        ensures last { IfSome result (λ x. IsLast M.rules M.truth frame x.now) }
        ensures event { IfSome result (λ x. HasEndedBy M.rules frame x.now) }
    {
        if let Some(lent) = self.at_work
            && let Some(close) = lent.frame().find(JobName::Close { frame })
            && self.jobs.building(close).is_none()
        {
            return Some(close);
        }
        let head = self.last.get()?.of(JobName::Head { frame })?;
        if self.jobs.layout(head).is_none() {
            Some(head)
        } else {
            None
        }
    }
}

impl<'r, 'c, 'f, X: Drop, M: Meaning<X>, K: Output<X>, J: Jobs<X, M, K>, R: Wait> Results<X, M>
    for Lent<'r, 'c, 'f, X, M, K, J, R> {
    fn result(&self, job: JobName) -> &X {
        for _ in self.rt.forever() {
            if let Some(value) = self.find(job) {
                return value;
            }
            thread::yield_now();
        }
        unreachable!()
    }
}

impl<'r, 'c, 'f, X: Drop, M: Meaning<X>, K: Output<X>, J: Jobs<X, M, K>, R: Wait> LastResult<X, M>
    for Lent<'r, 'c, 'f, X, M, K, J, R> {
    fn last(&self, frame: u64) -> &X {
        for _ in self.rt.forever() {
            if let Some(value) = self.find_last(frame) {
                return value;
            }
            thread::yield_now();
        }
        unreachable!()
    }
}
