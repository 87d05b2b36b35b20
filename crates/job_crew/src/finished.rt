ghost use Rattle.std.specs.Prelude.{◌≡◌, IfSome};
ghost use Rattle.job_crew.specs.Events.{HasHappened};

use job_order::Meaning;
use std::marker::{Model, PhantomData};
use vp9_types::JobName;

/// A job that is finished, with its result, which is right, and which it has in a world that the run's events have led to. Contracts see its
/// name.
#[derive(Drop)]
pub(crate) struct Finished<X: Drop, M: Meaning<X>> {
    job: JobName,
    value: X,
    of: PhantomData<M>,
}

impl<X: Drop, M: Meaning<X>> Model for Finished<X, M> {
    ghost use Rattle.vp9_types.specs.declared.job.JobName.{JobName as Name};
    ghost use Rattle.job_crew.specs.Events.{HasHappened};

    ghost Value = { Name };

    ghost view = { λ f. f.job };

    ghost invariant = { λ f. M.truth.right f.job f.value × HasHappened M.rules f.job f.value };
}

impl<X: Drop, M: Meaning<X>> Finished<X, M> {
    pub(crate) fn new(job: JobName, value: X) -> Finished<X, M>
        requires right { M.truth.right job value }
        requires event { HasHappened M.rules job value }
        ensures { result ≡ job }
    {
        Finished {
            job,
            value,
            of: PhantomData,
        }
    }

    /// The result, where it is this job's.
    pub(crate) fn of(&self, job: JobName) -> Option<&X>
        ensures right { IfSome result (λ x. M.truth.right job x.now) }
        ensures event { IfSome result (λ x. HasHappened M.rules job x.now) }
    {
        if self.job == job {
            Some(&self.value)
        } else {
            None
        }
    }

    /// The result by itself, where it is this job's.
    pub(crate) fn into_value(self, job: JobName) -> Option<X>
        ensures { IfSome result (λ x. M.truth.right job x) }
    {
        let Finished {
            job: own,
            value,
            ..
        } = self;
        if own == job { Some(value) } else { None }
    }
}
