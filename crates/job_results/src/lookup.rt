//! Results of jobs that are done, whichever group of frames they were done with.

ghost use Rattle.job_crew.specs.Runs.{GoesOn};

use job_order::Meaning;
use vp9_types::JobName;

/// Where a job looks its needs' results up, by the numbers of their frames in the film: of its own group and of those before it.
pub trait Lookup<X, M: Meaning<X>> {
    /// The result of a job that the borrower needs, or that one of these needs in turn, as `job_crew` lends them. A head's has found a frame, and
    /// a close's has built one.
    fn result(&self, job: JobName) -> &X
        ensures right { M.truth.right job result.now }
        ensures goes_on { GoesOn M.rules job result.now };
}
