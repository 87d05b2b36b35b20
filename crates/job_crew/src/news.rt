ghost use Rattle.std.specs.Prelude.{◌≡◌, [], ◌∷◌, false, None};

use job_order::Segment;
use vp9_types::{BandSpan, JobName};

pub(crate) const NO_BANDS: [Option<BandSpan>; 3] = [None, None, None];

/// A job is done: the bands of other frames that it read, the jobs that its result publishes, and whether the run ends by it.
#[derive(Clone, Copy)]
pub(crate) struct News {
    pub(crate) job: JobName,
    pub(crate) reads: [Option<BandSpan>; 3],
    pub(crate) publishes: Option<Segment>,
    pub(crate) ends: bool,
}

impl News {
    /// Of a job that read none, by which the run doesn't end.
    pub(crate) fn new(job: JobName, publishes: Option<Segment>) -> News
        ensures job { result.job ≡ job }
        ensures reads { result.reads ≡ None ∷ None ∷ None ∷ [] }
        ensures publishes { result.publishes ≡ publishes }
        ensures goes_on { result.ends ≡ false }
    {
        News {
            job,
            reads: NO_BANDS,
            publishes,
            ends: false,
        }
    }
}
