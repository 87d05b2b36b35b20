//! Results of frames before a group, kept as long as a slot may hold their frame.

ghost use Rattle.std.specs.Prelude.{◌≡◌, All, IfSome, IfOk};
ghost use Rattle.vp9_types.specs.declared.job.JobName.TheVariants.{Close, Filter};
ghost use Rattle.job_crew.specs.Left.{HasRightResults};
ghost use Rattle.job_crew.specs.Runs.{GoesOn};
ghost use Rattle.job_rows.specs.job_results.Meaning.{decode_rules, decode_truth};
ghost use Rattle.job_rows.specs.job_results.JobResults.{IsRight};

use job_crew::FrameResults;
use job_rows::job_results::{DecodeRun, JobResult};
use std::alloc::{AllocError, Global};
use std::marker::{Model, PhantomData};
use std::sync::Arc;
use vp9_types::JobName;

/// The slots behind a frame: the numbers of the frames that they hold.
pub(crate) type Slots = [Option<u64>; 8];

/// A value with several owners.
pub(crate) type Shared<T> = Arc<T, Global>;

/// Right results of a frame.
#[derive(Drop)]
pub(crate) struct KeptFrame<'a, B: DecodeRun> {
    results: FrameResults<JobResult<'a>>,
    of: PhantomData<B>,
}

impl<'a, B: DecodeRun> Model for KeptFrame<'a, B> {
    ghost use Rattle.std.specs.Prelude.{ℕ};
    ghost use Rattle.job_crew.specs.Left.{HasRightResults};
    ghost use Rattle.job_rows.specs.job_results.Meaning.{decode_truth};

    ghost Value = { ℕ };

    ghost view = { λ k. 0 };

    ghost invariant = { λ k. HasRightResults (decode_truth B.format B.film) k.results };
}

impl<'a, B: DecodeRun> KeptFrame<'a, B> {
    fn new(results: FrameResults<JobResult<'a>>) -> KeptFrame<'a, B>
        requires { HasRightResults (decode_truth B.format B.film) results }
    {
        KeptFrame {
            results,
            of: PhantomData,
        }
    }

    fn results(&self) -> &FrameResults<JobResult<'a>>
        ensures { HasRightResults (decode_truth B.format B.film) result.now }
    {
        &self.results
    }

    fn into_results(self) -> FrameResults<JobResult<'a>>
        ensures { HasRightResults (decode_truth B.format B.film) result }
    {
        let KeptFrame { results, .. } = self;
        results
    }
}

/// Those of some frames.
#[derive(Drop)]
pub(crate) struct KeptFrames<'a, B: DecodeRun> {
    frames: Vec<Shared<KeptFrame<'a, B>>>,
}

/// One frame's results more, where nobody else has them.
fn put<'a, B: DecodeRun>(
    frame: Shared<KeptFrame<'a, B>>,
    all: &mut Vec<FrameResults<JobResult<'a>>>,
) -> Result<(), AllocError>
    requires { All (HasRightResults (decode_truth B.format B.film)) all.old.items }
    ensures { All (HasRightResults (decode_truth B.format B.film)) all.new.items }
{
    if let Some(kept) = Arc::into_inner(frame) {
        all.push(kept.into_results())?;
    }
    Ok(())
}

/// Whether the frame is named.
pub(crate) fn is_named(named: &[Option<u64>], frame: u64) -> bool {
    named.contains(&Some(frame))
}

impl<'a, B: DecodeRun> KeptFrames<'a, B> {
    pub(crate) fn shared(
        alloc: Global,
        all: Vec<FrameResults<JobResult<'a>>>,
    ) -> Result<Shared<KeptFrames<'a, B>>, AllocError>
        requires { All (HasRightResults (decode_truth B.format B.film)) all.items }
    {
        let mut all = all;
        let mut frames = Vec::new(alloc);
        while let Some(results) = all.pop() {
            frames.push(Arc::new(alloc, KeptFrame::new(results))?)?;
        }
        Ok(Arc::new(alloc, KeptFrames { frames })?)
    }

    fn frame(&self, frame: u64) -> Option<&FrameResults<JobResult<'a>>>
        ensures frame { IfSome result (λ r. r.now.frame ≡ frame) }
        ensures right { IfSome result (λ r. HasRightResults (decode_truth B.format B.film) r.now) }
    {
        for at in 0..self.frames.len() {
            let results = self.frames[at].results();
            if results.frame == frame {
                return Some(results);
            }
        }
        None
    }

    fn close(&self, frame: u64) -> Option<&JobResult<'a>>
        ensures right { IfSome result (λ x. IsRight B.format B.film (Close frame) x.now) }
        ensures goes_on { IfSome result (λ x. GoesOn (decode_rules B.format B.film) (Close frame) x.now) }
    {
        match &self.frame(frame)?.close {
            Some(close) => match close {
                JobResult::Closed(_) => Some(close),
                _ => None,
            },
            None => None,
        }
    }

    fn row(&self, frame: u64, row: u32) -> Option<&JobResult<'a>>
        ensures { IfSome result (λ x. IsRight B.format B.film (Filter frame row) x.now) }
    {
        match self.frame(frame)?.filters.get(row as usize)? {
            Some(filtered) => Some(filtered),
            None => None,
        }
    }

    /// The result of a job of one of these frames, where it is kept.
    pub(crate) fn result(&self, job: JobName) -> Option<&JobResult<'a>>
        ensures right { IfSome result (λ x. IsRight B.format B.film job x.now) }
        ensures goes_on { IfSome result (λ x. GoesOn (decode_rules B.format B.film) job x.now) }
    {
        match job {
            JobName::Close { frame } => self.close(frame),
            JobName::Filter { frame, row } => self.row(frame, row),
            _ => None,
        }
    }

    /// Whether all of these frames are named.
    pub(crate) fn are_named(&self, named: &[Option<u64>]) -> bool {
        for at in 0..self.frames.len() {
            if !is_named(named, self.frames[at].results().frame) {
                return false;
            }
        }
        true
    }

    /// Those of these frames that are named.
    pub(crate) fn named(
        &self,
        alloc: Global,
        named: &[Option<u64>],
    ) -> Result<Shared<KeptFrames<'a, B>>, AllocError> {
        let mut frames = Vec::new(alloc);
        for at in 0..self.frames.len() {
            let kept = &self.frames[at];
            if is_named(named, kept.results().frame) {
                frames.push(Arc::try_clone(kept)?)?;
            }
        }
        Ok(Arc::new(alloc, KeptFrames { frames })?)
    }

    /// The results by themselves, of the frames that nobody else has.
    pub(crate) fn into_results(
        self,
        alloc: Global,
    ) -> Result<Vec<FrameResults<JobResult<'a>>>, AllocError>
        ensures { IfOk result (λ all. All (HasRightResults (decode_truth B.format B.film)) all.items) }
    {
        let KeptFrames { frames } = self;
        let mut frames = frames;
        let mut all = Vec::new(alloc);
        while let Some(frame) = frames.pop() {
            put(frame, &mut all)?;
        }
        Ok(all)
    }
}
