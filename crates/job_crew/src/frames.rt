//! The frames at work.

ghost use Rattle.std.specs.Prelude.{◌≡◌, ◌<◌, ◌≤◌, length, Option, Some, IfSome};
ghost use Rattle.std.specs.Arc.{arc_value};
ghost use Rattle.job_crew.specs.Events.{IsLogged};

use crate::cells::frame_of;
use crate::frame::{Frame, Shared};
use crate::jobs::Window;
use crate::work::{AtWork, FrameWork, Gone, Loan, nothing};
use job_order::Meaning;
use std::alloc::{AllocError, Global};
use vp9_types::JobName;

/// The frames at work in order: from the first one that isn't written, or the last one, to the last that its head has found.
#[derive(Drop)]
pub(crate) struct Frames<X: Drop, M: Meaning<X>> {
    frames: Vec<FrameWork<X, M>>,
}

impl<X: Drop, M: Meaning<X>> Frames<X, M> {
    pub(crate) fn new(alloc: Global) -> Frames<X, M> {
        Frames {
            frames: Vec::new(alloc),
        }
    }

    /// The last frame at work. The others are let go.
    pub(crate) fn into_last(self) -> Option<FrameWork<X, M>> {
        let Frames { frames, .. } = self;
        let mut frames = frames;
        frames.pop()
    }

    /// Takes room for one frame more.
    pub(crate) fn make_room(&mut self) -> Result<(), AllocError> {
        self.frames.reserve(1)
    }

    /// Puts a frame in, behind the others, where there is room.
    pub(crate) fn put(&mut self, frame: FrameWork<X, M>) {
        let _ = self.frames.push(frame);
    }

    /// Takes out the first frame, where it is one of those up to a frame that is written, and another is behind it: all its jobs are done, and the
    /// other has what later ones ask for.
    pub(crate) fn retire(&mut self, frame: u64) -> Option<FrameWork<X, M>>
        ensures done { IfSome result (λ gone. (arc_value (arc_value gone.at_work.frame).own).frame ≤ frame) }
        ensures stays { 0 < length self.old.frames.items → 0 < length self.new.frames.items }
    {
        if self.frames.len() > 1 && self.frames[0].at_work().frame().number() <= frame {
            Some(self.frames.remove(0))
        } else {
            None
        }
    }

    /// Has a frame with less of the frames before it from then on, where it is there. What it had is handed back.
    pub(crate) fn narrow(&mut self, frame: Shared<Frame<X, M>>) -> Option<Shared<Frame<X, M>>>
        ensures same { length self.new.frames.items ≡ length self.old.frames.items }
    {
        let at = self.place(frame.number())?;
        Some(self.frames[at].narrow(frame))
    }

    /// Sets the result of a job, and takes back what the job was lent, with what no job asks for from then on.
    pub(crate) fn finish<W: Window>(
        &mut self,
        loan: Option<Loan<X, M>>,
        job: JobName,
        value: X,
    ) -> Gone<X, M>
        requires right { M.truth.right job value }
        requires event { IsLogged M.rules W.window job value }
    {
        if let Some(loan) = loan {
            loan.finish::<W>(job, value);
        }
        match self.place(frame_of(job)) {
            Some(at) => self.frames[at].let_go(job),
            None => nothing(),
        }
    }

    // The place of a frame, where it is there.
    fn place(&self, frame: u64) -> Option<usize>
        ensures { IfSome result (λ at. at < length self.now.frames.items) }
    {
        let first = self.frames.get(0)?.at_work().frame().number();
        let at = frame.checked_sub(first)? as usize;
        if at < self.frames.len() {
            Some(at)
        } else {
            None
        }
    }

    fn frame(&self, frame: u64) -> Option<&FrameWork<X, M>> {
        self.frames.get(self.place(frame)?)
    }

    // The frame whose results a job may see: its own, or where that isn't there yet the one before.
    fn of(&self, job: JobName) -> Option<&FrameWork<X, M>> {
        let frame = frame_of(job);
        match self.frame(frame) {
            Some(own) => Some(own),
            None => self.frame(frame.checked_sub(1)?),
        }
    }

    /// What a job may see of frames, but for their superblock rows.
    pub(crate) fn see(&self, job: JobName) -> Option<&AtWork<X, M>> {
        Some(self.of(job)?.at_work())
    }

    /// What a job may see, for the job to have.
    pub(crate) fn lend(&self, job: JobName) -> Option<Loan<X, M>> {
        self.of(job)?.lend(job)
    }
}
