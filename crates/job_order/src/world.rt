ghost use Rattle.std.specs.Prelude.{◌≡◌, ◌+◌, ◌∷◌, true, false, reverse, IfOk, IfErr};
ghost use Rattle.job_order.specs.JobSegments.{InOrder};
ghost use Rattle.job_order.specs.Worlds.{opening, after, and_published, IsAllowed, IsReady};

use crate::event::{BandName, Done, Event};
use crate::meaning::Meaning;
use crate::needs::needs_of;
use crate::ready::{are_done, is_done, is_drawn};
use crate::segment::Segment;
use std::alloc::{AllocError, Global};
use std::marker::{Model, PhantomData};
use vp9_types::{BandSpan, JobName};

/// The world of jobs: what has happened so far. Contracts see it as its parts.
#[derive(Drop)]
pub struct World<X: Drop, M: Meaning<X>> {
    window: u8,
    segments: Vec<Segment>,
    drawn: u64,
    finished: Vec<Done<X>>,
    announced: Vec<BandName>,
    stopped: bool,
    of: PhantomData<M>,
}

impl<X: Drop, M: Meaning<X>> Model for World<X, M> {
    ghost use Rattle.std.specs.Prelude.{reverse};
    ghost use Rattle.job_order.specs.Worlds.{WorldState};

    ghost Value = { WorldState X };

    ghost view = { λ w. record {
      window = w.window;
      segments = w.segments.items;
      drawn = w.drawn;
      finished = reverse w.finished.items;
      announced = reverse w.announced.items;
      stopped = w.stopped;
    } };
}

impl<X: Drop, M: Meaning<X>> World<X, M> {
    /// The opening world of a window.
    pub fn new(alloc: Global, window: u8) -> Result<World<X, M>, AllocError>
        ensures { IfOk result (λ w. w ≡ opening window) }
    {
        let mut segments = Vec::new(alloc);
        segments.push(Segment::Opening)?;
        Ok(World {
            window,
            segments,
            drawn: 0,
            finished: Vec::new(alloc),
            announced: Vec::new(alloc),
            stopped: false,
            of: PhantomData,
        })
    }

    /// What is published, in ticket order.
    pub fn segments(&self) -> &[Segment]
        ensures { result.now ≡ self.now.segments }
    {
        &self.segments
    }

    /// How many tickets are drawn.
    pub fn drawn(&self) -> u64
        ensures { result ≡ self.now.drawn }
    {
        self.drawn
    }

    /// Whether it was stopped.
    pub fn is_stopped(&self) -> bool
        ensures { result ≡ self.now.stopped }
    {
        self.stopped
    }

    /// The finished jobs with their results, the latest last.
    pub fn finished(&self) -> &[Done<X>]
        ensures { reverse result.now ≡ self.now.finished }
    {
        &self.finished
    }

    /// Whether the job is ready. `reads` is what a job of a superblock row of a column reads of other frames.
    pub fn is_ready(&self, job: JobName, reads: [Option<BandSpan>; 3]) -> bool
        requires order { InOrder self.now.segments }
        requires reads { reads ≡ M.rules.reads job self.now.finished }
        ensures yes { result ≡ true → IsReady M.rules self.now job }
        ensures no { result ≡ false → ¬ IsReady M.rules self.now job }
    {
        if !is_drawn(&self.segments, self.drawn, job) || is_done(&self.finished, job) {
            return false;
        }
        let needs = needs_of(&self.segments, self.window, job, reads);
        are_done(&self.segments, &self.finished, needs)
    }

    /// Takes an event that is allowed. Where memory is wanting, the world stays as it was.
    pub fn step(&mut self, event: Event<X>) -> Result<(), AllocError>
        requires { IsAllowed M.rules self.old event }
        ensures taken { IfOk result (λ _. self.new ≡ after M.rules self.old event) }
        ensures refused { IfErr result (λ _. self.new ≡ self.old) }
    {
        match event {
            Event::Draw => self.draw(),
            Event::Finish {
                job,
                result,
                publishes,
            } => self.finish(Done { job, result }, publishes),
            Event::Announce { frame, band } => self.announce(BandName { frame, band }),
            Event::Stop => {
                self.stopped = true;
                Ok(())
            }
        }
    }

    // A number that no run comes to counts as want of memory.
    fn draw(&mut self) -> Result<(), AllocError>
        ensures taken { IfOk result (λ _. self.new ≡ record self.old { drawn = self.old.drawn + 1 }) }
        ensures refused { IfErr result (λ _. self.new ≡ self.old) }
    {
        match self.drawn.checked_add(1) {
            Some(drawn) => {
                self.drawn = drawn;
                Ok(())
            }
            None => Err(AllocError),
        }
    }

    fn finish(&mut self, done: Done<X>, publishes: Option<Segment>) -> Result<(), AllocError>
        ensures taken { IfOk result (λ _. self.new ≡ record self.old { finished = done ∷ self.old.finished; segments = and_published self.old.segments publishes }) }
        ensures refused { IfErr result (λ _. self.new ≡ self.old) }
    {
        self.finished.reserve(1)?;
        self.segments.reserve(1)?;
        self.finished.push_reserved(done);
        if let Some(segment) = publishes {
            self.segments.push_reserved(segment);
        }
        Ok(())
    }

    fn announce(&mut self, band: BandName) -> Result<(), AllocError>
        ensures taken { IfOk result (λ _. self.new ≡ record self.old { announced = band ∷ self.old.announced }) }
        ensures refused { IfErr result (λ _. self.new ≡ self.old) }
    {
        self.announced.reserve(1)?;
        self.announced.push_reserved(band);
        Ok(())
    }
}
