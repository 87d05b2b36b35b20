ghost use Rattle.std.specs.Prelude.{◌≡◌, ◌+◌, ◌<◌, ◌≤◌, ℕ, [], ◌∷◌, true, false, length, List, Option, Some, IfSome, IfNone, IfOk, slice_get};
ghost use Rattle.vp9_types.specs.declared.job.JobName.{JobName};
ghost use Rattle.vp9_types.specs.declared.job.JobName.TheVariants.{Column, Rows, Filter};
ghost use Rattle.job_order.specs.JobSegments.{InOrder, IsListed, StandsAt, jobs_in, job_at};
ghost use Rattle.job_order.specs.Needs.{IsNeed, IsInSpan, Publishes};
ghost use Rattle.job_order.specs.Code.{IsIn, IsInIf};
ghost use Rattle.job_order.specs.Worlds.{published};
ghost use Rattle.job_order.specs.declared.segment.Segment.TheVariants.{Opening, Build, Last};
ghost use Rattle.job_order.specs.declared.segment.Shown.{Shown};
ghost use Rattle.job_crew.specs.Runs.{IsDue};
ghost use Rattle.job_crew.specs.Events.{CanDo, Covers, HasPassed, MayBegin, IsLogged};
ghost use Rattle.job_crew.specs.Code.{Fits, TakesOut, Puts, Finishes, IsDone, HasPut};

use crate::jobs::Window;
use crate::marks::Marks;
use crate::news::News;
use crate::tickets::{rows_of, ticket_of};
use job_order::{JobSpan, Mark, Meaning, Segment, job_from, needs_of};
use std::alloc::{AllocError, Global};
use std::marker::{Model, PhantomData};
use vp9_types::{BandSpan, JobName};

/// The jobs that were drawn and not begun, what is published, and what is finished.
#[derive(Drop)]
pub(crate) struct Pool<X, M: Meaning<X>, W: Window> {
    window: u8,
    segments: Vec<Segment>,
    starts: Vec<u64>,
    mark: Mark,
    published: u64,
    drawn: u64,
    marks: Marks,
    names: Vec<JobName>,
    room: usize,
    waiting: u32,
    over: bool,
    of: PhantomData<M>,
    within: PhantomData<W>,
    results: PhantomData<X>,
}

impl<X, M: Meaning<X>, W: Window> Model for Pool<X, M, W> {
    ghost use Rattle.std.specs.Prelude.{◌≡◌, ◌≤◌, vec_capacity};
    ghost use Rattle.job_crew.specs.Code.{PoolParts, IsPool};
    ghost use Rattle.job_crew.specs.Events.{IsShop};

    ghost Value = { PoolParts };

    ghost view = { λ p. record { window = p.window; segments = p.segments.items; names = p.names.items; drawn = p.drawn; base = p.marks.base; marks = p.marks.marks.items; room = p.room; over = p.over } };

    ghost invariant = { λ p. IsPool M.rules M.truth p.segments.items p.names.items p.mark p.published p.drawn × (p.room ≤ vec_capacity p.names) × (p.window ≡ W.window)
        × IsShop M.rules M.truth W.window p.segments.items p.starts.items p.drawn p.marks.base p.marks.marks.items p.over };
}

impl<X, M: Meaning<X>, W: Window> Pool<X, M, W> {
    /// The pool of a run that begins, with room for so many jobs.
    pub(crate) fn new(alloc: Global, room: usize, window: u8) -> Result<Pool<X, M, W>, AllocError>
        requires can { CanDo M.rules M.truth }
        requires window { W.window ≡ window }
        ensures { IfOk result (λ p. p ≡ record { window = window; segments = Opening ∷ []; names = []; drawn = 0; base = 0; marks = []; room = room; over = false }) }
    {
        let mut segments = Vec::new(alloc);
        segments.reserve(4)?;
        segments.push_reserved(Segment::Opening);
        let mut starts = Vec::new(alloc);
        starts.reserve(4)?;
        starts.push_reserved(0);
        let marks = Marks::new(alloc)?;
        let mut names = Vec::new(alloc);
        names.reserve(room)?;
        Ok(Pool {
            window,
            segments,
            starts,
            mark: Mark::first(),
            published: 1,
            drawn: 0,
            marks,
            names,
            room,
            waiting: 0,
            over: false,
            of: PhantomData,
            within: PhantomData,
            results: PhantomData,
        })
    }

    pub(crate) fn is_over(&self) -> bool
        ensures { result ≡ self.now.over }
    {
        self.over
    }

    /// Whether a worker waits.
    pub(crate) fn has_waiter(&self) -> bool {
        self.waiting > 0
    }

    /// A worker begins to wait.
    pub(crate) fn wait(&mut self)
        ensures { self.new ≡ self.old }
    {
        self.waiting = self.waiting.wrapping_add(1);
    }

    /// A worker waits no more.
    pub(crate) fn wake(&mut self)
        ensures { self.new ≡ self.old }
    {
        self.waiting = self.waiting.wrapping_sub(1);
    }

    /// Takes room for what the next head and close publish, and for an end.
    pub(crate) fn make_room(&mut self) -> Result<(), AllocError>
        ensures { self.new ≡ self.old }
    {
        self.segments.reserve(3)?;
        self.starts.reserve(3)
    }

    // The ticket of a job, where it is published.
    fn ticket(&self, job: JobName) -> Option<u64>
        ensures { IfSome result (λ ticket. job_at self.now.segments ticket ≡ Some job) }
    {
        ticket_of(&self.segments, &self.starts, job)
    }

    // Whether a job is finished.
    fn is_done(&self, job: JobName) -> bool
        ensures { result ≡ true → IsDone self.now job }
    {
        match self.ticket(job) {
            Some(ticket) => self.marks.is_set(ticket),
            None => false,
        }
    }

    fn are_columns_done(&self, frame: u64, columns: u32) -> bool
        ensures { result ≡ true → (c : ℕ) → c < columns → IsDone self.now (Column frame c) }
    {
        for column in 0..columns {
            if !self.is_done(JobName::Column { frame, column }) {
                return false;
            }
        }
        true
    }

    fn is_row_done(&self, frame: u64, row: u32, columns: u32) -> bool
        ensures { result ≡ true → (c : ℕ) → c < columns → IsDone self.now (Rows frame c row) }
    {
        for column in 0..columns {
            if !self.is_done(JobName::Rows { frame, column, row }) {
                return false;
            }
        }
        true
    }

    fn is_span_done(&self, span: JobSpan) -> bool
        ensures { result ≡ true → (need : JobName) → IsIn span need → IsDone self.now need }
    {
        match span {
            JobSpan::One { job } => self.is_done(job),
            JobSpan::Columns { frame, columns } => self.are_columns_done(frame, columns),
            JobSpan::RowOf {
                frame,
                row,
                columns,
            } => self.is_row_done(frame, row, columns),
        }
    }

    // Whether some jobs are all finished.
    fn are_done(&self, span: Option<JobSpan>) -> bool
        ensures { result ≡ true → (need : JobName) → IsInIf span need → IsDone self.now need }
    {
        match span {
            None => true,
            Some(span) => self.is_span_done(span),
        }
    }

    // Whether some bands are all published. The filters of a frame are finished one after another, so the last of them shows it.
    fn are_out(&self, span: BandSpan) -> bool
        ensures { result ≡ true → (g band row : ℕ) → IsInSpan (Some span) g band → Publishes self.now.segments g row band → IsDone self.now (Filter g row) }
    {
        match rows_of(&self.segments, span.frame) {
            Some(rows) => self.is_done(JobName::Filter {
                frame: span.frame,
                row: filter_of(rows, span.last),
            }),
            None => false,
        }
    }

    fn are_published(&self, span: Option<BandSpan>) -> bool
        ensures { result ≡ true → (g band row : ℕ) → IsInSpan span g band → Publishes self.now.segments g row band → IsDone self.now (Filter g row) }
    {
        match span {
            None => true,
            Some(span) => self.are_out(span),
        }
    }

    /// Whether the needs of a job are finished, where it reads these bands of other frames.
    pub(crate) fn has_needs(&self, job: JobName, reads: [Option<BandSpan>; 3]) -> bool
        requires listed { IsListed self.now.segments job }
        ensures { result ≡ true → (need : JobName) → IsNeed self.now.segments self.now.window reads job need → IsDone self.now need }
    {
        let needs = needs_of(&self.segments, self.window, job, reads);
        if !self.are_done(needs.jobs[0]) || !self.are_done(needs.jobs[1]) {
            return false;
        }
        if !self.are_published(needs.bands[0]) || !self.are_published(needs.bands[1]) {
            return false;
        }
        self.are_published(needs.bands[2])
    }

    // The place of a job's mark, where the job is drawn and not finished.
    fn open_place(&self, job: JobName) -> Option<usize>
        ensures there { IfSome result (λ at. job_at self.now.segments (self.now.base + at) ≡ Some job) }
        ensures open { IfSome result (λ at. slice_get self.now.marks at ≡ Some false) }
    {
        self.marks.open_place(self.ticket(job)?)
    }

    /// Whether a job may begin, where it reads these bands of other frames: it is drawn, it isn't finished, and its needs are.
    pub(crate) fn is_ready(&self, job: JobName, reads: [Option<BandSpan>; 3]) -> bool
        requires listed { IsListed self.now.segments job }
        requires covers { Covers M.rules job reads }
        ensures { result ≡ true → MayBegin M.rules W.window job }
    {
        let _ = &self.window;
        if !self.has_needs(job, reads) {
            return false;
        }
        let Some(_) = self.open_place(job) else {
            return false;
        };
        true
    }

    /// A job is finished, and what its result publishes is published, where it comes next and a head has made room for it. It is so unless the job
    /// isn't drawn, or is finished, or has a need that isn't.
    pub(crate) fn finish(&mut self, news: News, value: &X) -> bool
        requires covers { Covers M.rules news.job news.reads }
        requires right { M.truth.right news.job value.now }
        requires publishes { news.publishes ≡ published M.rules news.job value.now }
        requires passed { news.ends ≡ false → HasPassed M.rules news.job value.now }
        ensures event { result ≡ true → IsLogged M.rules W.window news.job value.now }
        ensures yes { result ≡ true → Finishes self.old news.job news.publishes news.ends self.new }
        ensures no { result ≡ false → self.new ≡ self.old }
    {
        let Some(at) = self.open_place(news.job) else {
            return false;
        };
        if self.over || !self.has_needs(news.job, news.reads) {
            return false;
        }
        let publishes = news.publishes;
        if !put_in(
            &mut self.segments,
            &mut self.starts,
            &mut self.published,
            publishes,
        ) {
            return false;
        }
        self.marks.set(at);
        self.over = news.ends;
        true
    }

    /// Lets the mark of the first ticket go, where its job is finished.
    pub(crate) fn let_mark_go(&mut self)
        ensures { self.new ≡ record self.old { base = self.new.base; marks = self.new.marks } }
    {
        self.marks.let_go();
    }

    /// How many jobs it has.
    pub(crate) fn len(&self) -> usize
        ensures { result ≡ length self.now.names }
    {
        self.names.len()
    }

    /// A job of the pool.
    pub(crate) fn name(&self, at: usize) -> Option<JobName>
        ensures is { result ≡ slice_get self.now.names at }
        ensures listed { IfSome result (λ job. IsListed self.now.segments job) }
        ensures due { IfSome result (λ job. IsDue M.rules M.truth job) }
    {
        if at < self.names.len() {
            Some(self.names[at])
        } else {
            None
        }
    }

    /// Takes a job out.
    pub(crate) fn remove(&mut self, at: usize) -> Option<JobName>
        ensures some { IfSome result (λ job. TakesOut self.old at job self.new) }
        ensures none { IfNone result (self.new ≡ self.old) }
        ensures due { IfSome result (λ job. IsDue M.rules M.truth job) }
    {
        if at < self.names.len() {
            Some(self.names.remove(at))
        } else {
            None
        }
    }

    /// Whether a ticket can be drawn: there is a job for it, and room in the pool.
    pub(crate) fn can_draw(&self) -> bool
        ensures room { result ≡ true → length self.now.names < self.now.room }
        ensures job { result ≡ true → self.now.drawn < length (jobs_in self.now.segments) }
    {
        self.drawn < self.published && self.names.len() < self.room && self.marks.has_room()
    }

    /// Puts the job of a ticket in, as the last, where the ticket is the next one.
    pub(crate) fn put(&mut self, ticket: u64) -> Option<JobName>
        requires room { length self.old.names < self.old.room }
        ensures some { IfSome result (λ job. Puts self.old ticket job self.new) }
        ensures none { IfNone result (self.new ≡ self.old) }
        ensures listed { IfSome result (λ job. IsListed self.new.segments job) }
        ensures due { IfSome result (λ job. IsDue M.rules M.truth job) }
    {
        if ticket != self.drawn || ticket == u64::MAX {
            return None;
        }
        let job = job_from(&self.segments, &mut self.mark, ticket)?;
        if !self.marks.push() {
            return None;
        }
        self.drawn = ticket + 1;
        self.names.push_reserved(job);
        Some(job)
    }
}

// The row of the filter that publishes a band, of so many rows.
fn filter_of(rows: u32, band: u32) -> u32
    ensures next { band + 1 < rows → result ≡ band + 1 }
    ensures last { rows ≤ band + 1 → result ≡ band }
{
    match band.checked_add(1) {
        Some(next) if next < rows => next,
        _ => band,
    }
}

// Puts a segment behind the others, with its first ticket, where there is one and it comes next.
fn put_in(
    segments: &mut Vec<Segment>,
    starts: &mut Vec<u64>,
    published: &mut u64,
    segment: Option<Segment>,
) -> bool
    ensures yes { result ≡ true → HasPut segments.old.items starts.old.items published.old segment segments.new.items starts.new.items published.new }
    ensures no { result ≡ false → (segments.new.items ≡ segments.old.items) × (starts.new.items ≡ starts.old.items) × (published.new ≡ published.old) }
{
    let Some(segment) = segment else {
        return true;
    };
    let Some(more) = published.checked_add(segment.jobs()) else {
        return false;
    };
    if !fits(segments, segment) || segments.reserve(1).is_err() || starts.reserve(1).is_err() {
        return false;
    }
    starts.push_reserved(*published);
    segments.push_reserved(segment);
    *published = more;
    true
}

// Whether a segment comes next.
fn fits(segments: &[Segment], segment: Segment) -> bool
    ensures { result ≡ true → Fits segments.now segment }
{
    !is_closed(segments) && stands_at(segments.len(), segment) && shows_earlier(segment)
}

fn is_closed(segments: &[Segment]) -> bool
    ensures { result ≡ false → (place f : ℕ) → place + 1 ≡ length segments.now → slice_get segments.now place ≡ Some (Last f) → ⊥ }
{
    match segments.last() {
        Some(Segment::Last { .. }) => true,
        _ => false,
    }
}

fn stands_at(place: usize, segment: Segment) -> bool
    ensures { result ≡ true → StandsAt place segment }
{
    match segment {
        Segment::Opening => place == 0,
        Segment::Parse { frame, .. } => place % 2 == 1 && place as u64 / 2 == frame,
        Segment::Build { frame, .. } => {
            place >= 2 && place % 2 == 0 && (place as u64 - 2) / 2 == frame
        }
        Segment::Last { frame } => place >= 1 && (place as u64 - 1) / 2 == frame,
    }
}

fn shows_earlier(segment: Segment) -> bool
    ensures { result ≡ true → (f columns rows : ℕ) (shown : Shown) → segment ≡ Build f columns rows (Some shown) → shown.frame ≤ f }
{
    match segment {
        Segment::Build {
            frame,
            shown: Some(shown),
            ..
        } => shown.frame <= frame,
        _ => true,
    }
}
