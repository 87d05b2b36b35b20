ghost use Rattle.std.specs.Prelude.{◌≡◌, ℕ, ◌<◌, ◌≤◌, ◌++◌, ◌∷◌, [], true, false, length, All, Some, None, slice_get, IfSome, IfNone, IfOk, IfErr};
ghost use Rattle.vp9_types.specs.declared.job.JobName.TheVariants.{Head, Close, Write, End};
ghost use Rattle.job_order.specs.JobSegments.{IsListed};
ghost use Rattle.job_order.specs.Worlds.{built, published};
ghost use Rattle.job_crew.specs.declared.outlet.Content.TheVariants.{Open};
ghost use Rattle.job_order.specs.Sound.{texts_below};
ghost use Rattle.job_crew.specs.Runs.{IsDue, IsEnded};
ghost use Rattle.edge_io.specs.Putting.{Takes};
ghost use Rattle.job_crew.specs.Events.{CanDo, Covers, HasPassed, MayBegin, IsLogged, HasEvents};
ghost use Rattle.job_crew.specs.Code.{TakesOut, IsSeated, IsSeatedStill, IsAway};
ghost use Rattle.job_crew.specs.Left.{HasRightResults};

use crate::cells::Cell;
use crate::finished::Finished;
use crate::frame::{Frame, Shared};
use crate::frames::Frames;
use crate::jobs::{Jobs, LIVE, Layout, Output, Start, Window};
use crate::left::{Ran, left_of};
use crate::lent::Lent;
use crate::news::{NO_BANDS, News};
use crate::outlet::{Content, Ending, Outlet, Over, Placed, Told};
use crate::pool::Pool;
use crate::seats::{join_all, make_seats};
use crate::work::{AtWork, FrameWork, Gone, Loan, Strips, nothing};
use edge_io::Gate;
use job_order::{Meaning, Segment};
use progress_board::{Board, Refused, Seat};
use std::alloc::{AllocError, Global};
use std::marker::{Brand, PhantomData};
use std::sync::{Arc, Condvar, Mutex, OnceLock, Wait};
use std::thread;
use std::thread::Threads;
use vp9_types::{BandSpan, JobName};

// A worker waits at the pool and not for a band, so no lane is used.
const LANES: u8 = 0;

const OUTLET: u8 = 1;

// How many drawn jobs the pool has room for. A run would go on with room for one, since the least job that isn't finished is ready or at
// work. More lets workers pass over jobs that wait, into the frames behind: at 1920x1080 a frame of four tile columns has 92 jobs, and a
// frame that has ten times as many has so many columns that enough of its own are ready.
const POOL_ROOM: usize = 1024;

/// What a run is of, and how it is done: by so many workers, with so many frames at once.
#[derive(Drop)]
pub struct Run<'a, J, G> {
    pub alloc: Global,
    pub jobs: &'a J,
    pub gate: &'a G,
    pub workers: u8,
    pub window: u8,
}

// What lies under the lock: jobs, and what they are lent.
#[derive(Drop)]
struct Shop<X: Drop, M: Meaning<X>, W: Window> {
    pool: Pool<X, M, W>,
    frames: Frames<X, M>,
}

// What a job is lent. Nothing is before the first head, or before an end at it.
type Held<X, M> = Option<Loan<X, M>>;

// A job to do, and what it is lent.
#[derive(Drop)]
struct Begun<X: Drop, M: Meaning<X>> {
    job: JobName,
    held: Held<X, M>,
}

// What the workers share.
#[derive(Drop)]
struct Crew<'a, X: Drop, M: Meaning<X> + Start, K: Output<X>, W: Window, J, G> {
    run: &'a Run<'a, J, G>,
    shop: &'a Mutex<Shop<X, M, W>>,
    // the head's result that says that the run ends
    last: &'a Cell<X, M>,
    moved: &'a Condvar,
    board: &'a Board<Placed<X, M, K, W>>,
}

fn placed<X: Drop, M: Meaning<X> + Start, K: Output<X>, W: Window>(
    content: Content<X, M, K, W>,
) -> Placed<X, M, K, W>
    ensures slot { result.slot ≡ 1 }
    ensures content { result.content ≡ content }
{
    Placed {
        slot: OUTLET,
        content,
    }
}

// Parsing goes first where there are several workers: it waits for no samples, and others would wait for it later.
fn is_parsing(job: JobName) -> bool {
    matches!(
        job,
        JobName::Head { .. } | JobName::Column { .. } | JobName::Close { .. }
    )
}

// A job is ready where its needs are finished.
impl<'a, X: Drop, M: Meaning<X> + Start, K: Output<X>, W: Window, J: Jobs<X, M, K>, G: Gate> Crew<
    'a,
    X,
    M,
    K,
    W,
    J,
    G,
> {
    // What a job is lent that may see these results.
    fn lent<'r, 'c, 'f, R>(
        &'c self,
        rt: &'r R,
        at_work: Option<&'f AtWork<X, M>>,
        strips: Option<&'f Strips<X, M>>,
    ) -> Lent<'r, 'c, 'f, X, M, K, J, R> {
        Lent {
            rt,
            jobs: self.run.jobs,
            at_work,
            strips,
            last: self.last,
            outputs: PhantomData,
        }
    }

    // The same of what a job has.
    fn lent_of<'r, 'c, 'f, R>(
        &'c self,
        rt: &'r R,
        held: &'f Held<X, M>,
    ) -> Lent<'r, 'c, 'f, X, M, K, J, R> {
        match held {
            Some(loan) => self.lent(rt, Some(&loan.at_work), loan.strips()),
            None => self.lent(rt, None, None),
        }
    }

    // What a job reads of other frames.
    fn reads<R: Wait>(&self, rt: &R, frames: &Frames<X, M>, job: JobName) -> [Option<BandSpan>; 3]
        requires due { IsDue M.rules M.truth job }
        ensures { Covers M.rules job result }
    {
        match job {
            JobName::Rows { frame, column, row } => {
                let lent = self.lent(rt, frames.see(job), None);
                self.run.jobs.reads(frame, column, row, &lent)
            }
            _ => NO_BANDS,
        }
    }

    // Whether the needs of a job are finished. What it reads is asked for once the jobs are that it needs by name, its close among them.
    fn is_ready<R: Wait>(
        &self,
        rt: &R,
        frames: &Frames<X, M>,
        pool: &Pool<X, M, W>,
        job: JobName,
    ) -> bool
        requires listed { IsListed pool.now.segments job }
        requires due { IsDue M.rules M.truth job }
        ensures { result ≡ true → MayBegin M.rules W.window job }
    {
        if let JobName::Rows { .. } = job
            && !pool.has_needs(job, NO_BANDS)
        {
            return false;
        }
        let reads = self.reads(rt, frames, job);
        pool.is_ready(job, reads)
    }

    // The place in the pool of the first job that is ready, or of the first one that parses.
    fn ready_place<R: Wait>(
        &self,
        rt: &R,
        frames: &Frames<X, M>,
        pool: &Pool<X, M, W>,
        parses: bool,
    ) -> Option<usize>
        ensures { IfSome result (λ at. IfSome (slice_get pool.now.names at) (MayBegin M.rules W.window)) }
    {
        for at in 0..pool.len() {
            if let Some(job) = pool.name(at)
                && (!parses || is_parsing(job))
                && self.is_ready(rt, frames, pool, job)
            {
                return Some(at);
            }
        }
        None
    }

    // The place of the job that is to be done next. One worker goes by tickets, which takes the least memory.
    fn next_place<R: Wait>(
        &self,
        rt: &R,
        frames: &Frames<X, M>,
        pool: &Pool<X, M, W>,
    ) -> Option<usize>
        ensures { IfSome result (λ at. IfSome (slice_get pool.now.names at) (MayBegin M.rules W.window)) }
    {
        if self.run.workers > 1
            && let Some(at) = self.ready_place(rt, frames, pool, true)
        {
            return Some(at);
        }
        self.ready_place(rt, frames, pool, false)
    }

    // That job of the pool, which is taken out of it.
    fn take_ready<R: Wait>(
        &self,
        rt: &R,
        frames: &Frames<X, M>,
        pool: &mut Pool<X, M, W>,
    ) -> Option<JobName>
        ensures some { IfSome result (λ job. (at : ℕ) × TakesOut pool.old at job pool.new) }
        ensures none { IfNone result (pool.new ≡ pool.old) }
        ensures due { IfSome result (λ job. IsDue M.rules M.truth job) }
        ensures ready { IfSome result (MayBegin M.rules W.window) }
    {
        let at = self.next_place(rt, frames, pool)?;
        pool.remove(at)
    }

    // Draws a ticket, whose job goes into the pool. None is drawn once the run is over.
    fn draw(&self, pool: &mut Pool<X, M, W>, seat: &mut Seat<Placed<X, M, K, W>>)
        requires room { length pool.old.names < pool.old.room }
        requires goes_on { pool.old.over ≡ false }
        requires seat { IsSeated self.now.board.now seat.old }
        ensures goes_on { pool.new.over ≡ false }
        ensures seat { IsSeatedStill seat.old seat.new }
    {
        let ticket = self.board.draw(seat);
        let _ = pool.put(ticket);
    }

    // The next job, of all tickets that the pool has room for.
    fn next<R: Wait>(
        &self,
        rt: &R,
        frames: &Frames<X, M>,
        pool: &mut Pool<X, M, W>,
        seat: &mut Seat<Placed<X, M, K, W>>,
    ) -> Option<JobName>
        requires goes_on { pool.old.over ≡ false }
        requires seat { IsSeated self.now.board.now seat.old }
        ensures seat { IsSeatedStill seat.old seat.new }
        ensures due { IfSome result (λ job. IsDue M.rules M.truth job) }
        ensures ready { IfSome result (MayBegin M.rules W.window) }
    {
        for _ in 0..POOL_ROOM {
            pool.let_mark_go();
            if !pool.can_draw() {
                break;
            }
            self.draw(pool, seat);
        }
        self.take_ready(rt, frames, pool)
    }

    // A job to do. There is none once the run is over.
    fn wait_for_job<R: Wait>(
        &self,
        rt: &R,
        seat: &mut Seat<Placed<X, M, K, W>>,
    ) -> Option<Begun<X, M>>
        requires seat { IsSeated self.now.board.now seat.old }
        ensures seat { IsSeatedStill seat.old seat.new }
        ensures due { IfSome result (λ begun. IsDue M.rules M.truth begun.job) }
        ensures ready { IfSome result (λ begun. MayBegin M.rules W.window begun.job) }
    {
        let mut guard = self.shop.lock(rt);
        if guard.pool.has_waiter() {
            self.moved.notify_all();
        }
        for _ in rt.forever() {
            let shop = &mut *guard;
            if shop.pool.is_over() {
                return None;
            }
            if let Some(job) = self.next(rt, &shop.frames, &mut shop.pool, seat) {
                let held = shop.frames.lend(job);
                return Some(Begun { job, held });
            }
            shop.pool.wait();
            guard = self.moved.wait(rt, guard);
            guard.pool.wake();
        }
        unreachable!()
    }

    // Takes the outlet where the frame's write comes next. Where it doesn't, the outlet stays.
    fn take_outlet(&self, seat: &mut Seat<Placed<X, M, K, W>>, frame: u64) -> Option<K>
        requires seat { IsSeated self.now.board.now seat.old }
        ensures taken { IfSome result (λ output. Takes M.taken (K.taken output) (texts_below M.truth.text frame)) }
        ensures may { IfSome result (λ output. K.may_put output) }
        ensures some { IfSome result (λ output. IsAway seat.old seat.new) }
        ensures none { IfNone result (IsSeatedStill seat.old seat.new) }
    {
        let Placed { content, .. } = self.board.take(seat, OUTLET)?;
        match content {
            Content::Open(outlet) if outlet.awaits(frame) => Some(outlet.output()),
            other => {
                self.board.give(seat, OUTLET, placed(other));
                None
            }
        }
    }
}

// What each job does, and what comes of its result.
impl<
    'a,
    X: Drop,
    M: Meaning<X> + Start,
    K: Output<X> + Drop,
    W: Window,
    J: Jobs<X, M, K>,
    G: Gate,
> Crew<'a, X, M, K, W, J, G> {
    // What a job reads of other frames, of what it is lent.
    fn reads_of<R: Wait>(&self, rt: &R, held: &Held<X, M>, job: JobName) -> [Option<BandSpan>; 3]
        requires due { IsDue M.rules M.truth job }
        ensures { Covers M.rules job result }
    {
        match job {
            JobName::Rows { frame, column, row } => {
                let lent = self.lent_of(rt, held);
                self.run.jobs.reads(frame, column, row, &lent)
            }
            _ => NO_BANDS,
        }
    }

    // A job is finished, and its result is set. What the job was lent goes in the same moment, so what others let go from then on isn't held by it.
    fn settle<R: Wait>(&self, rt: &R, held: Held<X, M>, news: News, value: X) -> Gone<X, M>
        requires covers { Covers M.rules news.job news.reads }
        requires right { M.truth.right news.job value }
        requires publishes { news.publishes ≡ published M.rules news.job value }
        requires passed { HasPassed M.rules news.job value }
    {
        let mut guard = self.shop.lock(rt);
        let shop = &mut *guard;
        if shop.pool.finish(news, &value) {
            shop.frames.finish::<W>(held, news.job, value)
        } else {
            nothing()
        }
    }

    // The same. What nobody else has is dropped here, and not under the lock.
    fn complete<R: Wait>(&self, rt: &R, held: Held<X, M>, news: News, value: X)
        requires covers { Covers M.rules news.job news.reads }
        requires right { M.truth.right news.job value }
        requires publishes { news.publishes ≡ published M.rules news.job value }
        requires passed { HasPassed M.rules news.job value }
    {
        let gone = self.settle(rt, held, news, value);
        drop(gone);
    }

    // What the jobs behind a frame may ask for of those before it.
    fn live(&self, frame: &Frame<X, M>) -> [Option<u64>; LIVE] {
        let close = JobName::Close {
            frame: frame.number(),
        };
        match frame.find(close) {
            Some(close) => self.run.jobs.live(close),
            None => [None; LIVE],
        }
    }

    fn behind(
        &self,
        before: &Frame<X, M>,
        frame: u64,
        rows: u32,
    ) -> Result<Frame<X, M>, AllocError> {
        before.next(self.run.alloc, frame, rows, &self.live(before))
    }

    // Takes all memory for a frame, behind the one before it.
    fn make_frame<R: Wait>(
        &self,
        rt: &R,
        held: &Held<X, M>,
        frame: u64,
        layout: Layout,
    ) -> Result<FrameWork<X, M>, AllocError> {
        if frame == u64::MAX {
            return Err(AllocError);
        }
        let alloc = self.run.alloc;
        let made = match held {
            Some(loan) => self.behind(loan.at_work.frame(), frame, layout.rows)?,
            None => Frame::first(alloc, frame, layout.rows)?,
        };
        let made = FrameWork::new(alloc, made, layout)?;
        let mut guard = self.shop.lock(rt);
        guard.frames.make_room()?;
        guard.pool.make_room()?;
        Ok(made)
    }

    // A frame is at work, and its head's result is there.
    fn begin<R: Wait>(&self, rt: &R, held: Held<X, M>, made: FrameWork<X, M>, news: News, value: X)
        requires covers { Covers M.rules news.job news.reads }
        requires right { M.truth.right news.job value }
        requires publishes { news.publishes ≡ published M.rules news.job value }
        requires passed { HasPassed M.rules news.job value }
    {
        let mut guard = self.shop.lock(rt);
        drop(held);
        if guard.pool.finish(news, &value) {
            made.set_head::<W>(news.job, value);
            guard.frames.put(made);
        }
    }

    fn set_last(&self, job: JobName, value: X)
        requires right { M.truth.right job value }
        requires event { IsLogged M.rules W.window job value }
    {
        let _ = self.last.try_set(Finished::new(job, value));
    }

    // The head's result says that the run ends.
    fn end_at_head<R: Wait>(&self, rt: &R, frame: u64, value: X)
        requires right { M.truth.right (Head frame) value }
        requires ends { M.rules.parses value ≡ None }
    {
        let job = JobName::Head { frame };
        let news = News::new(job, Some(Segment::Last { frame }));
        let mut guard = self.shop.lock(rt);
        if guard.pool.finish(news, &value) {
            self.set_last(job, value);
        }
    }

    fn do_head<R: Wait>(&self, rt: &R, held: Held<X, M>, frame: u64)
        requires due { IsDue M.rules M.truth (Head frame) }
    {
        let job = JobName::Head { frame };
        let value = self.run.jobs.run(job, &self.lent_of(rt, &held));
        let Some(layout) = self.run.jobs.layout(&value) else {
            return self.end_at_head(rt, frame, value);
        };
        let Ok(made) = self.make_frame(rt, &held, frame, layout) else {
            return self.end_at_head(rt, frame, self.run.jobs.starved(frame));
        };
        let segment = Segment::Parse {
            frame,
            columns: layout.columns,
        };
        self.begin(rt, held, made, News::new(job, Some(segment)), value);
    }

    // What the close's result publishes.
    fn built(&self, frame: u64, close: &X) -> Segment
        requires right { M.truth.right (Close frame) close.now }
        ensures { result ≡ built frame (M.rules.builds close.now) }
    {
        match self.run.jobs.building(close) {
            Some(building) => Segment::Build {
                frame,
                columns: building.columns,
                rows: building.rows,
                shown: building.shown,
            },
            None => Segment::Last { frame },
        }
    }

    // The closed frame with no more of the frames before it than is still asked for, where its rows read none of them: then it is a key frame for
    // the most part, and much goes. Any other keeps what it has until it is written, and so does one for which there is no memory.
    fn narrowed(&self, held: &Held<X, M>, close: &X) -> Option<Shared<Frame<X, M>>> {
        let Some(loan) = held else {
            return None;
        };
        if !self.run.jobs.is_apart(close) {
            return None;
        }
        let (alloc, live) = (self.run.alloc, self.run.jobs.live(close));
        let narrowed = loan.at_work.frame().narrowed(alloc, &live).ok()?;
        Arc::new(alloc, narrowed).ok()
    }

    fn narrow<R: Wait>(&self, rt: &R, narrowed: Option<Shared<Frame<X, M>>>) {
        if let Some(frame) = narrowed {
            let gone = self.shop.lock(rt).frames.narrow(frame);
            drop(gone);
        }
    }

    fn do_close<R: Wait>(&self, rt: &R, held: Held<X, M>, frame: u64)
        requires due { IsDue M.rules M.truth (Close frame) }
    {
        let job = JobName::Close { frame };
        let value = self.run.jobs.run(job, &self.lent_of(rt, &held));
        let segment = self.built(frame, &value);
        let narrowed = self.narrowed(&held, &value);
        self.complete(rt, held, News::new(job, Some(segment)), value);
        self.narrow(rt, narrowed);
    }

    fn give_outlet(&self, seat: &mut Seat<Placed<X, M, K, W>>, content: Content<X, M, K, W>)
        requires seat { (seat.old.board ≡ self.now.board.now.board) × (seat.old.view.has ≡ 1 ∷ []) }
        ensures seat { IsSeatedStill seat.old seat.new }
    {
        self.board.give(seat, OUTLET, placed(content));
    }

    // The run ends by this result of a job.
    fn log_end<R: Wait>(&self, rt: &R, job: JobName, value: &X) -> bool
        requires right { M.truth.right job value.now }
        requires covers { Covers M.rules job (None ∷ None ∷ None ∷ []) }
        requires publishes { published M.rules job value.now ≡ None }
        ensures { result ≡ true → IsLogged M.rules W.window job value.now }
    {
        let mut news = News::new(job, None);
        news.ends = true;
        self.shop.lock(rt).pool.finish(news, value)
    }

    // The run is over.
    fn end(&self, seat: &mut Seat<Placed<X, M, K, W>>, ending: Ending<X>, output: K)
        requires seat { (seat.old.board ≡ self.now.board.now.board) × (seat.old.view.has ≡ 1 ∷ []) }
        requires ended { IsEnded M.rules M.truth M.taken ending (K.taken output) (K.may_put output) (K.has_refused output) }
        requires events { HasEvents M.rules W.window ending }
        ensures seat { IsSeatedStill seat.old seat.new }
    {
        self.give_outlet(seat, Content::Over(Over::new(ending, output)));
    }

    // Lets a frame go that is written, and the one before it where that is still there. What nobody else has is dropped here, and not under the
    // lock.
    fn retire<R: Wait>(&self, rt: &R, frame: u64) {
        for _ in 0..2 {
            let gone = self.shop.lock(rt).frames.retire(frame);
            drop(gone);
        }
    }

    fn do_write<R: Wait>(
        &self,
        rt: &R,
        held: Held<X, M>,
        seat: &mut Seat<Placed<X, M, K, W>>,
        frame: u64,
    )
        requires seat { IsSeated self.now.board.now seat.old }
        requires due { IsDue M.rules M.truth (Write frame) }
        ensures seat { IsSeatedStill seat.old seat.new }
    {
        let Some(next) = frame.checked_add(1) else {
            return;
        };
        let Some(mut output) = self.take_outlet(seat, frame) else {
            return;
        };
        let value = self
            .run
            .jobs
            .write(frame, &self.lent_of(rt, &held), &mut output);
        let job = JobName::Write { frame };
        if !self.run.jobs.is_refused(&value) {
            self.give_outlet(seat, Content::Open(Outlet::new(next, output)));
            self.complete(rt, held, News::new(job, None), value);
            self.retire(rt, frame);
        } else if self.log_end(rt, job, &value) {
            self.end(seat, Ending::Refused { frame, value }, output);
        } else {
            self.give_outlet(seat, Content::Taken);
        }
    }

    fn do_end<R: Wait>(
        &self,
        rt: &R,
        held: Held<X, M>,
        seat: &mut Seat<Placed<X, M, K, W>>,
        frame: u64,
    )
        requires seat { IsSeated self.now.board.now seat.old }
        requires due { IsDue M.rules M.truth (End frame) }
        ensures seat { IsSeatedStill seat.old seat.new }
    {
        let Some(output) = self.take_outlet(seat, frame) else {
            return;
        };
        let job = JobName::End { frame };
        let value = self.run.jobs.run(job, &self.lent_of(rt, &held));
        if self.log_end(rt, job, &value) {
            self.end(seat, Ending::Whole { frame, value }, output);
        } else {
            self.give_outlet(seat, Content::Taken);
        }
    }

    fn do_job<R: Wait>(&self, rt: &R, seat: &mut Seat<Placed<X, M, K, W>>, begun: Begun<X, M>)
        requires seat { IsSeated self.now.board.now seat.old }
        requires due { IsDue M.rules M.truth begun.job }
        ensures seat { IsSeatedStill seat.old seat.new }
    {
        let Begun { job, held } = begun;
        match job {
            JobName::Head { frame } => self.do_head(rt, held, frame),
            JobName::Close { frame } => self.do_close(rt, held, frame),
            JobName::Write { frame } => self.do_write(rt, held, seat, frame),
            JobName::End { frame } => self.do_end(rt, held, seat, frame),
            JobName::Column { .. } | JobName::Rows { .. } | JobName::Filter { .. } => {
                let value = self.run.jobs.run(job, &self.lent_of(rt, &held));
                let mut news = News::new(job, None);
                news.reads = self.reads_of(rt, &held, job);
                self.complete(rt, held, news, value);
            }
        }
    }

    // Does jobs until the run is over.
    fn work<R: Wait>(&self, rt: &R, seat: &mut Seat<Placed<X, M, K, W>>)
        requires seat { IsSeated self.now.board.now seat.old }
        ensures seat { IsSeatedStill seat.old seat.new }
    {
        for _ in rt.forever() {
            let Some(begun) = self.wait_for_job(rt, seat) else {
                break;
            };
            let job = begun.job;
            self.run.gate.enter(job);
            self.do_job(rt, seat, begun);
            self.run.gate.leave(job);
        }
    }

    // What the run leaves, where it is over.
    fn take_told(&self, seat: &mut Seat<Placed<X, M, K, W>>) -> Option<Told<X, K>>
        requires seat { IsSeated self.now.board.now seat.old }
        ensures seat { IsSeatedStill seat.old seat.new }
        ensures told { IfSome result (λ told. IsEnded M.rules M.truth M.taken told.ending (K.taken told.output) (K.may_put told.output) (K.has_refused told.output)) }
        ensures events { IfSome result (λ told. HasEvents M.rules W.window told.ending) }
    {
        let Placed { content, .. } = self.board.take(seat, OUTLET)?;
        match content {
            Content::Over(over) => {
                self.give_outlet(seat, Content::Taken);
                Some(over.told())
            }
            other => {
                self.give_outlet(seat, other);
                None
            }
        }
    }

    // Does what is left, and takes what the run leaves.
    fn finish<R: Wait>(&self, rt: &R, seat: &mut Seat<Placed<X, M, K, W>>) -> Told<X, K>
        requires seat { IsSeated self.now.board.now seat.old }
        ensures seat { IsSeatedStill seat.old seat.new }
        ensures told { IsEnded M.rules M.truth M.taken result.ending (K.taken result.output) (K.may_put result.output) (K.has_refused result.output) }
        ensures events { HasEvents M.rules W.window result.ending }
    {
        for _ in rt.forever() {
            self.work(rt, seat);
            if let Some(told) = self.take_told(seat) {
                return told;
            }
        }
        unreachable!()
    }
}

// Each seat's worker does jobs until the run is over.
fn work_all<
    X: Drop + Send + Sync,
    M: Meaning<X> + Start + Send + Sync,
    K: Output<X> + Send + Drop,
    W: Window + Send + Sync,
    J: Jobs<X, M, K> + Sync,
    G: Gate + Sync,
    R: Threads + Wait + Sync,
>(rt: &R, crew: &Crew<'_, X, M, K, W, J, G>, seats: &mut [Seat<Placed<X, M, K, W>>], workers: u8)
    requires workers { 0 < workers }
    requires seats { All (λ s. IsSeated crew.now.board.now s) seats.old }
    ensures seats { All (λ s. IsSeated crew.now.board.now s) seats.new }
{
    thread::for_each_mut(
        rt,
        seats,
        usize::from(workers),
        &|_: usize, seat: &mut Seat<Placed<X, M, K, W>>|
            requires { IsSeated crew.now.board.now seat.now }
            ensures { IsSeated crew.entry.now.board.now seat.exit.now }
        { crew.work(rt, seat) },
    );
}

fn given_back<X: Drop, M: Meaning<X> + Start, K: Output<X> + Drop, W: Window>(
    refused: Refused<Placed<X, M, K, W>>,
) -> K
    requires { (o : _) × (refused.outlet.content ≡ Open o) × (K.taken o.1 ≡ M.taken) }
    ensures taken { K.taken result ≡ M.taken }
    ensures may { K.may_put result }
{
    let Refused { outlet, .. } = refused;
    let Placed { content, .. } = outlet;
    let Content::Open(outlet) = content else {
        unreachable!()
    };
    outlet.output()
}

// The same of a window that is picked.
fn run_within<
    X: Drop + Send + Sync,
    M: Meaning<X> + Start + Send + Sync,
    K: Output<X> + Send + Drop,
    W: Window + Send + Sync,
    J: Jobs<X, M, K> + Sync,
    G: Gate + Sync,
    R: Threads + Wait + Sync,
>(rt: &R, run: &Run<'_, J, G>, output: K) -> Result<Ran<X, K>, K>
    requires workers { (1 ≤ run.now.workers) × (run.now.workers ≤ 64) }
    requires window { (2 ≤ run.now.window) × (run.now.window ≤ 16) }
    requires taken { K.taken output ≡ M.taken }
    requires may { K.may_put output }
    requires can { CanDo M.rules M.truth }
    requires events_window { W.window ≡ run.now.window }
    ensures ended { IfOk result (λ ran. IsEnded M.rules M.truth M.taken ran.ending (K.taken ran.output) (K.may_put ran.output) (K.has_refused ran.output)) }
    ensures events { IfOk result (λ ran. HasEvents M.rules W.window ran.ending) }
    ensures results { IfOk result (λ ran. IfSome ran.results (λ all. All (HasRightResults M.truth) all.items)) }
    ensures refused { IfErr result (λ k. (K.taken k ≡ M.taken) × K.may_put k) }
{
    let Ok(pool) = Pool::<X, M, W>::new(run.alloc, POOL_ROOM, run.window) else {
        return Err(output);
    };
    let source = Placed {
        slot: 0,
        content: Content::Source,
    };
    let outlet = placed(Content::Open(Outlet::new(0, output)));
    let (board, mut first) = match Board::new(run.alloc, LANES, source, outlet) {
        Ok(made) => made,
        Err(refused) => return Err(given_back(refused)),
    };
    let shop = Mutex::new(Shop {
        pool,
        frames: Frames::new(run.alloc),
    });
    let last = OnceLock::new();
    let moved = Condvar::new();
    let mut seats = make_seats(run.alloc, &board, &mut first, run.workers);
    let crew = Crew {
        run: &*run,
        shop: &shop,
        last: &last,
        moved: &moved,
        board: &board,
    };
    work_all(rt, &crew, seats.as_mut_slice(), run.workers);
    join_all(&board, &mut first, seats);
    let Told { ending, output } = crew.finish(rt, &mut first);
    board.close(first);
    let Shop { frames, .. } = shop.into_inner();
    Ok(Ran {
        ending,
        output,
        results: left_of(run.alloc, frames.into_last()),
    })
}

/// Does the jobs of a run, and hands the output back: what it has taken, how the run ended, and what it leaves for one behind it. With no memory
/// to begin, nothing was done. With none for a seat there are fewer workers.
pub fn run_jobs<
    X: Drop + Send + Sync,
    M: Meaning<X> + Start + Send + Sync,
    K: Output<X> + Send + Drop,
    J: Jobs<X, M, K> + Sync,
    G: Gate + Sync,
    R: Threads + Wait + Sync,
>(rt: &R, run: &Run<'_, J, G>, output: K) -> Result<Ran<X, K>, K>
    requires workers { (1 ≤ run.now.workers) × (run.now.workers ≤ 64) }
    requires window { (2 ≤ run.now.window) × (run.now.window ≤ 16) }
    requires taken { K.taken output ≡ M.taken }
    requires may { K.may_put output }
    requires can { CanDo M.rules M.truth }
    ensures ended { IfOk result (λ ran. IsEnded M.rules M.truth M.taken ran.ending (K.taken ran.output) (K.may_put ran.output) (K.has_refused ran.output)) }
    ensures events { IfOk result (λ ran. HasEvents M.rules run.now.window ran.ending) }
    ensures results { IfOk result (λ ran. IfSome ran.results (λ all. All (HasRightResults M.truth) all.items)) }
    ensures refused { IfErr result (λ k. (K.taken k ≡ M.taken) × K.may_put k) }
{
    run_within::<X, M, K, Brand, J, G, R>(rt, run, output)
}
