//! Who does the jobs of a decode.

ghost use Rattle.std.specs.Prelude.{◌≡◌, ◌≤◌, All, IfOk};
ghost use Rattle.vp9_types.specs.declared.job.JobName.TheVariants.{Head, Rows};
ghost use Rattle.job_order.specs.Sound.{frame_of};
ghost use Rattle.job_crew.specs.Left.{HasRightResults};
ghost use Rattle.job_crew.specs.Runs.{IsDue, IsNoWrite};
ghost use Rattle.job_rows.specs.job_results.Groups.{IsNoEnd, in_film, group_rules, group_truth, shown_in, span_in};
ghost use Rattle.job_rows.specs.job_results.Meaning.{decode_rules, decode_truth};
ghost use Rattle.job_rows.specs.job_results.JobResults.{IsRight};

use crate::kept_frames::{KeptFrames, Shared};
use crate::lookup::{FilmResults, in_film};
use crate::output::DecodeSink;
use crate::reads::is_apart;
use crate::writes::write;
use edge_io::Sink;
use job_crew::{Building, FrameResults, Jobs, LIVE, LastResult, Layout, Results};
use job_heads::{FrameList, do_close, do_column, do_head};
use job_order::Shown;
use job_rows::job_results::{
    ClosedFrame, Decode, DecodeRun, Group, JobResult, Lookup, closed, ended,
};
use job_rows::{do_filter, do_rows};
use std::alloc::{AllocError, Global};
use std::marker::Model;
use std::sync::{Arc, Mutex, OnceLock, Wait};
use vp9_types::{BandSpan, JobName, Outcome};

/// What all jobs of a group of frames are done by: its frames, and the results that are kept of those before it.
#[derive(Drop)]
pub struct JobDecoder<'j, 'a, B: DecodeRun, T> {
    rt: &'j T,
    alloc: Global,
    list: FrameList<'a, B>,
    kept: Mutex<Shared<KeptFrames<'a, B>>>,
    // how many frames of the film are written
    written: Mutex<u64>,
}

impl<'j, 'a, B: DecodeRun, T> Model for JobDecoder<'j, 'a, B, T> {
    ghost use Rattle.std.specs.Prelude.{ℕ};
    ghost use Rattle.vp9_types.specs.declared.job.JobName.TheVariants.{Head};
    ghost use Rattle.job_crew.specs.Runs.{IsDue};
    ghost use Rattle.job_rows.specs.job_results.Meaning.{decode_rules, decode_truth};

    ghost Value = { ℕ };

    ghost view = { λ d. 0 };

    ghost invariant = { λ d. IsDue (decode_rules B.format B.film) (decode_truth B.format B.film) (Head B.first) };
}

/// What a frame shows, with its number of bands, where that is a frame of the group.
fn shown_in(first: u64, closed: &ClosedFrame) -> Option<Shown>
    ensures { result ≡ shown_in first closed.now.shown }
{
    let Some(shown) = &closed.shown else {
        return None;
    };
    Some(Shown {
        frame: shown.frame.checked_sub(first)?,
        bands: shown.shape.superblock_rows(),
    })
}

/// The frame by its number in the group, where it is one of the group.
fn number_in(first: u64, frame: Option<u64>) -> Option<u64> {
    frame?.checked_sub(first)
}

/// The frames of the group that slots hold.
fn live_frames(first: u64, slots: &[Option<u64>; 8]) -> [Option<u64>; LIVE] {
    let mut live = [None; LIVE];
    for at in 0..slots.len() {
        live[at] = number_in(first, slots[at]);
    }
    live
}

/// The frames of the film that slots hold behind a closed frame, and the one before it.
fn named_by(number: u64, closed: &ClosedFrame) -> [Option<u64>; 9] {
    let mut named = [None; 9];
    named[..8].copy_from_slice(&closed.kept.slots);
    named[8] = number.checked_sub(1);
    named
}

/// The bands, where they are of a frame of the group. Those of one before it are there.
fn span_in(first: u64, span: Option<BandSpan>) -> Option<BandSpan>
    ensures { result ≡ span_in first span }
{
    let span = span?;
    Some(BandSpan {
        frame: span.frame.checked_sub(first)?,
        ..span
    })
}

impl<'j, 'a, B: DecodeRun, T> JobDecoder<'j, 'a, B, T> {
    /// Who does the jobs of these frames, behind the frames of which these results are kept.
    pub(crate) fn new(
        rt: &'j T,
        alloc: Global,
        list: FrameList<'a, B>,
        kept: Shared<KeptFrames<'a, B>>,
    ) -> JobDecoder<'j, 'a, B, T>
        requires starts { IsDue (decode_rules B.format B.film) (decode_truth B.format B.film) (Head B.first) }
    {
        let written = Mutex::new(list.first());
        JobDecoder {
            rt,
            alloc,
            list,
            kept: Mutex::new(kept),
            written,
        }
    }

    /// What is still kept of the frames before the group.
    pub(crate) fn into_kept(self) -> Result<Vec<FrameResults<JobResult<'a>>>, AllocError>
        ensures { IfOk result (λ all. All (HasRightResults (decode_truth B.format B.film)) all.items) }
    {
        let JobDecoder { alloc, kept, .. } = self;
        match Arc::into_inner(kept.into_inner()) {
            Some(kept) => kept.into_results(alloc),
            None => Ok(Vec::new(alloc)),
        }
    }

    /// The results that a job may ask for.
    fn seen<'l, R>(&'l self, results: &'l R) -> FilmResults<'l, 'a, B, R, T> {
        FilmResults {
            rt: self.rt,
            first: self.list.first(),
            kept: &self.kept,
            held: OnceLock::new(),
            results,
        }
    }

    /// The job by its number in the film.
    fn named(&self, job: JobName) -> JobName
        requires due { IsDue (group_rules B.first B.format B.film) (group_truth B.first B.format B.film) job }
        requires no_end { IsNoEnd job }
        ensures is { result ≡ in_film B.first job }
        ensures due { IsDue (decode_rules B.format B.film) (decode_truth B.format B.film) result }
        ensures first { B.first ≤ frame_of result }
    {
        in_film(self.list.first(), job)
    }

    /// Does a job of the film that is no write and no end.
    fn run_named<R: Lookup<JobResult<'a>, Decode<B>>>(
        &self,
        job: JobName,
        results: &R,
    ) -> JobResult<'a>
        requires due { IsDue (decode_rules B.format B.film) (decode_truth B.format B.film) job }
        requires first { B.first ≤ frame_of job }
        requires no_write { IsNoWrite job }
        requires no_end { IsNoEnd job }
        ensures { IsRight B.format B.film job result }
    {
        match job {
            JobName::Head { frame } => do_head(self.alloc, &self.list, frame, results),
            JobName::Column { frame, column } => {
                do_column::<B, R>(self.alloc, frame, column, results)
            }
            JobName::Close { frame } => do_close(self.alloc, &self.list, frame, results),
            JobName::Rows { frame, column, row } => {
                do_rows::<B, R>(self.alloc, frame, column, row, results)
            }
            JobName::Filter { frame, row } => do_filter::<B, R>(self.alloc, frame, row, results),
            JobName::Write { .. } | JobName::End { .. } => unreachable!(),
        }
    }
}

impl<'j, 'a, B: DecodeRun, T: Wait> JobDecoder<'j, 'a, B, T> {
    /// Lets go of the frames before the group that aren't named.
    fn keep_named(&self, named: &[Option<u64>]) {
        let mut kept = self.kept.lock(self.rt);
        if kept.are_named(named) {
            return;
        }
        if let Ok(frames) = kept.named(self.alloc, named) {
            *kept = frames;
        }
    }

    /// A frame is written: the jobs of it and of those before it are done, and later ones ask for no frame that no slot holds behind it.
    fn is_written(&self, number: u64, closed: &ClosedFrame) {
        *self.written.lock(self.rt) = number.saturating_add(1);
        self.keep_named(&closed.kept.slots);
    }

    /// A frame is closed. If its rows read no other and all before it are written, its own jobs ask for none but the frame before it, and later
    /// ones for what slots hold behind it.
    fn is_closed(&self, number: u64, closed: &ClosedFrame) {
        if is_apart(&closed.reads) && *self.written.lock(self.rt) == number {
            self.keep_named(&named_by(number, closed));
        }
    }
}

impl<'j, 'a, B: DecodeRun, K: Sink, T: Wait> Jobs<JobResult<'a>, Group<B>, DecodeSink<K, B>>
    for JobDecoder<'j, 'a, B, T> {
    fn layout(&self, head: &JobResult<'a>) -> Option<Layout> {
        match head {
            JobResult::Begun(frame) => {
                let header = &frame.setting.header;
                if header.params.tiles.columns_log2 > 8 {
                    return None;
                }
                Some(Layout {
                    columns: header.params.tiles.columns(),
                    rows: header.shape().superblock_rows(),
                })
            }
            JobResult::Existing(_) => Some(Layout {
                columns: 0,
                rows: 0,
            }),
            _ => None,
        }
    }

    fn building(&self, close: &JobResult<'a>) -> Option<Building> {
        match close {
            JobResult::Closed(closed) => Some(Building {
                columns: closed.columns,
                rows: closed.rows,
                shown: shown_in(self.list.first(), closed),
            }),
            _ => None,
        }
    }

    fn live(&self, close: &JobResult<'a>) -> [Option<u64>; LIVE] {
        match close {
            JobResult::Closed(closed) => live_frames(self.list.first(), &closed.kept.slots),
            _ => [None; LIVE],
        }
    }

    fn is_apart(&self, close: &JobResult<'a>) -> bool {
        match close {
            JobResult::Closed(closed) => is_apart(&closed.reads),
            _ => false,
        }
    }

    fn reads<R: Results<JobResult<'a>, Group<B>>>(
        &self,
        frame: u64,
        column: u32,
        row: u32,
        results: &R,
    ) -> [Option<BandSpan>; 3] {
        let seen = self.seen(results);
        let first = self.list.first();
        let closed = closed::<B, FilmResults<'_, 'a, B, R, T>>(&seen, first + frame);
        let [last, golden, altref] = closed.reads.of(column, row);
        [
            span_in(first, last),
            span_in(first, golden),
            span_in(first, altref),
        ]
    }

    fn run<R: Results<JobResult<'a>, Group<B>> + LastResult<JobResult<'a>, Group<B>>>(
        &self,
        job: JobName,
        results: &R,
    ) -> JobResult<'a> {
        if let JobName::End { frame } = job {
            return JobResult::Ended(*ended::<B, R>(results, frame));
        }
        let named = self.named(job);
        let seen = self.seen(results);
        if let JobName::Rows {
            frame,
            column: 0,
            row: 0,
        } = named
        {
            let closed = closed::<B, FilmResults<'_, 'a, B, R, T>>(&seen, frame);
            self.is_closed(frame, closed);
        }
        self.run_named(named, &seen)
    }

    fn starved(&self, _frame: u64) -> JobResult<'a> {
        JobResult::Ended(Outcome::OutOfMemory)
    }

    fn write<R: Results<JobResult<'a>, Group<B>>>(
        &self,
        frame: u64,
        results: &R,
        output: &mut DecodeSink<K, B>,
    ) -> JobResult<'a> {
        let number = self.list.first() + frame;
        let seen = self.seen(results);
        match write::<B, K, FilmResults<'_, 'a, B, R, T>>(
            self.alloc,
            number,
            &seen,
            &mut output.room,
            &mut output.sink,
        ) {
            Ok(()) => {}
            Err(fault) => return JobResult::Refused(fault),
        }
        let closed = closed::<B, FilmResults<'_, 'a, B, R, T>>(&seen, number);
        self.is_written(number, closed);
        JobResult::Written
    }

    fn is_refused(&self, write: &JobResult<'a>) -> bool {
        matches!(write, JobResult::Refused(_))
    }
}
