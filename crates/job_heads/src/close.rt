//! The close of a frame.

ghost use Rattle.std.specs.Prelude.{◌≡◌, Some, None, get_or};
ghost use Rattle.job_heads.specs.Begun.{IsItsBegun};
ghost use Rattle.job_heads.specs.Shows.{IsClosing, admits_it, form_behind, held_in, shown_by, with_form};
ghost use Rattle.vp9_types.specs.declared.job.JobName.TheVariants.{Close};
ghost use Rattle.job_crew.specs.Runs.{IsDue};
ghost use Rattle.job_results.specs.Meaning.{decode_rules, decode_truth};
ghost use Rattle.job_results.specs.Lent.{IsBegunFrame, IsKeptBefore};
ghost use Rattle.job_results.specs.JobResults.{IsClose, ShowsSlot};

use crate::frames::FrameList;
use crate::reads::row_reads;
use frame_headers::Header;
use job_results::frame_steps::{BegunFrame, Kept, PlannedColumn, PlannedColumns, close, keep};
use job_results::seq_decoder::{OutputForm, halt_outcome, outcome_at};
use job_results::tile_syntax::Unplanned;
use job_results::{
    ClosedFrame, Decode, DecodeRun, HeadRead, JobResult, Lookup, RowReads, ShownFrame, closed,
    column, head_read,
};
use std::alloc::Global;
use std::marker::PhantomData;
use vp9_types::{Outcome, Rule, Shape};

/// The tile columns of a frame, as the results of their jobs.
#[derive(Drop)]
struct LentColumns<'r, 'a: 'r, B: DecodeRun, R: Lookup<JobResult<'a>, Decode<B>>> {
    results: &'r R,
    number: u64,
    frame: &'r BegunFrame<'a>,
    of: PhantomData<B>,
    ghost is_begun: { IsItsBegun B.format B.film number frame.now },
}

impl<'r, 'a: 'r, B: DecodeRun, R: Lookup<JobResult<'a>, Decode<B>>> PlannedColumns
    for LentColumns<'r, 'a, B, R> {
    ghost frame = { λ c. c.frame.now };

    fn column(&self, k: u32) -> &Result<PlannedColumn, Unplanned> {
        column::<B, R>(self.results, self.number, k)
    }
}

/// What is kept behind a frame, with the form behind what it shows.
fn with_form(kept: Kept, form: OutputForm) -> Kept
    ensures { result ≡ with_form kept form }
{
    Kept { form, ..kept }
}

/// How the next frame is put behind what is shown.
fn form_behind(form: OutputForm, shown: Option<ShownFrame>) -> OutputForm
    ensures { result ≡ form_behind form shown }
{
    match shown {
        Some(shown) => form.after(shown.shape),
        None => form,
    }
}

/// What a frame shows, and the form behind it.
fn closing<'a>(
    alloc: Global,
    kept: Kept,
    columns: u32,
    rows: u32,
    reads: RowReads,
    shown: Option<ShownFrame>,
) -> JobResult<'a>
    ensures { IsClosing kept columns rows reads shown result }
{
    let form = kept.form;
    let after = form_behind(form, shown);
    let closed = ClosedFrame {
        kept: with_form(kept, after),
        columns,
        rows,
        reads,
        shown,
        form,
    };
    match Box::new(alloc, closed) {
        Ok(closed) => JobResult::Closed(closed),
        Err(_) => JobResult::Ended(Outcome::OutOfMemory),
    }
}

/// Whether what is shown can be put next.
fn admits(form: &OutputForm, shown: &Option<ShownFrame>) -> bool
    ensures { result ≡ admits_it form.now shown.now }
{
    match shown {
        Some(shown) => form.admits(&shown.shape),
        None => true,
    }
}

/// Closes a frame that shows what a slot holds.
fn close_shown<'a, B: DecodeRun>(
    alloc: Global,
    number: u64,
    slot: u8,
    before: &Kept,
) -> JobResult<'a>
    requires shows { ShowsSlot B.format B.film number slot }
    requires kept { IsKeptBefore B.format B.film number before.now }
    ensures { IsClose B.format B.film number result }
{
    let shown = shown_in(before, slot);
    if !admits(&before.form, &shown) {
        return JobResult::Ended(outcome_at(number, Rule::OutputShape));
    }
    match before.share() {
        Ok(kept) => closing(alloc, kept, 0, 0, RowReads::none(alloc), shown),
        Err(_) => JobResult::Ended(Outcome::OutOfMemory),
    }
}

/// The number of the frame that a slot holds.
fn number_at(slots: &[Option<u64>], at: usize) -> Option<u64>
    ensures { result ≡ get_or slots.now at None }
{
    if at < slots.len() { slots[at] } else { None }
}

/// The shape of the frame that a slot holds.
fn shape_at(shapes: &[Option<Shape>], at: usize) -> Option<Shape>
    ensures { result ≡ get_or shapes.now at None }
{
    if at < shapes.len() { shapes[at] } else { None }
}

/// What a slot holds.
fn shown_in(before: &Kept, slot: u8) -> Option<ShownFrame>
    ensures { result ≡ held_in (get_or before.now.slots slot None) (get_or before.now.persist.slots slot None) }
{
    let at = usize::from(slot);
    match (
        number_at(&before.slots, at),
        shape_at(&before.persist.slots, at),
    ) {
        (Some(frame), Some(shape)) => Some(ShownFrame { frame, shape }),
        _ => None,
    }
}

/// What a coded frame shows.
fn shown_of(number: u64, header: &Header) -> Option<ShownFrame>
    ensures { result ≡ shown_by number header.now }
{
    if header.show_frame {
        Some(ShownFrame {
            frame: number,
            shape: header.shape(),
        })
    } else {
        None
    }
}

/// Closes a coded frame.
fn close_coded<'a, B: DecodeRun, C: PlannedColumns>(
    alloc: Global,
    number: u64,
    frame: &BegunFrame<'a>,
    planned: &C,
    before: &Kept,
) -> JobResult<'a>
    requires begun { IsBegunFrame B.format B.film number frame.now }
    requires frame { C.frame planned.now ≡ frame.now }
    requires kept { IsKeptBefore B.format B.film number before.now }
    ensures { IsClose B.format B.film number result }
{
    let header = &frame.setting.header;
    let decoded = match close(alloc, frame, planned) {
        Ok(decoded) => decoded,
        Err(halt) => return JobResult::Ended(halt_outcome(number, halt)),
    };
    let shown = shown_of(number, header);
    if !admits(&before.form, &shown) {
        return JobResult::Ended(outcome_at(number, Rule::OutputShape));
    }
    let Ok(reads) = row_reads(alloc, frame, planned, &before.slots) else {
        return JobResult::Ended(Outcome::OutOfMemory);
    };
    match keep(alloc, number, frame, decoded, before) {
        Ok(kept) => closing(
            alloc,
            kept,
            header.params.tiles.columns(),
            header.shape().superblock_rows(),
            reads,
            shown,
        ),
        Err(_) => JobResult::Ended(Outcome::OutOfMemory),
    }
}

/// Closes a frame behind what is kept of the frames before it.
fn close_behind<'r, 'a: 'r, B: DecodeRun, R: Lookup<JobResult<'a>, Decode<B>>>(
    alloc: Global,
    number: u64,
    results: &'r R,
    before: &Kept,
) -> JobResult<'a>
    requires { IsKeptBefore B.format B.film number before.now }
    ensures { IsClose B.format B.film number result }
{
    match head_read::<B, R>(results, number) {
        HeadRead::Shows(slot) => close_shown::<B>(alloc, number, slot, before),
        HeadRead::Coded(frame) => {
            let planned: LentColumns<'r, 'a, B, R> = LentColumns {
                results,
                number,
                frame,
                of: PhantomData,
            };
            close_coded::<B, LentColumns<'r, 'a, B, R>>(alloc, number, frame, &planned, before)
        }
    }
}

/// Closes the first frame.
fn close_first<'a, B: DecodeRun, R: Lookup<JobResult<'a>, Decode<B>>>(
    alloc: Global,
    list: &FrameList<'a, B>,
    results: &R,
) -> JobResult<'a>
    ensures { IsClose B.format B.film 0 result }
{
    let form = list.form();
    match Kept::start(alloc, form.format, form.rate) {
        Ok(start) => close_behind::<B, R>(alloc, 0, results, &start),
        Err(_) => JobResult::Ended(Outcome::OutOfMemory),
    }
}

/// The close of a frame: what is kept behind it and what it shows, or the end of the run, if it breaks a rule.
pub fn do_close<'a, B: DecodeRun, R: Lookup<JobResult<'a>, Decode<B>>>(
    alloc: Global,
    list: &FrameList<'a, B>,
    number: u64,
    results: &R,
) -> JobResult<'a>
    requires { IsDue (decode_rules B.format B.film) (decode_truth B.format B.film) (Close number) }
    ensures { IsClose B.format B.film number result }
{
    match number.checked_sub(1) {
        None => close_first(alloc, list, results),
        Some(before) => close_behind::<B, R>(
            alloc,
            number,
            results,
            &closed::<B, R>(results, before).kept,
        ),
    }
}
