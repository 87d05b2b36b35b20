//! What a run leaves for one that goes on behind it.

ghost use Rattle.std.specs.Prelude.{◌≡◌, length, All, IfOk, IfSome};
ghost use Rattle.vp9_types.specs.declared.job.JobName.TheVariants.{Close, Filter};
ghost use Rattle.job_crew.specs.Left.{HasRightResults, AreRightRows};

use crate::cells::{Cell, FrameCells, HeadCells};
use crate::frame::{Frame, Shared};
use crate::outlet::Ending;
use crate::work::FrameWork;
use job_order::Meaning;
use std::alloc::{AllocError, Global};
use std::sync::Arc;
use vp9_types::JobName;

/// The results of a frame that jobs of later frames may ask for, where they are finished: its filters', and its close's, where it is the last
/// frame of its run.
#[derive(Drop)]
pub struct FrameResults<X> {
    pub frame: u64,
    pub close: Option<X>,
    pub filters: Vec<Option<X>>,
}

/// What a run leaves: how it ended, its output, and the results that a run behind it may ask for, of its last frame and of those before it
/// that this one has. Where there was no memory for their list there are none.
#[derive(Drop)]
pub struct Ran<X, K> {
    pub ending: Ending<X>,
    pub output: K,
    pub results: Option<Vec<FrameResults<X>>>,
}

fn value_in<X: Drop, M: Meaning<X>>(cell: Cell<X, M>, job: JobName) -> Option<X>
    ensures { IfSome result (λ x. M.truth.right job x) }
{
    cell.into_inner()?.into_value(job)
}

fn row_in<X: Drop, M: Meaning<X>>(cell: &mut Cell<X, M>, frame: u64, row: u32) -> Option<X>
    ensures { IfSome result (λ x. M.truth.right (Filter frame row) x) }
{
    cell.take()?.into_value(JobName::Filter { frame, row })
}

// The results of a frame's filters.
fn rows_in<X: Drop, M: Meaning<X>>(
    alloc: Global,
    frame: u64,
    rows: u32,
    cells: Vec<Cell<X, M>>,
) -> Result<Vec<Option<X>>, AllocError>
    requires { length cells.items ≡ rows }
    ensures { IfOk result (λ values. AreRightRows M.truth frame values.items) }
{
    let mut cells = cells;
    let mut values = Vec::new(alloc);
    values.reserve(rows as usize)?;
    for row in 0..rows {
        values.push(row_in(&mut cells[row as usize], frame, row))?;
    }
    Ok(values)
}

// The result of a frame's close.
fn close_in<X: Drop, M: Meaning<X>>(heads: Option<HeadCells<X, M>>, frame: u64) -> Option<X>
    ensures { IfSome result (λ x. M.truth.right (Close frame) x) }
{
    let HeadCells { close, .. } = heads?;
    value_in(close, JobName::Close { frame })
}

fn results_in<X: Drop, M: Meaning<X>>(
    alloc: Global,
    cells: FrameCells<X, M>,
    heads: Option<HeadCells<X, M>>,
) -> Result<FrameResults<X>, AllocError>
    ensures { IfOk result (λ results. HasRightResults M.truth results) }
{
    let FrameCells {
        frame,
        rows,
        filters,
        ..
    } = cells;
    Ok(FrameResults {
        frame,
        close: close_in(heads, frame),
        filters: rows_in(alloc, frame, rows, filters)?,
    })
}

// One frame's results more. Nobody else has them when the run is over.
fn put<X: Drop, M: Meaning<X>>(
    alloc: Global,
    all: &mut Vec<FrameResults<X>>,
    cells: Shared<FrameCells<X, M>>,
    heads: Option<HeadCells<X, M>>,
) -> Result<(), AllocError>
    requires { All (HasRightResults M.truth) all.old.items }
    ensures { All (HasRightResults M.truth) all.new.items }
{
    if let Some(cells) = Arc::into_inner(cells) {
        all.push(results_in(alloc, cells, heads)?)?;
    }
    Ok(())
}

// The results of a frame, and those that it has of frames before it.
fn all_of<X: Drop, M: Meaning<X>>(
    alloc: Global,
    frame: Frame<X, M>,
) -> Result<Vec<FrameResults<X>>, AllocError>
    ensures { IfOk result (λ all. All (HasRightResults M.truth) all.items) }
{
    let Frame {
        own,
        before,
        heads,
        ..
    } = frame;
    let mut before = before;
    let mut all = Vec::new(alloc);
    put(alloc, &mut all, own, Arc::into_inner(heads))?;
    while let Some(cells) = before.pop() {
        put(alloc, &mut all, cells, None)?;
    }
    Ok(all)
}

/// What the last frame at work leaves, where the others are let go.
pub(crate) fn left_of<X: Drop, M: Meaning<X>>(
    alloc: Global,
    last: Option<FrameWork<X, M>>,
) -> Option<Vec<FrameResults<X>>>
    ensures { IfSome result (λ all. All (HasRightResults M.truth) all.items) }
{
    let Some(last) = last else {
        return Some(Vec::new(alloc));
    };
    match Arc::into_inner(last.into_frame()) {
        Some(frame) => all_of(alloc, frame).ok(),
        None => Some(Vec::new(alloc)),
    }
}
