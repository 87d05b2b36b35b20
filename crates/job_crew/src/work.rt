//! A frame at work as its jobs see it, with what none but they ask for.

ghost use Rattle.std.specs.Prelude.{◌≡◌, ◌<◌, length, Option, Some, IfSome, IsSome, IfOk};
ghost use Rattle.std.specs.Arc.{arc_value};
ghost use Rattle.job_crew.specs.Events.{IsLogged, HasHappened};
ghost use Rattle.job_crew.specs.Code.{ColumnsStay, StripsStay, gone_at};

use crate::cells::{Cell, ColumnCells, frame_of, get, set};
use crate::frame::{Frame, Shared};
use crate::jobs::{Layout, Window};
use job_order::Meaning;
use std::alloc::{AllocError, Global};
use std::mem::replace;
use std::sync::Arc;
use vp9_types::JobName;

/// Results by tile column, as long as a job may ask for them.
type Columns<X, M> = Option<Shared<ColumnCells<X, M>>>;

fn blank_columns<X: Drop, M: Meaning<X>>(
    alloc: Global,
    columns: u32,
) -> Result<Shared<ColumnCells<X, M>>, AllocError>
    ensures { IfOk result (λ cells. (arc_value cells).columns ≡ columns) }
{
    let cells = ColumnCells::new(alloc, columns)?;
    Ok(Arc::new(alloc, cells)?)
}

fn cell_of<X: Drop, M: Meaning<X>>(columns: &Columns<X, M>, column: u32) -> Option<&Cell<X, M>>
    ensures { (cells : _) → columns.now ≡ Some cells → column < (arc_value cells).columns → IsSome result }
{
    match columns {
        Some(cells) => cells.cell(column),
        None => None,
    }
}

// One owner more. Only 2^64 of them would leave it without.
fn lent_columns<X: Drop, M: Meaning<X>>(columns: &Columns<X, M>) -> Columns<X, M> {
    match columns {
        Some(cells) => Arc::try_clone(cells).ok(),
        None => None,
    }
}

/// The results of a superblock row's jobs, and those of the row above.
#[derive(Drop)]
pub(crate) struct Strips<X: Drop, M: Meaning<X>> {
    row: u32,
    own: Columns<X, M>,
    above: Columns<X, M>,
}

impl<X: Drop, M: Meaning<X>> Strips<X, M> {
    fn cell(&self, row: u32, column: u32) -> Option<&Cell<X, M>> {
        if row == self.row {
            cell_of(&self.own, column)
        } else {
            cell_of(&self.above, column)
        }
    }
}

/// A frame at work and its tile columns, which stay until it is written.
#[derive(Drop)]
pub(crate) struct AtWork<X: Drop, M: Meaning<X>> {
    frame: Shared<Frame<X, M>>,
    columns: Columns<X, M>,
}

impl<X: Drop, M: Meaning<X>> AtWork<X, M> {
    pub(crate) fn frame(&self) -> &Frame<X, M>
        ensures { result.now ≡ arc_value self.now.frame }
    {
        &self.frame
    }

    // Only 2^64 owners would leave a job without.
    fn lend(&self) -> Option<AtWork<X, M>> {
        Some(AtWork {
            frame: Arc::try_clone(&self.frame).ok()?,
            columns: lent_columns(&self.columns),
        })
    }

    // The cell of a job of this frame, or of one before it, but for those of superblock rows.
    fn cell(&self, job: JobName) -> Option<&Cell<X, M>> {
        match job {
            JobName::Column { frame, column } if frame == self.frame.number() => {
                cell_of(&self.columns, column)
            }
            _ => self.frame.cell(job),
        }
    }
}

/// What a job is lent: a frame at work, which is its own or where that isn't there yet the one before, and of its superblock rows the job's and
/// the one above.
#[derive(Drop)]
pub(crate) struct Loan<X: Drop, M: Meaning<X>> {
    pub(crate) at_work: AtWork<X, M>,
    pub(crate) strips: Option<Strips<X, M>>,
}

fn cell_in<'f, X: Drop, M: Meaning<X>>(
    at_work: &'f AtWork<X, M>,
    strips: Option<&'f Strips<X, M>>,
    job: JobName,
) -> Option<&'f Cell<X, M>> {
    match job {
        JobName::Rows { column, row, .. } => strips?.cell(row, column),
        _ => at_work.cell(job),
    }
}

/// The result of a job, where it is finished.
pub(crate) fn find<'f, X: Drop, M: Meaning<X>>(
    at_work: &'f AtWork<X, M>,
    strips: Option<&'f Strips<X, M>>,
    job: JobName,
) -> Option<&'f X>
    ensures right { IfSome result (λ x. M.truth.right job x.now) }
    ensures event { IfSome result (λ x. HasHappened M.rules job x.now) }
{
    get(cell_in(at_work, strips, job), job)
}

impl<X: Drop, M: Meaning<X>> Loan<X, M> {
    pub(crate) fn strips(&self) -> Option<&Strips<X, M>> {
        match &self.strips {
            Some(strips) => Some(strips),
            None => None,
        }
    }

    /// Sets the result of a job of the frame.
    pub(crate) fn finish<W: Window>(&self, job: JobName, value: X)
        requires right { M.truth.right job value }
        requires event { IsLogged M.rules W.window job value }
    {
        set(cell_in(&self.at_work, self.strips(), job), job, value);
    }
}

/// What is let go, to be dropped where nobody waits for it.
#[derive(Drop)]
pub(crate) struct Gone<X: Drop, M: Meaning<X>> {
    above: Columns<X, M>,
    last: Columns<X, M>,
    columns: Columns<X, M>,
}

pub(crate) fn nothing<X: Drop, M: Meaning<X>>() -> Gone<X, M> {
    Gone {
        above: None,
        last: None,
        columns: None,
    }
}

/// A frame at work with its superblock rows, of which each stays until the one below it is filtered.
#[derive(Drop)]
pub(crate) struct FrameWork<X: Drop, M: Meaning<X>> {
    at_work: AtWork<X, M>,
    strips: Vec<Columns<X, M>>,
}

fn blank_strips<X: Drop, M: Meaning<X>>(
    alloc: Global,
    layout: Layout,
) -> Result<Vec<Columns<X, M>>, AllocError>
    ensures { IfOk result (λ strips. length strips.items ≡ layout.rows) }
{
    let mut strips = Vec::new(alloc);
    strips.reserve(layout.rows as usize)?;
    for _ in 0..layout.rows {
        strips.push(Some(blank_columns(alloc, layout.columns)?))?;
    }
    Ok(strips)
}

impl<X: Drop, M: Meaning<X>> FrameWork<X, M> {
    pub(crate) fn new(
        alloc: Global,
        frame: Frame<X, M>,
        layout: Layout,
    ) -> Result<FrameWork<X, M>, AllocError>
        ensures frame { IfOk result (λ work. arc_value work.at_work.frame ≡ frame) }
        ensures strips { IfOk result (λ work. length work.strips.items ≡ layout.rows) }
    {
        Ok(FrameWork {
            at_work: AtWork {
                frame: Arc::new(alloc, frame)?,
                columns: Some(blank_columns(alloc, layout.columns)?),
            },
            strips: blank_strips(alloc, layout)?,
        })
    }

    /// The frame alone. What none but its jobs ask for goes.
    pub(crate) fn into_frame(self) -> Shared<Frame<X, M>> {
        let FrameWork { at_work, .. } = self;
        let AtWork { frame, .. } = at_work;
        frame
    }

    pub(crate) fn at_work(&self) -> &AtWork<X, M>
        ensures { result.now ≡ self.now.at_work }
    {
        &self.at_work
    }

    /// Has the frame with less of the frames before it from then on. The one that it had is handed back.
    pub(crate) fn narrow(&mut self, frame: Shared<Frame<X, M>>) -> Shared<Frame<X, M>>
        ensures frame { self.new.at_work.frame ≡ frame }
        ensures old { result ≡ self.old.at_work.frame }
        ensures columns { self.new.at_work.columns ≡ self.old.at_work.columns }
        ensures strips { self.new.strips ≡ self.old.strips }
    {
        replace(&mut self.at_work.frame, frame)
    }

    /// Sets the head's result.
    pub(crate) fn set_head<W: Window>(&self, job: JobName, value: X)
        requires right { M.truth.right job value }
        requires event { IsLogged M.rules W.window job value }
    {
        set(self.at_work.cell(job), job, value);
    }

    fn lent_strip(&self, row: u32) -> Columns<X, M> {
        match self.strips.get(row as usize) {
            Some(strip) => lent_columns(strip),
            None => None,
        }
    }

    fn lent_strips(&self, row: u32) -> Strips<X, M> {
        let above = match row.checked_sub(1) {
            Some(above) => self.lent_strip(above),
            None => None,
        };
        Strips {
            row,
            own: self.lent_strip(row),
            above,
        }
    }

    /// What a job is lent.
    pub(crate) fn lend(&self, job: JobName) -> Option<Loan<X, M>> {
        let strips = match job {
            JobName::Rows { row, .. } | JobName::Filter { row, .. } => Some(self.lent_strips(row)),
            _ => None,
        };
        Some(Loan {
            at_work: self.at_work.lend()?,
            strips,
        })
    }

    fn take_strip(&mut self, row: Option<u32>) -> Columns<X, M>
        ensures at_work { self.new.at_work ≡ self.old.at_work }
        ensures strips { self.new.strips.items ≡ gone_at row self.old.strips.items }
    {
        let at = row? as usize;
        if at < self.strips.len() {
            self.strips[at].take()
        } else {
            None
        }
    }

    /// Lets go what no job asks for any more once this one is finished: the row above of one that is filtered, with the last row itself, and the
    /// tile columns of a frame that is written.
    pub(crate) fn let_go(&mut self, job: JobName) -> Gone<X, M>
        ensures frame { self.new.at_work.frame ≡ self.old.at_work.frame }
        ensures columns { ColumnsStay job self.old.at_work.columns self.new.at_work.columns }
        ensures strips { StripsStay job self.old.strips.items self.new.strips.items }
    {
        match job {
            JobName::Filter { row, .. } => {
                let is_last = row as usize + 1 == self.strips.len();
                Gone {
                    above: self.take_strip(row.checked_sub(1)),
                    last: if is_last {
                        self.take_strip(Some(row))
                    } else {
                        None
                    },
                    columns: None,
                }
            }
            JobName::Write { .. } => Gone {
                above: None,
                last: None,
                columns: self.at_work.columns.take(),
            },
            _ => nothing(),
        }
    }
}
