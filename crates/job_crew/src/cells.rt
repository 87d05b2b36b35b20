ghost use Rattle.std.specs.Prelude.{◌≡◌, ℕ, ◌+◌, ◌*◌, ◌<◌, length, slice_get, Option, Some, IfOk, IfSome, IsSome};
ghost use Rattle.job_order.specs.Sound.{frame_of};
ghost use Rattle.job_crew.specs.Events.{HasHappened};
ghost use Rattle.job_crew.specs.Code.{HasHeadCell, HasRowCell};

use crate::finished::Finished;
use job_order::Meaning;
use std::alloc::{AllocError, Global};
use std::sync::OnceLock;
use vp9_types::JobName;

/// The result of a job, once it is finished.
pub(crate) type Cell<X, M> = OnceLock<Finished<X, M>>;

/// The results of a frame's filters, which the rows of later frames may ask for, and its write's, each set once.
#[derive(Drop)]
pub(crate) struct FrameCells<X: Drop, M: Meaning<X>> {
    pub(crate) frame: u64,
    pub(crate) rows: u32,
    pub(crate) filters: Vec<Cell<X, M>>,
    write: Cell<X, M>,
    ghost filters_are: { length filters.items ≡ rows },
}

/// The results of a frame's head and its close, which none but its own jobs and those of the next frame ask for, each set once.
#[derive(Drop)]
pub(crate) struct HeadCells<X: Drop, M: Meaning<X>> {
    pub(crate) frame: u64,
    head: Cell<X, M>,
    pub(crate) close: Cell<X, M>,
}

/// Results for each tile column of a frame, which none but its own jobs ask for, each set once.
#[derive(Drop)]
pub(crate) struct ColumnCells<X: Drop, M: Meaning<X>> {
    columns: u32,
    cells: Vec<Cell<X, M>>,
    ghost cells_are: { length cells.items ≡ columns },
}

fn blanks<X: Drop, M: Meaning<X>>(alloc: Global, number: u32) -> Result<Vec<Cell<X, M>>, AllocError>
    ensures { IfOk result (λ cells. length cells.items ≡ number) }
{
    let mut cells = Vec::new(alloc);
    cells.reserve(number as usize)?;
    for _ in 0..number {
        cells.push(OnceLock::new())?;
    }
    Ok(cells)
}

impl<X: Drop, M: Meaning<X>> FrameCells<X, M> {
    pub(crate) fn new(alloc: Global, frame: u64, rows: u32) -> Result<FrameCells<X, M>, AllocError>
        ensures { IfOk result (λ cells. (cells.frame ≡ frame) × (cells.rows ≡ rows)) }
    {
        Ok(FrameCells {
            frame,
            rows,
            filters: blanks(alloc, rows)?,
            write: OnceLock::new(),
        })
    }

    pub(crate) fn frame(&self) -> u64
        ensures { result ≡ self.now.frame }
    {
        self.frame
    }

    /// The cell of a filter of the frame, or of its write.
    pub(crate) fn cell(&self, job: JobName) -> Option<&Cell<X, M>>
        ensures { HasRowCell self.now.rows job → IsSome result }
    {
        match job {
            JobName::Filter { row, .. } => self.filters.get(row as usize),
            JobName::Write { .. } => Some(&self.write),
            _ => None,
        }
    }
}

impl<X: Drop, M: Meaning<X>> HeadCells<X, M> {
    pub(crate) fn new(frame: u64) -> HeadCells<X, M>
        ensures { result.frame ≡ frame }
    {
        HeadCells {
            frame,
            head: OnceLock::new(),
            close: OnceLock::new(),
        }
    }

    pub(crate) fn frame(&self) -> u64
        ensures { result ≡ self.now.frame }
    {
        self.frame
    }

    /// The cell of the frame's head, or of its close.
    pub(crate) fn cell(&self, job: JobName) -> Option<&Cell<X, M>>
        ensures { HasHeadCell job → IsSome result }
    {
        match job {
            JobName::Head { .. } => Some(&self.head),
            JobName::Close { .. } => Some(&self.close),
            _ => None,
        }
    }
}

impl<X: Drop, M: Meaning<X>> ColumnCells<X, M> {
    pub(crate) fn new(alloc: Global, columns: u32) -> Result<ColumnCells<X, M>, AllocError>
        ensures { IfOk result (λ cells. cells.columns ≡ columns) }
    {
        Ok(ColumnCells {
            columns,
            cells: blanks(alloc, columns)?,
        })
    }

    /// The cell of a tile column.
    pub(crate) fn cell(&self, column: u32) -> Option<&Cell<X, M>>
        ensures { column < self.now.columns → IsSome result }
    {
        self.cells.get(column as usize)
    }
}

/// Sets the result of a job in its cell, if it has one.
pub(crate) fn set<X: Drop, M: Meaning<X>>(cell: Option<&Cell<X, M>>, job: JobName, value: X)
    requires right { M.truth.right job value }
    requires event { HasHappened M.rules job value }
{
    if let Some(cell) = cell {
        let _ = cell.try_set(Finished::new(job, value));
    }
}

/// The result of a job in its cell, where it is finished.
pub(crate) fn get<'c, X: Drop, M: Meaning<X>>(
    cell: Option<&'c Cell<X, M>>,
    job: JobName,
) -> Option<&'c X>
    ensures right { IfSome result (λ x. M.truth.right job x.now) }
    ensures event { IfSome result (λ x. HasHappened M.rules job x.now) }
{
    cell?.get()?.of(job)
}

/// The frame of a job.
pub fn frame_of(job: JobName) -> u64
    ensures { result ≡ frame_of job }
{
    match job {
        JobName::Head { frame }
        | JobName::Column { frame, .. }
        | JobName::Close { frame }
        | JobName::Rows { frame, .. }
        | JobName::Filter { frame, .. }
        | JobName::Write { frame }
        | JobName::End { frame } => frame,
    }
}
