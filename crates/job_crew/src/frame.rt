ghost use Rattle.std.specs.Prelude.{◌≡◌, ℕ, ◌+◌, ◌*◌, ◌<◌, ◌∷◌, Option, Some, IfSome, IsSome, IfOk, slice_get};
ghost use Rattle.std.specs.Option.{option_map};
ghost use Rattle.std.specs.Arc.{arc_value};
ghost use Rattle.job_order.specs.Sound.{frame_of};
ghost use Rattle.job_crew.specs.Events.{HasHappened};
ghost use Rattle.job_crew.specs.Code.{is_named, mapped, kept, narrowed, numbered, HasHeadCell, HasRowCell, HasLastingCell};

use crate::cells::{Cell, FrameCells, HeadCells, frame_of, get};
use job_order::Meaning;
use std::alloc::{AllocError, Global};
use std::sync::Arc;
use vp9_types::JobName;

/// A value with several owners.
pub(crate) type Shared<T> = Arc<T, Global>;

/// A frame at work: those of its results that later frames may ask for, and those of the frames before it that its jobs and the next head may
/// ask for. These are the filtered rows of the frame before it, and of what that one has those that its close names as live; and of heads and
/// closes, which are large, those of the frame before it alone. Once it is closed and reads none of them it keeps of the others only what is still asked for. So a
/// result is there as long as a job that may ask for it isn't done, and goes with the last frame that has it.
#[derive(Drop)]
pub(crate) struct Frame<X: Drop, M: Meaning<X>> {
    pub(crate) own: Shared<FrameCells<X, M>>,
    pub(crate) before: Vec<Shared<FrameCells<X, M>>>,
    pub(crate) heads: Shared<HeadCells<X, M>>,
    heads_before: Option<Shared<HeadCells<X, M>>>,
    ghost heads_are: { (arc_value heads).frame ≡ (arc_value own).frame },
}

fn is_live(live: &[Option<u64>], frame: u64) -> bool
    ensures { result ≡ is_named live.now frame }
{
    live.contains(&Some(frame))
}

fn number_of<X: Drop, M: Meaning<X>>(cells: &Shared<FrameCells<X, M>>) -> u64
    ensures { result ≡ (arc_value cells.now).frame }
{
    cells.frame()
}

// The cells of a frame, and of those before it that are named as live.
fn keep<X: Drop, M: Meaning<X>>(
    alloc: Global,
    last: &Shared<FrameCells<X, M>>,
    before: &[Shared<FrameCells<X, M>>],
    live: &[Option<u64>],
) -> Result<Vec<Shared<FrameCells<X, M>>>, AllocError>
    ensures { IfOk result (λ cells. mapped cells.items (λ c. (arc_value c).frame) ≡ (arc_value last.now).frame ∷ kept live.now (mapped before.now (λ c. (arc_value c).frame))) }
{
    let mut cells = Vec::new(alloc);
    cells.push(Arc::try_clone(last)?)?;
    for at in 0..before.len() {
        let next = &before[at];
        if is_live(live, number_of(next)) {
            cells.push(Arc::try_clone(next)?)?;
        }
    }
    Ok(cells)
}

// The first of some cells, and of the others those that are named.
fn narrow<X: Drop, M: Meaning<X>>(
    alloc: Global,
    before: &[Shared<FrameCells<X, M>>],
    named: &[Option<u64>],
) -> Result<Vec<Shared<FrameCells<X, M>>>, AllocError>
    ensures { IfOk result (λ cells. mapped cells.items (λ c. (arc_value c).frame) ≡ narrowed named.now (mapped before.now (λ c. (arc_value c).frame))) }
{
    match before.split_first() {
        Some((last, others)) => keep(alloc, last, others, named),
        None => Ok(Vec::new(alloc)),
    }
}

fn cloned<X: Drop, M: Meaning<X>>(
    heads: &Option<Shared<HeadCells<X, M>>>,
) -> Result<Option<Shared<HeadCells<X, M>>>, AllocError>
    ensures { IfOk result (λ cloned. option_map arc_value cloned ≡ option_map arc_value heads.now) }
{
    match heads {
        Some(heads) => Ok(Some(Arc::try_clone(heads)?)),
        None => Ok(None),
    }
}

fn blank<X: Drop, M: Meaning<X>>(
    alloc: Global,
    frame: u64,
    rows: u32,
) -> Result<Shared<FrameCells<X, M>>, AllocError>
    ensures frame { IfOk result (λ cells. (arc_value cells).frame ≡ frame) }
    ensures rows { IfOk result (λ cells. (arc_value cells).rows ≡ rows) }
{
    let cells = FrameCells::new(alloc, frame, rows)?;
    Ok(Arc::new(alloc, cells)?)
}

fn blank_heads<X: Drop, M: Meaning<X>>(
    alloc: Global,
    frame: u64,
) -> Result<Shared<HeadCells<X, M>>, AllocError>
    ensures { IfOk result (λ heads. (arc_value heads).frame ≡ frame) }
{
    Ok(Arc::new(alloc, HeadCells::new(frame))?)
}

impl<X: Drop, M: Meaning<X>> Frame<X, M> {
    /// A frame with nothing before it.
    pub(crate) fn first(alloc: Global, frame: u64, rows: u32) -> Result<Frame<X, M>, AllocError>
        ensures { IfOk result (λ f. ((arc_value f.own).frame ≡ frame) × ((arc_value f.own).rows ≡ rows)) }
    {
        Ok(Frame {
            own: blank(alloc, frame, rows)?,
            before: Vec::new(alloc),
            heads: blank_heads(alloc, frame)?,
            heads_before: None,
        })
    }

    /// The frame behind this one. It keeps this one, and of those that this one keeps the rows of what the close has named as live.
    pub(crate) fn next(
        &self,
        alloc: Global,
        frame: u64,
        rows: u32,
        live: &[Option<u64>],
    ) -> Result<Frame<X, M>, AllocError>
        ensures own { IfOk result (λ f. ((arc_value f.own).frame ≡ frame) × ((arc_value f.own).rows ≡ rows)) }
        ensures before { IfOk result (λ f. mapped f.before.items (λ c. (arc_value c).frame) ≡ (arc_value self.now.own).frame ∷ kept live.now (mapped self.now.before.items (λ c. (arc_value c).frame))) }
        ensures heads { IfOk result (λ f. (h : _) × (f.heads_before ≡ Some h) × ((arc_value h).frame ≡ (arc_value self.now.own).frame)) }
    {
        Ok(Frame {
            own: blank(alloc, frame, rows)?,
            before: keep(alloc, &self.own, &self.before, live)?,
            heads: blank_heads(alloc, frame)?,
            heads_before: Some(Arc::try_clone(&self.heads)?),
        })
    }

    /// The same frame when it is closed and reads none of those before it. It keeps the rows of the frame before it, among whose cells is its
    /// write's, and of the others those of what is named.
    pub(crate) fn narrowed(
        &self,
        alloc: Global,
        named: &[Option<u64>],
    ) -> Result<Frame<X, M>, AllocError>
        ensures own { IfOk result (λ f. arc_value f.own ≡ arc_value self.now.own) }
        ensures before { IfOk result (λ f. mapped f.before.items (λ c. (arc_value c).frame) ≡ narrowed named.now (mapped self.now.before.items (λ c. (arc_value c).frame))) }
        ensures heads { IfOk result (λ f. arc_value f.heads ≡ arc_value self.now.heads) }
        ensures heads_before { IfOk result (λ f. option_map arc_value f.heads_before ≡ option_map arc_value self.now.heads_before) }
    {
        Ok(Frame {
            own: Arc::try_clone(&self.own)?,
            before: narrow(alloc, &self.before, named)?,
            heads: Arc::try_clone(&self.heads)?,
            heads_before: cloned(&self.heads_before)?,
        })
    }

    pub(crate) fn number(&self) -> u64
        ensures { result ≡ (arc_value self.now.own).frame }
    {
        self.own.frame()
    }

    // The rows of this frame, or of one of those before it that it keeps.
    fn rows_of(&self, frame: u64) -> Option<&FrameCells<X, M>>
        ensures { option_map (λ c. c.now) result ≡ option_map arc_value (numbered (self.now.own ∷ self.now.before.items) (λ c. (arc_value c).frame) frame) }
    {
        if self.own.frame() == frame {
            return Some(&self.own);
        }
        for at in 0..self.before.len() {
            let cells = &self.before[at];
            if cells.frame() == frame {
                return Some(cells);
            }
        }
        None
    }

    // The head and close of this frame, or of the one before it.
    fn heads_of(&self, frame: u64) -> Option<&HeadCells<X, M>>
        ensures frame { IfSome result (λ h. h.now.frame ≡ frame) }
        ensures own { frame ≡ (arc_value self.now.own).frame → IsSome result }
        ensures before { IfSome self.now.heads_before (λ h. frame ≡ (arc_value h).frame → IsSome result) }
    {
        if self.heads.frame() == frame {
            return Some(&self.heads);
        }
        match &self.heads_before {
            Some(heads) if heads.frame() == frame => Some(heads),
            _ => None,
        }
    }

    /// The cell of a job of this frame, or of one of those before it, where it stays.
    pub(crate) fn cell(&self, job: JobName) -> Option<&Cell<X, M>>
        ensures own { frame_of job ≡ (arc_value self.now.own).frame → HasLastingCell (arc_value self.now.own).rows job → IsSome result }
        ensures heads { IfSome self.now.heads_before (λ h. frame_of job ≡ (arc_value h).frame → HasHeadCell job → IsSome result) }
        ensures rows { IfSome (numbered (self.now.own ∷ self.now.before.items) (λ c. (arc_value c).frame) (frame_of job)) (λ c. HasRowCell (arc_value c).rows job → IsSome result) }
    {
        let frame = frame_of(job);
        match job {
            JobName::Head { .. } | JobName::Close { .. } => self.heads_of(frame)?.cell(job),
            _ => self.rows_of(frame)?.cell(job),
        }
    }

    /// The result of such a job, where it is finished.
    pub(crate) fn find(&self, job: JobName) -> Option<&X>
        ensures right { IfSome result (λ x. M.truth.right job x.now) }
        ensures event { IfSome result (λ x. HasHappened M.rules job x.now) }
    {
        get(self.cell(job), job)
    }
}
