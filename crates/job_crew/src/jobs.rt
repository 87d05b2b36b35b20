ghost use Rattle.std.specs.Prelude.{◌≡◌, ℕ, ◌⊎◌, true, false, List, Option, Some, None, IfSome, IfNone};
ghost use Rattle.vp9_types.specs.declared.job.JobName.TheVariants.{Head, Close, Rows, Write};
ghost use Rattle.job_order.specs.Truths.{IsRightText};
ghost use Rattle.job_order.specs.Needs.{HasBand};
ghost use Rattle.job_order.specs.declared.event.Done.{Done};
ghost use Rattle.edge_io.specs.Putting.{Takes};
ghost use Rattle.job_crew.specs.Runs.{IsDue, IsNoWrite, GoesOn, IsLast};
ghost use Rattle.job_crew.specs.Events.{HasHappened, HasEndedBy};

use job_order::{Meaning, Shown};
use std::marker::Brand;
use vp9_types::{BandSpan, JobName};

/// How a frame is parsed: its tile columns, and how many superblock rows it has at most, which is what room for their results is taken for.
#[derive(Clone, Copy, Debug, PartialEq, Eq)]
pub struct Layout {
    pub columns: u32,
    pub rows: u32,
}

/// How a frame is built: its tile columns, its superblock rows, and the picture that it shows.
#[derive(Clone, Copy, Debug, PartialEq, Eq)]
pub struct Building {
    pub columns: u32,
    pub rows: u32,
    pub shown: Option<Shown>,
}

/// How many frames a close can name: eight slots, and the frame that was decoded last.
pub const LIVE: usize = 9;

/// What takes the texts of a run. `X` is what jobs answer, writes among them.
pub trait Output<X> {
    /// What it has taken, where it tells that.
    ghost taken: { Self → Option (List ℕ) };

    /// Whether it may be written to.
    ghost may_put: { Self → Type 0 };

    /// How it refused a write that has this result.
    ghost has_refused: { Self → X → Type 0 };
}

/// What the output had taken when a run began, where it tells that. It holds nothing at run time.
pub trait Start {
    ghost taken: { Option (List ℕ) };
}

/// A call that begins a run picks its own.
impl Start for Brand {
    ghost use Rattle.std.specs.Prelude.{None};

    ghost taken = { None };
}

/// How many frames may be at work at once. It holds nothing at run time.
pub(crate) trait Window {
    ghost window: { ℕ };
}

/// A run picks its own.
impl Window for Brand {
    ghost window = { 2 };
}

/// Results of jobs that are done, lent to a job that needs them.
pub trait Results<X, M: Meaning<X>> {
    /// The result of a job that the borrower needs, or that one of these needs in turn: one of the borrower's own frame; the head or the close
    /// of the frame before it; or a filter of that frame, or of one that its close names as live, and once the borrower's own frame is closed
    /// and is apart from others, of one that this close names as live. Such a head has found a frame, and such a close has built one.
    fn result(&self, job: JobName) -> &X
        ensures right { M.truth.right job result.now }
        ensures event { HasHappened M.rules job result.now }
        ensures goes_on { GoesOn M.rules job result.now };
}

/// The result by which a run ends, lent to its end.
pub trait LastResult<X, M: Meaning<X>> {
    /// The one that says that the run ends at this frame, of its head or its close.
    fn last(&self, frame: u64) -> &X
        ensures last { IsLast M.rules M.truth frame result.now }
        ensures event { HasEndedBy M.rules frame result.now };
}

/// Who does the jobs. No call waits for another job.
pub trait Jobs<X, M: Meaning<X>, K: Output<X>> {
    /// What a head's result says. There is nothing to parse where the run ends.
    fn layout(&self, head: &X) -> Option<Layout>
        ensures some { IfSome result (λ layout. M.rules.parses head.now ≡ Some layout.columns) }
        ensures none { IfNone result (M.rules.parses head.now ≡ None) };

    /// What a close's result says. There is nothing to build where the run ends.
    fn building(&self, close: &X) -> Option<Building>
        ensures some { IfSome result (λ b. M.rules.builds close.now ≡ Some (record { columns = b.columns; rows = b.rows; shown = b.shown })) }
        ensures none { IfNone result (M.rules.builds close.now ≡ None) };

    /// The frames before it whose filtered rows jobs of later frames may ask for, as a close's result has them: those that slots hold, and the
    /// last one that was decoded. A frame's rows stay only as long as each close behind it names it.
    fn live(&self, close: &X) -> [Option<u64>; LIVE];

    /// Whether no superblock row of a closed frame reads other frames, as its close's result has it. Of the frames that the close doesn't name such
    /// a frame keeps the one before it alone.
    fn is_apart(&self, close: &X) -> bool;

    /// The bands of other frames that a superblock row of a column reads. The frame's close is finished. It is asked again until these
    /// bands are there, while no other worker can ask for a job, so it is to be a look at the results.
    fn reads<R: Results<X, M>>(
        &self,
        frame: u64,
        column: u32,
        row: u32,
        results: &R,
    ) -> [Option<BandSpan>; 3]
        requires { IsDue M.rules M.truth (Rows frame column row) }
        ensures all { (results : List (Done X)) (g band : ℕ) → HasBand (M.rules.reads (Rows frame column row) results) g band → HasBand result g band };

    /// Does a job that is no write.
    fn run<R: Results<X, M> + LastResult<X, M>>(&self, job: JobName, results: &R) -> X
        requires due { IsDue M.rules M.truth job }
        requires no_write { IsNoWrite job }
        ensures { M.truth.right job result };

    /// The head's result where the run has no memory for the frame. It says that the run ends.
    fn starved(&self, frame: u64) -> X
        ensures right { M.truth.right (Head frame) result }
        ensures ends { M.rules.parses result ≡ None };

    /// Writes what a frame shows.
    fn write<R: Results<X, M>>(&self, frame: u64, results: &R, output: &mut K) -> X
        requires due { IsDue M.rules M.truth (Write frame) }
        requires may { K.may_put output.old }
        ensures right { M.truth.right (Write frame) result }
        ensures put { (put : List ℕ) × Takes (K.taken output.old) (K.taken output.new) put × IsRightText (M.rules.fails result) put (M.truth.text frame) }
        ensures again { M.rules.fails result ≡ false → K.may_put output.new }
        ensures refused { M.rules.fails result ≡ true → K.has_refused output.new result };

    /// Whether the output refused a write.
    fn is_refused(&self, write: &X) -> bool
        ensures { result ≡ M.rules.fails write.now };
}
