ghost use Rattle.std.specs.Prelude.{◌≡◌, true};
ghost use Rattle.edge_io.specs.Putting.{Takes};
ghost use Rattle.job_order.specs.Sound.{texts_below};
ghost use Rattle.job_crew.specs.Runs.{IsEnded};
ghost use Rattle.job_crew.specs.Events.{HasEvents};

use crate::jobs::{Output, Start, Window};
use job_order::Meaning;
use progress_board::InSlot;
use std::marker::{Model, PhantomData};

/// How a run ended.
#[derive(Drop)]
pub enum Ending<X> {
    /// At this frame, whose end has this result.
    Whole { frame: u64, value: X },
    /// At this frame, whose write has this result: the output refused it.
    Refused { frame: u64, value: X },
}

/// How a run ended, and its output.
#[derive(Drop)]
pub(crate) struct Told<X, K> {
    pub(crate) ending: Ending<X>,
    pub(crate) output: K,
}

/// The output, between two writes: it has taken the texts of the frames below a number, and may be written to.
#[derive(Drop)]
pub(crate) struct Outlet<X: Drop, M: Meaning<X> + Start, K: Output<X>> {
    next: u64,
    output: K,
    of: PhantomData<M>,
    results: PhantomData<X>,
}

impl<X: Drop, M: Meaning<X> + Start, K: Output<X>> Model for Outlet<X, M, K> {
    ghost use Rattle.std.specs.Prelude.{ℕ};
    ghost use Rattle.edge_io.specs.Putting.{Takes};
    ghost use Rattle.job_order.specs.Sound.{texts_below};

    ghost Value = { ℕ × K };

    ghost view = { λ o. (o.next, o.output) };

    ghost invariant = { λ o. Takes M.taken (K.taken o.output) (texts_below M.truth.text o.next) × K.may_put o.output };
}

impl<X: Drop, M: Meaning<X> + Start, K: Output<X>> Outlet<X, M, K> {
    pub(crate) fn new(next: u64, output: K) -> Outlet<X, M, K>
        requires taken { Takes M.taken (K.taken output) (texts_below M.truth.text next) }
        requires may { K.may_put output }
        ensures next { result.0 ≡ next }
        ensures output { result.1 ≡ output }
    {
        Outlet {
            next,
            output,
            of: PhantomData,
            results: PhantomData,
        }
    }

    /// Whether this frame's write comes next.
    pub(crate) fn awaits(&self, frame: u64) -> bool
        ensures { result ≡ true → frame ≡ self.now.0 }
    {
        self.next == frame
    }

    pub(crate) fn output(self) -> K
        ensures same { result ≡ self.1 }
        ensures taken { Takes M.taken (K.taken result) (texts_below M.truth.text self.0) }
        ensures may { K.may_put result }
    {
        let Outlet { output, .. } = self;
        output
    }
}

/// The output, and how the run ended.
#[derive(Drop)]
pub(crate) struct Over<X: Drop, M: Meaning<X> + Start, K: Output<X>, W: Window> {
    ending: Ending<X>,
    output: K,
    of: PhantomData<M>,
    within: PhantomData<W>,
}

impl<X: Drop, M: Meaning<X> + Start, K: Output<X>, W: Window> Model for Over<X, M, K, W> {
    ghost use Rattle.std.specs.Prelude.{ℕ};
    ghost use Rattle.job_crew.specs.Runs.{IsEnded};
    ghost use Rattle.job_crew.specs.Events.{HasEvents};

    ghost Value = { ℕ };

    ghost view = { λ o. 0 };

    ghost invariant = { λ o. IsEnded M.rules M.truth M.taken o.ending (K.taken o.output) (K.may_put o.output) (K.has_refused o.output) × HasEvents M.rules W.window o.ending };
}

impl<X: Drop, M: Meaning<X> + Start, K: Output<X>, W: Window> Over<X, M, K, W> {
    pub(crate) fn new(ending: Ending<X>, output: K) -> Over<X, M, K, W>
        requires ended { IsEnded M.rules M.truth M.taken ending (K.taken output) (K.may_put output) (K.has_refused output) }
        requires events { HasEvents M.rules W.window ending }
    {
        Over {
            ending,
            output,
            of: PhantomData,
            within: PhantomData,
        }
    }

    pub(crate) fn told(self) -> Told<X, K>
        ensures ended { IsEnded M.rules M.truth M.taken result.ending (K.taken result.output) (K.may_put result.output) (K.has_refused result.output) }
        ensures events { HasEvents M.rules W.window result.ending }
    {
        let Over { ending, output, .. } = self;
        Told { ending, output }
    }
}

/// What may lie in a slot of the board.
#[derive(Drop)]
pub(crate) enum Content<X: Drop, M: Meaning<X> + Start, K: Output<X>, W: Window> {
    /// The source isn't used here.
    Source,
    Open(Outlet<X, M, K>),
    Over(Over<X, M, K, W>),
    /// The run is over, and its output was taken.
    Taken,
}

/// A value with its slot.
#[derive(Drop)]
pub(crate) struct Placed<X: Drop, M: Meaning<X> + Start, K: Output<X>, W: Window> {
    pub(crate) slot: u8,
    pub(crate) content: Content<X, M, K, W>,
}

impl<X: Drop, M: Meaning<X> + Start, K: Output<X>, W: Window> InSlot for Placed<X, M, K, W> {
    ghost names = { λ p. p.slot };

    fn slot(&self) -> u8 {
        self.slot
    }
}
