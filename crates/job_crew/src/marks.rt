//! Which jobs are finished, by their tickets.

ghost use Rattle.std.specs.Prelude.{◌≡◌, ◌↔◌, ℕ, ◌+◌, ◌<◌, true, false, [], ◌∷◌, ◌++◌, length, Some, IfOk, IfSome, slice_get, slice_set};
ghost use Rattle.job_crew.specs.Events.{IsMarked};

use std::alloc::{AllocError, Global};
use std::collections::VecDeque;

// How many tickets may be drawn behind the first one whose job isn't finished. A run would go on with room for one, since that job is ready or
// at work.
const MARKS: usize = 1 << 15;

/// A mark for each ticket that is drawn, from a base on: set where the job is finished. Those of all tickets below the base are, and are let go.
#[derive(Drop)]
pub(crate) struct Marks {
    pub(crate) base: u64,
    pub(crate) marks: VecDeque<bool>,
}

impl Marks {
    pub(crate) fn new(alloc: Global) -> Result<Marks, AllocError>
        ensures base { IfOk result (λ m. m.base ≡ 0) }
        ensures none { IfOk result (λ m. m.marks.items ≡ []) }
    {
        Ok(Marks {
            base: 0,
            marks: VecDeque::with_capacity(alloc, MARKS)?,
        })
    }

    /// Whether there is room for one more.
    pub(crate) fn has_room(&self) -> bool {
        self.marks.len() < MARKS
    }

    /// Whether the ticket's mark is set.
    pub(crate) fn is_set(&self, ticket: u64) -> bool
        ensures { result ≡ true → IsMarked self.now.base self.now.marks.items ticket }
    {
        if ticket < self.base {
            return true;
        }
        let at = (ticket - self.base) as usize;
        at < self.marks.len() && self.marks[at]
    }

    /// The place of the ticket's mark, where it is there and not set.
    pub(crate) fn open_place(&self, ticket: u64) -> Option<usize>
        ensures at { IfSome result (λ at. ticket ≡ self.now.base + at) }
        ensures open { IfSome result (λ at. slice_get self.now.marks.items at ≡ Some false) }
    {
        let at = ticket.checked_sub(self.base)? as usize;
        if at < self.marks.len() && !self.marks[at] {
            Some(at)
        } else {
            None
        }
    }

    /// One ticket more is drawn.
    pub(crate) fn push(&mut self) -> bool
        ensures base { self.new.base ≡ self.old.base }
        ensures yes { result ≡ true → self.new.marks.items ≡ self.old.marks.items ++ false ∷ [] }
        ensures no { result ≡ false → self.new.marks.items ≡ self.old.marks.items }
    {
        self.marks.push_back(false).is_ok()
    }

    /// Sets the mark at a place.
    pub(crate) fn set(&mut self, at: usize)
        requires { at < length self.old.marks.items }
        ensures base { self.new.base ≡ self.old.base }
        ensures set { self.new.marks.items ≡ slice_set self.old.marks.items at true }
    {
        self.marks[at] = true;
    }

    /// Lets the first mark go, where it is set.
    pub(crate) fn let_go(&mut self)
        ensures same { (ticket : ℕ) → IsMarked self.old.base self.old.marks.items ticket ↔ IsMarked self.new.base self.new.marks.items ticket }
        ensures drawn { self.new.base + length self.new.marks.items ≡ self.old.base + length self.old.marks.items }
    {
        if self.base < u64::MAX && self.marks.len() > 0 && self.marks[0] {
            let _ = self.marks.pop_front();
            self.base += 1;
        }
    }
}
