ghost use Rattle.std.specs.Prelude.{◌≡◌, ◌≤◌, ◌<◌, ◌+◌, ◌↔◌, IsTrue, Contains, min, IfOk};

use std::alloc::{AllocError, Global};

// The calls of an object in memory: the numbers of those that are to fail, from 1, how many were made and how many failed.
// The count of calls stands still at its type's end, which no number in the list passes.
#[derive(Drop)]
pub(crate) struct Calls {
    fails: Vec<u64>,
    made: u64,
    failed: u64,
    ghost fewer: { failed ≤ made },
}

impl Calls {
    ghost use Rattle.edge_io.specs.Memory.{IsFresh, fault_of};

    pub(crate) fn new(alloc: Global, fails: &[u64]) -> Result<Calls, AllocError>
        ensures { IfOk result (λ calls. IsFresh calls fails.now) }
    {
        Ok(Calls {
            fails: fails.to_vec(alloc)?,
            made: 0,
            failed: 0,
        })
    }

    // Counts a call, and says whether it is to fail.
    pub(crate) fn next_fails(&mut self) -> bool
        ensures fails { IsTrue result ↔ Contains self.old.fails.items (self.old.made + 1) }
        ensures made { self.new.made ≡ min (self.old.made + 1) u64.MAX }
        ensures failed { self.new.failed ≡ self.old.failed + fault_of result }
        ensures same { self.new.fails ≡ self.old.fails }
    {
        if is_next_listed(&self.fails, self.made) {
            self.made += 1;
            self.failed += 1;
            return true;
        }
        self.made = self.made.saturating_add(1);
        false
    }
}

// Whether the call after so many is in the list.
fn is_next_listed(fails: &[u64], made: u64) -> bool
    ensures listed { IsTrue result ↔ Contains fails.now (made + 1) }
    ensures low { IsTrue result → made < u64.MAX }
{
    if made == u64::MAX {
        return false;
    }
    fails.contains(&(made + 1))
}
