ghost use Rattle.std.specs.Prelude.{◌≡◌, ℕ, Bool, List, Option};
ghost use Rattle.edge_io.specs.declared.sink.PutFault.TheVariants as refused;

use std::alloc::AllocError;
use thiserror::Error;

/// Why a sink didn't take a piece.
#[derive(Clone, Copy, Debug, PartialEq, Eq, Error)]
pub enum PutFault {
    /// The sink failed: its count of faults rose.
    #[error("write fault")]
    Failed,
    /// A sink that grows had no memory.
    #[error("out of memory")]
    OutOfMemory,
}

impl From<AllocError> for PutFault {
    ghost from_gives = { λ _ e. e ≡ refused.OutOfMemory };

    fn from(_: AllocError) -> Self {
        PutFault::OutOfMemory
    }
}

/// Where bytes go.
pub trait Sink {
    ghost use Rattle.edge_io.specs.Putting.{Puts, CountsPutFaults};

    /// What it has taken so far, where the sink tells it.
    ghost taken: { Self → Option (List ℕ) };

    /// How often it has failed. It never falls.
    ghost faults: { Self → ℕ };

    /// Whether it takes memory for what it takes. It never changes.
    ghost grows: { Self → Bool };

    /// Its count of faults isn't at its last value, so it may be asked.
    ghost can_put: { Self → Type 0 };

    /// Takes bytes from the front of the piece, at least one of them if there is one, and says how many they are. Where
    /// it failed it may have taken some of them all the same; where it had no memory it took none.
    fn put(&mut self, piece: &[u8]) -> Result<usize, PutFault>
        requires { can_put self.old }
        ensures bytes { Puts (taken self.old) (taken self.new) piece.now result }
        ensures faults { CountsPutFaults (grows self.old) (faults self.old) (faults self.new) result }
        ensures grows { grows self.new ≡ grows self.old }
        ensures again { faults self.new ≡ faults self.old → can_put self.new };
}
