ghost use Rattle.std.specs.Prelude.{◌≡◌, ◌<◌, ◌^◌, ℕ, List, Option};
ghost use Rattle.edge_io.specs.Filling.{Fills, BeginsWith, CountsGiven, CountsFaults};

use thiserror::Error;

/// A source failed: its count of faults rose.
#[derive(Clone, Copy, Debug, PartialEq, Eq, Error)]
#[error("read fault")]
pub struct Failed;

/// Where bytes come from.
pub trait Source {
    /// The bytes that are left, where the source tells them.
    ghost rest: { Self → Option (List ℕ) };

    /// How many bytes it has given so far.
    ghost given: { Self → ℕ };

    /// How often it has failed. It never falls.
    ghost faults: { Self → ℕ };

    /// Its count of faults isn't at its last value, so it may be asked.
    ghost can_fill: { Self → Type 0 };

    /// Puts the next bytes at the front of the buffer, and says how many they are. It gives none to a buffer that has
    /// room only at the end.
    fn fill(&mut self, buf: &mut [u8]) -> Result<usize, Failed>
        requires { can_fill self.old }
        ensures bytes { Fills (rest self.old) (rest self.new) buf.new result }
        ensures given { CountsGiven (given self.old) (given self.new) result }
        ensures most { given self.new < 2 ^ 63 }
        ensures faults { CountsFaults (faults self.old) (faults self.new) result }
        ensures again { faults self.new ≡ faults self.old → can_fill self.new };

    /// The next bytes, as far as they are here already, so that taking them waits for nothing. A source that can't tell has none.
    fn at_hand(&self) -> &[u8]
        ensures { BeginsWith (rest self.now) result.now };
}
