//! A sink for what isn't wanted.

ghost use Rattle.std.specs.Prelude.{◌≡◌, None, false};

use edge_io::{PutFault, Sink};

/// A sink that lets go what it takes, and never fails.
#[derive(Drop)]
pub(crate) struct Discard {}

impl Sink for Discard {
    ghost taken = { λ _. None };

    ghost faults = { λ _. 0 };

    ghost grows = { λ _. false };

    ghost can_put = { λ _. Unit {0} };

    fn put(&mut self, piece: &[u8]) -> Result<usize, PutFault> {
        Ok(piece.len())
    }
}
