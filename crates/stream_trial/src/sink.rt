//! A sink for the output of a decode.

ghost use Rattle.std.specs.Prelude.{◌≡◌, Some, [], true};

use edge_io::{PutFault, Sink};
use std::alloc::Global;

/// A sink in memory that never fails.
#[derive(Drop)]
pub(crate) struct Kept {
    pub(crate) bytes: Vec<u8>,
}

impl Kept {
    pub(crate) fn new(alloc: Global) -> Kept
        ensures { result.bytes.items ≡ [] }
    {
        Kept {
            bytes: Vec::new(alloc),
        }
    }
}

impl Sink for Kept {
    ghost taken = { λ kept. Some kept.bytes.items };

    ghost faults = { λ _. 0 };

    ghost grows = { λ _. true };

    ghost can_put = { λ _. Unit {0} };

    fn put(&mut self, piece: &[u8]) -> Result<usize, PutFault> {
        self.bytes.extend_from_slice(piece)?;
        Ok(piece.len())
    }
}
