ghost use Rattle.std.specs.Prelude.{◌≡◌};
ghost use Rattle.edge_io.specs.declared.read.ReadError.TheVariants as refused;
ghost use Rattle.edge_io.specs.SourceReading.{ReadsAll, CountsReadFaults};

use crate::source::{Failed, Source};
use std::alloc::{AllocError, Global};
use thiserror::Error;

/// Why the bytes of a source aren't there.
#[derive(Clone, Copy, Debug, PartialEq, Eq, Error)]
pub enum ReadError {
    /// The source failed.
    #[error("read fault")]
    Failed,
    #[error("out of memory")]
    OutOfMemory,
}

impl From<AllocError> for ReadError {
    ghost from_gives = { λ _ e. e ≡ refused.OutOfMemory };

    fn from(_: AllocError) -> Self {
        ReadError::OutOfMemory
    }
}

const PIECE: usize = 1 << 16;

/// Reads a source to its end.
pub fn read_all<S: Source>(alloc: Global, source: &mut S) -> Result<Vec<u8>, ReadError>
    requires { S.can_fill source.old }
    ensures bytes { ReadsAll (S.rest source.old) (S.rest source.new) result }
    ensures faults { CountsReadFaults (S.faults source.old) (S.faults source.new) result }
    ensures again { S.faults source.new ≡ S.faults source.old → S.can_fill source.new }
{
    let mut all = Vec::new(alloc);
    let mut room = vec![in alloc; 0; PIECE]?;
    let piece = room.as_mut_slice();
    'pieces: loop {
        match source.fill(piece) {
            Ok(0) => return Ok(all),
            Ok(n) => all.extend_from_slice(&piece[..n])?,
            Err(Failed) => return Err(ReadError::Failed),
        }
    }
}
