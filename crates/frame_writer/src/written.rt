//! What is written of a frame, and why it isn't.

ghost use Rattle.std.specs.Prelude.{◌≡◌};
ghost use Rattle.frame_writer.specs.declared.written.NotWritten.TheVariants as not_written;
ghost use Rattle.frame_writer.specs.Code.{ending_of};

use std::alloc::AllocError;
use tile_writer::Unwritten;
use vp9_types::Rule;

/// A tile or a frame as bytes, and the rule that what was told breaks first, if it breaks one: of that tile nothing stands
/// behind what breaks it.
#[derive(Drop)]
pub struct Written {
    pub bytes: Vec<u8>,
    pub broken: Option<Rule>,
}

/// Why a frame isn't written: what it says isn't told, or can't be said in its place; a part of it is too long for the field
/// of its size; or there is no memory.
#[derive(Clone, Copy, Debug, PartialEq, Eq)]
pub enum NotWritten {
    Unsaid,
    TooLong,
    OutOfMemory,
}

impl From<AllocError> for NotWritten {
    ghost from_gives = { λ _ e. e ≡ not_written.OutOfMemory };

    fn from(_: AllocError) -> Self {
        NotWritten::OutOfMemory
    }
}

/// How a tile ends that is told so far.
pub(crate) fn ending_of(ended: Result<(), Unwritten>) -> Result<Option<Rule>, NotWritten>
    ensures { result ≡ ending_of ended }
{
    match ended {
        Ok(()) => Ok(None),
        Err(Unwritten::Broken(rule)) => Ok(Some(rule)),
        Err(Unwritten::Unsaid) => Err(NotWritten::Unsaid),
        Err(Unwritten::OutOfMemory) => Err(NotWritten::OutOfMemory),
    }
}
