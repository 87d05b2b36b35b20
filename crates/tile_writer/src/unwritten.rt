//! Why a tile isn't written to its end.

ghost use Rattle.std.specs.Prelude.{◌≡◌};
ghost use Rattle.tile_writer.specs.declared.unwritten.Unwritten.TheVariants as unwritten;

use std::alloc::AllocError;
use vp9_types::Rule;

/// Why what is to be written isn't written to its end: it breaks a rule, and nothing more of it would be read; what it says
/// isn't there, or can't be said in its place; or there is no memory.
#[derive(Clone, Copy, Debug, PartialEq, Eq)]
pub enum Unwritten {
    Broken(Rule),
    Unsaid,
    OutOfMemory,
}

impl From<AllocError> for Unwritten {
    ghost from_gives = { λ _ e. e ≡ unwritten.OutOfMemory };

    fn from(_: AllocError) -> Self {
        Unwritten::OutOfMemory
    }
}
