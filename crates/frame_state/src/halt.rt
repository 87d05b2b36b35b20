//! Why there is no frame.

ghost use Rattle.std.specs.Prelude.{◌≡◌};
ghost use Rattle.frame_state.specs.declared.halt.Halt.TheVariants as halt;

use std::alloc::AllocError;
use vp9_types::Rule;

/// Why there is no frame: the rule that it breaks, or want of memory.
#[derive(Clone, Copy, Debug, PartialEq, Eq)]
pub enum Halt {
    Broken(Rule),
    OutOfMemory,
}

impl From<Rule> for Halt {
    ghost from_gives = { λ rule e. e ≡ halt.Broken rule };

    fn from(rule: Rule) -> Self {
        Halt::Broken(rule)
    }
}

impl From<AllocError> for Halt {
    ghost from_gives = { λ _ e. e ≡ halt.OutOfMemory };

    fn from(_: AllocError) -> Self {
        Halt::OutOfMemory
    }
}
