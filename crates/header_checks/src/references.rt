//! Tests of references.

ghost use Rattle.std.specs.Prelude.{◌≡◌, true};
ghost use Rattle.frame_headers.specs.References.{all_of};
ghost use Rattle.header_writer.specs.WellFormed.{AreReferences, IsReference};
ghost use Rattle.header_checks.specs.Headers.{are_references, is_reference};

use crate::same::holds;
use frame_headers::{FrameSize, Persist, Reference, References};

#[tactic(auto, unfolding(crate::specs::Headers::is_reference))]
fn is_reference(before: &Persist, resilient: bool, reference: &Reference) -> bool
    ensures is { result ≡ is_reference before.now resilient reference.now }
    ensures reference { result ≡ true → IsReference before.now resilient reference.now }
    ensures complete { IsReference before.now resilient reference.now → result ≡ true }
{
    let slot = reference.slot;
    if slot >= 8 {
        return false;
    }
    holds(before.slots[usize::from(slot)], &reference.shape) && !(resilient && reference.sign_bias)
}

/// Whether an inter frame of this size can have these references.
#[tactic(auto, unfolding(crate::specs::Headers::are_references))]
pub(crate) fn are_references(
    before: &Persist,
    resilient: bool,
    size: &FrameSize,
    references: &References,
) -> bool
    ensures is { result ≡ are_references before.now resilient size.now references.now }
    ensures references { result ≡ true → AreReferences before.now resilient size.now references.now }
    ensures complete { AreReferences before.now resilient size.now references.now → result ≡ true }
{
    is_reference(before, resilient, &references.last)
        && is_reference(before, resilient, &references.golden)
        && is_reference(before, resilient, &references.altref)
        && references.have_format(&before.color)
        && references.has_one_in_range(size)
}
