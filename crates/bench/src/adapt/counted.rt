//! Counts of a frame.

ghost use Rattle.std.specs.Prelude.{◌≤◌};
ghost use Rattle.prob_contexts.specs.Kinds.{kind_size};

use crate::numbers::drawn;
use prob_contexts::{Counts, ProbKind};
use std::alloc::{AllocError, Global};

/// Counts at each node of a kind, as often as is drawn.
fn fill(counts: &mut Counts, kind: ProbKind, size: u16, state: u32) -> u32
    requires { size ≤ kind_size kind }
{
    let mut state = state;
    for place in 0..size {
        for one in [false, true] {
            state = drawn(state);
            for _ in 0..state >> 24 {
                counts.count(kind, place, one);
            }
        }
    }
    state
}

pub fn drawn_counts(alloc: Global) -> Result<Counts, AllocError> {
    let mut counts = Counts::new(alloc)?;
    let state = fill(&mut counts, ProbKind::Tx8x8, 2, 1);
    let state = fill(&mut counts, ProbKind::Tx16x16, 4, state);
    let state = fill(&mut counts, ProbKind::Tx32x32, 6, state);
    let state = fill(&mut counts, ProbKind::Coef, 1584, state);
    let state = fill(&mut counts, ProbKind::Skip, 3, state);
    let state = fill(&mut counts, ProbKind::InterMode, 21, state);
    let state = fill(&mut counts, ProbKind::Filter, 8, state);
    let state = fill(&mut counts, ProbKind::IsInter, 4, state);
    let state = fill(&mut counts, ProbKind::CompoundFlag, 5, state);
    let state = fill(&mut counts, ProbKind::SingleReference, 10, state);
    let state = fill(&mut counts, ProbKind::CompoundReference, 5, state);
    let state = fill(&mut counts, ProbKind::YMode, 36, state);
    let state = fill(&mut counts, ProbKind::UvMode, 90, state);
    let state = fill(&mut counts, ProbKind::Partition, 48, state);
    let state = fill(&mut counts, ProbKind::VectorJoint, 3, state);
    let state = fill(&mut counts, ProbKind::VectorSign, 2, state);
    let state = fill(&mut counts, ProbKind::VectorClass, 20, state);
    let state = fill(&mut counts, ProbKind::VectorClass0, 2, state);
    let state = fill(&mut counts, ProbKind::VectorBit, 20, state);
    let state = fill(&mut counts, ProbKind::VectorClass0Fraction, 12, state);
    let state = fill(&mut counts, ProbKind::VectorFraction, 6, state);
    let state = fill(&mut counts, ProbKind::VectorClass0High, 2, state);
    fill(&mut counts, ProbKind::VectorHigh, 2, state);
    Ok(counts)
}
