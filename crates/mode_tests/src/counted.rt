//! Digests of what was counted.

ghost use Rattle.std.specs.Prelude.{◌<◌, ◌≤◌};
ghost use Rattle.prob_contexts.specs.Kinds.{kind_size};

use prob_contexts::{Counts, ProbKind};
use test_draws::Digest;

/// The counters of a kind, of which there are so many.
pub fn add_counts(digest: &mut Digest, counts: &Counts, kind: ProbKind, size: u16)
    requires { size ≤ kind_size kind }
{
    for place in 0..size {
        digest.add_shifted(counts.counter(kind, place, false).min(65535));
        digest.add_shifted(counts.counter(kind, place, true).min(65535));
    }
}

/// The counters of all kinds of vectors.
pub fn add_vector_counts(digest: &mut Digest, counts: &Counts) {
    add_counts(digest, counts, ProbKind::VectorJoint, 3);
    add_counts(digest, counts, ProbKind::VectorSign, 2);
    add_counts(digest, counts, ProbKind::VectorClass, 20);
    add_counts(digest, counts, ProbKind::VectorClass0, 2);
    add_counts(digest, counts, ProbKind::VectorBit, 20);
    add_counts(digest, counts, ProbKind::VectorClass0Fraction, 12);
    add_counts(digest, counts, ProbKind::VectorFraction, 6);
    add_counts(digest, counts, ProbKind::VectorClass0High, 2);
    add_counts(digest, counts, ProbKind::VectorHigh, 2);
}
