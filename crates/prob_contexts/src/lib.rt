//! The probabilities that a frame is decoded with, and the counts of its symbols.
#![tactic(auto)]

mod contexts;
mod counts;
mod defaults;
mod groups;
mod kind;
mod laws;

pub use contexts::Contexts;
pub use counts::Counts;
pub use defaults::default_contexts;
pub use groups::{CoefProbs, InterProbs, TxProbs, VectorProbs};
pub use kind::{CountedBool, ProbKind};
pub use laws::{added_counts_are_counted, counters_tell_how_often, counts_stand_for_their_bools};
