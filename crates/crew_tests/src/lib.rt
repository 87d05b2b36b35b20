//! Tests of the crew: runs in memory by some workers, to their end and to a refused write.
#![tactic(auto)]

mod gate;
mod meeting;
mod numbers;
mod tally;

pub use gate::Counter;
pub use meeting::Meeting;
pub use numbers::{NumberJobs, Numbers, Paper};
pub use tally::{Number, Tally};

#[cfg(test)]
mod tests;
