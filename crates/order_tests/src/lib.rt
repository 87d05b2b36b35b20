//! Tests of the world of jobs: whole runs, played.
#![tactic(auto)]

mod player;

pub use player::{Order, Three, job_of, play};

#[cfg(test)]
mod tests;
