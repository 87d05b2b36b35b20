//! Trials of the decoder: a made stream, decoded in each way that there is, and the line that tells what it shows.
#![tactic(auto)]

mod count;
mod line;
mod sink;
mod sum;
mod trial;

pub use stream_forge;
pub use trial::{NoLine, trial_line};
