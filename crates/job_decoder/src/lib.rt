//! The decoder by jobs: a crew of workers does the jobs of all frames, and writes what they show in order.
#![tactic(auto)]

mod decoder;
mod group;
mod group_run;
mod kept;
mod kept_frames;
mod lookup;
mod output;
mod past;
mod reads;
mod whole;
mod writes;

pub use group::{NextFrames, Reached, decode_group};
pub use job_rows::seq_decoder;
pub use past::Past;
pub use whole::{Crew, Decoded, decode_by_jobs};
