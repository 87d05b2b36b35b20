//! A crew of workers that do the jobs of a run, in any order that their needs allow, and write the run's texts in order. What the jobs are about is the caller's.
#![tactic(auto)]

mod cells;
mod crew;
mod finished;
mod frame;
mod frames;
mod jobs;
mod left;
mod lent;
mod marks;
mod news;
mod outlet;
mod pool;
mod seats;
mod tickets;
mod work;

pub use cells::frame_of;
pub use crew::{Run, run_jobs};
pub use jobs::{Building, Jobs, LIVE, LastResult, Layout, Output, Results, Start};
pub use left::{FrameResults, Ran};
pub use outlet::Ending;
