//! The jobs that make a frame's samples, row of superblocks by row of superblocks; each makes a right result of right ones.
#![tactic(auto)]

mod filters;
mod lent;
mod references;
mod sample;
mod strips;

pub use filtered_rows;
pub use filters::do_filter;
pub use job_results;
pub use job_results::seq_decoder;
pub use lent::rows_of;
pub use sample::PlaneSample;
pub use strips::do_rows;
