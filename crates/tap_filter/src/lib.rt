//! Filtered values, sixteen at a time (the block inter prediction process, 8.5.2 of the standard).
#![tactic(auto)]

mod bytes;
mod kept;
mod numbers;
mod runs;
mod sixteen;
mod taps;
mod vectors;

pub use bytes::{filter_byte_line, filter_byte_run};
pub use kept::FilterSample;
pub use numbers::{rounded, weighted_run};
pub use runs::{filter_line, filter_run};
pub use taps::TapLanes;
