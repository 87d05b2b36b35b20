//! Tests at run time whether a header can be written (6.2 and 6.3 of the VP9 standard).
#![tactic(auto)]

mod color;
mod filter;
mod headers;
mod laws;
mod modes;
mod params;
mod references;
mod same;
mod segments;
mod tiles;

pub use headers::{can_choose, is_well_formed};
pub use laws::what_is_read_can_be_written;
pub use modes::can_say_modes;
