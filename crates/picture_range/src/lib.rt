//! All samples of a decoded frame are in the range of its depth, whatever its blocks are.
#![tactic(auto)]

mod laws;

pub use laws::samples_are_in_range;
