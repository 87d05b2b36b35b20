//! Parts of planes copied from one plane to another.
#![tactic(auto)]

mod copying;

pub use copying::copy_part;
