//! Which bands of its references a row of blocks is predicted from (8.5.2 of the standard says which samples).
#![tactic(auto)]

mod blocks;
mod laws;
mod ranges;
mod rows;

pub use blocks::{ReferenceShapes, needs};
pub use laws::bands_are_exact;
pub use ranges::{BandNeeds, BandRange};
