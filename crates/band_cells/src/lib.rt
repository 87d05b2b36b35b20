//! The rows of a frame that threads hand on: bands, each written once, in cells that any thread reads without a lock.
#![tactic(auto)]

mod band;
mod cell;
mod layout;
mod meaning;
mod rows;
mod samples;
mod store;

pub use band::Band;
pub use cell::BandCell;
pub use layout::band_area;
pub use meaning::Meaning;
pub use rows::BandRows;
pub use samples::{BandName, BandSamples};
pub use store::Store;
