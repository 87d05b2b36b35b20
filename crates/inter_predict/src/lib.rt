//! Inter prediction (8.5.2 of the standard): blocks filtered out of a reference at places of 1/16 sample, at every scale.
#![tactic(auto)]

mod down;
mod filter;
mod in_plane;
mod kept;
mod laws;
mod lines;
mod means;
mod piece_lines;
mod places;
mod prediction;
mod rows;
mod scaled;

pub use in_plane::predict_in_plane;
pub use laws::{phase_zero_copies, rows_suffice, samples_stay_in_range};
pub use means::average;
pub use prediction::{LINES, predict};
