//! Reads a tile column of a frame by itself, without a sample, into a plan.
#![tactic(auto)]

mod laws;
mod planning;
mod plans;
mod tiles;

pub use frame_state;
pub use laws::plans_read_what_tiles_say;
pub use plans::{ColumnPlan, Unplanned, column};
