//! The strips of all tile columns side by side: a row of superblocks of a frame before the loop filter.
#![tactic(auto)]

mod laws;
mod lent;
mod side_by_side;

pub use laws::strips_of_columns_are_a_frames_row;
pub use lent::LentStrips;
pub use side_by_side::{ColumnStrips, RawFrame};
