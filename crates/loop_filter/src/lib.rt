//! The loop filter over a frame, one row of superblocks at a time (8.8 of the standard).
#![tactic(auto)]

mod blocks;
mod cells;
mod laws;
mod next;
mod plans;
mod rows;
mod way;

pub use laws::{a_buffer_of_one_row_is_enough, rows_follow_one_another};
pub use line_filter::EdgeSample;
pub use next::filter_next;
pub use rows::{filter_frame, filter_row};
pub use way::sub_y;
