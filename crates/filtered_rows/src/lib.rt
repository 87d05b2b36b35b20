//! A frame's samples as the results of the jobs that filtered its rows of superblocks: each is made from the one above it, and none changes once it is done.
#![tactic(auto)]

mod buffers;
mod frame;
mod laws;

pub use buffers::{next_buffer, renew_buffer};
pub use frame::FilteredFrame;
pub use laws::{buffers_come_in_order, final_rows_are_held, rows_have_bands};
