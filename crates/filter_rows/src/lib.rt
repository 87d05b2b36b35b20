//! A frame filtered in buffers of a constant number of rows: the samples of a row of superblocks are put into its buffer, below
//! rows that are pending, and the row is filtered. Then some rows are final, and others pending for the next row.
#![tactic(auto)]

mod buffer;
mod laws;
mod round;
mod strips;

pub use buffer::new_buffer;
pub use laws::bands_become_final;
pub use round::filter_next_row;
pub use strips::Strips;
