//! Writes the compressed headers of VP9 frames (6.3 of the standard): the updates that make new probabilities of old ones.
#![tactic(auto)]

mod differences;
mod laws;
mod modes;
mod references;
mod transforms;
mod update;
mod vectors;
mod writing;

pub use differences::difference_to;
pub use laws::what_is_read_can_be_written;
pub use writing::write_compressed_header;
