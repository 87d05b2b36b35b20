//! Writes IVF files, packet by packet, and superframe indexes.
#![tactic(auto)]

mod file;
mod index;
mod laws;

pub use file::{write_header, write_packet};
pub use index::write_index;
pub use laws::{a_written_file_has_its_packets, a_written_index_is_found};
