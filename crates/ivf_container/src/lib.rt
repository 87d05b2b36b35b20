//! IVF files, reading side: the file header, and one packet after another.
#![tactic(auto)]

mod laws;
mod packet;

pub use laws::file_has_these_packets;
pub use packet::{Packet, next_packet, rate, read_header};
