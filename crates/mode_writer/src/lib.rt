//! Writes the modes of blocks of intra frames and how squares are partitioned (6.4.3 to 6.4.10 of the VP9 standard): what
//! is put is read back by the definitions of the reader.
#![tactic(auto)]

mod elements;
mod intra_modes;
mod laws;
mod mode_info;
mod partition;
mod tx_sizes;

pub use elements::{put_intra_segment_id, put_skip};
pub use laws::what_is_read_can_be_put;
pub use mode_info::put_intra_frame_mode_info;
pub use partition::put_partition;
pub use tx_sizes::put_tx_size;
