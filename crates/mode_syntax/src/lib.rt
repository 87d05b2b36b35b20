//! The modes of blocks (6.4.3 to 6.4.8 of the standard): how squares are partitioned, and what each block of an intra
//! frame says.
#![tactic(auto)]

mod elements;
mod intra_modes;
mod laws;
mod mode_info;
mod partition;
mod square_at;
mod tx_sizes;

pub use elements::{read_skip, skip_context, skips_segment};
pub use intra_modes::{EdgeModes, edge_modes, intra_of};
pub use laws::{
    blocks_cover_a_tile_once, columns_are_apart, columns_read_apart,
    columns_with_their_own_state_are_separate, mode_tiles_are_separate, squares_list_their_leaves,
    tiles_list_their_leaves, tiles_read_their_columns, walks_map,
};
pub use mode_info::intra_frame_mode_info;
pub use partition::{partition_number, partition_probs, read_partition, side_of, square_context};
pub use square_at::{SquareAt, block_of, quarter_of};
pub use tx_sizes::{greatest_allowed, read_tx_size, tx_context};
