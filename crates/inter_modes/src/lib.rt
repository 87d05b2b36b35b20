//! The modes of the blocks of inter frames (6.4.5 and 6.4.11 to 6.4.18 of the standard).
#![tactic(auto)]

mod blocks;
mod frame_blocks;
mod intra_blocks;
mod laws;
mod quarters;
mod segments;
mod starts;
mod vectors;

pub use blocks::{FilterSource, quarters_prediction, whole_prediction};
pub use frame_blocks::{Frame, block_with, mode_info};
pub use laws::blocks_are_of_their_columns;
pub use quarters::{Quarter, QuartersBefore, before_of};
pub use segments::update_segments;
pub use starts::{BlockStart, SegmentOf, is_inter_feature, least_id, segment_reference};
pub use vectors::{
    NO_VECTOR, NO_VECTORS, Sources, WantedVector, best_mv, near_of_block, near_of_quarter,
    nearest_of_quarter, of_list,
};
