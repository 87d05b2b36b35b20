//! The state of a frame that reading, writing and rebuilding share: its tile columns and their blocks, what the frames before leave to it, and its plan by tile column.
#![tactic(auto)]

mod beginning;
mod columns;
mod frame_blocks;
mod halt;
mod laws;
mod sources;
mod tile_places;

pub use beginning::begin_frame;
pub use columns::TileColumn;
pub use frame_blocks::FrameBlocks;
pub use halt::Halt;
pub use laws::frames_are_read_by_columns;
pub use sources::{FramePast, FrameSources, adapts, frame_is_intra};
pub use tile_places::{TilePlaces, superblocks};
