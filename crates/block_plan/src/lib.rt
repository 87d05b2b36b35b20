//! The blocks of a frame: what is known of each, and which of them stands at a place; and the map of segment ids, which persists
//! from frame to frame.
#![tactic(auto)]

mod block;
mod grid;
mod in_planes;
mod neighbours;
mod places;
mod residues;
mod segment_ids;
mod segment_map;

pub use block::{
    BlockAt, BlockInfo, InterPrediction, IntraPrediction, Mv, Prediction, ReferenceFrames,
};
pub use grid::BlockGrid;
pub use in_planes::{mode_at, plane_block};
pub use neighbours::{Neighbours, above_place, left_place};
pub use residues::{BlockResidues, PlaneResidues};
pub use segment_map::SegmentMap;
