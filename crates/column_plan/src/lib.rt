//! The residues of a tile column's blocks one behind another, so that memory goes by what is coded.
#![tactic(auto)]

mod blocks;
mod chunks;
mod laws;
mod residues;
mod rows;

pub use blocks::{push_block, transform_count};
pub use laws::{plans_stand_for_their_blocks, rows_lie_between_their_places};
pub use residues::PlanResidues;
pub use rows::{RowPlace, RowPlaces};
