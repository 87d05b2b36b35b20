//! What the blocks of a tile column owe to one another as they are read: their order and their places.
#![tactic(auto)]

mod laws;

pub use laws::{blocks_of_a_column_follow_one_another, frames_are_strips_of_their_columns};
