//! Reads the squares of a tile in their order, whatever its blocks read (6.4.2 and 6.4.3 of the standard).
#![tactic(auto)]

mod rows;
mod squares;

pub use rows::read_rows;
pub use squares::TileReader;
