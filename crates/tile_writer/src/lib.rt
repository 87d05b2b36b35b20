//! The squares of a tile as bools, whatever its blocks say (6.4.2 and 6.4.3 of the standard).
#![tactic(auto)]

mod rows;
mod squares;
mod unwritten;

pub use rows::put_rows;
pub use squares::{TileWriter, put_square};
pub use unwritten::Unwritten;
