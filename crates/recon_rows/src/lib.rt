//! Rows of superblocks of a tile column, put from the column's plan into its samples, or each into a strip of its own.
#![tactic(auto)]

mod laws;
mod part;
mod row;
mod strips;

pub use laws::{blocks_of_tile_columns_are_placed, plans_are_tile_columns};
pub use row::put_row;
pub use strips::{new_strip, rows};
pub use tile_syntax;
