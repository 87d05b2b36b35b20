//! Vectors that are predicted from those of other blocks (6.5 of the standard: motion vector prediction).
#![tactic(auto)]

mod found;
mod laws;
mod neighbourhood;
mod search;
mod sub_blocks;
mod suggestions;
mod vector;

pub use laws::candidates_are_of_the_tiles_columns;
pub use search::{MvSearch, SignBiases};
pub use sub_blocks::{NearVectors, near_vectors, sub_block_vectors};
pub use suggestions::{candidates, mode_context};
pub use vector::{is_short_vector, usable_precision};
