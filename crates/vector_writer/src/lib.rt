//! Writes the modes and vectors of inter blocks (6.4.16 to 6.4.20 of the VP9 standard): those that are read back.
#![tactic(auto)]

mod blocks;
mod components;
mod differences;
mod laws;
mod new_vectors;
mod quarters;
mod symbols;
mod vectors;

pub use blocks::{put_filter, put_inter_prediction};
pub use differences::put_mv;
pub use laws::what_is_read_can_be_put;
pub use new_vectors::put_new_vector;
pub use symbols::{InterSymbols, QuarterSymbols};
pub use vectors::put_inter_mode;
