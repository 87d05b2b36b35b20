//! The arithmetic decoder of VP9 (9.2 of the standard): bools, literals, tree-coded symbols and differences.
#![tactic(auto)]

mod decoder;
mod laws;
mod refill;
mod split;
mod tree;

pub use decoder::BoolDecoder;
pub use laws::{bools_stand_for_the_coder, doublings_are_least};
