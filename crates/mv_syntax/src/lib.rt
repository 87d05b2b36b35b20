//! Vectors that are coded as differences from the best predicted one (6.4.18 to 6.4.20 of the standard: assign_mv, read_mv,
//! read_mv_component).
#![tactic(auto)]

mod components;
mod differences;
mod new_vectors;

pub use components::power_of_two;
pub use differences::read_mv;
pub use new_vectors::{added, in_range_or_rule, read_new_vector};
