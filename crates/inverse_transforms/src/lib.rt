//! The inverse transforms of VP9 (8.7.1 of the standard): of one list, and of eight columns at a time.
#![tactic(auto)]

mod calm;
mod kernels;
mod lane_steps;
mod lanes;
mod laws;
mod magnitudes;
mod narrow;
mod numbers;
mod quads;
mod renamed;
mod rows;
mod steps;
mod transforms;
mod turn;
pub mod values;

pub use lanes::Lanes;
pub use laws::{transforms_break_one_rule, transforms_leave_zeros};
pub use numbers::is_fit;
pub use transforms::{adst, adst_columns, dct, dct_columns, limit_of, wht, wht_columns};
