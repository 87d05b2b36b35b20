//! The loop filter of VP9 across one edge of a plane (8.8.3 to 8.8.5 of the standard).
#![tactic(auto)]

mod edge;
mod edges;
mod far;
mod far_lanes;
mod filters;
mod kept;
mod lanes;
mod near;
mod squares;
mod turn;

pub use edge::{Edge, FilterWidth, Limits, Pass};
pub use edges::filter_edge;
pub use kept::EdgeSample;
