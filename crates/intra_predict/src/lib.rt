//! Intra prediction (8.5.1 of the standard): the samples of a block by its mode, from those above it and left of it.
#![tactic(auto)]

mod block;
mod coded;
mod diagonal;
mod edges;
mod flat;
mod kept;
mod laws;
mod lines;
mod place;
mod places;
mod prediction;
mod put;
mod reading;
mod rows;
mod scratch;
mod sizes;
mod square;
mod steps;

pub use block::IntraBlock;
pub use coded::CodedBlock;
pub use edges::Edges;
pub use laws::{edges_lie_around, samples_stay_in_range};
pub use place::IntraPlace;
pub use places::place_of;
pub use prediction::predict;
pub use put::put_block;
pub use reading::read_edges;
pub use scratch::Scratch;
pub use sizes::side_of;
pub use steps::{put_predicted, put_rebuilt, put_transform_block};
