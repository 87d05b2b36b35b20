//! Draws what the blocks of a made stream say (6.4.3 to 6.4.20 of the VP9 standard): from a number, by a rule that is
//! written down, so that others can draw the same.
#![tactic(auto)]

mod blocks;
mod draws;
mod in_plane;
mod inter;
mod intra;
mod levels;
mod quarters;
mod references;
mod starts;
mod vectors;

pub use blocks::draw_block;
pub use draws::Draws;
pub use in_plane::draw_levels_at;
pub use intra::draw_partition;
