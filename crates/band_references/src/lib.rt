//! That with the bands of its references that a row of blocks needs each of the blocks is predicted, and that these bands are there.
#![tactic(auto)]

mod laws;

pub use laws::{bands_lie_in_the_frame, bands_serve_blocks};
