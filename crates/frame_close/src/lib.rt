//! What the tile columns of a frame come to, joined: their counts as one sum, or the rule of the first tile that breaks one.
#![tactic(auto)]

mod closing;

pub use closing::close;
