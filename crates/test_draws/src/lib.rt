//! What tests of layers draw, and digests of what they find.
#![tactic(auto)]

mod digest;
mod draws;

pub use digest::Digest;
pub use draws::Draws;
