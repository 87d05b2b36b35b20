//! The frames of VP9: from a frame's bytes and its header to its samples (6.4 of the standard).
#![tactic(auto)]

mod decoding;
mod plain;
mod tiles;

pub use decoding::{Decoded, decode_frame};
pub use plain::PlainSources;
