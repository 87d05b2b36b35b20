//! The frames of a payload, by its superframe index.
#![tactic(auto)]

mod index;
mod laws;
mod splitting;

pub use laws::payload_has_these_frames;
pub use splitting::{Parts, split};
