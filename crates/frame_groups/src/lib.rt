//! The frames of an IVF file, taken from a source in groups of whole packets; and which container a source has.
#![tactic(auto)]

mod group;
mod laws;
mod opening;
mod reader;

pub use group::{Behind, FrameGroup, FramePayload};
pub use laws::{file_has_frames_ahead, four_bytes_tell_the_container, front_has_these_frames};
pub use opening::{Looked, Opened, open};
pub use reader::{GroupReader, GroupSize};
