//! The frames of a file: those of its payloads, one after another, and walks over them.
#![tactic(auto)]

mod cursor;
mod laws;
mod packets;

pub use cursor::{FileFrame, FrameCursor};
pub use laws::{file_has_these_frames, walks_go_on};
pub use packets::rate_of_file;
