//! Writes the frames of VP9 from what their blocks say (6.4 of the standard).
#![tactic(auto)]

mod frame;
mod symbols;
mod tile;
mod tiles;
mod written;

pub use frame::{FrameToWrite, write_frame};
pub use symbols::FrameSymbols;
pub use written::{NotWritten, Written};
