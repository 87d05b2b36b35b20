//! The jobs that read a frame: its head, its tile columns and its close, and the end of a run; each makes a right result of right ones.
#![tactic(auto)]

mod close;
mod columns;
mod frames;
mod head;
mod reads;

pub use close::do_close;
pub use columns::do_column;
pub use frames::{FoundFrames, FrameList, find_frames};
pub use head::do_head;
