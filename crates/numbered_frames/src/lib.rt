//! A decode by the numbers of its frames: what is kept before each, what it is and adds; and that these are the decode.
#![tactic(auto)]

mod laws;

pub use laws::{frames_are_the_output, later_frames_change_no_earlier_one, slots_hold_frames};
pub use seq_decoder;
pub use seq_decoder::frame_state;
