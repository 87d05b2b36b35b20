//! What is fixed for the blocks of a frame.
#![tactic(auto)]

mod setting;

pub use setting::FrameSetting;
