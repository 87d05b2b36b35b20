//! The compressed headers of VP9 frames (6.3 of the standard): the forward update of the contexts.
#![tactic(auto)]

mod modes;
mod reading;
mod references;
mod transforms;
mod update;
mod vectors;

pub use reading::read;
