//! The text of a shown frame: what a decoder writes for it.
#![tactic(auto)]

mod digest;
mod formats;
mod frame;
mod lines;
mod rendering;
mod rows;

pub use formats::render_as;
pub use frame::render;
pub use rendering::{Format, Rendering};
