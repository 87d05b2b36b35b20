//! Draws the frames of a made stream from a number, by a rule that is written down, so that others can draw the same: their
//! headers (6.2 and 6.3 of the VP9 standard), and the symbols of their blocks (6.4.2 to 6.4.24), in the order in which they are
//! written.
#![tactic(auto)]

mod frames;
mod heads;
mod kinds;
mod levels;
mod modes;
mod params;
mod references;
mod sizes;
mod starts;
mod symbols;

pub use drawn_symbols;
pub use frame_writer;
pub use frames::is_drawn_frame;
pub use heads::{DrawnHead, draw_head};
pub use modes::draw_frame_modes;
pub use symbols::DrawnSymbols;
