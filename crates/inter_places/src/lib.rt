//! Where inter blocks are predicted from (8.5.2 of the standard): vectors of planes, clamped and scaled.
#![tactic(auto)]

mod along;
mod axis;
mod means;
mod part;
mod places;
mod scaling;
mod span;

pub use along::{offset_of, phase_of, straight};
pub use axis::{Axis, Place};
pub use part::{BlockPart, Direction};
pub use places::{PlaceRows, part_count, place, place_rows};
pub use span::{BlockSpan, clamp_mv};
