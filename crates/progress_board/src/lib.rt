//! What the threads of a decode share beside its data, without a lock: tickets, each drawn once; lanes, which only rise;
//! and two slots, each of which lies on the board or is out with one seat.
#![tactic(auto)]

mod board;
mod rule;
mod seat;
mod slot;
mod view;

pub use board::{Board, Refused};
pub use seat::Seat;
pub use slot::InSlot;
pub use view::View;
