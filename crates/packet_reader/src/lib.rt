//! IVF packets taken one after another from a source, which is read no further than they reach.
#![tactic(auto)]

mod filled;
mod packets;
mod reader;

pub use reader::{PacketReader, PacketRefusal, Stage};
