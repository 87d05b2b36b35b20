//! Tells the symbols of a frame's blocks as a list has them (6.4.3 to 6.4.24 of the VP9 standard), each if it can be said in
//! its place.
#![tactic(auto)]

mod in_planes;
mod inter;
mod intra;
mod levels;
mod lists;
mod references;
mod starts;
mod symbols;
mod vectors;

pub use frame_writer;
pub use inter_writer;
pub use lists::{ListedBlock, ListedLevels, ListedSymbols};
pub use residue_writer;
