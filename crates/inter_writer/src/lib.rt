//! Writes the modes of blocks (6.4.5 and 6.4.11 to 6.4.18 of the VP9 standard): what is put is read back by the definitions of
//! the reader.
#![tactic(auto)]

mod frame_blocks;
mod intra_blocks;
mod references;
mod starts;

pub use frame_blocks::{BlockSymbols, PredictionSymbols, SaidBlock, put_mode_info};
