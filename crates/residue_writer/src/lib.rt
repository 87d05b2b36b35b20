//! Writes the residue of a block, transform block by transform block (6.4.21 of the VP9 standard): what is read back is what
//! its levels say.
#![tactic(auto)]

mod blocks;
mod levels;
mod planes;
mod transform_blocks;

pub use blocks::put_block;
pub use levels::{BlockLevels, PlaneLevels};
