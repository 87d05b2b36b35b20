//! Writes the uncompressed headers of VP9 frames (6.2 of the standard), field by field as they are read.
#![tactic(auto)]

mod bits;
mod choices;
mod color;
mod filter;
mod quantizer;
mod references;
mod segments;
mod size;
mod tiles;
mod writing;

pub use choices::Choices;
pub use writing::write_uncompressed_header;
