//! The reading of the modes of inter frames: a line names how many frames of 1920x1080 to read of pseudo-random bytes, with
//! drawn partitions or, behind `whole`, such as are read too; behind `silent` nothing is counted. The checksums are of the
//! last one's blocks and of what was counted.

mod checksums;
mod frames;
mod header;
mod lines;

pub use lines::describe;
