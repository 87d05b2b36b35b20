//! The loop filter: a line, as `32 10`, names a level and how many frames of 1920x1080 samples to draw and to filter. Their
//! blocks are of mixed sizes. The checksum is of the last frame. A sample is kept in two bytes, and in one where the line
//! begins with `bytes`.

mod blocks;
mod frames;

pub use frames::describe;
