//! Inter prediction: a line, as `both 64 1000`, names the phases that aren't 0, a size and how many blocks to predict from a
//! plane of 512x512 samples. The checksum is of the predicted samples.

mod blocks;
mod luma;

pub use blocks::describe;
