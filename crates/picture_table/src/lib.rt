//! The pictures that a decoder keeps: those that its eight slots name, and one more to decode into.
#![tactic(auto)]

mod any;
mod table;

pub use any::{AnyPicture, PictureSample};
pub use table::PictureTable;
