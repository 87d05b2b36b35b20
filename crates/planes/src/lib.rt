//! The samples of a frame: planes, parts of planes, and pictures of three planes.
#![tactic(auto)]

mod area;
mod copies;
mod frame_planes;
mod makers;
mod picture;
mod plane;

pub use area::Area;
pub use copies::copy_short;
pub use frame_planes::{FramePlanes, coded_area};
pub use makers::RowMaker;
pub use picture::Picture;
pub use plane::SamplePlane;
