//! The uncompressed headers of VP9 frames (6.2 and 7.2 of the standard).
#![tactic(auto)]

mod bits;
mod color;
mod field;
mod filter;
mod header;
mod laws;
mod persist;
mod quantizer;
mod reading;
mod references;
mod segments;
mod size;
mod spans;
mod tiles;

pub use color::{ColorConfig, ColorSpace};
pub use field::FieldName;
pub use filter::{LoopDeltas, LoopFilter};
pub use header::{
    FrameContexts, FrameFields, FrameFilter, FrameHead, FrameKind, FrameParams, FrameSize,
    FrameStart, Header, InterFields, Reference, References, Uncompressed,
};
pub use laws::{header_is_its_entries, start_has_no_slots};
pub use persist::{Persist, refresh_slots};
pub use quantizer::Quantizer;
pub use reading::read;
pub use segments::{FeatureReference, Features, MapUpdate, SegmentFeatures, Segmentation};
pub use spans::{check_tiles, tile_span};
pub use tiles::{TileInfo, superblocks_of};
