//! A block that is read, put into the planes of its frame: prediction and residue (8.5.1 and 8.6.2 of the standard).
#![tactic(auto)]

mod blocks;
mod in_plane;
mod inter_in_plane;
mod laws;
mod references;
mod residue;
mod residues;
mod room;

pub use blocks::{put_block, put_block_in_part};
pub use in_plane::IntraInPlane;
pub use inter_in_plane::TwoPlaces;
pub use laws::{blocks_stay_in_their_tile_column, strips_side_by_side_are_the_frame};
pub use references::{Rebuilding, ReferencePicture};
pub use residues::TransformResidues;
pub use room::{ByteRoom, RoomSample, WordRoom};
