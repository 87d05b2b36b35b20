//! Writes the frames of VP9 from lists of what their blocks say (6.1 to 6.4 of the VP9 standard), each behind the frames that a
//! decoder has decoded.
#![tactic(auto)]

mod listed;

pub use listed::write_listed;
pub use listed_symbols;
pub use listed_symbols::{frame_writer, inter_writer, residue_writer};
pub use stream_forge;
pub use stream_forge::seq_decoder;
