//! Made streams of VP9: a whole IVF file, drawn from a number by a rule that is written down, so that others can make the
//! same.
#![tactic(auto)]

mod coded;
mod discard;
mod frames;
mod past;
mod stream;

pub use coded::{CodedFrame, write_coded};
pub use seq_decoder;
pub use stream::{NotMade, make_stream};
