//! What the crates of the decoder share: the rules, shapes, places and modes of VP9, and in `specs/` the definitions
//! that all others stand on.
#![tactic(auto)]

mod block;
mod job;
mod laws;
mod outcome;
mod rule;
mod sample;
mod samples;
mod shape;

pub use block::{
    BlockSize, InterMode, InterpFilter, IntraMode, Modes, Partition, ReferenceFrame, ReferenceMode,
    TxMode, TxSize, TxType,
};
pub use job::{BandSpan, JobName, Span};
pub use laws::{reading_is_its_entries, rules_are_numbered, trees_are_stored};
pub use outcome::{Outcome, Stop};
pub use rule::Rule;
pub use sample::Sample;
pub use samples::Samples;
pub use shape::{Depth, Plane, Shape, halved};
