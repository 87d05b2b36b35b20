//! The whole decoder on one thread: the frames of a file in order, and what they show.
#![tactic(auto)]

mod begun;
mod coding;
mod decoder;
mod form;
mod last;
mod laws;
mod outcomes;
mod past;
mod plain;
mod saved;
mod segments;
mod showing;

pub use coding::own_contexts;
pub use decoder::Decoder;
pub use form::OutputForm;
pub use frame_decoder;
pub use frame_state;
pub use last::{LastFrame, replace_last};
pub use laws::headers_read_what_persists;
pub use outcomes::{halt_outcome, outcome_at, refusal_outcome};
pub use past::{after_key, place_in, shown_place, vectors_before};
pub use plain::decode_plain;
pub use saved::{SavedContexts, loses_past, saved_place};
pub use segments::{begin_segments, has_size, keep_segments, segments_of};
pub use showing::{LEAST_BUFFER, lengthen};
