//! The decoder's commands over any source and sinks.
#![tactic(auto)]

mod laws;
mod line;
mod listing;
mod note;
mod program;
mod status;

pub use laws::answers_have_their_causes;
pub use listing::{Listed, list_file};
pub use program::{Ran, run};
pub use status::Status;
