//! Writes the tokens of transform blocks (6.4.24 and 9.3 of the VP9 standard): the levels that are read back.
#![tactic(auto)]

mod level;
mod places;
mod step;
mod tail;

pub use places::put_tokens;
