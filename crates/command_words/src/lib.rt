//! What the words of vp9dec's command line ask for, as the parser `clap` reads them.
#![tactic(auto)]

mod command;
mod laws;
mod reading;

pub use command::{Command, DecodeOptions, MadeStream};
pub use laws::worked_rows;
pub use reading::read_words;
