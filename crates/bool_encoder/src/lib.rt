//! The arithmetic encoder of VP9's bools: what the decoder reads, written, and what is put for syntaxes that count.
#![tactic(auto)]

mod bytes;
mod encoder;
mod laws;
mod split;
mod symbols;
mod tree;

pub use encoder::BoolEncoder;
pub use laws::{every_list_of_bools_is_read, what_is_put_is_counted, what_is_written_is_read};
pub use symbols::{put_difference, put_flag, put_literal};
pub use tree::put_tree;
