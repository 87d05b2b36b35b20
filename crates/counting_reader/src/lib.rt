//! Bools that are read and counted (9.3.4 of the standard).
#![tactic(auto)]

mod counting;
mod laws;
mod reader;
mod tree;

pub use counting::count_unary;
pub use laws::counting_syntaxes_compose;
pub use reader::CountingReader;
pub use tree::nodes_from;
