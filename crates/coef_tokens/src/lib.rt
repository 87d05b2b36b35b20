//! The levels of a transform block, read from arithmetic bools (tokens in 6.4.24 and 9.3 of the standard).
#![tactic(auto)]

mod block;
mod flags;
mod places;
mod step;
mod tables;
mod tail;
mod tails;

pub use block::tokens;
pub use flags::{first_context, mark};
pub use places::next_row;
pub use step::category_base;
pub use tables::{TokenKind, TokenTables};
pub use tail::tail_prob;
