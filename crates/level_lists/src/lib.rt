//! Lists of bools: what the levels of transform blocks are put as.
#![tactic(auto)]

mod laws;

pub use laws::levels_are_put_in_one_way;
