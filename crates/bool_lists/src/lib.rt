//! Lists of bools: what symbols are put as, one bool behind another.
#![tactic(auto)]

mod laws;

pub use laws::symbols_are_put_in_one_way;
