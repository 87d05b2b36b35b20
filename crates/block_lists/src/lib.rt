//! Lists of bools: what the partitions of squares and the modes of blocks are put as.
#![tactic(auto)]

mod laws;

pub use laws::blocks_are_put_in_one_way;
