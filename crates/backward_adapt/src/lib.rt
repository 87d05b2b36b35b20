//! Adaptation: how the probabilities of a frame follow its counts (8.4.2 to 8.4.4 of the standard).
#![tactic(auto)]

mod adapting;
mod kind;
mod laws;
mod lists;
mod merge;

pub use adapting::adapt;
pub use kind::{AdaptKind, InterKind};
pub use laws::{
    a_list_is_adapted_in_order, adaptation_is_by_its_bools, contexts_have_sizes,
    each_probability_is_adapted_alone,
};
pub use merge::Rate;
