//! What the blocks above and at the left are to a block of an inter frame (9.3 of the standard), and the references that it
//! reads by that (6.4.17).
#![tactic(auto)]

mod contexts;
mod references;

pub use contexts::{filter_context, is_inter_context, kind_of, predicted_context};
pub use references::{
    FrameReferences, allowed_or_rule, fixed_of, of_feature, read_references, single, variable_by,
    with_fixed,
};
