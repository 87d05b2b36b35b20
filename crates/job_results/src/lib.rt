//! What the jobs of a decode leave, and when it is right: the meaning of a run.
#![tactic(auto)]

mod any_planes;
mod laws;
mod lent;
mod lookup;
mod meaning;
mod reads;
mod result;

pub use any_planes::AnyPlanes;
pub use frame_steps;
pub use frame_steps::tile_syntax;
pub use laws::{
    ended_runs_are_decodes, groups_are_of_the_film, right_results_stay_right,
    rules_of_groups_are_true,
};
pub use lent::{HeadRead, begun, closed, column, ended, filtered, head_read, strip};
pub use lookup::Lookup;
pub use meaning::{Decode, DecodeRun, Group};
pub use numbered_frames::{frame_state, seq_decoder};
pub use reads::RowReads;
pub use result::{ClosedFrame, JobResult, ShownFrame};
