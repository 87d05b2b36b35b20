//! The jobs of a decode, their order and what each of them needs; and the world of jobs, in which they are done in any order that the needs allow.
#![tactic(auto)]

mod event;
mod laws;
mod meaning;
mod needs;
mod order;
mod ready;
mod segment;
mod world;

pub use event::{BandName, Done, Event};
pub use laws::{
    each_band_has_one_filter, every_list_of_events_is_sound, jobs_may_be_done_in_turn,
    later_events_change_no_result, marks_stay, needs_stay, reached_worlds_are_sound,
    ready_jobs_have_their_bands, some_job_may_always_finish, some_rules_are_true,
};
pub use meaning::Meaning;
pub use needs::{JobSpan, Needs, needs_of};
pub use order::{Mark, job_at, job_from};
pub use segment::{Segment, Shown};
pub use world::World;
