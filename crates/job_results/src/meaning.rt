//! The meaning of a decode.

use crate::result::JobResult;
use band_cells::Meaning as Pictures;
use job_crew::Start;
use job_order::Meaning;
use std::marker::{Brand, PhantomData};

/// What is decoded, and what its sink had taken when the run began. It holds nothing at run time.
pub trait DecodeRun {
    ghost use Rattle.std.specs.Prelude.{ℕ, Bool, List, Option};
    ghost use Rattle.frame_output.specs.declared.rendering.Format.{Format};
    ghost use Rattle.numbered_frames.specs.Films.{Film};

    ghost format: { Format };

    ghost film: { Film };

    /// The number of the first frame of the group that a run decodes.
    ghost first: { ℕ };

    ghost taken: { Option (List ℕ) };

    /// The sink's count of faults.
    ghost faults: { ℕ };

    /// Whether the sink grows.
    ghost grows: { Bool };
}

/// A call that begins a decode picks its own.
impl DecodeRun for Brand {
    ghost use Rattle.std.specs.Prelude.{None, false};
    ghost use Rattle.numbered_frames.specs.Films.{no_film};
    ghost use Rattle.frame_output.specs.declared.rendering.Format.TheVariants.{Raw};

    ghost format = { Raw };

    ghost film = { no_film };

    ghost first = { 0 };

    ghost taken = { None };

    ghost faults = { 0 };

    ghost grows = { false };
}

/// The meaning of the results of a decode's jobs.
#[derive(Drop)]
pub struct Decode<B> {
    of: PhantomData<B>,
}

impl<'a, B: DecodeRun> Meaning<JobResult<'a>> for Decode<B> {
    ghost use Rattle.job_results.specs.Meaning.{decode_rules, decode_truth};

    ghost rules = { decode_rules B.format B.film };

    ghost truth = { decode_truth B.format B.film };
}

impl<B: DecodeRun> Pictures for Decode<B> {
    ghost use Rattle.numbered_frames.specs.NumberedPictures.{pictures};

    ghost pictures = { pictures B.format B.film };
}

/// The same of a run that decodes the frames from one on, and numbers them from 0.
#[derive(Drop)]
pub struct Group<B> {
    of: PhantomData<B>,
}

impl<'a, B: DecodeRun> Meaning<JobResult<'a>> for Group<B> {
    ghost use Rattle.job_results.specs.Groups.{group_rules, group_truth};

    ghost rules = { group_rules B.first B.format B.film };

    ghost truth = { group_truth B.first B.format B.film };
}

impl<B: DecodeRun> Start for Group<B> {
    ghost taken = { B.taken };
}
