//! A tile column.

ghost use Rattle.vp9_types.specs.declared.job.JobName.TheVariants.{Column};
ghost use Rattle.job_crew.specs.Runs.{IsDue};
ghost use Rattle.job_results.specs.Meaning.{decode_rules, decode_truth};
ghost use Rattle.job_results.specs.Lent.{IsColumnOf};
ghost use Rattle.job_results.specs.JobResults.{IsColumn};

use job_results::frame_steps::{PlannedColumn, plan_column};
use job_results::tile_syntax::Unplanned;
use job_results::{Decode, DecodeRun, JobResult, Lookup, begun};
use std::alloc::Global;

/// The plan of a tile column of a frame that has begun, or why there is none.
fn planned<'a, B: DecodeRun, R: Lookup<JobResult<'a>, Decode<B>>>(
    alloc: Global,
    frame: u64,
    column: u32,
    results: &R,
) -> Result<PlannedColumn, Unplanned>
    requires { IsDue (decode_rules B.format B.film) (decode_truth B.format B.film) (Column frame column) }
    ensures { IsColumnOf B.format B.film frame column result }
{
    let begun = begun::<B, R>(results, frame);
    plan_column(alloc, begun, column)
}

/// A tile column: its plan, or why there is none.
pub fn do_column<'a, B: DecodeRun, R: Lookup<JobResult<'a>, Decode<B>>>(
    alloc: Global,
    frame: u64,
    column: u32,
    results: &R,
) -> JobResult<'a>
    requires { IsDue (decode_rules B.format B.film) (decode_truth B.format B.film) (Column frame column) }
    ensures { IsColumn B.format B.film frame column result }
{
    JobResult::Column(planned::<B, R>(alloc, frame, column, results))
}
