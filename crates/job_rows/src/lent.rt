//! Rows of superblocks that a job is lent.

ghost use Rattle.std.specs.Prelude.{◌≡◌, ◌≤◌, ◌-◌, Some, IfOk, length, map};
ghost use Rattle.vp9_types.specs.Shapes.{mi_rows};
ghost use Rattle.vp9_types.specs.Sizes.{superblocks_along};
ghost use Rattle.filtered_rows.specs.BufferRows.{HasFinalRows, HoldRows};
ghost use Rattle.job_results.specs.numbered_frames.Coded.{CodedFrame, coded};
ghost use Rattle.job_results.specs.numbered_frames.NumberedPictures.{pictures};
ghost use Rattle.job_results.specs.JobResults.{IsFilteredAs, IsStripAs};
ghost use Rattle.job_rows.specs.LentRows.{IsOfDepth, OfFrame};

use crate::sample::PlaneSample;
use job_results::{Decode, DecodeRun, JobResult, Lookup, begun, filtered, strip};
use planes::FramePlanes;
use std::alloc::{AllocError, Global};
use vp9_types::Depth;

/// The depth of a coded frame.
pub(crate) fn depth_of<'a, B: DecodeRun, R: Lookup<JobResult<'a>, Decode<B>>>(
    results: &R,
    frame: u64,
) -> Depth
    requires { (c : CodedFrame) × (coded B.format B.film frame ≡ Some c) }
    ensures { OfFrame B.format B.film frame (λ c. result ≡ c.header.color.depth) }
{
    begun::<B, R>(results, frame).setting.header.color.depth
}

/// A row of superblocks of a tile column. There is none where memory was wanting for it.
pub(crate) fn strip_planes<
    'r,
    'a: 'r,
    P: PlaneSample,
    B: DecodeRun,
    R: Lookup<JobResult<'a>, Decode<B>>,
>(results: &'r R, frame: u64, column: u32, row: u32) -> Result<&'r FramePlanes<P>, AllocError>
    requires { IsOfDepth P.keeps B.format B.film frame }
    ensures { IfOk result (λ f. OfFrame B.format B.film frame (λ c. IsStripAs c column row f.now)) }
{
    let Some(any) = strip::<B, R>(results, frame, column, row) else {
        return Err(AllocError);
    };
    match P::planes_of(any) {
        Some(planes) => Ok(planes),
        None => unreachable!(),
    }
}

/// What a row of superblocks leaves when it is filtered. There is none where memory was wanting for it.
pub(crate) fn filtered_planes<
    'r,
    'a: 'r,
    P: PlaneSample,
    B: DecodeRun,
    R: Lookup<JobResult<'a>, Decode<B>>,
>(results: &'r R, frame: u64, row: u32) -> Result<&'r FramePlanes<P>, AllocError>
    requires { IsOfDepth P.keeps B.format B.film frame }
    ensures { IfOk result (λ f. OfFrame B.format B.film frame (λ c. IsFilteredAs c row f.now)) }
{
    let Some(any) = filtered::<B, R>(results, frame, row) else {
        return Err(AllocError);
    };
    match P::planes_of(any) {
        Some(planes) => Ok(planes),
        None => unreachable!(),
    }
}

/// The rows of superblocks of a frame from `first` up to `end`, as they are filtered.
pub fn rows_of<'r, 'a: 'r, P: PlaneSample, B: DecodeRun, R: Lookup<JobResult<'a>, Decode<B>>>(
    alloc: Global,
    results: &'r R,
    frame: u64,
    first: u32,
    end: u32,
) -> Result<Vec<&'r FramePlanes<P>>, AllocError>
    requires order { first ≤ end }
    requires inside { end ≤ superblocks_along (mi_rows (pictures B.format B.film frame).shape) }
    requires keeps { (c : CodedFrame) × (coded B.format B.film frame ≡ Some c) × P.keeps c.header.color.depth }
    ensures rows { IfOk result (λ rows. HoldRows (pictures B.format B.film frame) first (map (λ b. b.now) rows.items)) }
    ensures many { IfOk result (λ rows. length rows.items ≡ end - first) }
{
    let mut rows = Vec::with_capacity(alloc, (end - first) as usize)?;
    for row in first..end {
        rows.push_reserved(filtered_planes::<P, B, R>(results, frame, row)?);
    }
    Ok(rows)
}
