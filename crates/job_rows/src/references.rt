//! The frames that a frame refers to, as the rows of superblocks of them that a row is predicted from.

ghost use Rattle.std.specs.Prelude.{◌≡◌, ◌<◌, ◌+◌, IfOk, IfSome, None, length, map, min, slice_index_or};
ghost use Rattle.vp9_types.specs.Shapes.{mi_rows};
ghost use Rattle.vp9_types.specs.Sizes.{superblocks_along};
ghost use Rattle.filtered_rows.specs.Code.{rows_from};
ghost use Rattle.filtered_rows.specs.BufferRows.{HoldRows};
ghost use Rattle.job_results.specs.numbered_frames.NumberedPictures.{pictures};
ghost use Rattle.job_rows.specs.LentReferences.{IsInside, IsNumberOf, IsReferenceRows, IsReferred};

use crate::lent::rows_of;
use crate::sample::PlaneSample;
use band_needs::BandRange;
use filtered_rows::FilteredFrame;
use frame_headers::Reference;
use job_results::{Decode, DecodeRun, JobResult, Lookup, closed};
use planes::FramePlanes;
use std::alloc::{AllocError, Global};
use vp9_types::{Sample, Shape};

/// Rows of superblocks of a frame, from a first one on.
#[derive(Drop)]
pub(crate) struct ReferenceRows<'r, P: Sample> {
    pub(crate) frame: u64,
    pub(crate) shape: Shape,
    pub(crate) first: u32,
    pub(crate) rows: Vec<&'r FramePlanes<P>>,
}

/// The number of the frame that a slot holds, if it holds one.
fn number_in(slots: &[Option<u64>; 8], slot: u8) -> Option<u64>
    ensures { result ≡ slice_index_or slots.now slot None }
{
    if slot < 8 {
        slots[usize::from(slot)]
    } else {
        None
    }
}

/// The number of the frame that a reference of a frame is.
pub(crate) fn number_of<'a, B: DecodeRun, R: Lookup<JobResult<'a>, Decode<B>>>(
    results: &R,
    frame: u64,
    reference: &Reference,
) -> u64
    requires { IsReferred B.format B.film frame reference.now }
    ensures { IsNumberOf B.format B.film frame reference.now result }
{
    let Some(before) = frame.checked_sub(1) else {
        unreachable!()
    };
    let slots = &closed::<B, R>(results, before).kept.slots;
    match number_in(slots, reference.slot) {
        Some(number) => number,
        None => unreachable!(),
    }
}

/// The end of the rows of superblocks down to the one below a band, if there is one.
fn end_behind(shape: &Shape, last: u32) -> u32
    requires { last < superblocks_along (mi_rows shape.now) }
    ensures { result ≡ min (last + 2) (superblocks_along (mi_rows shape.now)) }
{
    let rows = shape.superblock_rows();
    if last + 1 < rows { last + 2 } else { rows }
}

/// The rows of superblocks of a reference that some bands of it lie in: their own, and the one below them, which makes their last rows
/// final.
pub(crate) fn reference_rows<
    'r,
    'a: 'r,
    P: PlaneSample,
    B: DecodeRun,
    R: Lookup<JobResult<'a>, Decode<B>>,
>(
    alloc: Global,
    results: &'r R,
    frame: u64,
    reference: &Reference,
    bands: Option<BandRange>,
) -> Result<ReferenceRows<'r, P>, AllocError>
    requires referred { IsReferred B.format B.film frame reference.now }
    requires keeps { P.keeps reference.now.shape.depth }
    requires inside { IfSome bands (IsInside reference.now.shape) }
    ensures { IfOk result (IsReferenceRows B.format B.film frame reference.now bands) }
{
    let number = number_of::<B, R>(results, frame, reference);
    let shape = reference.shape;
    let (first, end) = match bands {
        Some(bands) => (bands.first, end_behind(&shape, bands.last)),
        None => (0, 0),
    };
    Ok(ReferenceRows {
        frame: number,
        shape,
        first,
        rows: rows_of::<P, B, R>(alloc, results, number, first, end)?,
    })
}

impl<'r, P: Sample> ReferenceRows<'r, P> {
    /// The frame, by these rows.
    pub(crate) fn filtered<B: DecodeRun>(&self) -> FilteredFrame<'_, P, Decode<B>>
        requires shape { self.now.shape ≡ (pictures B.format B.film self.now.frame).shape }
        requires rows { HoldRows (pictures B.format B.film self.now.frame) self.now.first (map (λ b. b.now) self.now.rows.items) }
        ensures { result ≡ rows_from self.now.frame self.now.first (length self.now.rows.items) }
    {
        FilteredFrame::new(self.frame, self.shape, self.first, &self.rows)
    }
}
