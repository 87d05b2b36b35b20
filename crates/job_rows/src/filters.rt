//! A filtered row of superblocks.

ghost use Rattle.std.specs.Prelude.{◌≡◌, ◌≤◌, ◌<◌, ℕ, List, Some, IsSome, IfOk, map};
ghost use Rattle.std.specs.Option.{option_copied};
ghost use Rattle.vp9_types.specs.Shapes.{mi_rows};
ghost use Rattle.vp9_types.specs.Sizes.{greatest, superblocks_along};
ghost use Rattle.frame_headers.specs.HeaderState.{shape_of};
ghost use Rattle.planes.specs.Pictures.{FitsPlanes};
ghost use Rattle.loop_edges.specs.Cells.{setting_of};
ghost use Rattle.job_results.specs.frame_state.KeptColumns.{blocks_of};
ghost use Rattle.job_results.specs.frame_state.FrameReading.{all_blocks};
ghost use Rattle.column_strips.specs.StripRows.{AreRow};
ghost use Rattle.filter_rows.specs.Buffer.{HasFiltered};
ghost use Rattle.filtered_rows.specs.Buffers.{IsFilteredAbove, StandsAbove};
ghost use Rattle.vp9_types.specs.declared.job.JobName.TheVariants.{Filter};
ghost use Rattle.picture_table.specs.KeptPictures.{KeepInBytes, KeepInWords};
ghost use Rattle.job_crew.specs.Runs.{IsDue};
ghost use Rattle.frame_output.specs.declared.rendering.Format.{Format};
ghost use Rattle.job_results.specs.Meaning.{decode_rules, decode_truth};
ghost use Rattle.job_results.specs.JobResults.{IsFiltered, IsFilteredAs};
ghost use Rattle.job_rows.specs.LentRows.{AreStrips, HasRow, IsFilteredOver, IsOfDepth, OfFrame};
ghost use Rattle.job_results.specs.numbered_frames.Films.{Film};

use crate::lent::{depth_of, filtered_planes, strip_planes};
use crate::sample::PlaneSample;
use column_strips::{LentStrips, RawFrame};
use filter_rows::filter_next_row;
use filtered_rows::next_buffer;
use frame_headers::Header;
use job_results::frame_state::FrameBlocks;
use job_results::seq_decoder::LastFrame;
use job_results::{AnyPlanes, Decode, DecodeRun, JobResult, Lookup, begun, closed};
use line_filter::EdgeSample;
use loop_edges::EdgeSetting;
use planes::FramePlanes;
use std::alloc::{AllocError, Global};
use std::marker::Brand;
use vp9_types::Depth;

/// The strips of all tile columns in a row of superblocks.
fn strips_of<'r, 'a: 'r, P: PlaneSample, B: DecodeRun, R: Lookup<JobResult<'a>, Decode<B>>>(
    alloc: Global,
    results: &'r R,
    frame: u64,
    row: u32,
    columns: u32,
) -> Result<Vec<&'r FramePlanes<P>>, AllocError>
    requires { IsOfDepth P.keeps B.format B.film frame }
    ensures { IfOk result (λ strips. OfFrame B.format B.film frame (λ c. AreStrips c columns row (map (λ b. b.now) strips.items))) }
{
    let mut strips = Vec::with_capacity(alloc, columns as usize)?;
    for k in 0..columns {
        strips.push_reserved(strip_planes::<P, B, R>(results, frame, k, row)?);
    }
    Ok(strips)
}

/// What the row above leaves, if there is one.
fn filtered_above<'r, 'a: 'r, P: PlaneSample, B: DecodeRun, R: Lookup<JobResult<'a>, Decode<B>>>(
    results: &'r R,
    frame: u64,
    row: u32,
) -> Result<Option<&'r FramePlanes<P>>, AllocError>
    requires { IsOfDepth P.keeps B.format B.film frame }
    ensures { IfOk result (λ above. OfFrame B.format B.film frame (λ c. IsFilteredOver c row (option_copied above))) }
{
    match row.checked_sub(1) {
        None => Ok(None),
        Some(above) => Ok(Some(filtered_planes::<P, B, R>(results, frame, above)?)),
    }
}

/// The blocks of a frame that is closed.
fn last_of(last: &Option<LastFrame>) -> &LastFrame
    requires { IsSome last.now }
    ensures { last.now ≡ Some result.now }
{
    match last {
        Some(last) => last,
        None => unreachable!(),
    }
}

/// A row of superblocks of a frame, with the frame's header and its blocks.
#[derive(Drop)]
struct FrameRow<'a> {
    frame: u64,
    row: u32,
    header: &'a Header,
    last: &'a LastFrame,
}

/// A filtered row of superblocks, made of its strips and of what the row above leaves, of a frame whose samples before the filter are named.
fn filtered_of<P: PlaneSample + EdgeSample, F: RawFrame>(
    alloc: Global,
    of: &FrameRow<'_>,
    strips: &[&FramePlanes<P>],
    above: Option<&FramePlanes<P>>,
) -> Result<FramePlanes<P>, AllocError>
    requires size { FitsPlanes (shape_of of.now.header.now) }
    requires row { of.now.row < superblocks_along (mi_rows (shape_of of.now.header.now)) }
    requires same { of.now.last.now.header.size ≡ of.now.header.now.size }
    requires fits { greatest of.now.header.now.color.depth ≤ P.greatest }
    requires strips { AreRow (shape_of of.now.header.now) F.raw of.now.row (map (λ b. b.now) strips.now) }
    requires stands { StandsAbove (shape_of of.now.header.now) of.now.row (option_copied above) }
    requires above { IsFilteredAbove (setting_of of.now.header.now) (all_blocks (blocks_of of.now.last.now.columns.items)) F.raw of.now.row (option_copied above) }
    ensures { IfOk result (HasFiltered (setting_of of.now.header.now) (all_blocks (blocks_of of.now.last.now.columns.items)) F.raw of.now.row) }
{
    let header = of.header;
    let mut buffer = next_buffer(alloc, &header.shape(), of.row, above)?;
    let edges = EdgeSetting::new(header);
    let blocks = FrameBlocks::new(&of.last.header, &of.last.columns);
    let strips: LentStrips<'_, P, F> = LentStrips::new(strips);
    filter_next_row(&mut buffer, &edges, &blocks, &strips, of.row);
    Ok(buffer)
}

/// A filtered row of superblocks, in planes that keep samples so.
fn filtered_as<'a, P: PlaneSample + EdgeSample, B: DecodeRun, R: Lookup<JobResult<'a>, Decode<B>>>(
    alloc: Global,
    frame: u64,
    row: u32,
    results: &R,
) -> Result<FramePlanes<P>, AllocError>
    requires row { HasRow B.format B.film frame row }
    requires keeps { IsOfDepth P.keeps B.format B.film frame }
    requires fits { IsOfDepth (λ depth. greatest depth ≤ P.greatest) B.format B.film frame }
    ensures { IfOk result (λ f. OfFrame B.format B.film frame (λ c. IsFilteredAs c row f)) }
{
    let header = &begun::<B, R>(results, frame).setting.header;
    let closed = closed::<B, R>(results, frame);
    let last = last_of(&closed.kept.last);
    let strips = strips_of::<P, B, R>(alloc, results, frame, row, closed.columns)?;
    let above = filtered_above::<P, B, R>(results, frame, row)?;
    let of = FrameRow {
        frame,
        row,
        header,
        last,
    };
    filtered_of::<P, Brand>(alloc, &of, &strips, above)
}

/// What a row of superblocks leaves, in bytes, or that there was no memory for it.
fn filtered_in_bytes<'a>(rows: Result<FramePlanes<u8>, AllocError>) -> JobResult<'a>
    ensures { (format : Format) (film : Film) (f row : ℕ) → IsOfDepth KeepInBytes format film f →
        IfOk rows (λ planes. OfFrame format film f (λ c. IsFilteredAs c row planes)) → IsFiltered format film f row result }
{
    match rows {
        Ok(planes) => JobResult::Filtered(AnyPlanes::Bytes(planes)),
        Err(_) => JobResult::Starved,
    }
}

/// What a row of superblocks leaves, in words, or that there was no memory for it.
fn filtered_in_words<'a>(rows: Result<FramePlanes<u16>, AllocError>) -> JobResult<'a>
    ensures { (format : Format) (film : Film) (f row : ℕ) → IsOfDepth KeepInWords format film f →
        IfOk rows (λ planes. OfFrame format film f (λ c. IsFilteredAs c row planes)) → IsFiltered format film f row result }
{
    match rows {
        Ok(planes) => JobResult::Filtered(AnyPlanes::Words(planes)),
        Err(_) => JobResult::Starved,
    }
}

/// A row of superblocks of a frame, filtered: its samples, and those above that it changes.
pub fn do_filter<'a, B: DecodeRun, R: Lookup<JobResult<'a>, Decode<B>>>(
    alloc: Global,
    frame: u64,
    row: u32,
    results: &R,
) -> JobResult<'a>
    requires { IsDue (decode_rules B.format B.film) (decode_truth B.format B.film) (Filter frame row) }
    ensures { IsFiltered B.format B.film frame row result }
{
    let depth = depth_of::<B, R>(results, frame);
    match depth {
        Depth::Eight => {
            let rows = filtered_as::<u8, B, R>(alloc, frame, row, results);
            filtered_in_bytes(rows)
        }
        Depth::Ten | Depth::Twelve => {
            let rows = filtered_as::<u16, B, R>(alloc, frame, row, results);
            filtered_in_words(rows)
        }
    }
}
