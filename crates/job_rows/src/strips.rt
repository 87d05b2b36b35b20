//! A row of superblocks of a tile column.

ghost use Rattle.std.specs.Prelude.{◌≡◌, ℕ, List, Ok, Some, IfOk};
ghost use Rattle.std.specs.Option.{option_copied};
ghost use Rattle.vp9_types.specs.Sizes.{greatest};
ghost use Rattle.vp9_types.specs.declared.job.JobName.TheVariants.{Rows};
ghost use Rattle.frame_headers.specs.HeaderState.{shape_of};
ghost use Rattle.frame_output.specs.declared.rendering.Format.{Format};
ghost use Rattle.picture_table.specs.KeptPictures.{KeepInBytes, KeepInWords};
ghost use Rattle.job_crew.specs.Runs.{IsDue};
ghost use Rattle.job_results.specs.numbered_frames.Coded.{CodedFrame, coded};
ghost use Rattle.job_results.specs.Meaning.{decode_rules, decode_truth};
ghost use Rattle.job_results.specs.JobResults.{IsPlannedAs, IsStrip, IsStripAs};
ghost use Rattle.job_rows.specs.LentReferences.{AreInside, NamesAll};
ghost use Rattle.job_rows.specs.LentRows.{HasStrip, IsOfDepth, IsStripOver, OfFrame};
ghost use Rattle.job_rows.specs.LentStrips.{AreAllRows, IsPicture, IsPlannedRow, ReadsRows, RefersToNone};
ghost use Rattle.job_results.specs.numbered_frames.Films.{Film};

use crate::lent::{depth_of, strip_planes};
use crate::references::{ReferenceRows, reference_rows};
use crate::sample::PlaneSample;
use band_needs::BandNeeds;
use block_rebuild::{Rebuilding, ReferencePicture, RoomSample};
use filtered_rows::FilteredFrame;
use frame_headers::{FrameKind, InterFields};
use frame_setting::FrameSetting;
use job_results::frame_steps::{PlannedColumn, PlannedRow, put_strip};
use job_results::tile_syntax::{ColumnPlan, Unplanned};
use job_results::{AnyPlanes, Decode, DecodeRun, JobResult, Lookup, begun, column};
use planes::FramePlanes;
use std::alloc::{AllocError, Global};
use vp9_types::{Depth, Sample, Shape};

/// The plan of a tile column of a frame whose tiles are all read, which has this row of superblocks. There is none where memory was wanting for
/// it.
pub(crate) fn planned<'r, 'a: 'r, B: DecodeRun, R: Lookup<JobResult<'a>, Decode<B>>>(
    results: &'r R,
    frame: u64,
    k: u32,
    row: u32,
) -> Result<&'r PlannedColumn, AllocError>
    requires { HasStrip B.format B.film frame k row }
    ensures { IfOk result (λ p. OfFrame B.format B.film frame (λ c. IsPlannedAs c k (Ok p.now))) }
{
    match column::<B, R>(results, frame, k) {
        Ok(planned) => Ok(planned),
        Err(why) => match why {
            Unplanned::OutOfMemory => Err(AllocError),
            Unplanned::Broken(_, _) => unreachable!(),
        },
    }
}

/// The strip above a row, if there is one.
fn strip_above<'r, 'a: 'r, P: PlaneSample, B: DecodeRun, R: Lookup<JobResult<'a>, Decode<B>>>(
    results: &'r R,
    frame: u64,
    k: u32,
    row: u32,
) -> Result<Option<&'r FramePlanes<P>>, AllocError>
    requires { IsOfDepth P.keeps B.format B.film frame }
    ensures { IfOk result (λ above. OfFrame B.format B.film frame (λ c. IsStripOver c k row (option_copied above))) }
{
    match row.checked_sub(1) {
        None => Ok(None),
        Some(above) => Ok(Some(strip_planes::<P, B, R>(results, frame, k, above)?)),
    }
}

/// The strip of a row that is predicted from no other frame.
fn intra_strip<P: PlaneSample + RoomSample, B: DecodeRun>(
    alloc: Global,
    of: &PlannedRow<'_>,
    above: Option<&FramePlanes<P>>,
) -> Result<FramePlanes<P>, AllocError>
    requires row { (c : CodedFrame) × IsPlannedRow c of.now × RefersToNone c.header.kind × IsStripOver c of.now.column of.now.row (option_copied above) }
    requires takes { P.takes (greatest (shape_of of.now.setting.now.header).depth) }
    ensures { IfOk result (λ f. (c : CodedFrame) → IsPlannedRow c of.now → RefersToNone c.header.kind → IsStripAs c of.now.column of.now.row f) }
{
    let none: Rebuilding<'_, FilteredFrame<'_, P, Decode<B>>> = Rebuilding {
        shape: of.setting.header.shape(),
        last: None,
        golden: None,
        altref: None,
    };
    put_strip(alloc, of, above, &none)
}

/// The rows of superblocks of all references that a row is predicted from.
#[derive(Drop)]
pub(crate) struct AllRows<'r, P: Sample> {
    pub(crate) last: ReferenceRows<'r, P>,
    pub(crate) golden: ReferenceRows<'r, P>,
    pub(crate) altref: ReferenceRows<'r, P>,
}

/// These rows, of a frame that names them.
fn all_rows<'r, 'a: 'r, P: PlaneSample, B: DecodeRun, R: Lookup<JobResult<'a>, Decode<B>>>(
    alloc: Global,
    results: &'r R,
    frame: u64,
    fields: &InterFields,
    needs: &BandNeeds,
) -> Result<AllRows<'r, P>, AllocError>
    requires named { NamesAll B.format B.film frame fields.now }
    requires keeps { IsOfDepth P.keeps B.format B.film frame }
    requires inside { AreInside fields.now.references needs.now }
    ensures { IfOk result (AreAllRows B.format B.film frame fields.now needs.now) }
{
    let refs = &fields.references;
    Ok(AllRows {
        last: reference_rows::<P, B, R>(alloc, results, frame, &refs.last, needs.last)?,
        golden: reference_rows::<P, B, R>(alloc, results, frame, &refs.golden, needs.golden)?,
        altref: reference_rows::<P, B, R>(alloc, results, frame, &refs.altref, needs.altref)?,
    })
}

/// A frame that is referred to, by rows of it.
fn picture<'p, P: PlaneSample, B: DecodeRun>(
    samples: &'p FilteredFrame<'p, P, Decode<B>>,
    shape: Shape,
) -> Option<ReferencePicture<'p, FilteredFrame<'p, P, Decode<B>>>>
    ensures { IsPicture samples.now shape result }
{
    Some(ReferencePicture { samples, shape })
}

/// The strip of a row that may be predicted from these rows of other frames.
fn inter_strip<P: PlaneSample + RoomSample, B: DecodeRun>(
    alloc: Global,
    of: &PlannedRow<'_>,
    above: Option<&FramePlanes<P>>,
    rows: &AllRows<'_, P>,
) -> Result<FramePlanes<P>, AllocError>
    requires row { (f : ℕ) × (c : CodedFrame) × (coded B.format B.film f ≡ Some c) × IsPlannedRow c of.now × ReadsRows B.format B.film f c of.now rows.now
        × IsStripOver c of.now.column of.now.row (option_copied above) }
    requires takes { P.takes (greatest (shape_of of.now.setting.now.header).depth) }
    ensures { IfOk result (λ planes. (f : ℕ) (c : CodedFrame) → coded B.format B.film f ≡ Some c → IsPlannedRow c of.now → ReadsRows B.format B.film f c of.now rows.now →
        IsStripAs c of.now.column of.now.row planes) }
{
    let last = rows.last.filtered::<B>();
    let golden = rows.golden.filtered::<B>();
    let altref = rows.altref.filtered::<B>();
    let by = Rebuilding {
        shape: of.setting.header.shape(),
        last: picture::<P, B>(&last, rows.last.shape),
        golden: picture::<P, B>(&golden, rows.golden.shape),
        altref: picture::<P, B>(&altref, rows.altref.shape),
    };
    put_strip(alloc, of, above, &by)
}

/// A row of superblocks of a tile column, and what it is made by.
fn planned_row<'p>(
    setting: &'p FrameSetting,
    column: u32,
    plan: &'p ColumnPlan,
    row: u32,
) -> PlannedRow<'p>
    ensures setting { result.setting.now ≡ setting.now }
    ensures column { result.column ≡ column }
    ensures plan { result.plan.now ≡ plan.now }
    ensures row { result.row ≡ row }
{
    PlannedRow {
        setting,
        column,
        plan,
        row,
    }
}

/// A row of superblocks of a tile column, in planes that keep samples so.
fn strip_as<'a, P: PlaneSample + RoomSample, B: DecodeRun, R: Lookup<JobResult<'a>, Decode<B>>>(
    alloc: Global,
    frame: u64,
    k: u32,
    row: u32,
    results: &R,
) -> Result<FramePlanes<P>, AllocError>
    requires row { HasStrip B.format B.film frame k row }
    requires keeps { IsOfDepth P.keeps B.format B.film frame }
    requires takes { IsOfDepth (λ depth. P.takes (greatest depth)) B.format B.film frame }
    ensures { IfOk result (λ f. OfFrame B.format B.film frame (λ c. IsStripAs c k row f)) }
{
    let begun = begun::<B, R>(results, frame);
    let planned = planned::<B, R>(results, frame, k, row)?;
    let above = strip_above::<P, B, R>(results, frame, k, row)?;
    let of = planned_row(&begun.setting, k, &planned.plan, row);
    match &begun.setting.header.kind {
        FrameKind::Key | FrameKind::IntraOnly => intra_strip::<P, B>(alloc, &of, above),
        FrameKind::Inter(fields) => {
            let needs = &planned.needs[row as usize];
            let rows = all_rows::<P, B, R>(alloc, results, frame, fields, needs)?;
            inter_strip::<P, B>(alloc, &of, above, &rows)
        }
    }
}

/// What a row of superblocks is, in bytes, or that there was no memory for it.
fn strip_in_bytes<'a>(strip: Result<FramePlanes<u8>, AllocError>) -> JobResult<'a>
    ensures { (format : Format) (film : Film) (f k row : ℕ) → IsOfDepth KeepInBytes format film f →
        IfOk strip (λ planes. OfFrame format film f (λ c. IsStripAs c k row planes)) → IsStrip format film f k row result }
{
    match strip {
        Ok(planes) => JobResult::Strip(AnyPlanes::Bytes(planes)),
        Err(_) => JobResult::Starved,
    }
}

/// What a row of superblocks is, in words, or that there was no memory for it.
fn strip_in_words<'a>(strip: Result<FramePlanes<u16>, AllocError>) -> JobResult<'a>
    ensures { (format : Format) (film : Film) (f k row : ℕ) → IsOfDepth KeepInWords format film f →
        IfOk strip (λ planes. OfFrame format film f (λ c. IsStripAs c k row planes)) → IsStrip format film f k row result }
{
    match strip {
        Ok(planes) => JobResult::Strip(AnyPlanes::Words(planes)),
        Err(_) => JobResult::Starved,
    }
}

/// A row of superblocks of a tile column: its samples before the loop filter.
pub fn do_rows<'a, B: DecodeRun, R: Lookup<JobResult<'a>, Decode<B>>>(
    alloc: Global,
    frame: u64,
    k: u32,
    row: u32,
    results: &R,
) -> JobResult<'a>
    requires { IsDue (decode_rules B.format B.film) (decode_truth B.format B.film) (Rows frame k row) }
    ensures { IsStrip B.format B.film frame k row result }
{
    let depth = depth_of::<B, R>(results, frame);
    match depth {
        Depth::Eight => {
            let strip = strip_as::<u8, B, R>(alloc, frame, k, row, results);
            strip_in_bytes(strip)
        }
        Depth::Ten | Depth::Twelve => {
            let strip = strip_as::<u16, B, R>(alloc, frame, k, row, results);
            strip_in_words(strip)
        }
    }
}
