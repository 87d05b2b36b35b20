//! The bands of other frames that the rows of a frame that is closed are predicted from.

ghost use Rattle.std.specs.Prelude.{◌≡◌, ◌<◌, ◌^◌, None, Ok, IfOk, map, slice_index_or};
ghost use Rattle.job_results.specs.frame_steps.StepResults.{IsColumn, IsSound};
ghost use Rattle.job_results.specs.RowReads.{span_of, spans_by};
ghost use Rattle.job_heads.specs.Reads.{AreReads, IsAllRead};

use band_needs::{BandNeeds, BandRange};
use frame_headers::{FrameKind, Reference};
use job_results::RowReads;
use job_results::frame_steps::{BegunFrame, PlannedColumn, PlannedColumns};
use job_results::tile_syntax::Unplanned;
use std::alloc::{AllocError, Global};
use vp9_types::BandSpan;

/// The number of the frame that a slot holds.
fn number_at(slots: &[Option<u64>; 8], slot: u8) -> Option<u64>
    ensures { result ≡ slice_index_or slots.now slot None }
{
    if slot < 8 {
        slots[usize::from(slot)]
    } else {
        None
    }
}

/// Some bands of the frame that a reference is.
fn span_of(
    slots: &[Option<u64>; 8],
    reference: &Reference,
    bands: Option<BandRange>,
) -> Option<BandSpan>
    ensures { result ≡ span_of (slice_index_or slots.now reference.now.slot None) bands }
{
    match (number_at(slots, reference.slot), bands) {
        (Some(frame), Some(bands)) => Some(BandSpan {
            frame,
            first: bands.first,
            last: bands.last,
        }),
        _ => None,
    }
}

/// What a row reads of the references of its frame.
fn spans_by(slots: &[Option<u64>; 8], kind: &FrameKind, needs: &BandNeeds) -> [Option<BandSpan>; 3]
    ensures { result ≡ spans_by slots.now kind.now needs.now }
{
    match kind {
        FrameKind::Key | FrameKind::IntraOnly => [None, None, None],
        FrameKind::Inter(fields) => {
            let refs = &fields.references;
            [
                span_of(slots, &refs.last, needs.last),
                span_of(slots, &refs.golden, needs.golden),
                span_of(slots, &refs.altref, needs.altref),
            ]
        }
    }
}

/// What each row of a tile column reads.
fn column_reads(
    alloc: Global,
    slots: &[Option<u64>; 8],
    kind: &FrameKind,
    needs: &[BandNeeds],
) -> Result<Vec<[Option<BandSpan>; 3]>, AllocError>
    ensures { IfOk result (λ rows. rows.items ≡ map (λ n. spans_by slots.now kind.now n) needs.now) }
{
    let mut rows = Vec::with_capacity(alloc, needs.len())?;
    for row in 0..needs.len() {
        rows.push_reserved(spans_by(slots, kind, &needs[row]));
    }
    Ok(rows)
}

/// The plan of a tile column of a frame whose tiles are all read. There is none where memory was wanting for it.
fn planned_column<C: PlannedColumns>(planned: &C, k: u32) -> Result<&PlannedColumn, AllocError>
    requires below { k < 2 ^ (C.frame planned.now).setting.header.params.tiles.columns_log2 }
    requires sound { IsSound (C.frame planned.now) }
    requires read { IsAllRead (C.frame planned.now) }
    ensures { IfOk result (λ column. IsColumn (C.frame planned.now) k (Ok column.now)) }
{
    match planned.column(k) {
        Ok(column) => Ok(column),
        Err(why) => match why {
            Unplanned::OutOfMemory => Err(AllocError),
            Unplanned::Broken(_, _) => unreachable!(),
        },
    }
}

/// What each row of a frame reads whose tiles are all read, by what its slots hold before it.
pub(crate) fn row_reads<C: PlannedColumns>(
    alloc: Global,
    frame: &BegunFrame<'_>,
    planned: &C,
    slots: &[Option<u64>; 8],
) -> Result<RowReads, AllocError>
    requires sound { IsSound frame.now }
    requires frame { C.frame planned.now ≡ frame.now }
    requires read { IsAllRead frame.now }
    ensures { IfOk result (AreReads frame.now slots.now) }
{
    let header = &frame.setting.header;
    let count = header.params.tiles.columns();
    let mut columns = Vec::with_capacity(alloc, count as usize)?;
    for k in 0..count {
        let column = planned_column(planned, k)?;
        columns.push_reserved(column_reads(alloc, slots, &header.kind, &column.needs)?);
    }
    Ok(RowReads { columns })
}
