//! Tests of what blocks say before their modes.

ghost use Rattle.std.specs.Prelude.{◌≡◌, ◌≤◌, false, true};
ghost use Rattle.mode_writer.specs.ModeFits.{CanSegment, CanSkip, CanTx};
ghost use Rattle.inter_writer.specs.InterFits.{CanBeInter, CanTxIf, IsSegment, IsUpdated};
ghost use Rattle.inter_modes.specs.BlockStarts.{segment_reference};
ghost use Rattle.listed_symbols.specs.Code.{CanStartInter, CanStartIntra};
ghost use Rattle.listed_symbols.specs.StartTests.{can_be_inter_by, can_segment, can_skip, can_start_inter, can_start_intra, can_tx, can_tx_if, is_segment_by, is_updated};

use block_geometry::is_below_8x8;
use frame_headers::{MapUpdate, Segmentation};
use inter_modes::{BlockStart, SegmentOf, is_inter_feature, segment_reference};
use mode_syntax::{greatest_allowed, skips_segment};
use vp9_tables::max_tx_size;
use vp9_types::{BlockSize, TxMode, TxSize};

fn can_segment(segmentation: &Segmentation, segment: u8) -> bool
    ensures is { result ≡ can_segment segmentation.now.enabled segmentation.now.map segment }
    ensures can { result ≡ true → CanSegment segmentation.now.enabled segmentation.now.map segment }
    ensures few { result ≡ true → segment ≤ 7 }
{
    if !segmentation.enabled {
        return segment == 0;
    }
    match segmentation.map {
        Some(_) => segment <= 7,
        None => segment == 0,
    }
}

fn can_skip(segmentation: &Segmentation, segment: u8, skip: bool) -> bool
    requires { segment ≤ 7 }
    ensures is { result ≡ can_skip segmentation.now segment skip }
    ensures can { result ≡ true → CanSkip segmentation.now segment skip }
{
    !skips_segment(segmentation, segment) || skip
}

fn can_tx(mode: TxMode, size: BlockSize, tx: TxSize) -> bool
    ensures is { result ≡ can_tx mode size tx }
    ensures can { result ≡ true → CanTx mode size tx }
{
    if matches!(mode, TxMode::Selected) && !is_below_8x8(size) {
        tx as u8 <= max_tx_size(size) as u8
    } else {
        tx as u8 == greatest_allowed(mode, size) as u8
    }
}

/// Whether a block of an intra frame can say this first.
#[tactic(auto, unfolding(crate::specs::StartTests::can_start_intra))]
pub(crate) fn can_start_intra(
    segmentation: &Segmentation,
    mode: TxMode,
    size: BlockSize,
    start: &BlockStart,
) -> bool
    ensures is { result ≡ can_start_intra segmentation.now mode size start.now }
    ensures can { result ≡ true → CanStartIntra segmentation.now mode size start.now }
{
    let segment = start.segment;
    if start.is_inter || segment.predicted {
        return false;
    }
    if !can_segment(segmentation, segment.id) {
        return false;
    }
    if !can_skip(segmentation, segment.id, start.skip) {
        return false;
    }
    can_tx(mode, size, start.tx)
}

#[tactic(auto, unfolding(crate::specs::StartTests::is_updated))]
fn is_updated(update: &MapUpdate, least: u8, segment: SegmentOf) -> bool
    ensures is { result ≡ is_updated update.now least segment }
    ensures can { result ≡ true → IsUpdated update.now least segment }
{
    if segment.id > 7 {
        return false;
    }
    !segment.predicted || update.temporal && segment.id == least
}

#[tactic(auto, using(crate::proofs::Cans::segment_is, crate::proofs::Cans::few_updated))]
fn is_segment(segmentation: &Segmentation, least: u8, segment: SegmentOf) -> bool
    requires { least ≤ 7 }
    ensures is { result ≡ is_segment_by segmentation.now.enabled segmentation.now.map least segment }
    ensures can { result ≡ true → IsSegment segmentation.now least segment }
    ensures few { result ≡ true → segment.id ≤ 7 }
{
    if !segmentation.enabled {
        return !segment.predicted && segment.id == 0;
    }
    match &segmentation.map {
        Some(update) => is_updated(update, least, segment),
        None => !segment.predicted && segment.id == least,
    }
}

fn can_be_inter(segmentation: &Segmentation, segment: u8, is_inter: bool) -> bool
    requires { segment ≤ 7 }
    ensures is { result ≡ can_be_inter_by (segment_reference segmentation.now segment) is_inter }
    ensures can { result ≡ true → CanBeInter segmentation.now segment is_inter }
{
    match segment_reference(segmentation, segment) {
        Some(reference) => {
            if is_inter {
                is_inter_feature(reference)
            } else {
                !is_inter_feature(reference)
            }
        }
        None => true,
    }
}

#[tactic(auto, using(crate::proofs::Numbers::tx_of_same))]
fn can_tx_if(coded: bool, mode: TxMode, size: BlockSize, tx: TxSize) -> bool
    ensures is { result ≡ can_tx_if coded mode size tx }
    ensures can { result ≡ true → CanTxIf coded mode size tx }
{
    if coded {
        can_tx(mode, size, tx)
    } else {
        tx as u8 == greatest_allowed(mode, size) as u8
    }
}

/// Whether a block of an inter frame can say this first, over which the map before the frame has a least id.
#[tactic(auto, unfolding(crate::specs::StartTests::can_start_inter))]
pub(crate) fn can_start_inter(
    segmentation: &Segmentation,
    mode: TxMode,
    size: BlockSize,
    least: u8,
    start: &BlockStart,
) -> bool
    requires { least ≤ 7 }
    ensures is { result ≡ can_start_inter segmentation.now mode size least start.now }
    ensures can { result ≡ true → CanStartInter segmentation.now mode size least start.now }
    ensures few { result ≡ true → start.now.segment.id ≤ 7 }
{
    let segment = start.segment;
    if !is_segment(segmentation, least, segment) {
        return false;
    }
    if !can_skip(segmentation, segment.id, start.skip) {
        return false;
    }
    if !can_be_inter(segmentation, segment.id, start.is_inter) {
        return false;
    }
    can_tx_if(!(start.is_inter && start.skip), mode, size, start.tx)
}
