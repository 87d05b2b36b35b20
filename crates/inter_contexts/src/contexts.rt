//! What the blocks above and at the left are to a block.

ghost use Rattle.std.specs.Prelude.{◌≡◌, ◌<◌, ◌≤◌};
ghost use Rattle.std.specs.Option.{option_copied};
ghost use Rattle.inter_contexts.specs.Contexts.{is_intra, both_intra, is_inter_context, single_kind, compound_kind, variable_of, kind_of_references, kind_in, kind_of, filter_in, filter_beside, filter_of_both, filter_context, predicted_beside, predicted_context};
ghost use Rattle.mv_prediction.specs.Candidates.{is_reference};

use block_plan::{BlockInfo, Prediction};
use vp9_tables::NeighbourKind;
use vp9_types::ReferenceFrame;

fn is_intra(block: &BlockInfo) -> bool
    ensures { result ≡ is_intra block.now.prediction }
{
    match &block.prediction {
        Prediction::Intra(_) => true,
        Prediction::Inter(_) => false,
    }
}

fn both_intra(above: bool, left: bool) -> u8
    ensures is { result ≡ both_intra above left }
    ensures most { result ≤ 3 }
{
    if above && left {
        3
    } else if above || left {
        1
    } else {
        0
    }
}

/// The context of whether a block is inter, 0 to 3.
pub fn is_inter_context(above: Option<&BlockInfo>, left: Option<&BlockInfo>) -> u8
    ensures is { result ≡ is_inter_context (option_copied above.entry) (option_copied left.entry) }
    ensures most { result ≤ 3 }
{
    match (above, left) {
        (Some(above), Some(left)) => both_intra(is_intra(above), is_intra(left)),
        (Some(above), None) => 2 * u8::from(is_intra(above)),
        (None, Some(left)) => 2 * u8::from(is_intra(left)),
        (None, None) => 0,
    }
}

fn single_kind(reference: ReferenceFrame) -> NeighbourKind
    ensures { result ≡ single_kind reference }
{
    match reference {
        ReferenceFrame::Last => NeighbourKind::SingleLast,
        ReferenceFrame::Golden => NeighbourKind::SingleGolden,
        ReferenceFrame::Altref => NeighbourKind::SingleAltref,
    }
}

fn compound_kind(reference: ReferenceFrame) -> NeighbourKind
    ensures { result ≡ compound_kind reference }
{
    match reference {
        ReferenceFrame::Last => NeighbourKind::CompoundLast,
        ReferenceFrame::Golden => NeighbourKind::CompoundGolden,
        ReferenceFrame::Altref => NeighbourKind::CompoundAltref,
    }
}

fn variable_of(
    fixed: ReferenceFrame,
    first: ReferenceFrame,
    second: ReferenceFrame,
) -> ReferenceFrame
    ensures { result ≡ variable_of fixed first second }
{
    if first as u8 == fixed as u8 {
        second
    } else {
        first
    }
}

/// What a neighbour refers to.
pub fn kind_of(fixed: ReferenceFrame, block: Option<&BlockInfo>) -> NeighbourKind
    ensures { result ≡ kind_of fixed (option_copied block.entry) }
{
    match block {
        None => NeighbourKind::Missing,
        Some(block) => match &block.prediction {
            Prediction::Intra(_) => NeighbourKind::Intra,
            Prediction::Inter(p) => match p.references.second {
                None => single_kind(p.references.first),
                Some(second) => compound_kind(variable_of(fixed, p.references.first, second)),
            },
        },
    }
}

fn filter_beside(block: Option<&BlockInfo>) -> u8
    ensures is { result ≡ filter_beside (option_copied block.entry) }
    ensures most { result ≤ 3 }
{
    match block {
        None => 3,
        Some(block) => match &block.prediction {
            Prediction::Intra(_) => 3,
            Prediction::Inter(p) => p.filter as u8,
        },
    }
}

fn filter_of_both(above: u8, left: u8) -> u8
    requires above { above ≤ 3 }
    requires left { left ≤ 3 }
    ensures is { result ≡ filter_of_both above left }
    ensures most { result ≤ 3 }
{
    if left == above {
        left
    } else if left == 3 {
        above
    } else if above == 3 {
        left
    } else {
        3
    }
}

/// The context of a block's filter, 0 to 3.
#[tactic(auto, unfolding(crate::specs::Contexts::filter_context))]
pub fn filter_context(above: Option<&BlockInfo>, left: Option<&BlockInfo>) -> u8
    ensures is { result ≡ filter_context (option_copied above.entry) (option_copied left.entry) }
    ensures most { result ≤ 3 }
{
    filter_of_both(filter_beside(above), filter_beside(left))
}

fn predicted_beside(block: Option<&BlockInfo>) -> u8
    ensures is { result ≡ predicted_beside (option_copied block.entry) }
    ensures most { result ≤ 1 }
{
    match block {
        Some(block) => u8::from(block.segment_predicted),
        None => 0,
    }
}

/// The context of whether a block's segment is predicted, 0 to 2.
pub fn predicted_context(above: Option<&BlockInfo>, left: Option<&BlockInfo>) -> u8
    ensures is { result ≡ predicted_context (option_copied above.entry) (option_copied left.entry) }
    ensures most { result ≤ 2 }
{
    predicted_beside(left) + predicted_beside(above)
}
