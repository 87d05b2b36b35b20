//! Tests of whole headers.

ghost use Rattle.std.specs.Prelude.{◌≡◌, true};
ghost use Rattle.frame_headers.specs.Header.{forgets, kept_deltas, kept_features};
ghost use Rattle.frame_headers.specs.FrameSizes.{IsFrameSize};
ghost use Rattle.header_writer.specs.WellFormed.{CanChoose, IsContexts, IsHeader, IsOfKind, IsReset, IsWellFormed};
ghost use Rattle.header_checks.specs.Headers.{are_contexts, can_choose, is_frame_size, is_header, is_of_kind, is_reset, is_well_formed};

use crate::color::{is_color, is_intra_only_color};
use crate::params::are_params;
use crate::references::are_references;
use crate::same::{same_color, same_deltas, same_features};
use frame_headers::{
    Features, FrameContexts, FrameKind, FrameSize, Header, LoopDeltas, Persist, Uncompressed,
};
use header_writer::Choices;

fn are_contexts(resilient: bool, contexts: FrameContexts) -> bool
    ensures is { result ≡ are_contexts resilient contexts }
    ensures contexts { result ≡ true → IsContexts resilient contexts }
    ensures complete { IsContexts resilient contexts → result ≡ true }
{
    contexts.index < 4 && (!resilient || !contexts.refresh && contexts.parallel)
}

fn is_reset(resilient: bool, reset: u8) -> bool
    ensures is { result ≡ is_reset resilient reset }
    ensures reset { result ≡ true → IsReset resilient reset }
    ensures complete { IsReset resilient reset → result ≡ true }
{
    reset < 4 && (!resilient || reset == 0)
}

fn is_frame_size(size: FrameSize) -> bool
    ensures is { result ≡ is_frame_size size }
    ensures size { result ≡ true → IsFrameSize size }
    ensures complete { IsFrameSize size → result ≡ true }
{
    size.width >= 1 && size.width <= 65536 && size.height >= 1 && size.height <= 65536
}

fn is_of_kind(before: &Persist, header: &Header) -> bool
    ensures is { result ≡ is_of_kind before.now header.now header.now.kind }
    ensures kind { result ≡ true → IsOfKind before.now header.now header.now.kind }
    ensures complete { IsOfKind before.now header.now header.now.kind → result ≡ true }
{
    let (resilient, reset) = (header.error_resilient, header.reset_context);
    match &header.kind {
        FrameKind::Key => {
            reset == 0 && header.refresh == 255 && is_color(header.profile, &header.color)
        }
        FrameKind::IntraOnly => {
            !header.show_frame
                && is_reset(resilient, reset)
                && is_intra_only_color(header.profile, &header.color)
        }
        FrameKind::Inter(fields) => {
            is_reset(resilient, reset)
                && same_color(&header.color, &before.color)
                && are_references(before, resilient, &header.size, &fields.references)
        }
    }
}

/// Whether a frame loses the past: an intra frame and an error-resilient one do.
fn loses_past(header: &Header) -> bool
    ensures { result ≡ forgets header.now.kind header.now.error_resilient }
{
    match header.kind {
        FrameKind::Inter(_) => header.error_resilient,
        FrameKind::Key | FrameKind::IntraOnly => true,
    }
}

/// The filter deltas and segment features that a frame starts from.
fn kept_by(before: &Persist, header: &Header) -> (LoopDeltas, Features)
    ensures deltas { result.0 ≡ kept_deltas before.now (forgets header.now.kind header.now.error_resilient) }
    ensures features { result.1 ≡ kept_features before.now (forgets header.now.kind header.now.error_resilient) }
{
    if loses_past(header) {
        (LoopDeltas::DEFAULT, Features::NONE)
    } else {
        (before.deltas, before.features)
    }
}

#[tactic(auto, unfolding(crate::specs::Headers::is_header))]
fn is_header(before: &Persist, header: &Header) -> bool
    ensures is { result ≡ is_header before.now header.now }
    ensures header { result ≡ true → IsHeader before.now header.now }
    ensures complete { IsHeader before.now header.now → result ≡ true }
{
    if header.profile >= 4 || !is_frame_size(header.size) {
        return false;
    }
    if !is_of_kind(before, header) {
        return false;
    }
    if !are_contexts(header.error_resilient, header.contexts) {
        return false;
    }
    let (deltas, features) = kept_by(before, header);
    are_params(&deltas, &features, header.size.width, &header.params)
}

/// Whether a header can be written behind what persists from the frames before.
pub fn is_well_formed(before: &Persist, header: &Uncompressed) -> bool
    ensures is { result ≡ is_well_formed before.now header.now }
    ensures well { result ≡ true → IsWellFormed before.now header.now }
    ensures complete { IsWellFormed before.now header.now → result ≡ true }
{
    match header {
        Uncompressed::ShowExisting { slot } => {
            let slot = *slot;
            slot < 8 && before.slots[usize::from(slot)].is_some()
        }
        Uncompressed::Coded(header) => is_header(before, header),
    }
}

/// Whether a header can be written with these choices.
pub fn can_choose(before: &Persist, choices: Choices, header: &Uncompressed) -> bool
    ensures is { result ≡ can_choose before.now choices header.now }
    ensures can { result ≡ true → CanChoose before.now choices header.now }
    ensures complete { CanChoose before.now choices header.now → result ≡ true }
{
    match header {
        Uncompressed::ShowExisting { .. } => true,
        Uncompressed::Coded(header) => {
            let (deltas, features) = kept_by(before, header);
            (choices.deltas || same_deltas(&header.params.loop_filter.deltas, &deltas))
                && (choices.features
                    || same_features(&header.params.segmentation.features, &features))
        }
    }
}
