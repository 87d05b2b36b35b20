//! What is the same.

ghost use Rattle.std.specs.Prelude.{◌≡◌, Some, length, true};
ghost use Rattle.std.specs.Cmp.Lexicographic.{pointwise};
ghost use Rattle.header_checks.specs.Same.{holds, same_color, same_deltas, same_features, same_reference, same_segment};

use frame_headers::{ColorConfig, FeatureReference, Features, LoopDeltas, SegmentFeatures};
use vp9_types::Shape;

#[tactic(auto, using(crate::proofs::Numbers::same_depth_is, crate::proofs::Numbers::same_space_is))]
pub(crate) fn same_color(color: &ColorConfig, other: &ColorConfig) -> bool
    ensures is { result ≡ same_color color.now other.now }
    ensures same { result ≡ true → color.now ≡ other.now }
    ensures complete { color.now ≡ other.now → result ≡ true }
{
    color.depth.bits() == other.depth.bits()
        && color.space as u8 == other.space as u8
        && color.full_range == other.full_range
        && color.ss_x == other.ss_x
        && color.ss_y == other.ss_y
}

/// Whether a slot holds a frame of a shape.
#[tactic(auto, using(crate::proofs::Numbers::same_depth_is))]
pub(crate) fn holds(slot: Option<Shape>, shape: &Shape) -> bool
    ensures is { result ≡ holds slot shape.now }
    ensures same { result ≡ true → slot ≡ Some shape.now }
    ensures complete { slot ≡ Some shape.now → result ≡ true }
{
    match slot {
        Some(held) => {
            held.w == shape.w
                && held.h == shape.h
                && held.depth.bits() == shape.depth.bits()
                && held.ss_x == shape.ss_x
                && held.ss_y == shape.ss_y
        }
        None => false,
    }
}

#[tactic(auto, using(crate::proofs::Numbers::same_deltas_are, crate::proofs::Numbers::deltas_are_same))]
pub(crate) fn same_deltas(deltas: &LoopDeltas, other: &LoopDeltas) -> bool
    ensures is { result ≡ same_deltas deltas.now other.now }
    ensures same { result ≡ true → deltas.now ≡ other.now }
    ensures complete { deltas.now ≡ other.now → result ≡ true }
{
    deltas == other
}

#[tactic(auto, using(crate::proofs::Numbers::same_reference_is))]
fn same_reference(reference: Option<FeatureReference>, other: Option<FeatureReference>) -> bool
    ensures is { result ≡ same_reference reference other }
    ensures same { result ≡ true → reference ≡ other }
    ensures complete { reference ≡ other → result ≡ true }
{
    match (reference, other) {
        (Some(r), Some(s)) => r as u8 == s as u8,
        (None, None) => true,
        _ => false,
    }
}

#[tactic(auto, unfolding(crate::specs::Same::same_segment))]
fn same_segment(features: &SegmentFeatures, other: &SegmentFeatures) -> bool
    ensures is { result ≡ same_segment features.now other.now }
    ensures same { result ≡ true → features.now ≡ other.now }
    ensures complete { features.now ≡ other.now → result ≡ true }
{
    features.quantizer == other.quantizer
        && features.level == other.level
        && same_reference(features.reference, other.reference)
        && features.skip == other.skip
}

fn same_segments(segments: &[SegmentFeatures], others: &[SegmentFeatures]) -> bool
    requires { length segments.now ≡ length others.now }
    ensures is { result ≡ pointwise same_segment segments.now others.now }
    ensures same { result ≡ true → segments.now ≡ others.now }
    ensures complete { segments.now ≡ others.now → result ≡ true }
{
    for i in 0..segments.len() {
        if !same_segment(&segments[i], &others[i]) {
            return false;
        }
    }
    true
}

#[tactic(auto, unfolding(crate::specs::Same::same_features))]
pub(crate) fn same_features(features: &Features, other: &Features) -> bool
    ensures is { result ≡ same_features features.now other.now }
    ensures same { result ≡ true → features.now ≡ other.now }
    ensures complete { features.now ≡ other.now → result ≡ true }
{
    features.absolute == other.absolute && same_segments(&features.segments, &other.segments)
}
