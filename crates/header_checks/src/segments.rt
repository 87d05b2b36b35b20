//! Tests of segments.

ghost use Rattle.std.specs.Prelude.{◌≡◌, ◌<◌, All, IfSome, true, unsigned_abs};
ghost use Rattle.std.specs.List.{list_all};
ghost use Rattle.header_writer.specs.WellFormed.{AreSegmentFeatures, IsMapUpdate, IsSegmentation};
ghost use Rattle.header_checks.specs.Code.{IsCoded};
ghost use Rattle.header_checks.specs.Params.{are_features, is_below, is_coded, is_map, is_segmentation};

use crate::same::same_features;
use frame_headers::{Features, MapUpdate, SegmentFeatures, Segmentation};

fn is_below(limit: u16, value: Option<i16>) -> bool
    ensures is { result ≡ is_below limit value }
    ensures below { result ≡ true → IfSome value (λ v. unsigned_abs v < limit) }
    ensures complete { IfSome value (λ v. unsigned_abs v < limit) → result ≡ true }
{
    match value {
        Some(value) => value.unsigned_abs() < limit,
        None => true,
    }
}

fn are_features(features: &SegmentFeatures) -> bool
    ensures is { result ≡ are_features features.now }
    ensures features { result ≡ true → AreSegmentFeatures features.now }
    ensures complete { AreSegmentFeatures features.now → result ≡ true }
{
    is_below(256, features.quantizer) && is_below(64, features.level)
}

fn are_all_features(segments: &[SegmentFeatures]) -> bool
    ensures is { result ≡ list_all are_features segments.now }
    ensures features { result ≡ true → All AreSegmentFeatures segments.now }
    ensures complete { All AreSegmentFeatures segments.now → result ≡ true }
{
    for i in 0..segments.len() {
        if !are_features(&segments[i]) {
            return false;
        }
    }
    true
}

#[tactic(auto, using(crate::proofs::Numbers::all_whole))]
fn is_map(map: &Option<MapUpdate>) -> bool
    ensures is { result ≡ is_map map.now }
    ensures map { result ≡ true → IfSome map.now IsMapUpdate }
    ensures complete { IfSome map.now IsMapUpdate → result ≡ true }
{
    match map {
        Some(map) => map.temporal || map.prediction == [255; 3],
        None => true,
    }
}

#[tactic(auto, unfolding(crate::specs::Params::is_coded))]
fn is_coded(old: &Features, segmentation: &Segmentation) -> bool
    ensures is { result ≡ is_coded old.now segmentation.now }
    ensures coded { result ≡ true → IsCoded old.now segmentation.now }
    ensures complete { IsCoded old.now segmentation.now → result ≡ true }
{
    segmentation.enabled || segmentation.map.is_none() && same_features(&segmentation.features, old)
}

/// Whether segments can be coded over the features before.
#[tactic(auto, unfolding(crate::specs::Params::is_segmentation))]
pub(crate) fn is_segmentation(old: &Features, segmentation: &Segmentation) -> bool
    ensures is { result ≡ is_segmentation old.now segmentation.now }
    ensures segmentation { result ≡ true → IsSegmentation old.now segmentation.now }
    ensures complete { IsSegmentation old.now segmentation.now → result ≡ true }
{
    is_coded(old, segmentation)
        && is_map(&segmentation.map)
        && are_all_features(&segmentation.features.segments)
}
