//! Segmentation.

ghost use Rattle.std.specs.Prelude.{◌≡◌, ◌<◌, ◌≤◌, [], Some, IfOk, IfSome, All, replicate, flat_map, length, is_some, true, false, if◌then◌else◌};
ghost use Rattle.vp9_types.specs.Each.{each};
ghost use Rattle.frame_headers.specs.Segments.{probability, probability_for, prediction_probabilities, update_map, signed_feature, reference_of, reference_feature, segment_features, features_for, no_segment_features, update_features, map_or_none, features_or_old, enabled_params, segmentation_params};
ghost use Rattle.header_writer.specs.Code.{HasPut};
ghost use Rattle.header_writer.specs.WrittenFields.{Puts};
ghost use Rattle.header_writer.specs.Spelling.{reference_code, spelled_enabled, spelled_features, spelled_map, spelled_probability, spelled_reference_feature, spelled_segment_features, spelled_segmentation, spelled_signed_feature};
ghost use Rattle.header_writer.specs.WellFormed.{IsSigned, AreSegmentFeatures, IsMapUpdate, IsSegmentation};

use crate::bits::BitWriter;
use frame_headers::{
    FeatureReference, Features, FieldName, MapUpdate, SegmentFeatures, Segmentation,
};
use std::alloc::AllocError;

#[tactic(auto, unfolding(frame_headers::specs::Segments::probability, crate::specs::Spelling::spelled_probability), using(vp9_types::proofs::Binds::writes_bind, crate::proofs::Spells::spells_on))]
fn put_probability(bits: &mut BitWriter, value: u8) -> Result<(), AllocError>
    ensures puts { IfOk result (λ _. Puts probability bits.old value bits.new) }
    ensures spells { IfOk result (λ _. HasPut bits.old (spelled_probability value) bits.new) }
{
    if value == 255 {
        return bits.flag_field(FieldName::ProbCoded, false);
    }
    bits.flag_field(FieldName::ProbCoded, true)?;
    bits.byte(FieldName::Prob, 8, value)
}

fn put_probabilities(bits: &mut BitWriter, values: &[u8]) -> Result<(), AllocError>
    ensures puts { IfOk result (λ _. Puts (each probability_for (replicate (length values.now) 255)) bits.old values.now bits.new) }
    ensures spells { IfOk result (λ _. HasPut bits.old (flat_map spelled_probability values.now) bits.new) }
{
    for i in 0..values.len() {
        put_probability(bits, values[i])?;
    }
    Ok(())
}

#[tactic(auto, unfolding(frame_headers::specs::Segments::prediction_probabilities), using(vp9_types::proofs::Binds::writes_bind, crate::proofs::Spells::spells_on, crate::proofs::Spells::spells_none))]
fn put_prediction(
    bits: &mut BitWriter,
    temporal: bool,
    prediction: [u8; 3],
) -> Result<(), AllocError>
    requires { temporal ≡ false → prediction ≡ replicate 3 255 }
    ensures puts { IfOk result (λ _. Puts (prediction_probabilities temporal) bits.old prediction bits.new) }
    ensures spells { IfOk result (λ _. HasPut bits.old (if temporal then flat_map spelled_probability prediction else []) bits.new) }
{
    if temporal {
        put_probabilities(bits, &prediction)?;
    }
    Ok(())
}

#[tactic(auto, unfolding(frame_headers::specs::Segments::update_map, crate::specs::Spelling::spelled_map), using(vp9_types::proofs::Binds::writes_bind, crate::proofs::Spells::spells_on))]
fn put_map_update(bits: &mut BitWriter, map: MapUpdate) -> Result<(), AllocError>
    requires { IsMapUpdate map }
    ensures puts { IfOk result (λ _. Puts update_map bits.old map bits.new) }
    ensures spells { IfOk result (λ _. HasPut bits.old (spelled_map (Some map)) bits.new) }
{
    put_probabilities(bits, &map.tree)?;
    bits.flag_field(FieldName::SegmentationTemporalUpdate, map.temporal)?;
    put_prediction(bits, map.temporal, map.prediction)
}

#[tactic(auto, unfolding(frame_headers::specs::Segments::signed_feature, crate::specs::Spelling::spelled_signed_feature), using(vp9_types::proofs::Binds::writes_bind, crate::proofs::Spells::spells_on))]
fn put_signed_feature(
    bits: &mut BitWriter,
    width: u8,
    feature: Option<i16>,
) -> Result<(), AllocError>
    requires width { width ≤ 8 }
    requires fits { IfSome feature (IsSigned width) }
    ensures puts { IfOk result (λ _. Puts (signed_feature width) bits.old feature bits.new) }
    ensures spells { IfOk result (λ _. HasPut bits.old (spelled_signed_feature width feature) bits.new) }
{
    let Some(value) = feature else {
        return bits.flag_field(FieldName::FeatureEnabled, false);
    };
    bits.flag_field(FieldName::FeatureEnabled, true)?;
    bits.signed_number(FieldName::FeatureValue, width, value)
}

fn reference_code(reference: FeatureReference) -> u8
    ensures is { reference_of result ≡ reference }
    ensures code { result ≡ reference_code reference }
    ensures fits { result < 4 }
{
    match reference {
        FeatureReference::Intra => 0,
        FeatureReference::Last => 1,
        FeatureReference::Golden => 2,
        FeatureReference::Altref => 3,
    }
}

#[tactic(auto, unfolding(frame_headers::specs::Segments::reference_feature, crate::specs::Spelling::spelled_reference_feature), using(vp9_types::proofs::Binds::writes_bind, crate::proofs::Spells::spells_on))]
fn put_reference_feature(
    bits: &mut BitWriter,
    feature: Option<FeatureReference>,
) -> Result<(), AllocError>
    ensures puts { IfOk result (λ _. Puts reference_feature bits.old feature bits.new) }
    ensures spells { IfOk result (λ _. HasPut bits.old (spelled_reference_feature feature) bits.new) }
{
    let Some(reference) = feature else {
        return bits.flag_field(FieldName::FeatureEnabled, false);
    };
    bits.flag_field(FieldName::FeatureEnabled, true)?;
    let code = reference_code(reference);
    bits.byte(FieldName::FeatureValue, 2, code)
}

#[tactic(auto, unfolding(frame_headers::specs::Segments::segment_features, crate::specs::Spelling::spelled_segment_features), using(vp9_types::proofs::Binds::writes_bind, crate::proofs::Spells::spells_on))]
fn put_segment_features(bits: &mut BitWriter, features: SegmentFeatures) -> Result<(), AllocError>
    requires { AreSegmentFeatures features }
    ensures puts { IfOk result (λ _. Puts segment_features bits.old features bits.new) }
    ensures spells { IfOk result (λ _. HasPut bits.old (spelled_segment_features features) bits.new) }
{
    put_signed_feature(bits, 8, features.quantizer)?;
    put_signed_feature(bits, 6, features.level)?;
    put_reference_feature(bits, features.reference)?;
    bits.flag_field(FieldName::FeatureEnabled, features.skip)
}

fn put_all_features(bits: &mut BitWriter, segments: &[SegmentFeatures]) -> Result<(), AllocError>
    requires { All AreSegmentFeatures segments.now }
    ensures puts { IfOk result (λ _. Puts (each features_for (replicate (length segments.now) no_segment_features)) bits.old segments.now bits.new) }
    ensures spells { IfOk result (λ _. HasPut bits.old (flat_map spelled_segment_features segments.now) bits.new) }
{
    for i in 0..segments.len() {
        let features = segments[i];
        put_segment_features(bits, features)?;
    }
    Ok(())
}

#[tactic(auto, unfolding(frame_headers::specs::Segments::update_features, crate::specs::Spelling::spelled_features), using(vp9_types::proofs::Binds::writes_bind, crate::proofs::Spells::spells_on))]
fn put_features(bits: &mut BitWriter, features: &Features) -> Result<(), AllocError>
    requires { All AreSegmentFeatures features.now.segments }
    ensures puts { IfOk result (λ _. Puts update_features bits.old features.now bits.new) }
    ensures spells { IfOk result (λ _. HasPut bits.old (spelled_features features.now) bits.new) }
{
    bits.flag_field(FieldName::SegmentationAbsOrDeltaUpdate, features.absolute)?;
    put_all_features(bits, &features.segments)
}

#[tactic(auto, unfolding(frame_headers::specs::Segments::map_or_none, crate::specs::Spelling::spelled_map), using(vp9_types::proofs::Binds::writes_bind, crate::proofs::Spells::spells_on, crate::proofs::Spells::spells_none))]
fn put_map(bits: &mut BitWriter, map: Option<MapUpdate>) -> Result<(), AllocError>
    requires { IfSome map IsMapUpdate }
    ensures puts { IfOk result (λ _. Puts (map_or_none (is_some map)) bits.old map bits.new) }
    ensures spells { IfOk result (λ _. HasPut bits.old (spelled_map map) bits.new) }
{
    match map {
        Some(map) => put_map_update(bits, map),
        None => Ok(()),
    }
}

/// Features that aren't coded are as they were.
#[tactic(auto, unfolding(frame_headers::specs::Segments::enabled_params, frame_headers::specs::Segments::features_or_old, crate::specs::Spelling::spelled_enabled), using(vp9_types::proofs::Binds::writes_bind, crate::proofs::Spells::spells_on, crate::proofs::Spells::spells_two))]
fn put_enabled(
    bits: &mut BitWriter,
    old: &Features,
    segmentation: &Segmentation,
    update: bool,
) -> Result<(), AllocError>
    requires kept { update ≡ false → segmentation.now.features ≡ old.now }
    requires enabled { segmentation.now.enabled ≡ true }
    requires is { IsSegmentation old.now segmentation.now }
    ensures puts { IfOk result (λ _. Puts (enabled_params old.now) bits.old segmentation.now bits.new) }
    ensures spells { IfOk result (λ _. HasPut bits.old (spelled_enabled update segmentation.now) bits.new) }
{
    bits.flag_field(FieldName::SegmentationUpdateMap, segmentation.map.is_some())?;
    put_map(bits, segmentation.map)?;
    if !update {
        return bits.flag_field(FieldName::SegmentationUpdateData, false);
    }
    bits.flag_field(FieldName::SegmentationUpdateData, true)?;
    put_features(bits, &segmentation.features)
}

/// Puts `segmentation_params` (6.2.11 of the standard) over the features so far.
#[tactic(auto, unfolding(frame_headers::specs::Segments::segmentation_params, crate::specs::Spelling::spelled_segmentation), using(vp9_types::proofs::Binds::writes_bind, crate::proofs::Spells::spells_on))]
pub fn put_segmentation(
    bits: &mut BitWriter,
    old: &Features,
    segmentation: &Segmentation,
    update: bool,
) -> Result<(), AllocError>
    requires kept { update ≡ false → segmentation.now.features ≡ old.now }
    requires is { IsSegmentation old.now segmentation.now }
    ensures puts { IfOk result (λ _. Puts (segmentation_params old.now) bits.old segmentation.now bits.new) }
    ensures spells { IfOk result (λ _. HasPut bits.old (spelled_segmentation update segmentation.now) bits.new) }
{
    if segmentation.enabled {
        bits.flag_field(FieldName::SegmentationEnabled, true)?;
        return put_enabled(bits, old, segmentation, update);
    }
    bits.flag_field(FieldName::SegmentationEnabled, false)
}
