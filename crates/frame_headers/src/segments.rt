ghost use Rattle.std.specs.Prelude.{◌≡◌, ◌≤◌};
ghost use Rattle.frame_headers.specs.Fields.{Reads, ReadsInto};
ghost use Rattle.frame_headers.specs.Segments.{probability, probability_for, reference_of, signed_feature, reference_feature, segment_features, features_for, prediction_probabilities, map_or_none, update_map, update_features, enabled_params, segmentation_params};
ghost use Rattle.vp9_types.specs.Each.{each};

use crate::bits::BitReader;
use crate::field::FieldName;
use vp9_types::Rule;

/// The reference that a segment's blocks take.
#[derive(Clone, Copy, Debug, PartialEq, Eq)]
pub enum FeatureReference {
    Intra,
    Last,
    Golden,
    Altref,
}

/// What holds for the blocks of a segment: a quantiser index (-255 to 255), a filter level (-63 to 63), a reference,
/// and whether they are skipped.
#[derive(Clone, Copy, Debug, PartialEq, Eq)]
pub struct SegmentFeatures {
    pub quantizer: Option<i16>,
    pub level: Option<i16>,
    pub reference: Option<FeatureReference>,
    pub skip: bool,
}

impl SegmentFeatures {
    pub const NONE: SegmentFeatures = SegmentFeatures {
        quantizer: None,
        level: None,
        reference: None,
        skip: false,
    };
}

/// The features of the eight segments, which persist from frame to frame. `absolute` says that quantiser indices and
/// levels stand in place of the frame's, and aren't added to them.
#[derive(Clone, Copy, Debug, PartialEq, Eq)]
pub struct Features {
    pub absolute: bool,
    pub segments: [SegmentFeatures; 8],
}

impl Features {
    pub const NONE: Features = Features {
        absolute: false,
        segments: [SegmentFeatures::NONE; 8],
    };
}

/// How a frame codes its segment map: the probabilities of the tree, and where ids may be predicted from the map
/// before it, those of the prediction flag.
#[derive(Clone, Copy, Debug, PartialEq, Eq)]
pub struct MapUpdate {
    pub tree: [u8; 7],
    pub temporal: bool,
    pub prediction: [u8; 3],
}

/// `segmentation_params` (6.2.11 of the standard): whether the frame has segments, how it codes their map if it does,
/// and the features in force.
#[derive(Clone, Copy, Debug, PartialEq, Eq)]
pub struct Segmentation {
    pub enabled: bool,
    pub map: Option<MapUpdate>,
    pub features: Features,
}

#[tactic(auto, unfolding(crate::specs::Segments::probability), using(vp9_types::proofs::Runs::run_bind))]
fn read_probability(bits: &mut BitReader<'_>) -> Result<u8, Rule>
    ensures { Reads probability bits.old result bits.new }
{
    if bits.flag_field(FieldName::ProbCoded)? {
        bits.byte(FieldName::Prob, 8)
    } else {
        Ok(255)
    }
}

fn read_probabilities(bits: &mut BitReader<'_>, values: &mut [u8]) -> Result<(), Rule>
    ensures { ReadsInto (each probability_for values.old) bits.old result values.new bits.new }
{
    for i in 0..values.len() {
        values[i] = read_probability(bits)?;
    }
    Ok(())
}

#[tactic(auto, unfolding(crate::specs::Segments::prediction_probabilities), using(vp9_types::proofs::Runs::run_bind))]
fn read_prediction(bits: &mut BitReader<'_>, temporal: bool) -> Result<[u8; 3], Rule>
    ensures { Reads (prediction_probabilities temporal) bits.old result bits.new }
{
    let mut prediction = [255; 3];
    if temporal {
        read_probabilities(bits, &mut prediction)?;
    }
    Ok(prediction)
}

#[tactic(auto, unfolding(crate::specs::Segments::update_map), using(vp9_types::proofs::Runs::run_bind))]
fn read_map_update(bits: &mut BitReader<'_>) -> Result<MapUpdate, Rule>
    ensures { Reads update_map bits.old result bits.new }
{
    let mut tree = [255; 7];
    read_probabilities(bits, &mut tree)?;
    let temporal = bits.flag_field(FieldName::SegmentationTemporalUpdate)?;
    let prediction = read_prediction(bits, temporal)?;
    Ok(MapUpdate {
        tree,
        temporal,
        prediction,
    })
}

#[tactic(auto, unfolding(crate::specs::Segments::signed_feature), using(vp9_types::proofs::Runs::run_bind))]
fn read_signed_feature(bits: &mut BitReader<'_>, width: u8) -> Result<Option<i16>, Rule>
    requires { width ≤ 8 }
    ensures { Reads (signed_feature width) bits.old result bits.new }
{
    if bits.flag_field(FieldName::FeatureEnabled)? {
        Ok(Some(bits.signed(FieldName::FeatureValue, width)?))
    } else {
        Ok(None)
    }
}

fn feature_reference(code: u8) -> FeatureReference
    ensures { result ≡ reference_of code }
{
    match code {
        0 => FeatureReference::Intra,
        1 => FeatureReference::Last,
        2 => FeatureReference::Golden,
        _ => FeatureReference::Altref,
    }
}

#[tactic(auto, unfolding(crate::specs::Segments::reference_feature), using(vp9_types::proofs::Runs::run_bind))]
fn read_reference_feature(bits: &mut BitReader<'_>) -> Result<Option<FeatureReference>, Rule>
    ensures { Reads reference_feature bits.old result bits.new }
{
    if bits.flag_field(FieldName::FeatureEnabled)? {
        let code = bits.byte(FieldName::FeatureValue, 2)?;
        Ok(Some(feature_reference(code)))
    } else {
        Ok(None)
    }
}

#[tactic(auto, unfolding(crate::specs::Segments::segment_features), using(vp9_types::proofs::Runs::run_bind))]
fn read_segment_features(bits: &mut BitReader<'_>) -> Result<SegmentFeatures, Rule>
    ensures { Reads segment_features bits.old result bits.new }
{
    let quantizer = read_signed_feature(bits, 8)?;
    let level = read_signed_feature(bits, 6)?;
    let reference = read_reference_feature(bits)?;
    let skip = bits.flag_field(FieldName::FeatureEnabled)?;
    Ok(SegmentFeatures {
        quantizer,
        level,
        reference,
        skip,
    })
}

fn read_all_features(bits: &mut BitReader<'_>, segments: &mut [SegmentFeatures]) -> Result<(), Rule>
    ensures { ReadsInto (each features_for segments.old) bits.old result segments.new bits.new }
{
    for i in 0..segments.len() {
        segments[i] = read_segment_features(bits)?;
    }
    Ok(())
}

#[tactic(auto, unfolding(crate::specs::Segments::update_features), using(vp9_types::proofs::Runs::run_bind))]
fn read_features(bits: &mut BitReader<'_>) -> Result<Features, Rule>
    ensures { Reads update_features bits.old result bits.new }
{
    let absolute = bits.flag_field(FieldName::SegmentationAbsOrDeltaUpdate)?;
    let mut segments = [SegmentFeatures::NONE; 8];
    read_all_features(bits, &mut segments)?;
    Ok(Features { absolute, segments })
}

#[tactic(auto, unfolding(crate::specs::Segments::map_or_none), using(vp9_types::proofs::Runs::run_bind))]
fn read_map(bits: &mut BitReader<'_>, update: bool) -> Result<Option<MapUpdate>, Rule>
    ensures { Reads (map_or_none update) bits.old result bits.new }
{
    if update {
        Ok(Some(read_map_update(bits)?))
    } else {
        Ok(None)
    }
}

#[tactic(auto, unfolding(crate::specs::Segments::enabled_params, crate::specs::Segments::features_or_old), using(vp9_types::proofs::Runs::run_bind))]
fn read_enabled(bits: &mut BitReader<'_>, old: Features) -> Result<Segmentation, Rule>
    ensures { Reads (enabled_params old) bits.old result bits.new }
{
    let update = bits.flag_field(FieldName::SegmentationUpdateMap)?;
    let map = read_map(bits, update)?;
    let update = bits.flag_field(FieldName::SegmentationUpdateData)?;
    let features = if update { read_features(bits)? } else { old };
    Ok(Segmentation {
        enabled: true,
        map,
        features,
    })
}

/// Reads `segmentation_params` over the features so far.
#[tactic(auto, unfolding(crate::specs::Segments::segmentation_params), using(vp9_types::proofs::Runs::run_bind))]
pub fn read_segmentation(bits: &mut BitReader<'_>, old: Features) -> Result<Segmentation, Rule>
    ensures { Reads (segmentation_params old) bits.old result bits.new }
{
    if bits.flag_field(FieldName::SegmentationEnabled)? {
        read_enabled(bits, old)
    } else {
        Ok(Segmentation {
            enabled: false,
            map: None,
            features: old,
        })
    }
}
