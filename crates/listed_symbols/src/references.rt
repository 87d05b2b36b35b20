//! Tests of the references of inter blocks.

ghost use Rattle.std.specs.Prelude.{◌≡◌, true};
ghost use Rattle.std.specs.Option.{is_some};
ghost use Rattle.inter_writer.specs.InterFits.{AreCompound, CanBeCompound, CanCodeReferences, CanReferBy};
ghost use Rattle.listed_symbols.specs.InterTests.{are_compound, can_be_compound, can_code_references, can_refer, compound_by, same_references, same_second};

use block_plan::ReferenceFrames;
use frame_headers::FeatureReference;
use inter_contexts::{fixed_of, of_feature, single, variable_by, with_fixed};
use mv_prediction::SignBiases;
use vp9_types::{ReferenceFrame, ReferenceMode};

#[tactic(auto, using(crate::proofs::Numbers::same_reference_is))]
fn same_second(second: Option<ReferenceFrame>, other: Option<ReferenceFrame>) -> bool
    ensures is { result ≡ same_second second other }
    ensures same { result ≡ true → second ≡ other }
{
    match (second, other) {
        (Some(r), Some(s)) => r as u8 == s as u8,
        (None, None) => true,
        _ => false,
    }
}

#[tactic(auto, using(crate::proofs::Numbers::same_references_are))]
fn same_references(refs: ReferenceFrames, other: ReferenceFrames) -> bool
    ensures is { result ≡ same_references refs other }
    ensures same { result ≡ true → refs ≡ other }
{
    refs.first as u8 == other.first as u8 && same_second(refs.second, other.second)
}

fn can_be_compound(mode: ReferenceMode, compound: bool) -> bool
    ensures is { result ≡ can_be_compound mode compound }
    ensures can { result ≡ true → CanBeCompound mode compound }
{
    match mode {
        ReferenceMode::Single => !compound,
        ReferenceMode::Compound => compound,
        ReferenceMode::Selected => true,
    }
}

fn compound_by(biases: &SignBiases, one: bool) -> ReferenceFrames
    ensures { result ≡ compound_by biases.now one }
{
    let fixed = fixed_of(biases);
    with_fixed(biases, fixed, variable_by(fixed, one))
}

#[tactic(auto, unfolding(crate::specs::InterTests::are_compound))]
fn are_compound(biases: &SignBiases, refs: ReferenceFrames) -> bool
    ensures is { result ≡ are_compound biases.now refs }
    ensures are { result ≡ true → AreCompound biases.now refs }
{
    same_references(refs, compound_by(biases, false))
        || same_references(refs, compound_by(biases, true))
}

#[tactic(auto, unfolding(crate::specs::InterTests::can_code_references))]
fn can_code_references(mode: ReferenceMode, biases: &SignBiases, refs: ReferenceFrames) -> bool
    ensures is { result ≡ can_code_references mode biases.now refs }
    ensures can { result ≡ true → CanCodeReferences mode biases.now refs }
{
    let compound = refs.second.is_some();
    can_be_compound(mode, compound) && (!compound || are_compound(biases, refs))
}

/// Whether a block can have these references, by the reference that its segment takes.
#[tactic(auto, unfolding(crate::specs::InterTests::can_refer))]
pub(crate) fn can_refer(
    feature: Option<FeatureReference>,
    mode: ReferenceMode,
    biases: &SignBiases,
    refs: ReferenceFrames,
) -> bool
    ensures is { result ≡ can_refer feature mode biases.now refs }
    ensures can { result ≡ true → CanReferBy feature mode biases.now refs }
{
    match feature {
        Some(reference) => same_references(refs, single(of_feature(reference))),
        None => can_code_references(mode, biases, refs),
    }
}
