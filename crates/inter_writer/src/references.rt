//! The references of inter blocks.

ghost use Rattle.std.specs.Prelude.{◌≡◌, ◌≤◌, IfOk, Bool, if◌then◌else◌};
ghost use Rattle.vp9_types.specs.declared.block.ReferenceFrame.{ReferenceFrame};
ghost use Rattle.vp9_types.specs.declared.block.ReferenceFrame.TheVariants.{Golden, Altref};
ghost use Rattle.std.specs.Option.{option_copied};
ghost use Rattle.prob_contexts.specs.ProbLists.{inter_lists};
ghost use Rattle.bool_encoder.specs.CountedBools.{PutsValue};
ghost use Rattle.inter_contexts.specs.BlockReferences.{variable_by, with_fixed, single, uses_compound, compound_references, golden_or_altref, single_reference, coded_references, ref_frames};
ghost use Rattle.inter_writer.specs.InterFits.{CanBeCompound, AreCompound, CanCodeReferences, CanRefer};

use block_plan::{BlockInfo, ReferenceFrames};
use bool_encoder::{BoolEncoder, put_flag};
use frame_headers::FeatureReference;
use inter_contexts::{fixed_of, kind_of};
use mv_prediction::SignBiases;
use prob_contexts::InterProbs;
use std::alloc::AllocError;
use vp9_tables::{ReferenceBool, ref_context};
use vp9_types::{ReferenceFrame, ReferenceMode};

/// What the references of a block are chosen by: the reference that its segment takes, the frame's reference mode, and the
/// sign biases of its references.
#[derive(Clone, Copy, Debug, PartialEq, Eq)]
pub struct ReferenceChoice {
    pub feature: Option<FeatureReference>,
    pub mode: ReferenceMode,
    pub biases: SignBiases,
}

#[tactic(auto, unfolding(inter_contexts::specs::BlockReferences::uses_compound), using(bool_encoder::proofs::CountedPuts::valued_settle, bool_encoder::proofs::CountedPuts::valued_flag))]
fn put_is_compound(
    encoder: &mut BoolEncoder,
    mode: ReferenceMode,
    probs: &[u8; 5],
    context: u8,
    compound: bool,
) -> Result<(), AllocError>
    requires context { context ≤ 4 }
    requires may { CanBeCompound mode compound }
    ensures { IfOk result (λ _. PutsValue (uses_compound mode probs.now context) encoder.old compound encoder.new) }
{
    match mode {
        ReferenceMode::Single | ReferenceMode::Compound => Ok(()),
        ReferenceMode::Selected => put_flag(encoder, probs[context as usize], compound),
    }
}

/// The reference of a compound block beside the one that all have.
fn other_than(
    biases: &SignBiases,
    fixed: ReferenceFrame,
    references: ReferenceFrames,
) -> ReferenceFrame
    ensures { (other : ReferenceFrame) → references ≡ with_fixed biases.now fixed other → result ≡ other }
{
    match references.second {
        Some(second) if !biases.bias_of(fixed) => second,
        _ => references.first,
    }
}

/// Whether it is the second of the two that it may be.
fn is_second(fixed: ReferenceFrame, other: ReferenceFrame) -> bool
    ensures { (one : Bool) → other ≡ variable_by fixed one → result ≡ one }
{
    match (fixed, other) {
        (ReferenceFrame::Last | ReferenceFrame::Golden, ReferenceFrame::Altref) => true,
        (ReferenceFrame::Altref, ReferenceFrame::Golden) => true,
        _ => false,
    }
}

#[tactic(auto, unfolding(inter_contexts::specs::BlockReferences::compound_references), using(bool_encoder::proofs::CountedPuts::valued_in_order, bool_encoder::proofs::CountedPuts::valued_settle, bool_encoder::proofs::CountedPuts::valued_flag, vp9_types::proofs::Binds::writes_bind))]
fn put_compound(
    encoder: &mut BoolEncoder,
    probs: &[u8; 5],
    biases: &SignBiases,
    context: u8,
    references: ReferenceFrames,
) -> Result<(), AllocError>
    requires context { context ≤ 4 }
    requires compound { AreCompound biases.now references }
    ensures { IfOk result (λ _. PutsValue (compound_references probs.now biases.now context) encoder.old references encoder.new) }
{
    let fixed = fixed_of(biases);
    let one = is_second(fixed, other_than(biases, fixed, references));
    put_flag(encoder, probs[context as usize], one)
}

#[tactic(auto, unfolding(inter_contexts::specs::BlockReferences::golden_or_altref), using(bool_encoder::proofs::CountedPuts::valued_in_order, bool_encoder::proofs::CountedPuts::valued_settle, bool_encoder::proofs::CountedPuts::valued_flag, vp9_types::proofs::Binds::writes_bind))]
fn put_golden_or_altref(
    encoder: &mut BoolEncoder,
    probs: &[u8; 10],
    context: u8,
    altref: bool,
) -> Result<(), AllocError>
    requires context { context ≤ 4 }
    ensures { IfOk result (λ _. PutsValue (golden_or_altref probs.now context) encoder.old (single (if altref then Altref else Golden)) encoder.new) }
{
    put_flag(encoder, probs[2 * context as usize + 1], altref)
}

#[tactic(auto, unfolding(inter_contexts::specs::BlockReferences::single_reference), using(bool_encoder::proofs::CountedPuts::valued_in_order, bool_encoder::proofs::CountedPuts::valued_settle, bool_encoder::proofs::CountedPuts::valued_flag, vp9_types::proofs::Binds::writes_bind))]
fn put_single(
    encoder: &mut BoolEncoder,
    probs: &[u8; 10],
    first: u8,
    second: u8,
    reference: ReferenceFrame,
) -> Result<(), AllocError>
    requires first { first ≤ 4 }
    requires second { second ≤ 4 }
    ensures { IfOk result (λ _. PutsValue (single_reference probs.now first second) encoder.old (single reference) encoder.new) }
{
    let p = probs[2 * first as usize];
    match reference {
        ReferenceFrame::Last => put_flag(encoder, p, false),
        ReferenceFrame::Golden => {
            put_flag(encoder, p, true)?;
            put_golden_or_altref(encoder, probs, second, false)
        }
        ReferenceFrame::Altref => {
            put_flag(encoder, p, true)?;
            put_golden_or_altref(encoder, probs, second, true)
        }
    }
}

#[tactic(auto, unfolding(inter_contexts::specs::BlockReferences::coded_references, inter_contexts::specs::Contexts::reference_context), using(bool_encoder::proofs::CountedPuts::valued_in_order, bool_encoder::proofs::CountedPuts::valued_settle, vp9_types::proofs::Binds::writes_bind))]
fn put_coded(
    encoder: &mut BoolEncoder,
    choice: &ReferenceChoice,
    probs: &InterProbs,
    above: Option<&BlockInfo>,
    left: Option<&BlockInfo>,
    references: ReferenceFrames,
) -> Result<(), AllocError>
    requires { CanCodeReferences choice.now.mode choice.now.biases references }
    ensures { IfOk result (λ _. PutsValue (coded_references choice.now.mode (inter_lists probs.now) choice.now.biases (option_copied above.entry) (option_copied left.entry)) encoder.old references encoder.new) }
{
    let mode = choice.mode;
    let fixed = fixed_of(&choice.biases);
    let above = kind_of(fixed, above);
    let left = kind_of(fixed, left);
    let context = ref_context(ReferenceBool::IsCompound, fixed, above, left);
    if references.second.is_some() {
        put_is_compound(encoder, mode, &probs.compound_flag, context, true)?;
        let context = ref_context(ReferenceBool::CompoundVariable, fixed, above, left);
        let probs = &probs.compound_references;
        return put_compound(encoder, probs, &choice.biases, context, references);
    }
    put_is_compound(encoder, mode, &probs.compound_flag, context, false)?;
    let first = ref_context(ReferenceBool::SingleFirst, fixed, above, left);
    let second = ref_context(ReferenceBool::SingleSecond, fixed, above, left);
    let probs = &probs.single_references;
    put_single(encoder, probs, first, second, references.first)
}

/// Puts the references of an inter block, where its segment takes none.
#[tactic(auto, unfolding(inter_contexts::specs::BlockReferences::ref_frames), using(bool_encoder::proofs::CountedPuts::valued_settle))]
pub(crate) fn put_references(
    encoder: &mut BoolEncoder,
    choice: &ReferenceChoice,
    probs: &InterProbs,
    above: Option<&BlockInfo>,
    left: Option<&BlockInfo>,
    references: ReferenceFrames,
) -> Result<(), AllocError>
    requires { CanRefer choice.now references }
    ensures { IfOk result (λ _. PutsValue (ref_frames choice.now.feature choice.now.mode (inter_lists probs.now) choice.now.biases (option_copied above.entry) (option_copied left.entry)) encoder.old references encoder.new) }
{
    match choice.feature {
        Some(_) => Ok(()),
        None => put_coded(encoder, choice, probs, above, left, references),
    }
}
