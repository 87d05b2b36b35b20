//! The references of inter blocks.

ghost use Rattle.std.specs.Prelude.{◌≡◌, ◌<◌, ◌≤◌};
ghost use Rattle.std.specs.Option.{option_copied};
ghost use Rattle.prob_contexts.specs.ProbLists.{inter_lists};
ghost use Rattle.counting_reader.specs.Code.{Reads};
ghost use Rattle.frame_headers.specs.References.{has_allowed_scale};
ghost use Rattle.inter_contexts.specs.BlockReferences.{fixed_of, variable_by, with_fixed, single, uses_compound, compound_references, golden_or_altref, single_reference, coded_references, of_feature, ref_frames, reference_in, second_in_range, allowed_or_rule};

use crate::contexts::kind_of;
use block_plan::{BlockInfo, ReferenceFrames};
use counting_reader::CountingReader;
use frame_headers::{FeatureReference, FrameSize};
use mv_prediction::SignBiases;
use prob_contexts::{InterProbs, ProbKind};
use vp9_tables::{ReferenceBool, ref_context};
use vp9_types::{ReferenceFrame, ReferenceMode, Rule};

/// What a frame settles of the references of its blocks.
#[derive(Clone, Copy, Debug, PartialEq, Eq)]
pub struct FrameReferences {
    pub reference_mode: ReferenceMode,
    pub sign_biases: SignBiases,
}

/// The reference that all compound blocks of a frame have.
pub fn fixed_of(biases: &SignBiases) -> ReferenceFrame
    ensures { result ≡ fixed_of biases.now }
{
    if biases.last == biases.golden {
        ReferenceFrame::Altref
    } else if biases.last == biases.altref {
        ReferenceFrame::Golden
    } else {
        ReferenceFrame::Last
    }
}

/// Which of the two others a compound block has.
pub fn variable_by(fixed: ReferenceFrame, one: bool) -> ReferenceFrame
    ensures { result ≡ variable_by fixed one }
{
    match (fixed, one) {
        (ReferenceFrame::Last, false) => ReferenceFrame::Golden,
        (ReferenceFrame::Last, true) => ReferenceFrame::Altref,
        (ReferenceFrame::Golden, false) => ReferenceFrame::Last,
        (ReferenceFrame::Golden, true) => ReferenceFrame::Altref,
        (ReferenceFrame::Altref, false) => ReferenceFrame::Last,
        (ReferenceFrame::Altref, true) => ReferenceFrame::Golden,
    }
}

/// The references of a compound block, by the one that all have and the other.
pub fn with_fixed(
    biases: &SignBiases,
    fixed: ReferenceFrame,
    other: ReferenceFrame,
) -> ReferenceFrames
    ensures { result ≡ with_fixed biases.now fixed other }
{
    if biases.bias_of(fixed) {
        ReferenceFrames {
            first: other,
            second: Some(fixed),
        }
    } else {
        ReferenceFrames {
            first: fixed,
            second: Some(other),
        }
    }
}

/// The references of a block that has one.
pub fn single(reference: ReferenceFrame) -> ReferenceFrames
    ensures { result ≡ single reference }
{
    ReferenceFrames {
        first: reference,
        second: None,
    }
}

#[tactic(auto, unfolding(crate::specs::BlockReferences::uses_compound), using(counting_reader::proofs::CountingRuns::run_settle))]
fn read_is_compound<const COUNTS: bool>(
    reader: &mut CountingReader<COUNTS>,
    mode: ReferenceMode,
    probs: &[u8; 5],
    context: u8,
) -> bool
    requires { context ≤ 4 }
    ensures { Reads (uses_compound mode probs.now context) reader.old result reader.new }
{
    match mode {
        ReferenceMode::Single => false,
        ReferenceMode::Compound => true,
        ReferenceMode::Selected => reader.counted_bit(
            ProbKind::CompoundFlag,
            u16::from(context),
            probs[context as usize],
        ),
    }
}

#[tactic(auto, unfolding(crate::specs::BlockReferences::compound_references), using(counting_reader::proofs::CountingRuns::counting_bind, counting_reader::proofs::CountingRuns::run_settle))]
fn read_compound<const COUNTS: bool>(
    reader: &mut CountingReader<COUNTS>,
    probs: &[u8; 5],
    biases: &SignBiases,
    context: u8,
) -> ReferenceFrames
    requires { context ≤ 4 }
    ensures { Reads (compound_references probs.now biases.now context) reader.old result reader.new }
{
    let p = probs[context as usize];
    let one = reader.counted_bit(ProbKind::CompoundReference, u16::from(context), p);
    let fixed = fixed_of(biases);
    with_fixed(biases, fixed, variable_by(fixed, one))
}

#[tactic(auto, unfolding(crate::specs::BlockReferences::golden_or_altref), using(counting_reader::proofs::CountingRuns::counting_bind, counting_reader::proofs::CountingRuns::run_settle))]
fn read_golden_or_altref<const COUNTS: bool>(
    reader: &mut CountingReader<COUNTS>,
    probs: &[u8; 10],
    context: u8,
) -> ReferenceFrames
    requires { context ≤ 4 }
    ensures { Reads (golden_or_altref probs.now context) reader.old result reader.new }
{
    let place = 2 * context + 1;
    let p = probs[place as usize];
    let altref = reader.counted_bit(ProbKind::SingleReference, u16::from(place), p);
    if altref {
        single(ReferenceFrame::Altref)
    } else {
        single(ReferenceFrame::Golden)
    }
}

#[tactic(auto, unfolding(crate::specs::BlockReferences::single_reference), using(counting_reader::proofs::CountingRuns::counting_bind, counting_reader::proofs::CountingRuns::run_settle))]
fn read_single<const COUNTS: bool>(
    reader: &mut CountingReader<COUNTS>,
    probs: &[u8; 10],
    first: u8,
    second: u8,
) -> ReferenceFrames
    requires first { first ≤ 4 }
    requires second { second ≤ 4 }
    ensures { Reads (single_reference probs.now first second) reader.old result reader.new }
{
    let place = 2 * first;
    let p = probs[place as usize];
    if reader.counted_bit(ProbKind::SingleReference, u16::from(place), p) {
        read_golden_or_altref(reader, probs, second)
    } else {
        single(ReferenceFrame::Last)
    }
}

#[tactic(auto, unfolding(crate::specs::BlockReferences::coded_references, crate::specs::Contexts::reference_context), using(counting_reader::proofs::CountingRuns::counting_bind, counting_reader::proofs::CountingRuns::run_settle))]
fn read_coded<const COUNTS: bool>(
    reader: &mut CountingReader<COUNTS>,
    mode: ReferenceMode,
    probs: &InterProbs,
    biases: &SignBiases,
    above: Option<&BlockInfo>,
    left: Option<&BlockInfo>,
) -> ReferenceFrames
    ensures { Reads (coded_references mode (inter_lists probs.now) biases.now (option_copied above.entry) (option_copied left.entry)) reader.old result reader.new }
{
    let fixed = fixed_of(biases);
    let above = kind_of(fixed, above);
    let left = kind_of(fixed, left);
    let context = ref_context(ReferenceBool::IsCompound, fixed, above, left);
    if read_is_compound(reader, mode, &probs.compound_flag, context) {
        let context = ref_context(ReferenceBool::CompoundVariable, fixed, above, left);
        return read_compound(reader, &probs.compound_references, biases, context);
    }
    let first = ref_context(ReferenceBool::SingleFirst, fixed, above, left);
    let second = ref_context(ReferenceBool::SingleSecond, fixed, above, left);
    read_single(reader, &probs.single_references, first, second)
}

/// The reference that a segment's blocks take.
pub fn of_feature(reference: FeatureReference) -> ReferenceFrame
    ensures { result ≡ of_feature reference }
{
    match reference {
        FeatureReference::Golden => ReferenceFrame::Golden,
        FeatureReference::Altref => ReferenceFrame::Altref,
        FeatureReference::Last | FeatureReference::Intra => ReferenceFrame::Last,
    }
}

/// The references that a block's segment takes, or those that the block codes.
#[tactic(auto, unfolding(crate::specs::BlockReferences::ref_frames), using(counting_reader::proofs::CountingRuns::run_settle))]
pub fn read_references<const COUNTS: bool>(
    reader: &mut CountingReader<COUNTS>,
    feature: Option<FeatureReference>,
    frame: FrameReferences,
    probs: &InterProbs,
    above: Option<&BlockInfo>,
    left: Option<&BlockInfo>,
) -> ReferenceFrames
    ensures { Reads (ref_frames feature frame.reference_mode (inter_lists probs.now) frame.sign_biases (option_copied above.entry) (option_copied left.entry)) reader.old result reader.new }
{
    match feature {
        Some(reference) => single(of_feature(reference)),
        None => read_coded(
            reader,
            frame.reference_mode,
            probs,
            &frame.sign_biases,
            above,
            left,
        ),
    }
}

fn has_allowed_scale(
    size: &FrameSize,
    frame: &frame_headers::References,
    reference: ReferenceFrame,
) -> bool
    ensures { result ≡ has_allowed_scale size.now (reference_in frame.now reference) }
{
    match reference {
        ReferenceFrame::Last => frame.last.has_allowed_scale(size),
        ReferenceFrame::Golden => frame.golden.has_allowed_scale(size),
        ReferenceFrame::Altref => frame.altref.has_allowed_scale(size),
    }
}

fn second_in_range(
    size: &FrameSize,
    frame: &frame_headers::References,
    second: Option<ReferenceFrame>,
) -> bool
    ensures { result ≡ second_in_range size.now frame.now second }
{
    match second {
        Some(reference) => has_allowed_scale(size, frame, reference),
        None => true,
    }
}

/// The references, if the frame can be predicted from them: else `BlockScale`.
#[inline(always)]
pub fn allowed_or_rule(
    size: &FrameSize,
    frame: &frame_headers::References,
    references: ReferenceFrames,
) -> Result<ReferenceFrames, Rule>
    ensures { result ≡ allowed_or_rule size.now frame.now references }
{
    if has_allowed_scale(size, frame, references.first)
        && second_in_range(size, frame, references.second)
    {
        Ok(references)
    } else {
        Err(Rule::BlockScale)
    }
}
