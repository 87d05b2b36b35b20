//! Inter frames, but for vectors.

ghost use Rattle.std.specs.Prelude.{◌≡◌, ◌≤◌, IfOk};
ghost use Rattle.bool_encoder.specs.WrittenBools.{Puts};
ghost use Rattle.bool_lists.specs.BoolLists.{HasPut};
ghost use Rattle.compressed_writer.specs.Spelling.{spelled_inter_probs, spelled_reference_probs};
ghost use Rattle.prob_contexts.specs.ProbLists.{inter_lists};
ghost use Rattle.compressed_header.specs.ReferenceProbs.{is_switchable, frame_reference_mode_probs, inter_probs};
ghost use Rattle.compressed_writer.specs.Code.{before_references, after_references};
ghost use Rattle.compressed_writer.specs.CodedUpdates.{AreReferenceUpdates, AreInterUpdates};

use crate::modes::{is_compound_allowed, put_reference_mode};
use crate::update::{put_updates, put_updates_if};
use bool_encoder::BoolEncoder;
use frame_headers::{FrameFilter, InterFields};
use prob_contexts::InterProbs;
use std::alloc::AllocError;
use vp9_types::ReferenceMode;

fn is_switchable(filter: FrameFilter) -> bool
    ensures { result ≡ is_switchable filter }
{
    match filter {
        FrameFilter::Fixed(_) => false,
        FrameFilter::Switchable => true,
    }
}

#[tactic(auto, unfolding(crate::specs::Spelling::spelled_reference_probs, compressed_header::specs::ReferenceProbs::frame_reference_mode_probs), using(bool_lists::proofs::Ways::spells_on, vp9_types::proofs::Binds::writes_bind))]
fn put_reference_probs(
    encoder: &mut BoolEncoder,
    mode: ReferenceMode,
    before: &InterProbs,
    after: &InterProbs,
) -> Result<(), AllocError>
    requires { AreReferenceUpdates mode (inter_lists before.now) (inter_lists after.now) }
    ensures puts { IfOk result (λ _. Puts (frame_reference_mode_probs mode (before_references (inter_lists before.now) (inter_lists after.now)))
        encoder.old (after_references (inter_lists before.now) (inter_lists after.now)) encoder.new) }
    ensures spells { IfOk result (λ _. HasPut encoder.old (spelled_reference_probs mode (inter_lists before.now) (inter_lists after.now)) encoder.new) }
{
    let (chosen, single, compound) = match mode {
        ReferenceMode::Single => (false, true, false),
        ReferenceMode::Compound => (false, false, true),
        ReferenceMode::Selected => (true, true, true),
    };
    put_updates_if(encoder, chosen, &before.compound_flag, &after.compound_flag)?;
    put_updates_if(
        encoder,
        single,
        &before.single_references,
        &after.single_references,
    )?;
    put_updates_if(
        encoder,
        compound,
        &before.compound_references,
        &after.compound_references,
    )
}

/// Puts those of references and modes, with the frame's reference mode among them.
#[tactic(auto, unfolding(crate::specs::Spelling::spelled_inter_probs, compressed_header::specs::ReferenceProbs::inter_probs, compressed_header::specs::ReferenceProbs::read_inter_mode_probs, compressed_header::specs::ReferenceProbs::read_interp_filter_probs, compressed_header::specs::ReferenceProbs::read_is_inter_probs, compressed_header::specs::ReferenceProbs::read_y_mode_probs), using(bool_lists::proofs::Ways::spells_on, vp9_types::proofs::Binds::writes_bind))]
pub fn put_inter_probs(
    encoder: &mut BoolEncoder,
    fields: &InterFields,
    mode: ReferenceMode,
    before: &InterProbs,
    after: &InterProbs,
) -> Result<(), AllocError>
    requires { AreInterUpdates fields.now mode (inter_lists before.now) (inter_lists after.now) }
    ensures puts { IfOk result (λ _. Puts (inter_probs fields.now (inter_lists before.now)) encoder.old (inter_lists after.now, mode) encoder.new) }
    ensures spells { IfOk result (λ _. HasPut encoder.old (spelled_inter_probs fields.now mode (inter_lists before.now) (inter_lists after.now)) encoder.new) }
{
    put_updates(encoder, &before.modes, &after.modes)?;
    put_updates_if(
        encoder,
        is_switchable(fields.filter),
        &before.filters,
        &after.filters,
    )?;
    put_updates(encoder, &before.is_inter, &after.is_inter)?;
    put_reference_mode(encoder, is_compound_allowed(&fields.references), mode)?;
    put_reference_probs(encoder, mode, before, after)?;
    put_updates(encoder, &before.y_modes, &after.y_modes)
}
