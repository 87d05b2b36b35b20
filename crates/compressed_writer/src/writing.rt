//! The whole header.

ghost use Rattle.std.specs.Prelude.{◌≡◌, ◌≤◌, IfOk, length, Ok};
ghost use Rattle.vp9_types.specs.declared.block.Modes.{Modes};
ghost use Rattle.bool_encoder.specs.WrittenBools.{Puts};
ghost use Rattle.bool_lists.specs.BoolLists.{HasPut};
ghost use Rattle.compressed_writer.specs.Spelling.{spelled_compressed, spelled_inter_part, spelled_kind};
ghost use Rattle.prob_contexts.specs.ProbLists.{lists_of};
ghost use Rattle.compressed_header.specs.CompressedHeader.{inter_part, kind_part, compressed_header, IsForward};
ghost use Rattle.compressed_writer.specs.HeaderBytes.{IsWrittenHeader};
ghost use Rattle.compressed_writer.specs.Code.{before_kind};
ghost use Rattle.compressed_writer.specs.CodedUpdates.{AreInterUpdates, AreVectorUpdates, IsKindUpdate, CanForward};

use crate::modes::put_tx_mode;
use crate::references::put_inter_probs;
use crate::transforms::{put_coefficients, put_tx_probs};
use crate::update::put_updates;
use crate::vectors::put_vectors;
use bool_encoder::BoolEncoder;
use frame_headers::{FrameKind, Header, InterFields};
use prob_contexts::Contexts;
use std::alloc::{AllocError, Global};
use vp9_types::{Modes, ReferenceMode};

#[tactic(auto, unfolding(crate::specs::Spelling::spelled_inter_part, compressed_header::specs::CompressedHeader::inter_part, compressed_header::specs::ReferenceProbs::read_partition_probs), using(bool_lists::proofs::Ways::spells_on, vp9_types::proofs::Binds::writes_bind))]
fn put_inter_part(
    encoder: &mut BoolEncoder,
    fields: &InterFields,
    mode: ReferenceMode,
    before: &Contexts,
    after: &Contexts,
) -> Result<(), AllocError>
    requires inter { AreInterUpdates fields.now mode (lists_of before.now).inter (lists_of after.now).inter }
    requires vectors { AreVectorUpdates fields.now.high_precision (lists_of before.now).vectors (lists_of after.now).vectors }
    requires uv_modes { after.now.uv_modes ≡ before.now.uv_modes }
    ensures puts { IfOk result (λ _. Puts (inter_part fields.now (before_kind (lists_of before.now) (lists_of after.now))) encoder.old (lists_of after.now, mode) encoder.new) }
    ensures spells { IfOk result (λ _. HasPut encoder.old (spelled_inter_part fields.now mode (lists_of before.now) (lists_of after.now)) encoder.new) }
{
    put_inter_probs(encoder, fields, mode, &before.inter, &after.inter)?;
    put_updates(encoder, &before.partitions, &after.partitions)?;
    put_vectors(
        encoder,
        fields.high_precision,
        &before.vectors,
        &after.vectors,
    )
}

#[tactic(auto, unfolding(crate::specs::Spelling::spelled_kind, compressed_header::specs::CompressedHeader::kind_part), using(bool_lists::proofs::Ways::spells_none))]
fn put_kind_part(
    encoder: &mut BoolEncoder,
    kind: &FrameKind,
    mode: ReferenceMode,
    before: &Contexts,
    after: &Contexts,
) -> Result<(), AllocError>
    requires kind { IsKindUpdate kind.now mode (lists_of before.now) (lists_of after.now) }
    requires uv_modes { after.now.uv_modes ≡ before.now.uv_modes }
    ensures puts { IfOk result (λ _. Puts (kind_part kind.now (before_kind (lists_of before.now) (lists_of after.now))) encoder.old (lists_of after.now, mode) encoder.new) }
    ensures spells { IfOk result (λ _. HasPut encoder.old (spelled_kind kind.now mode (lists_of before.now) (lists_of after.now)) encoder.new) }
{
    match kind {
        FrameKind::Key | FrameKind::IntraOnly => Ok(()),
        FrameKind::Inter(fields) => put_inter_part(encoder, fields, mode, before, after),
    }
}

#[tactic(auto, unfolding(crate::specs::Spelling::spelled_compressed, compressed_header::specs::CompressedHeader::compressed_header, compressed_header::specs::TransformProbs::read_skip_prob), using(bool_lists::proofs::Ways::spells_on, vp9_types::proofs::Binds::writes_bind))]
fn put_compressed(
    encoder: &mut BoolEncoder,
    header: &Header,
    before: &Contexts,
    after: &Contexts,
    modes: Modes,
) -> Result<(), AllocError>
    requires { CanForward header.now (lists_of before.now) (lists_of after.now) modes }
    ensures puts { IfOk result (λ _. Puts (compressed_header header.now (lists_of before.now)) encoder.old (lists_of after.now, modes) encoder.new) }
    ensures spells { IfOk result (λ _. HasPut encoder.old (spelled_compressed header.now (lists_of before.now) (lists_of after.now) modes) encoder.new) }
{
    put_tx_mode(encoder, header.params.quantizer.lossless(), modes.tx_mode)?;
    put_tx_probs(encoder, modes.tx_mode, &before.tx, &after.tx)?;
    put_coefficients(encoder, modes.tx_mode, &before.coef, &after.coef)?;
    put_updates(encoder, &before.skip, &after.skip)?;
    put_kind_part(encoder, &header.kind, modes.reference_mode, before, after)
}

/// The compressed header of a frame that starts from the probabilities `before` and decodes its tiles by those `after`. What
/// can be said in more than one way is said in the shortest: no update is put where a probability of vectors or the
/// coefficients of a size stay. After want of memory nothing is left.
pub fn write_compressed_header(
    alloc: Global,
    header: &Header,
    before: &Contexts,
    after: &Contexts,
    modes: Modes,
) -> Result<Vec<u8>, AllocError>
    requires { CanForward header.now (lists_of before.now) (lists_of after.now) modes }
    ensures read { IfOk result (λ bytes. IsForward header.now before.now bytes.items (Ok (after.now, modes))) }
    ensures some { IfOk result (λ bytes. 1 ≤ length bytes.items) }
    ensures written { IfOk result (λ bytes. IsWrittenHeader header.now (lists_of before.now) (lists_of after.now) modes bytes.items) }
{
    let mut encoder = BoolEncoder::new(alloc);
    put_compressed(&mut encoder, header, before, after, modes)?;
    encoder.finish()
}
