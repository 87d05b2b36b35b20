//! Vectors, component by component.

ghost use Rattle.std.specs.Prelude.{◌≡◌, ◌+◌, ◌≤◌, IfOk, false};
ghost use Rattle.bool_encoder.specs.WrittenBools.{Puts};
ghost use Rattle.bool_lists.specs.BoolLists.{HasPut};
ghost use Rattle.compressed_writer.specs.Spelling.{spelled_component_updates, spelled_fractions, spelled_high_updates, spelled_precise, spelled_vector_updates, spelled_vector_lists};
ghost use Rattle.prob_contexts.specs.ProbLists.{vector_lists};
ghost use Rattle.compressed_header.specs.VectorProbs.{joint_probs, component_probs, fraction_probs, high_precision_probs, precise_probs, mv_probs};
ghost use Rattle.compressed_writer.specs.Code.{vectors_at};
ghost use Rattle.compressed_writer.specs.CodedUpdates.{HasOddUpdates, AreVectorUpdates};

use crate::update::{put_component_updates, put_vector_updates};
use bool_encoder::BoolEncoder;
use prob_contexts::VectorProbs;
use std::alloc::AllocError;

#[tactic(auto, unfolding(compressed_header::specs::VectorProbs::joint_probs), using(vp9_types::proofs::Binds::writes_bind))]
fn put_joints(
    encoder: &mut BoolEncoder,
    before: &VectorProbs,
    after: &VectorProbs,
) -> Result<(), AllocError>
    requires { HasOddUpdates (vector_lists before.now) (vector_lists after.now) }
    ensures puts { IfOk result (λ _. Puts (joint_probs (vector_lists before.now)) encoder.old
        (vectors_at 0 0 0 (vector_lists before.now) (vector_lists after.now)) encoder.new) }
    ensures spells { IfOk result (λ _. HasPut encoder.old (spelled_vector_updates (vector_lists before.now).joints (vector_lists after.now).joints) encoder.new) }
{
    put_vector_updates(encoder, &before.joints, &after.joints)
}

#[tactic(auto, unfolding(crate::specs::Spelling::spelled_component_updates, compressed_header::specs::VectorProbs::component_probs), using(bool_lists::proofs::Ways::spells_on, vp9_types::proofs::Binds::writes_bind))]
fn put_component(
    encoder: &mut BoolEncoder,
    i: usize,
    before: &VectorProbs,
    after: &VectorProbs,
) -> Result<(), AllocError>
    requires component { i ≤ 1 }
    requires can { HasOddUpdates (vector_lists before.now) (vector_lists after.now) }
    ensures puts { IfOk result (λ _. Puts (component_probs i (vectors_at i 0 0 (vector_lists before.now) (vector_lists after.now))) encoder.old
        (vectors_at (i + 1) 0 0 (vector_lists before.now) (vector_lists after.now)) encoder.new) }
    ensures spells { IfOk result (λ _. HasPut encoder.old (spelled_component_updates i (vector_lists before.now) (vector_lists after.now)) encoder.new) }
{
    put_component_updates(encoder, i, i, 1, &before.signs, &after.signs)?;
    put_component_updates(encoder, i, 10 * i, 10, &before.classes, &after.classes)?;
    put_component_updates(encoder, i, i, 1, &before.class0, &after.class0)?;
    put_component_updates(encoder, i, 10 * i, 10, &before.bits, &after.bits)
}

#[tactic(auto, unfolding(crate::specs::Spelling::spelled_fractions, compressed_header::specs::VectorProbs::fraction_probs), using(bool_lists::proofs::Ways::spells_on, vp9_types::proofs::Binds::writes_bind))]
fn put_fractions(
    encoder: &mut BoolEncoder,
    i: usize,
    before: &VectorProbs,
    after: &VectorProbs,
) -> Result<(), AllocError>
    requires component { i ≤ 1 }
    requires can { HasOddUpdates (vector_lists before.now) (vector_lists after.now) }
    ensures puts { IfOk result (λ _. Puts (fraction_probs i (vectors_at 2 i 0 (vector_lists before.now) (vector_lists after.now))) encoder.old
        (vectors_at 2 (i + 1) 0 (vector_lists before.now) (vector_lists after.now)) encoder.new) }
    ensures spells { IfOk result (λ _. HasPut encoder.old (spelled_fractions i (vector_lists before.now) (vector_lists after.now)) encoder.new) }
{
    put_component_updates(
        encoder,
        i,
        6 * i,
        6,
        &before.class0_fractions,
        &after.class0_fractions,
    )?;
    put_component_updates(encoder, i, 3 * i, 3, &before.fractions, &after.fractions)
}

#[tactic(auto, unfolding(crate::specs::Spelling::spelled_high_updates, compressed_header::specs::VectorProbs::high_precision_probs), using(bool_lists::proofs::Ways::spells_on, vp9_types::proofs::Binds::writes_bind))]
fn put_high_precision(
    encoder: &mut BoolEncoder,
    i: usize,
    before: &VectorProbs,
    after: &VectorProbs,
) -> Result<(), AllocError>
    requires component { i ≤ 1 }
    requires can { HasOddUpdates (vector_lists before.now) (vector_lists after.now) }
    ensures puts { IfOk result (λ _. Puts (high_precision_probs i (vectors_at 2 2 i (vector_lists before.now) (vector_lists after.now))) encoder.old
        (vectors_at 2 2 (i + 1) (vector_lists before.now) (vector_lists after.now)) encoder.new) }
    ensures spells { IfOk result (λ _. HasPut encoder.old (spelled_high_updates i (vector_lists before.now) (vector_lists after.now)) encoder.new) }
{
    put_component_updates(encoder, i, i, 1, &before.class0_high, &after.class0_high)?;
    put_component_updates(encoder, i, i, 1, &before.high, &after.high)
}

#[tactic(auto, unfolding(crate::specs::Spelling::spelled_precise, compressed_header::specs::VectorProbs::precise_probs), using(bool_lists::proofs::Ways::spells_on, bool_lists::proofs::Ways::spells_none, vp9_types::proofs::Binds::writes_bind))]
fn put_precise(
    encoder: &mut BoolEncoder,
    precise: bool,
    before: &VectorProbs,
    after: &VectorProbs,
) -> Result<(), AllocError>
    requires { AreVectorUpdates precise (vector_lists before.now) (vector_lists after.now) }
    ensures puts { IfOk result (λ _. Puts (precise_probs precise (vectors_at 2 2 0 (vector_lists before.now) (vector_lists after.now))) encoder.old
        (vector_lists after.now) encoder.new) }
    ensures spells { IfOk result (λ _. HasPut encoder.old (spelled_precise precise (vector_lists before.now) (vector_lists after.now)) encoder.new) }
{
    if precise {
        put_high_precision(encoder, 0, before, after)?;
        put_high_precision(encoder, 1, before, after)?;
    }
    Ok(())
}

/// Puts `mv_probs` (6.3.16 of the standard).
#[tactic(auto, unfolding(crate::specs::Spelling::spelled_vector_lists, compressed_header::specs::VectorProbs::mv_probs), using(bool_lists::proofs::Ways::spells_on, vp9_types::proofs::Binds::writes_bind))]
pub fn put_vectors(
    encoder: &mut BoolEncoder,
    precise: bool,
    before: &VectorProbs,
    after: &VectorProbs,
) -> Result<(), AllocError>
    requires { AreVectorUpdates precise (vector_lists before.now) (vector_lists after.now) }
    ensures puts { IfOk result (λ _. Puts (mv_probs precise (vector_lists before.now)) encoder.old (vector_lists after.now) encoder.new) }
    ensures spells { IfOk result (λ _. HasPut encoder.old (spelled_vector_lists precise (vector_lists before.now) (vector_lists after.now)) encoder.new) }
{
    put_joints(encoder, before, after)?;
    put_component(encoder, 0, before, after)?;
    put_component(encoder, 1, before, after)?;
    put_fractions(encoder, 0, before, after)?;
    put_fractions(encoder, 1, before, after)?;
    put_precise(encoder, precise, before, after)
}
