//! Vectors.

ghost use Rattle.std.specs.Prelude.{◌≡◌, ◌≤◌};
ghost use Rattle.bool_decoder.specs.Bools.{Reads};
ghost use Rattle.bool_decoder.specs.Held.{window_of};
ghost use Rattle.prob_contexts.specs.ProbLists.{vector_lists};
ghost use Rattle.compressed_header.specs.VectorProbs.{joint_probs, component_probs, fraction_probs, high_precision_probs, precise_probs, mv_probs};

use crate::update::{read_vector_range, read_vector_updates};
use bool_decoder::BoolDecoder;
use prob_contexts::VectorProbs;

#[tactic(auto, unfolding(crate::specs::VectorProbs::component_probs), using(vp9_types::proofs::Runs::run_bind))]
fn read_component(decoder: &mut BoolDecoder<'_>, i: usize, vectors: &mut VectorProbs)
    requires { i ≤ 1 }
    ensures { Reads (component_probs i (vector_lists vectors.old)) (window_of decoder.old) (vector_lists vectors.new) (window_of decoder.new) }
{
    read_vector_range(decoder, i, 1, &mut vectors.signs);
    read_vector_range(decoder, 10 * i, 10, &mut vectors.classes);
    read_vector_range(decoder, i, 1, &mut vectors.class0);
    read_vector_range(decoder, 10 * i, 10, &mut vectors.bits);
}

#[tactic(auto, unfolding(crate::specs::VectorProbs::fraction_probs), using(vp9_types::proofs::Runs::run_bind))]
fn read_fractions(decoder: &mut BoolDecoder<'_>, i: usize, vectors: &mut VectorProbs)
    requires { i ≤ 1 }
    ensures { Reads (fraction_probs i (vector_lists vectors.old)) (window_of decoder.old) (vector_lists vectors.new) (window_of decoder.new) }
{
    read_vector_range(decoder, 6 * i, 6, &mut vectors.class0_fractions);
    read_vector_range(decoder, 3 * i, 3, &mut vectors.fractions);
}

#[tactic(auto, unfolding(crate::specs::VectorProbs::high_precision_probs), using(vp9_types::proofs::Runs::run_bind))]
fn read_high_precision(decoder: &mut BoolDecoder<'_>, i: usize, vectors: &mut VectorProbs)
    requires { i ≤ 1 }
    ensures { Reads (high_precision_probs i (vector_lists vectors.old)) (window_of decoder.old) (vector_lists vectors.new) (window_of decoder.new) }
{
    read_vector_range(decoder, i, 1, &mut vectors.class0_high);
    read_vector_range(decoder, i, 1, &mut vectors.high);
}

#[tactic(auto, unfolding(crate::specs::VectorProbs::joint_probs), using(vp9_types::proofs::Runs::run_bind))]
fn read_joints(decoder: &mut BoolDecoder<'_>, vectors: &mut VectorProbs)
    ensures { Reads (joint_probs (vector_lists vectors.old)) (window_of decoder.old) (vector_lists vectors.new) (window_of decoder.new) }
{
    read_vector_updates(decoder, &mut vectors.joints);
}

#[tactic(auto, unfolding(crate::specs::VectorProbs::precise_probs), using(vp9_types::proofs::Runs::run_bind))]
fn read_precise(decoder: &mut BoolDecoder<'_>, precise: bool, vectors: &mut VectorProbs)
    ensures { Reads (precise_probs precise (vector_lists vectors.old)) (window_of decoder.old) (vector_lists vectors.new) (window_of decoder.new) }
{
    if precise {
        read_high_precision(decoder, 0, vectors);
        read_high_precision(decoder, 1, vectors);
    }
}

#[tactic(auto, unfolding(crate::specs::VectorProbs::mv_probs), using(vp9_types::proofs::Runs::run_bind))]
pub fn read_vectors(decoder: &mut BoolDecoder<'_>, precise: bool, vectors: &mut VectorProbs)
    ensures { Reads (mv_probs precise (vector_lists vectors.old)) (window_of decoder.old) (vector_lists vectors.new) (window_of decoder.new) }
{
    read_joints(decoder, vectors);
    read_component(decoder, 0, vectors);
    read_component(decoder, 1, vectors);
    read_fractions(decoder, 0, vectors);
    read_fractions(decoder, 1, vectors);
    read_precise(decoder, precise, vectors);
}
