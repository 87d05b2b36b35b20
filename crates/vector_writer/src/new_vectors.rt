//! Vectors of the mode new.

ghost use Rattle.std.specs.Prelude.{◌≡◌, ◌&&◌, IfOk};
ghost use Rattle.prob_contexts.specs.ProbLists.{vector_lists};
ghost use Rattle.bool_encoder.specs.CountedBools.{PutsValue};
ghost use Rattle.mv_prediction.specs.Vectors.{IsSmallVector, is_short_vector};
ghost use Rattle.mv_syntax.specs.Differences.{added, in_range_or_rule, new_vector};
ghost use Rattle.vector_writer.specs.VectorFits.{CanDiffer};

use crate::differences::put_mv;
use block_plan::Mv;
use bool_encoder::BoolEncoder;
use mv_prediction::is_short_vector;
use mv_syntax::{added, in_range_or_rule};
use prob_contexts::VectorProbs;
use std::alloc::AllocError;
use vp9_types::Rule;

/// Puts a vector of the mode new by its difference from the best one, and answers the vector, or the rule that it breaks.
/// Either way the difference is put.
#[tactic(auto, unfolding(mv_syntax::specs::Differences::new_vector), using(bool_encoder::proofs::CountedPuts::valued_in_order, bool_encoder::proofs::CountedPuts::valued_settle, vp9_types::proofs::Binds::writes_bind))]
pub fn put_new_vector(
    encoder: &mut BoolEncoder,
    probs: &VectorProbs,
    high_precision: bool,
    best: Mv,
    difference: Mv,
) -> Result<Result<Mv, Rule>, AllocError>
    requires small { IsSmallVector best }
    requires can { CanDiffer (high_precision && is_short_vector best) difference }
    ensures put { IfOk result (λ v. PutsValue (new_vector (vector_lists probs.now) high_precision best) encoder.old v encoder.new) }
    ensures is { IfOk result (λ v. v ≡ in_range_or_rule (added best difference)) }
    ensures small { IfOk result (λ v. IfOk v IsSmallVector) }
{
    let precise = high_precision && is_short_vector(best);
    put_mv(encoder, probs, precise, difference)?;
    Ok(in_range_or_rule(added(best, difference)))
}
