//! The nearest and the near vector.

ghost use Rattle.std.specs.Prelude.{◌≡◌, ◌<◌, ◌∷◌, [], slice_index_or};
ghost use Rattle.block_plan.specs.BlockMvs.{no_vector};
ghost use Rattle.mv_prediction.specs.Vectors.{IsSmallVector};
ghost use Rattle.mv_prediction.specs.Candidates.{other_than};
ghost use Rattle.mv_prediction.specs.SubBlocks.{near_vectors, sub_block_vectors, beside};
ghost use Rattle.mv_prediction.specs.Code.{AreSmall};

use crate::vector::{NO_VECTOR, is_same, usable_precision};
use block_plan::Mv;

/// What a block, or a quarter of one below 8x8, takes by the modes nearest and near.
#[derive(Clone, Copy, Debug, PartialEq, Eq)]
pub struct NearVectors {
    pub nearest: Mv,
    pub near: Mv,
}

/// Those of a block, from its candidates. The nearest is also the best one, to which a block adds differences.
#[tactic(auto, unfolding(crate::specs::SubBlocks::near_vectors))]
pub fn near_vectors(high_precision: bool, candidates: &[Mv; 2]) -> NearVectors
    requires { AreSmall candidates.now }
    ensures is { result ≡ near_vectors high_precision candidates.now }
    ensures nearest { IsSmallVector result.nearest }
    ensures near { IsSmallVector result.near }
{
    NearVectors {
        nearest: usable_precision(high_precision, candidates[0]),
        near: usable_precision(high_precision, candidates[1]),
    }
}

fn other_than(v: Mv, first: Mv, second: Mv) -> Mv
    requires first { IsSmallVector first }
    requires second { IsSmallVector second }
    ensures is { result ≡ other_than v (first ∷ second ∷ []) }
    ensures small { IsSmallVector result }
{
    if !is_same(v, first) {
        first
    } else if !is_same(v, second) {
        second
    } else {
        NO_VECTOR
    }
}

/// The first of the second and the first quarter and of the candidates that isn't the third quarter's.
fn near_of_last(candidates: &[Mv; 2], quarters: &[Mv; 3]) -> Mv
    requires small { AreSmall candidates.now }
    requires quarters { AreSmall quarters.now }
    ensures is { result ≡ other_than (slice_index_or quarters.now 2 no_vector) (slice_index_or quarters.now 1 no_vector ∷ slice_index_or quarters.now 0 no_vector ∷ candidates.now) }
    ensures small { IsSmallVector result }
{
    let nearest = quarters[2];
    if !is_same(nearest, quarters[1]) {
        quarters[1]
    } else if !is_same(nearest, quarters[0]) {
        quarters[0]
    } else {
        other_than(nearest, candidates[0], candidates[1])
    }
}

/// Those of a quarter of a block below 8x8, 0 to 3, from the quarter's candidates and the vectors of those before it.
#[tactic(auto, unfolding(crate::specs::SubBlocks::sub_block_vectors))]
pub fn sub_block_vectors(sub: u8, candidates: &[Mv; 2], quarters: &[Mv; 3]) -> NearVectors
    requires sub { sub < 4 }
    requires small { AreSmall candidates.now }
    requires quarters { AreSmall quarters.now }
    ensures is { result ≡ sub_block_vectors sub candidates.now quarters.now }
    ensures nearest { IsSmallVector result.nearest }
    ensures near { IsSmallVector result.near }
{
    match sub {
        0 => NearVectors {
            nearest: candidates[0],
            near: candidates[1],
        },
        1 | 2 => NearVectors {
            nearest: quarters[0],
            near: other_than(quarters[0], candidates[0], candidates[1]),
        },
        _ => NearVectors {
            nearest: quarters[2],
            near: near_of_last(candidates, quarters),
        },
    }
}
