//! The first two vectors of a list that differ.

ghost use Rattle.std.specs.Prelude.{◌≡◌, ◌∷◌, []};
ghost use Rattle.mv_prediction.specs.Vectors.{IsSmallVector};
ghost use Rattle.mv_prediction.specs.Code.{with_vector, with_vectors, vectors_in, is_full, IsSmallFound};

use crate::vector::{NO_VECTOR, is_same};
use block_plan::Mv;

/// What is found of them so far.
#[derive(Clone, Copy)]
pub(crate) enum Found {
    Nothing,
    One(Mv),
    Two(Mv, Mv),
}

impl Found {
    /// With the next vector of the list.
    pub(crate) fn with(self, v: Mv) -> Found
        requires found { IsSmallFound self }
        requires small { IsSmallVector v }
        ensures is { result ≡ with_vector self v }
        ensures small { IsSmallFound result }
    {
        match self {
            Found::Nothing => Found::One(v),
            Found::One(u) => {
                if is_same(u, v) {
                    Found::One(u)
                } else {
                    Found::Two(u, v)
                }
            }
            Found::Two(u, w) => Found::Two(u, w),
        }
    }

    /// Whether no further vector counts.
    pub(crate) fn is_full(self) -> bool
        ensures { result ≡ is_full self }
    {
        matches!(self, Found::Two(..))
    }

    /// Both, with 0 for what isn't found.
    pub(crate) fn vectors(self) -> [Mv; 2]
        ensures { result ≡ vectors_in self }
    {
        match self {
            Found::Nothing => [NO_VECTOR, NO_VECTOR],
            Found::One(u) => [u, NO_VECTOR],
            Found::Two(u, w) => [u, w],
        }
    }
}
