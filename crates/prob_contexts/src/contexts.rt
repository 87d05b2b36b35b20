ghost use Rattle.std.specs.Prelude.{◌≡◌, ◌≤◌, ℕ};
ghost use Rattle.std.specs.List.{All};

use crate::groups::{CoefProbs, InterProbs, TxProbs, VectorProbs};
use vp9_types::TxSize;

/// All probabilities of a frame: transform sizes, coefficients, skipped blocks (3 contexts), those of inter frames,
/// partitions (16 contexts of 3 nodes), vectors, and intra modes of chroma by that of luma (10 of 9 nodes).
#[derive(Clone, Copy, Debug, PartialEq, Eq)]
pub struct Contexts {
    pub tx: TxProbs,
    pub coef: CoefProbs,
    pub skip: [u8; 3],
    pub inter: InterProbs,
    pub partitions: [u8; 48],
    pub vectors: VectorProbs,
    pub uv_modes: [u8; 90],
    pub ghost positive_skip: { All (λ p. 1 ≤ p) skip },
    pub ghost positive_partitions: { All (λ p. 1 ≤ p) partitions },
    pub ghost positive_uv_modes: { All (λ p. 1 ≤ p) uv_modes },
}

impl CoefProbs {
    ghost use Rattle.prob_contexts.specs.ProbLists.{coef_of, coef_lists};

    /// Those of a transform size.
    #[inline(always)]
    pub fn of(&self, size: TxSize) -> &[u8; 396]
        ensures value { result.now ≡ coef_of (coef_lists self.now) size }
        ensures positive { All (λ p. 1 ≤ p) result.now }
    {
        match size {
            TxSize::T4x4 => &self.of_4x4,
            TxSize::T8x8 => &self.of_8x8,
            TxSize::T16x16 => &self.of_16x16,
            TxSize::T32x32 => &self.of_32x32,
        }
    }
}
