//! Probabilities in groups. Each list goes context by context, and node by node within one; each probability is 1 to
//! 255.

ghost use Rattle.std.specs.Prelude.{◌≤◌, ℕ};
ghost use Rattle.std.specs.List.{All};

/// Of the transform sizes, by the greatest that a block may have: 2 contexts of 1, 2 and 3 nodes.
#[derive(Clone, Copy, Debug, PartialEq, Eq)]
pub struct TxProbs {
    pub of_8x8: [u8; 2],
    pub of_16x16: [u8; 4],
    pub of_32x32: [u8; 6],
    pub ghost positive_8x8: { All (λ p. 1 ≤ p) of_8x8 },
    pub ghost positive_16x16: { All (λ p. 1 ≤ p) of_16x16 },
    pub ghost positive_32x32: { All (λ p. 1 ≤ p) of_32x32 },
}

/// Of coefficients, by transform size: luma and chroma, intra and inter blocks, 6 bands, of which the first has 3
/// contexts and each other 6, and 3 nodes.
#[derive(Clone, Copy, Debug, PartialEq, Eq)]
pub struct CoefProbs {
    pub of_4x4: [u8; 396],
    pub of_8x8: [u8; 396],
    pub of_16x16: [u8; 396],
    pub of_32x32: [u8; 396],
    pub ghost positive_4x4: { All (λ p. 1 ≤ p) of_4x4 },
    pub ghost positive_8x8: { All (λ p. 1 ≤ p) of_8x8 },
    pub ghost positive_16x16: { All (λ p. 1 ≤ p) of_16x16 },
    pub ghost positive_32x32: { All (λ p. 1 ≤ p) of_32x32 },
}

/// Of what inter frames have besides vectors: inter modes (7 contexts of 3 nodes), filters (4 of 2), whether a block is
/// inter (4), whether it is compound (5), single references (5 of 2), compound references (5), intra modes of luma by the
/// group of the block's size (4 of 9).
#[derive(Clone, Copy, Debug, PartialEq, Eq)]
pub struct InterProbs {
    pub modes: [u8; 21],
    pub filters: [u8; 8],
    pub is_inter: [u8; 4],
    pub compound_flag: [u8; 5],
    pub single_references: [u8; 10],
    pub compound_references: [u8; 5],
    pub y_modes: [u8; 36],
    pub ghost positive_modes: { All (λ p. 1 ≤ p) modes },
    pub ghost positive_filters: { All (λ p. 1 ≤ p) filters },
    pub ghost positive_is_inter: { All (λ p. 1 ≤ p) is_inter },
    pub ghost positive_compound_flag: { All (λ p. 1 ≤ p) compound_flag },
    pub ghost positive_single_references: { All (λ p. 1 ≤ p) single_references },
    pub ghost positive_compound_references: { All (λ p. 1 ≤ p) compound_references },
    pub ghost positive_y_modes: { All (λ p. 1 ≤ p) y_modes },
}

/// Of vectors: the joint's 3 nodes, and component by component, the row's first, the sign, the class (10 nodes), the bit
/// of class 0, the 10 bits of the others, the fraction (3 nodes, for each value of the bit in class 0), and the bit of
/// high precision.
#[derive(Clone, Copy, Debug, PartialEq, Eq)]
pub struct VectorProbs {
    pub joints: [u8; 3],
    pub signs: [u8; 2],
    pub classes: [u8; 20],
    pub class0: [u8; 2],
    pub bits: [u8; 20],
    pub class0_fractions: [u8; 12],
    pub fractions: [u8; 6],
    pub class0_high: [u8; 2],
    pub high: [u8; 2],
    pub ghost positive_joints: { All (λ p. 1 ≤ p) joints },
    pub ghost positive_signs: { All (λ p. 1 ≤ p) signs },
    pub ghost positive_classes: { All (λ p. 1 ≤ p) classes },
    pub ghost positive_class0: { All (λ p. 1 ≤ p) class0 },
    pub ghost positive_bits: { All (λ p. 1 ≤ p) bits },
    pub ghost positive_class0_fractions: { All (λ p. 1 ≤ p) class0_fractions },
    pub ghost positive_fractions: { All (λ p. 1 ≤ p) fractions },
    pub ghost positive_class0_high: { All (λ p. 1 ≤ p) class0_high },
    pub ghost positive_high: { All (λ p. 1 ≤ p) high },
}
