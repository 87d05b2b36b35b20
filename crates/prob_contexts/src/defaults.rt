//! The probabilities that a decoder starts with.

ghost use Rattle.std.specs.Prelude.{◌≡◌, ◌≤◌, ◌+◌, ◌*◌, ℕ, take, drop, length, IsTrue};
ghost use Rattle.std.specs.List.{All, list_all};
ghost use Rattle.vp9_tables.specs.Coefficients.{is_probability};
ghost use Rattle.prob_contexts.specs.Defaults.{default_lists, default_coef, coefs_of_size};
ghost use Rattle.prob_contexts.specs.ProbLists.{lists_of, tx_lists, coef_lists, inter_lists, vector_lists};

use crate::contexts::Contexts;
use crate::groups::{CoefProbs, InterProbs, TxProbs, VectorProbs};
use vp9_tables::data::defaults::{
    PROB_COEF, PROB_COMP_FLAG, PROB_COMP_REF, PROB_FILTER, PROB_INTER_MODE, PROB_IS_INTER,
    PROB_MV_BITS, PROB_MV_CLASS, PROB_MV_CLASS0, PROB_MV_CLASS0_FR, PROB_MV_CLASS0_HP, PROB_MV_FR,
    PROB_MV_HP, PROB_MV_JOINT, PROB_MV_SIGN, PROB_PARTITION, PROB_SINGLE_REF, PROB_SKIP, PROB_TX8,
    PROB_TX16, PROB_TX32, PROB_UV_MODE, PROB_Y_MODE,
};

fn tx_defaults() -> TxProbs
    ensures { tx_lists result ≡ default_lists.tx }
{
    TxProbs {
        of_8x8: PROB_TX8,
        of_16x16: PROB_TX16,
        of_32x32: PROB_TX32,
    }
}

/// A quarter of the table of coefficients.
fn coef_quarter(table: &[u8], size: usize) -> [u8; 396]
    requires within { 396 * size + 396 ≤ length table.now }
    requires law { IsTrue (list_all is_probability table.now) }
    ensures value { result ≡ take 396 (drop (396 * size) table.now) }
    ensures positive { All (λ p. 1 ≤ p) result }
{
    let mut quarter = [1; 396];
    quarter.copy_from_slice(&table[396 * size..396 * size + 396]);
    quarter
}

fn coef_defaults() -> CoefProbs
    ensures { coef_lists result ≡ default_coef }
{
    CoefProbs {
        of_4x4: coef_quarter(&PROB_COEF, 0),
        of_8x8: coef_quarter(&PROB_COEF, 1),
        of_16x16: coef_quarter(&PROB_COEF, 2),
        of_32x32: coef_quarter(&PROB_COEF, 3),
    }
}

fn inter_defaults() -> InterProbs
    ensures { inter_lists result ≡ default_lists.inter }
{
    InterProbs {
        modes: PROB_INTER_MODE,
        filters: PROB_FILTER,
        is_inter: PROB_IS_INTER,
        compound_flag: PROB_COMP_FLAG,
        single_references: PROB_SINGLE_REF,
        compound_references: PROB_COMP_REF,
        y_modes: PROB_Y_MODE,
    }
}

fn vector_defaults() -> VectorProbs
    ensures { vector_lists result ≡ default_lists.vectors }
{
    VectorProbs {
        joints: PROB_MV_JOINT,
        signs: PROB_MV_SIGN,
        classes: PROB_MV_CLASS,
        class0: PROB_MV_CLASS0,
        bits: PROB_MV_BITS,
        class0_fractions: PROB_MV_CLASS0_FR,
        fractions: PROB_MV_FR,
        class0_high: PROB_MV_CLASS0_HP,
        high: PROB_MV_HP,
    }
}

/// What a decoder starts with, and a frame that loses the past (7.2 of the standard).
pub fn default_contexts() -> Contexts
    ensures { lists_of result ≡ default_lists }
{
    Contexts {
        tx: tx_defaults(),
        coef: coef_defaults(),
        skip: PROB_SKIP,
        inter: inter_defaults(),
        partitions: PROB_PARTITION,
        vectors: vector_defaults(),
        uv_modes: PROB_UV_MODE,
    }
}
