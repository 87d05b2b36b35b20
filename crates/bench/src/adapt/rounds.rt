//! What is adapted, and its checksum.

use super::counted::drawn_counts;
use backward_adapt::{AdaptKind, InterKind, adapt};
use prob_contexts::{
    CoefProbs, Contexts, Counts, InterProbs, TxProbs, VectorProbs, default_contexts,
};
use std::alloc::{AllocError, Global};

fn with_list(sum: u64, probs: &[u8]) -> u64 {
    let mut sum = sum;
    for p in probs {
        sum = sum.wrapping_mul(31).wrapping_add(u64::from(*p));
    }
    sum
}

fn with_tx(sum: u64, tx: &TxProbs) -> u64 {
    let sum = with_list(sum, &tx.of_8x8);
    let sum = with_list(sum, &tx.of_16x16);
    with_list(sum, &tx.of_32x32)
}

fn with_coef(sum: u64, coef: &CoefProbs) -> u64 {
    let sum = with_list(sum, &coef.of_4x4);
    let sum = with_list(sum, &coef.of_8x8);
    let sum = with_list(sum, &coef.of_16x16);
    with_list(sum, &coef.of_32x32)
}

fn with_inter(sum: u64, inter: &InterProbs) -> u64 {
    let sum = with_list(sum, &inter.modes);
    let sum = with_list(sum, &inter.filters);
    let sum = with_list(sum, &inter.is_inter);
    let sum = with_list(sum, &inter.compound_flag);
    let sum = with_list(sum, &inter.single_references);
    let sum = with_list(sum, &inter.compound_references);
    with_list(sum, &inter.y_modes)
}

fn with_vectors(sum: u64, vectors: &VectorProbs) -> u64 {
    let sum = with_list(sum, &vectors.joints);
    let sum = with_list(sum, &vectors.signs);
    let sum = with_list(sum, &vectors.classes);
    let sum = with_list(sum, &vectors.class0);
    let sum = with_list(sum, &vectors.bits);
    let sum = with_list(sum, &vectors.class0_fractions);
    let sum = with_list(sum, &vectors.fractions);
    let sum = with_list(sum, &vectors.class0_high);
    with_list(sum, &vectors.high)
}

fn checksum(contexts: &Contexts) -> u64 {
    let sum = with_tx(7, &contexts.tx);
    let sum = with_coef(sum, &contexts.coef);
    let sum = with_list(sum, &contexts.skip);
    let sum = with_inter(sum, &contexts.inter);
    let sum = with_list(sum, &contexts.uv_modes);
    let sum = with_list(sum, &contexts.partitions);
    with_vectors(sum, &contexts.vectors)
}

/// The contexts after so many frames, each of which starts from those that the one before it left.
fn adapted_often(counts: &Counts, rounds: u64) -> Contexts {
    let kind = AdaptKind::Inter(InterKind {
        after_key: true,
        high_precision: true,
    });
    let now = default_contexts();
    let mut contexts = now;
    for _ in 0..rounds {
        contexts = adapt(&contexts, &now, counts, &kind);
    }
    contexts
}

/// What is printed for a line.
pub fn describe(alloc: Global, line: &str) -> Result<String, AllocError> {
    let Ok(rounds) = line.parse::<u64>() else {
        return format!(in alloc; "{line}: not a number");
    };
    let counts = drawn_counts(alloc)?;
    let sum = checksum(&adapted_often(&counts, rounds));
    format!(in alloc; "{line}: {sum}")
}
