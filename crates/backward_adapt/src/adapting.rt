//! All probabilities of a frame.

ghost use Rattle.std.specs.Prelude.{◌≡◌, ℕ, List};
ghost use Rattle.prob_contexts.specs.declared.kind.CountedBool.{CountedBool};
ghost use Rattle.prob_contexts.specs.Code.{no_counts, counts_after, counter_of};
ghost use Rattle.prob_contexts.specs.ProbLists.{lists_of, tx_lists, coef_lists, inter_lists, vector_lists};
ghost use Rattle.backward_adapt.specs.Adaptation.{adapted_coefs, adapted_tx, adapted_inter, adapted_vectors, adapted_contexts, adaptation};
ghost use Rattle.backward_adapt.specs.Code.{Tells};

use crate::kind::AdaptKind;
use crate::lists::FrameCounts;
use prob_contexts::{CoefProbs, Contexts, Counts, InterProbs, ProbKind, TxProbs, VectorProbs};

fn adapt_coefs(counted: &FrameCounts, saved: &CoefProbs, coef: &mut CoefProbs)
    ensures { (times : CountedBool → ℕ) → Tells counted.now.counts.now times →
        coef_lists coef.new ≡ adapted_coefs counted.now.frame times (coef_lists saved.now) (coef_lists coef.old) }
{
    counted.adapt_from(ProbKind::Coef, 0, &saved.of_4x4, &mut coef.of_4x4);
    counted.adapt_from(ProbKind::Coef, 396, &saved.of_8x8, &mut coef.of_8x8);
    counted.adapt_from(ProbKind::Coef, 2 * 396, &saved.of_16x16, &mut coef.of_16x16);
    counted.adapt_from(ProbKind::Coef, 3 * 396, &saved.of_32x32, &mut coef.of_32x32);
}

fn adapt_tx(counted: &FrameCounts, saved: &TxProbs, tx: &mut TxProbs)
    ensures { (times : CountedBool → ℕ) → Tells counted.now.counts.now times →
        tx_lists tx.new ≡ adapted_tx counted.now.frame times (tx_lists saved.now) (tx_lists tx.old) }
{
    counted.adapt_list(ProbKind::Tx8x8, &saved.of_8x8, &mut tx.of_8x8);
    counted.adapt_list(ProbKind::Tx16x16, &saved.of_16x16, &mut tx.of_16x16);
    counted.adapt_list(ProbKind::Tx32x32, &saved.of_32x32, &mut tx.of_32x32);
}

fn adapt_inter(counted: &FrameCounts, saved: &InterProbs, inter: &mut InterProbs)
    ensures { (times : CountedBool → ℕ) → Tells counted.now.counts.now times →
        inter_lists inter.new ≡ adapted_inter counted.now.frame times (inter_lists saved.now) (inter_lists inter.old) }
{
    counted.adapt_list(ProbKind::InterMode, &saved.modes, &mut inter.modes);
    counted.adapt_list(ProbKind::Filter, &saved.filters, &mut inter.filters);
    counted.adapt_list(ProbKind::IsInter, &saved.is_inter, &mut inter.is_inter);
    counted.adapt_list(
        ProbKind::CompoundFlag,
        &saved.compound_flag,
        &mut inter.compound_flag,
    );
    counted.adapt_list(
        ProbKind::SingleReference,
        &saved.single_references,
        &mut inter.single_references,
    );
    counted.adapt_list(
        ProbKind::CompoundReference,
        &saved.compound_references,
        &mut inter.compound_references,
    );
    counted.adapt_list(ProbKind::YMode, &saved.y_modes, &mut inter.y_modes);
}

fn adapt_vectors(counted: &FrameCounts, saved: &VectorProbs, vectors: &mut VectorProbs)
    ensures { (times : CountedBool → ℕ) → Tells counted.now.counts.now times →
        vector_lists vectors.new ≡ adapted_vectors counted.now.frame times (vector_lists saved.now) (vector_lists vectors.old) }
{
    counted.adapt_list(ProbKind::VectorJoint, &saved.joints, &mut vectors.joints);
    counted.adapt_list(ProbKind::VectorSign, &saved.signs, &mut vectors.signs);
    counted.adapt_list(ProbKind::VectorClass, &saved.classes, &mut vectors.classes);
    counted.adapt_list(ProbKind::VectorClass0, &saved.class0, &mut vectors.class0);
    counted.adapt_list(ProbKind::VectorBit, &saved.bits, &mut vectors.bits);
    counted.adapt_list(
        ProbKind::VectorClass0Fraction,
        &saved.class0_fractions,
        &mut vectors.class0_fractions,
    );
    counted.adapt_list(
        ProbKind::VectorFraction,
        &saved.fractions,
        &mut vectors.fractions,
    );
    counted.adapt_list(
        ProbKind::VectorClass0High,
        &saved.class0_high,
        &mut vectors.class0_high,
    );
    counted.adapt_list(ProbKind::VectorHigh, &saved.high, &mut vectors.high);
}

fn adapt_contexts(counted: &FrameCounts, saved: &Contexts, contexts: &mut Contexts)
    ensures { (times : CountedBool → ℕ) → Tells counted.now.counts.now times →
        lists_of contexts.new ≡ adapted_contexts counted.now.frame times (lists_of saved.now) (lists_of contexts.old) }
{
    adapt_tx(counted, &saved.tx, &mut contexts.tx);
    adapt_coefs(counted, &saved.coef, &mut contexts.coef);
    counted.adapt_list(ProbKind::Skip, &saved.skip, &mut contexts.skip);
    adapt_inter(counted, &saved.inter, &mut contexts.inter);
    counted.adapt_list(
        ProbKind::Partition,
        &saved.partitions,
        &mut contexts.partitions,
    );
    adapt_vectors(counted, &saved.vectors, &mut contexts.vectors);
    counted.adapt_list(ProbKind::UvMode, &saved.uv_modes, &mut contexts.uv_modes);
}

/// The contexts that a frame leaves, if it is neither error resilient nor frame parallel: `pre` are those saved before it,
/// from which it started, `now` those that it was decoded with.
pub fn adapt(pre: &Contexts, now: &Contexts, counts: &Counts, kind: &AdaptKind) -> Contexts
    ensures bools { (bools : List CountedBool) → counts.now ≡ counts_after no_counts bools →
        lists_of result ≡ adaptation kind.now bools (lists_of pre.now) (lists_of now.now) }
    ensures counters { lists_of result ≡ adapted_contexts kind.now (counter_of counts.now) (lists_of pre.now) (lists_of now.now) }
{
    let counted = FrameCounts {
        frame: *kind,
        counts,
    };
    let mut contexts = *now;
    adapt_contexts(&counted, pre, &mut contexts);
    contexts
}
