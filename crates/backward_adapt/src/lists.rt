//! A list of probabilities.

ghost use Rattle.std.specs.Prelude.{◌≡◌, ◌+◌, ◌≤◌, ℕ, length};
ghost use Rattle.std.specs.List.{All};
ghost use Rattle.prob_contexts.specs.declared.kind.CountedBool.{CountedBool};
ghost use Rattle.prob_contexts.specs.Kinds.{kind_size};
ghost use Rattle.backward_adapt.specs.Adaptation.{adapted_from, adapted_list};
ghost use Rattle.backward_adapt.specs.Code.{Tells};

use crate::kind::AdaptKind;
use crate::merge::merge_prob;
use prob_contexts::{Counts, ProbKind};

/// What a frame is, and what it counted.
#[derive(Drop)]
pub(crate) struct FrameCounts<'a> {
    pub frame: AdaptKind,
    pub counts: &'a Counts,
}

impl<'a> FrameCounts<'a> {
    /// Adapts probabilities of a kind, from a place of it on, if the frame adapts this kind.
    pub(crate) fn adapt_from(&self, kind: ProbKind, from: u16, saved: &[u8], probs: &mut [u8])
        requires within { from + length saved.now ≤ kind_size kind }
        requires small { from + length saved.now ≤ 1584 }
        requires size { length probs.old ≡ length saved.now }
        requires positive { All (λ p. 1 ≤ p) saved.now }
        requires positive_now { All (λ p. 1 ≤ p) probs.old }
        ensures value { (times : CountedBool → ℕ) → Tells self.now.counts.now times →
            probs.new ≡ adapted_from self.now.frame times kind from saved.now probs.old }
        ensures kept { All (λ p. 1 ≤ p) probs.new }
    {
        let Some(rate) = self.frame.rate_of(kind) else {
            return;
        };
        for i in 0..probs.len() {
            let place = from + i as u16;
            let zeros = self.counts.counter(kind, place, false);
            let ones = self.counts.counter(kind, place, true);
            probs[i] = merge_prob(rate, saved[i], zeros, ones);
        }
    }

    /// Adapts all probabilities of a kind, if the frame adapts this kind.
    pub(crate) fn adapt_list(&self, kind: ProbKind, saved: &[u8], probs: &mut [u8])
        requires within { length saved.now ≤ kind_size kind }
        requires small { length saved.now ≤ 1584 }
        requires size { length probs.old ≡ length saved.now }
        requires positive { All (λ p. 1 ≤ p) saved.now }
        requires positive_now { All (λ p. 1 ≤ p) probs.old }
        ensures value { (times : CountedBool → ℕ) → Tells self.now.counts.now times →
            probs.new ≡ adapted_list self.now.frame times kind saved.now probs.old }
        ensures kept { All (λ p. 1 ≤ p) probs.new }
    {
        self.adapt_from(kind, 0, saved, probs);
    }
}
