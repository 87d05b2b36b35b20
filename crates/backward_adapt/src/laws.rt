//! Laws of the definitions, as contracts of functions that do nothing.

ghost use Rattle.std.specs.Prelude.{◌≡◌, ◌<◌, ◌+◌, ◌^◌, ℕ, true, false, Some, None, List, ◌++◌, length, count_by};
ghost use Rattle.prob_contexts.specs.declared.kind.CountedBool.{CountedBool};
ghost use Rattle.prob_contexts.specs.declared.kind.ProbKind.{ProbKind};
ghost use Rattle.prob_contexts.specs.Counted.{is_same, times_counted};
ghost use Rattle.prob_contexts.specs.Code.{no_counts, counts_after, counter_of, joined_counts};
ghost use Rattle.prob_contexts.specs.ProbLists.{ContextLists, lists_of};
ghost use Rattle.backward_adapt.specs.declared.kind.AdaptKind.{AdaptKind};
ghost use Rattle.backward_adapt.specs.declared.merge.Rate.{Rate};
ghost use Rattle.backward_adapt.specs.Adaptation.{rate_of, left_by, adapted_prob, adapted_from, adapted_contexts, adaptation};
ghost use Rattle.backward_adapt.specs.Laws.{HasCoefSizes, HasSizes, list_of, prob_at, merge_probs};

use prob_contexts::Contexts;

/// Place by place: a probability that a frame adapts is the saved one, merged with how often its node was left, and any other is that
/// of the frame. One whose node wasn't left, and which the frame didn't change, stays.
pub fn each_probability_is_adapted_alone()
    ensures each { (frame : AdaptKind) (times : CountedBool → ℕ) (saved forward : ContextLists) (kind : ProbKind) (place : ℕ) →
        HasCoefSizes saved → place < length (list_of saved kind) →
        prob_at (adapted_contexts frame times saved forward) kind place
        ≡ adapted_prob (rate_of frame kind) times kind place (prob_at saved kind place) (prob_at forward kind place) }
    ensures uncoded { (frame : AdaptKind) (times : CountedBool → ℕ) (saved forward : ContextLists) (kind : ProbKind) (place : ℕ) →
        HasCoefSizes saved → place < length (list_of saved kind) →
        times (left_by kind place false) + times (left_by kind place true) ≡ 0 →
        prob_at forward kind place ≡ prob_at saved kind place →
        prob_at (adapted_contexts frame times saved forward) kind place ≡ prob_at forward kind place }
{}

/// List by list: what a frame adapts is merged one probability after another, and any other list is that of the frame.
pub fn a_list_is_adapted_in_order()
    ensures merged { (frame : AdaptKind) (times : CountedBool → ℕ) (kind : ProbKind) (place : ℕ) (saved forward : List ℕ) (rate : Rate) →
        rate_of frame kind ≡ Some rate →
        adapted_from frame times kind place saved forward ≡ merge_probs rate times kind place saved }
    ensures kept { (frame : AdaptKind) (times : CountedBool → ℕ) (kind : ProbKind) (place : ℕ) (saved forward : List ℕ) →
        rate_of frame kind ≡ None → length forward ≡ length saved →
        adapted_from frame times kind place saved forward ≡ forward }
{}

/// Adaptation is by how often each bool was counted, which for fewer than 2^64 bools is how often it is among them; and the counts of
/// the parts of a frame, added up, are those of the frame.
pub fn adaptation_is_by_its_bools()
    ensures times { (bools : List CountedBool) (b : CountedBool) → length bools < 2 ^ 64 → times_counted bools b ≡ count_by (is_same b) bools }
    ensures parts { (frame : AdaptKind) (bools more : List CountedBool) (saved forward : ContextLists) → HasCoefSizes saved → HasSizes saved →
        adapted_contexts frame (counter_of (joined_counts (counts_after no_counts bools) (counts_after no_counts more))) saved forward
        ≡ adaptation frame (bools ++ more) saved forward }
{}

/// The lists of all contexts have the sizes that the laws ask for.
pub fn contexts_have_sizes(contexts: Contexts)
    ensures coef { HasCoefSizes (lists_of contexts) }
    ensures others { HasSizes (lists_of contexts) }
{}
