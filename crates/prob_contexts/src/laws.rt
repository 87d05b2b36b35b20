//! Laws of the definitions, as contracts of functions that do nothing.

ghost use Rattle.std.specs.Prelude.{◌≡◌, ℕ, ◌+◌, ◌-◌, ◌^◌, ◌<◌, ◌≤◌, List, [], ◌∷◌, ◌++◌, length, slice_index};
ghost use Rattle.prob_contexts.specs.declared.kind.CountedBool.{CountedBool};
ghost use Rattle.prob_contexts.specs.Code.{StandFor, no_counts, with_bool, counts_after, joined_counts, counter_of};
ghost use Rattle.prob_contexts.specs.Counted.{most_counted, IsCounted, times_counted};
ghost use Rattle.std.specs.List.{AllByRecursion};

/// The counters of these bools tell how often each was counted.
pub fn counters_tell_how_often()
    ensures { (bools : List CountedBool) (b : CountedBool) → IsCounted b → counter_of (counts_after no_counts bools) b ≡ times_counted bools b }
{}

/// Counts stand for the list of the bools that were counted, if they are fewer than 2^64: each counter is the number of
/// its bools.
pub fn counts_stand_for_their_bools()
    ensures none { StandFor no_counts [] }
    ensures one_more { (counts : List ℕ) (bools : List CountedBool) (b : CountedBool) → StandFor counts bools → IsCounted b →
        length bools < 2 ^ 64 - 1 → StandFor (with_bool counts b) (bools ++ b ∷ []) }
    ensures all { (counts : List ℕ) (bools more : List CountedBool) → StandFor counts bools → AllByRecursion IsCounted more →
        length bools + length more < 2 ^ 64 → StandFor (counts_after counts more) (bools ++ more) }
    ensures joined { (counts others : List ℕ) (bools more : List CountedBool) → StandFor counts bools → StandFor others more →
        length bools + length more < 2 ^ 64 → StandFor (joined_counts counts others) (bools ++ more) }
{}

/// Adding the counts of more bools is counting these, however many they are.
pub fn added_counts_are_counted()
    ensures parts { (bools more : List CountedBool) →
        joined_counts (counts_after no_counts bools) (counts_after no_counts more) ≡ counts_after no_counts (bools ++ more) }
    ensures more { (counts : List ℕ) (more : List CountedBool) → length counts ≡ 3790 → ((k : ℕ) → slice_index counts k ≤ most_counted) →
        joined_counts counts (counts_after no_counts more) ≡ counts_after counts more }
{}
