//! Laws of the definitions, as contracts of functions that do nothing.

ghost use Rattle.std.specs.Prelude.{◌≡◌, ℕ, ◌<◌, ◌≤◌};
ghost use Rattle.vp9_types.specs.Maps.{Map, IsAtMost};
ghost use Rattle.vp9_types.specs.declared.block.InterpFilter.{InterpFilter};
ghost use Rattle.inter_places.specs.declared.axis.Axis.{Axis};
ghost use Rattle.inter_places.specs.Axes.{first_place, last_place};
ghost use Rattle.vp9_tables.specs.Filters.{taps_of};
ghost use Rattle.tap_filter.specs.Filter.{filtered};
ghost use Rattle.inter_predict.specs.InterSamples.{filtered_both_ways};

/// A block of so many rows depends only on the reference's rows from its first place to its last, at every scale.
pub fn rows_suffice()
    ensures { (most rows i j : ℕ) (kind : InterpFilter) (down across : Axis) (m n : Map) → i < rows →
        ((r c : ℕ) → first_place down ≤ r → r ≤ last_place down rows → m r c ≡ n r c) →
        filtered_both_ways most kind down across m i j ≡ filtered_both_ways most kind down across n i j }
{}

/// The taps of phase 0 give the sample itself, so that a pass at phase 0 is a copy.
pub fn phase_zero_copies()
    ensures { (most : ℕ) (kind : InterpFilter) (f : ℕ → ℕ) → f 3 ≤ most → filtered most (taps_of kind 0) f ≡ f 3 }
{}

/// Predicted samples are in the range of the depth.
pub fn samples_stay_in_range()
    ensures { (most : ℕ) (kind : InterpFilter) (down across : Axis) (m : Map) → IsAtMost most (filtered_both_ways most kind down across m) }
{}
