ghost use Rattle.std.specs.Prelude.{◌≡◌, ℕ, ◌+◌, ◌*◌, ◌<◌, ◌≤◌, ◌-◌, length, slice_index_or, get_or, [], unsigned_abs, IsTrue, map, reverse, pos};
ghost use Rattle.std.specs.List.{All, list_all, AllByRecursion, range_with_len};
ghost use Rattle.vp9_types.specs.declared.block.InterpFilter.{InterpFilter};
ghost use Rattle.vp9_tables.specs.Filters.{AreTaps, has_small_sums, is_small, taps_of, total, whole_sample};

use crate::data::filters::TAPS;
use vp9_types::InterpFilter;

/// The eight taps of a phase in sixteenths, of which the fourth stands at the sample itself.
pub fn taps(kind: InterpFilter, phase: u8) -> &'static [i16; 8]
    requires { phase < 16 }
    ensures row { result.now ≡ taps_of kind phase }
    ensures size { All (λ t. unsigned_abs t ≤ 128) result.now }
    ensures sums { AreTaps result.now }
{
    row_of(&TAPS, 16 * kind as usize + phase as usize)
}

fn row_of(table: &'static [[i16; 8]], place: usize) -> &'static [i16; 8]
    requires index { place < length table.now }
    requires law { IsTrue (list_all (list_all is_small) table.now) }
    requires sums { IsTrue (list_all has_small_sums table.now) }
    ensures row { result.now ≡ get_or table.now place [] }
    ensures size { All (λ t. unsigned_abs t ≤ 128) result.now }
    ensures sums { AreTaps result.now }
{
    &table[place]
}

/// One of the eight.
pub fn tap(kind: InterpFilter, phase: u8, k: u8) -> i16
    requires phase { phase < 16 }
    requires k { k < 8 }
    ensures { result ≡ slice_index_or (taps_of kind phase) k (pos 0) }
{
    TAPS[16 * kind as usize + phase as usize][k as usize]
}

/// The taps of each phase add up to 128, those of phase 0 are the sample itself, and phases as far from it on both sides
/// have the same taps the other way round.
pub fn taps_are_filters()
    ensures sums { AllByRecursion (λ row. total row ≡ pos 128) TAPS }
    ensures whole { (kind : InterpFilter) → taps_of kind 0 ≡ whole_sample }
    ensures mirrored { (kind : InterpFilter) → map (λ p. taps_of kind (16 - p)) (range_with_len 1 15) ≡ map (λ p. reverse (taps_of kind p)) (range_with_len 1 15) }
{}
