ghost use Rattle.std.specs.Prelude.{◌≡◌, ℕ, ◌+◌, ◌*◌, ◌<◌, ◌≤◌, ◌^◌, ◌∷◌, [], map, slice_index, length, slice_range, IsTrue, ◌&&◌, nat_le, nat_lt};
ghost use Rattle.std.specs.List.{list_all};
ghost use Rattle.vp9_types.specs.declared.shape.Depth.{Depth};
ghost use Rattle.vp9_tables.specs.Numbers.{depth_number};
ghost use Rattle.vp9_tables.specs.QuantiserTables.{ends};
ghost use Rattle.vp9_tables.specs.Orders.{NeverFalls};

use crate::data::quantisers::{AC_Q, DC_Q};
use vp9_types::Depth;

/// The quantiser step of the first coefficient.
pub fn dc_q(depth: Depth, index: u8) -> u16
    ensures entry { result ≡ slice_index DC_Q (256 * depth_number depth + index) }
    ensures least { 4 ≤ result }
    ensures most { result < 2 ^ 15 }
{
    step(&DC_Q, 256 * depth as usize + index as usize)
}

/// The quantiser step of the other coefficients.
pub fn ac_q(depth: Depth, index: u8) -> u16
    ensures entry { result ≡ slice_index AC_Q (256 * depth_number depth + index) }
    ensures least { 4 ≤ result }
    ensures most { result < 2 ^ 15 }
{
    step(&AC_Q, 256 * depth as usize + index as usize)
}

fn step(table: &[u16], place: usize) -> u16
    requires index { place < length table.now }
    requires law { IsTrue (list_all (λ q. nat_le 4 q && nat_lt q 32768) table.now) }
    ensures entry { result ≡ slice_index table.now place }
    ensures least { 4 ≤ result }
    ensures most { result < 2 ^ 15 }
{
    table[place]
}

/// At each depth the steps begin at 4, never fall with the index, and end as the standard's table does.
pub fn quantisers_never_fall()
    ensures begin { slice_range DC_Q 0 4 ≡ 4 ∷ 8 ∷ 8 ∷ 9 ∷ [] }
    ensures dc_ends { map (slice_index DC_Q) ends ≡ 4 ∷ 1336 ∷ 4 ∷ 5347 ∷ 4 ∷ 21387 ∷ [] }
    ensures ac_ends { map (slice_index AC_Q) ends ≡ 4 ∷ 1828 ∷ 4 ∷ 7312 ∷ 4 ∷ 29247 ∷ [] }
    ensures dc { (depth : Depth) → NeverFalls (slice_range DC_Q (256 * depth_number depth) (256 * depth_number depth + 256)) }
    ensures ac { (depth : Depth) → NeverFalls (slice_range AC_Q (256 * depth_number depth) (256 * depth_number depth + 256)) }
{}
