//! Groups of rows, as lanes.

ghost use Rattle.std.specs.Prelude.{◌≡◌, ℕ, ◌+◌, ◌-◌, ◌*◌, ◌/◌, ◌^◌, ◌<◌, ◌≤◌, length, map, pos, unsigned_abs, All, if◌then◌else◌};
ghost use Rattle.vp9_types.specs.Maps.{is_within};
ghost use Rattle.inverse_transforms.specs.Flow.{at};
ghost use Rattle.inverse_transforms.specs.LaneColumns.{column};
ghost use Rattle.inverse_transforms.specs.Ranges.{IsSmall};
ghost use Rattle.residue_transforms.specs.SquareBlocks.{row, col, HasPiece};
ghost use Rattle.residue_transforms.specs.Residue.{round};

use inverse_transforms::Lanes;

/// A row of a block of rows of n.
pub fn row_at(block: &[i32], n: usize, i: usize) -> &[i32]
    requires { i * n + n ≤ length block.now }
    ensures { result.now ≡ row n i block.now }
{
    let rest = &block[i * n..];
    rest.split_at(n).0
}

/// Half of what so many bits count.
#[inline(always)]
pub fn half_of(bits: u8) -> i32
    requires { bits ≤ 6 }
    ensures value { result ≡ pos (2 ^ bits / 2) }
    ensures size { unsigned_abs result ≤ 32 }
{
    match bits {
        0 => 0,
        1 => 1,
        2 => 2,
        3 => 4,
        4 => 8,
        5 => 16,
        6 => 32,
        _ => unreachable!(),
    }
}

/// Round2 by a number of bits, of which half is added.
#[inline(always)]
#[tactic(auto, unfolding(crate::specs::Residue::round))]
pub fn rounded(x: i32, half: i32, bits: u8) -> i32
    requires x { IsSmall x }
    requires half { half ≡ pos (2 ^ bits / 2) }
    requires size { unsigned_abs half ≤ 32 }
    requires bits { bits ≤ 6 }
    ensures { result ≡ round bits x }
{
    (x + half) >> bits
}

#[inline(always)]
fn rounded_eight(lanes: &Lanes, half: i32, bits: u8) -> Lanes
    requires small { All IsSmall lanes.now }
    requires half { half ≡ pos (2 ^ bits / 2) }
    requires size { unsigned_abs half ≤ 32 }
    requires bits { bits ≤ 6 }
    ensures { (j : ℕ) → j < 8 → at result j ≡ round bits (at lanes.now j) }
{
    let mut values = *lanes;
    for j in 0..8usize {
        values[j] = rounded(lanes[j], half, bits);
    }
    values
}

#[inline(always)]
fn rounded_four(lanes: &Lanes, half: i32, bits: u8) -> [i32; 4]
    requires small { All IsSmall lanes.now }
    requires half { half ≡ pos (2 ^ bits / 2) }
    requires size { unsigned_abs half ≤ 32 }
    requires bits { bits ≤ 6 }
    ensures { (j : ℕ) → j < 4 → at result j ≡ round bits (at lanes.now j) }
{
    let mut values = [0; 4];
    for j in 0..4usize {
        values[j] = rounded(lanes[j], half, bits);
    }
    values
}

/// Puts eight values from a place on.
#[inline(always)]
fn put_eight(to: &mut [i32], place: usize, values: &Lanes)
    requires { place + 8 ≤ length to.old }
    ensures { HasPiece place 8 (λ j. at values.now j) to.old to.new }
{
    for j in 0..8usize {
        to[place + j] = values[j];
    }
}

/// Puts four values from a place on.
#[inline(always)]
pub fn put_four(to: &mut [i32], place: usize, values: &[i32; 4])
    requires { place + 4 ≤ length to.old }
    ensures { HasPiece place 4 (λ j. at values.now j) to.old to.new }
{
    for j in 0..4usize {
        to[place + j] = values[j];
    }
}

/// Puts rows of lanes into eight columns of a block, rounded.
pub fn store(to: &mut [i32], t: &[Lanes], first: usize, bits: u8)
    requires size { length to.old ≡ length t.now * length t.now }
    requires rows { length t.now ≤ 32 }
    requires columns { first + 8 ≤ length t.now }
    requires bits { bits ≤ 6 }
    requires small { All (All IsSmall) t.now }
    ensures { (j : ℕ) → j < length t.now → col (length t.now) j to.new ≡
        (if is_within first 8 j then map (round bits) (column (j - first) t.now) else col (length t.now) j to.old) }
{
    let n = t.len();
    let half = half_of(bits);
    for k in 0..n {
        put_eight(to, k * n + first, &rounded_eight(&t[k], half, bits));
    }
}

/// Puts the first four lanes of rows into a block of 4x4, rounded.
#[inline(always)]
pub fn store_four(to: &mut [i32], t: &[Lanes; 4], bits: u8)
    requires size { length to.old ≡ 16 }
    requires bits { bits ≤ 6 }
    requires small { All (All IsSmall) t.now }
    ensures { (j : ℕ) → j < 4 → col 4 j to.new ≡
        (if is_within 0 4 j then map (round bits) (column (j - 0) t.now) else col 4 j to.old) }
{
    let half = half_of(bits);
    for k in 0..4usize {
        put_four(to, k * 4, &rounded_four(&t[k], half, bits));
    }
}
