//! Which transforms a block has.

ghost use Rattle.std.specs.Prelude.{◌≡◌, ℕ, ◌+◌, ◌^◌, ◌≤◌, ◌<◌, length, pos, All, IsTrue};
ghost use Rattle.std.specs.Bool.{OnTrue};
ghost use Rattle.inverse_transforms.specs.Flow.{at, zeros};
ghost use Rattle.inverse_transforms.specs.LaneColumns.{GivesColumns, column};
ghost use Rattle.inverse_transforms.specs.Ranges.{IsSmall, limit_of};
ghost use Rattle.vp9_types.specs.Sizes.{side};
ghost use Rattle.residue_transforms.specs.Residue.{transform, has_size, kind_of_rows, kind_of_columns, rounding_bits, log2_of};

use inverse_transforms::{Lanes, adst_columns, dct_columns, wht_columns};
use vp9_types::{Depth, Rule, TxSize, TxType};

/// A transform of rows or columns.
#[derive(Clone, Copy, Debug, PartialEq, Eq)]
pub enum Kind {
    Cosines,
    Sines,
    /// The WHT of rows, whose values are shifted first.
    LiftsOfRows,
    LiftsOfColumns,
}

#[inline(always)]
pub fn kind_of_rows(lossless: bool, tx: TxSize, kind: TxType) -> Kind
    ensures value { result ≡ kind_of_rows lossless tx kind }
    ensures size { IsTrue (has_size result (log2_of tx)) }
{
    match (lossless, tx, kind) {
        (true, TxSize::T4x4, _) => Kind::LiftsOfRows,
        (_, TxSize::T32x32, _) => Kind::Cosines,
        (_, _, TxType::DctDct | TxType::AdstDct) => Kind::Cosines,
        (_, _, TxType::DctAdst | TxType::AdstAdst) => Kind::Sines,
    }
}

#[inline(always)]
pub fn kind_of_columns(lossless: bool, tx: TxSize, kind: TxType) -> Kind
    ensures value { result ≡ kind_of_columns lossless tx kind }
    ensures size { IsTrue (has_size result (log2_of tx)) }
{
    match (lossless, tx, kind) {
        (true, TxSize::T4x4, _) => Kind::LiftsOfColumns,
        (_, TxSize::T32x32, _) => Kind::Cosines,
        (_, _, TxType::DctDct | TxType::DctAdst) => Kind::Cosines,
        (_, _, TxType::AdstDct | TxType::AdstAdst) => Kind::Sines,
    }
}

/// By how many bits the residue is rounded.
#[inline(always)]
pub fn rounding_bits(lossless: bool, tx: TxSize) -> u8
    ensures value { result ≡ rounding_bits lossless tx }
    ensures most { result ≤ 6 }
{
    match (lossless, tx) {
        (true, TxSize::T4x4) => 0,
        (_, TxSize::T4x4) => 4,
        (_, TxSize::T8x8) => 5,
        (_, TxSize::T16x16 | TxSize::T32x32) => 6,
    }
}

#[inline(always)]
pub fn log2_of(tx: TxSize) -> u8
    ensures value { result ≡ log2_of tx }
    ensures side { 2 ^ result ≡ side tx }
{
    match tx {
        TxSize::T4x4 => 2,
        TxSize::T8x8 => 3,
        TxSize::T16x16 => 4,
        TxSize::T32x32 => 5,
    }
}

fn is_zero_row(row: &Lanes) -> bool
    ensures { OnTrue result ((j : ℕ) → at row.now j ≡ pos 0) }
{
    row.iter().all(|x| *x == 0)
}

fn is_zero(t: &[Lanes]) -> bool
    ensures { OnTrue result ((j : ℕ) → column j t.now ≡ zeros (length t.now)) }
{
    for row in t {
        if !is_zero_row(row) {
            return false;
        }
    }
    true
}

/// The transforms of eight columns.
#[tactic(auto, unfolding(crate::specs::Residue::transform))]
#[inline(always)]
pub fn transform_columns(kind: Kind, log2: u8, t: &mut [Lanes], depth: Depth) -> Result<(), Rule>
    requires kind { IsTrue (has_size kind log2) }
    requires size { length t.old ≡ 2 ^ log2 }
    requires small { All (All IsSmall) t.old }
    ensures gives { GivesColumns (transform kind (limit_of depth) log2) result t.old t.new }
    ensures small { All (All IsSmall) t.new }
{
    match kind {
        Kind::Cosines => dct_columns(log2, t, depth),
        Kind::Sines => adst_columns(log2, t, depth),
        Kind::LiftsOfRows => wht_columns(t, 2, depth),
        Kind::LiftsOfColumns => wht_columns(t, 0, depth),
    }
}

/// The same, without work where all is zero. Few rows are a whole block, which isn't looked at.
pub fn transform_nonzero(kind: Kind, log2: u8, t: &mut [Lanes], depth: Depth) -> Result<(), Rule>
    requires kind { IsTrue (has_size kind log2) }
    requires size { length t.old ≡ 2 ^ log2 }
    requires small { All (All IsSmall) t.old }
    ensures gives { GivesColumns (transform kind (limit_of depth) log2) result t.old t.new }
    ensures small { All (All IsSmall) t.new }
{
    if 8 < t.len() && is_zero(t) {
        return Ok(());
    }
    transform_columns(kind, log2, t, depth)
}
