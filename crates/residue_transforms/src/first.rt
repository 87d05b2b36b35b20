//! A first coefficient alone: a DCT both ways makes one value of it, everywhere.

ghost use Rattle.std.specs.Prelude.{◌≡◌, ◌*ℤ◌, ◌^◌, ◌<◌, ◌≤◌, pos, unsigned_abs, length, All};
ghost use Rattle.std.specs.Bool.{OnTrue};
ghost use Rattle.inverse_transforms.specs.Flow.{at};
ghost use Rattle.inverse_transforms.specs.Ranges.{IsSmall};
ghost use Rattle.residue_transforms.specs.declared.kind.Kind.TheVariants.{Cosines};
ghost use Rattle.residue_transforms.specs.Residue.{IsLevel, coefficient, rounding_bits, round};
ghost use Rattle.residue_transforms.specs.First.{rooted, IsFirstAlone, AreCosines, Flattens};

use crate::dequantise::coefficient;
use crate::group::{half_of, rounded};
use crate::kind::{Kind, kind_of_columns, kind_of_rows, rounding_bits};
use crate::quant::Quant;
use vp9_types::{Rule, TxSize, TxType};

/// Whether all values but the first are 0. All are looked at: so it is vector code.
#[inline(always)]
fn is_first_alone(block: &[i32]) -> bool
    ensures { OnTrue result (IsFirstAlone block.now) }
{
    let mut all = true;
    for place in 1..block.len() {
        let here = block[place] == 0;
        all = all & here;
    }
    all
}

#[inline(always)]
fn is_cosines(kind: Kind) -> bool
    ensures { OnTrue result (kind ≡ Cosines) }
{
    match kind {
        Kind::Cosines => true,
        Kind::Sines | Kind::LiftsOfRows | Kind::LiftsOfColumns => false,
    }
}

#[inline(always)]
fn are_cosines(tx: TxSize, kind: TxType, quant: Quant) -> bool
    ensures { OnTrue result (AreCosines quant.lossless tx kind) }
{
    let rows = is_cosines(kind_of_rows(quant.lossless, tx, kind));
    let columns = is_cosines(kind_of_columns(quant.lossless, tx, kind));
    rows & columns
}

/// Whether the residue is one value everywhere.
#[inline(always)]
pub fn is_flat(block: &[i32], tx: TxSize, kind: TxType, quant: Quant) -> bool
    ensures alone { OnTrue result (IsFirstAlone block.now) }
    ensures cosines { OnTrue result (AreCosines quant.lossless tx kind) }
{
    are_cosines(tx, kind, quant) && is_first_alone(block)
}

#[inline(always)]
fn product(x: i32) -> i64
    requires { IsSmall x }
    ensures value { result ≡ (x *ℤ pos 11585) }
    ensures size { unsigned_abs result ≤ 2 ^ 40 }
{
    x as i64 * 11585
}

/// Divided by the root of 2.
#[inline(always)]
#[tactic(auto, unfolding(crate::specs::First::rooted, inverse_transforms::specs::Ranges::round14))]
fn by_root(x: i32) -> i32
    requires { IsSmall x }
    ensures value { result ≡ rooted x }
    ensures small { IsSmall result }
{
    let wide = product(x);
    ((wide + 8192) >> 14) as i32
}

#[inline(always)]
fn flat_value(first: i32, bits: u8) -> i32
    requires small { IsSmall first }
    requires bits { bits ≤ 6 }
    ensures { result ≡ round bits (rooted (rooted first)) }
{
    rounded(by_root(by_root(first)), half_of(bits), bits)
}

/// Makes the residue of a first level alone.
#[inline(always)]
pub fn flatten(block: &mut [i32], tx: TxSize, quant: Quant) -> Result<(), Rule>
    requires some { 0 < length block.old }
    requires levels { All IsLevel block.old }
    ensures { Flattens quant tx block.old result block.new }
{
    let first = coefficient(block[0], 0, tx, quant)?;
    block.fill(flat_value(first, rounding_bits(quant.lossless, tx)));
    Ok(())
}
