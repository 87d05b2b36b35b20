//! Levels that are known to give coefficients that fit, as nearly all do: they are multiplied in 32 bits, and none is tested.

ghost use Rattle.std.specs.Prelude.{◌≡◌, ℕ, ◌<◌, ◌≤◌, ℤ, ◌*ℤ◌, pos, unsigned_abs, length, All};
ghost use Rattle.std.specs.Bool.{OnTrue};
ghost use Rattle.inverse_transforms.specs.Flow.{at};
ghost use Rattle.inverse_transforms.specs.Ranges.{IsSmall, limit_of};
ghost use Rattle.residue_transforms.specs.Code.{AllFit};
ghost use Rattle.residue_transforms.specs.Residue.{scaled, quantiser, coefficient, coefficients};

use crate::group::put_four;
use crate::quant::{Quant, step_of};
use inverse_transforms::limit_of;
use vp9_types::{Depth, TxSize};

/// The bits of all magnitudes.
#[inline(always)]
pub fn whole_of(levels: &[i32]) -> u32
    ensures { All (λ x. unsigned_abs x ≤ result) levels.now }
{
    let mut whole = 0;
    for place in 0..levels.len() {
        let level = levels[place];
        whole = whole | level.unsigned_abs();
    }
    whole
}

/// A product below this becomes a coefficient that fits.
#[inline(always)]
fn product_limit(tx: TxSize, depth: Depth) -> u64
    ensures { (x : ℤ) → unsigned_abs x < result → unsigned_abs (scaled tx x) < limit_of depth }
{
    let limit = limit_of(depth) as u64;
    match tx {
        TxSize::T32x32 => 2 * limit,
        TxSize::T4x4 | TxSize::T8x8 | TxSize::T16x16 => limit,
    }
}

/// Whether all levels of at most such a magnitude give coefficients that fit.
#[inline(always)]
pub fn all_fit(whole: u32, tx: TxSize, quant: Quant) -> bool
    ensures { OnTrue result (AllFit quant tx whole) }
{
    let step = quant.dc.max(quant.ac);
    (whole as u64) * (step as u64) < product_limit(tx, quant.depth)
}

#[inline(always)]
fn product(level: i32, step: u16) -> i32
    requires { IsSmall (level *ℤ pos step) }
    ensures value { result ≡ (level *ℤ pos step) }
    ensures size { IsSmall result }
{
    level * step as i32
}

/// The magnitude halved at 32x32.
#[inline(always)]
fn scaled(x: i32, tx: TxSize) -> i32
    requires { IsSmall x }
    ensures { result ≡ scaled tx x }
{
    match tx {
        TxSize::T32x32 => x / 2,
        TxSize::T4x4 | TxSize::T8x8 | TxSize::T16x16 => x,
    }
}

#[inline(always)]
#[tactic(auto, unfolding(crate::specs::Residue::coefficient))]
fn small_coefficient(level: i32, place: usize, tx: TxSize, quant: Quant) -> i32
    requires { IsSmall (level *ℤ pos (quantiser quant place)) }
    ensures { result ≡ coefficient quant tx place level }
{
    scaled(product(level, step_of(quant, place)), tx)
}

/// The coefficients of the first four levels.
#[inline(always)]
fn first_four(levels: &[i32], tx: TxSize, quant: Quant) -> [i32; 4]
    requires some { 4 ≤ length levels.now }
    requires first { IsSmall (at levels.now 0 *ℤ pos quant.dc) }
    requires others { All (λ x. IsSmall (x *ℤ pos quant.ac)) levels.now }
    ensures { (k : ℕ) → k < 4 → at result k ≡ coefficient quant tx k (at levels.now k) }
{
    let mut values = [0; 4];
    for place in 0..4usize {
        values[place] = small_coefficient(levels[place], place, tx, quant);
    }
    values
}

/// Makes coefficients of levels whose products are small: all by the step of the others, and then the first four anew, of
/// which the first has its own.
#[inline(always)]
pub fn scale(block: &mut [i32], tx: TxSize, quant: Quant)
    requires some { 4 ≤ length block.old }
    requires first { IsSmall (at block.old 0 *ℤ pos quant.dc) }
    requires others { All (λ x. IsSmall (x *ℤ pos quant.ac)) block.old }
    ensures { block.new ≡ coefficients quant tx block.old }
{
    let first = first_four(block, tx, quant);
    for place in 0..block.len() {
        block[place] = scaled(product(block[place], quant.ac), tx);
    }
    put_four(block, 0, &first);
}
