//! From levels to coefficients.

ghost use Rattle.std.specs.Prelude.{◌≡◌, ◌+◌, ◌*◌, ◌^◌, ◌≤◌, ◌*ℤ◌, pos, unsigned_abs, length, All};
ghost use Rattle.inverse_transforms.specs.Ranges.{limit_of};
ghost use Rattle.vp9_tables.specs.Scans.{area};
ghost use Rattle.residue_transforms.specs.Residue.{IsLevel, scaled, coefficient, Fitting, Dequantises};

use crate::quant::{Quant, step_of};
use crate::scale::{all_fit, scale};
use inverse_transforms::limit_of;
use vp9_types::{Depth, Rule, TxSize};

#[inline(always)]
fn product(level: i32, step: u16) -> i64
    requires { IsLevel level }
    ensures value { result ≡ (level *ℤ pos step) }
    ensures size { unsigned_abs result ≤ 2 ^ 40 }
{
    level as i64 * step as i64
}

/// The magnitude halved at 32x32.
#[inline(always)]
fn scaled(x: i64, tx: TxSize) -> i64
    requires { unsigned_abs x ≤ 2 ^ 40 }
    ensures value { result ≡ scaled tx x }
    ensures size { unsigned_abs result ≤ 2 ^ 40 }
{
    match tx {
        TxSize::T32x32 => x / 2,
        TxSize::T4x4 | TxSize::T8x8 | TxSize::T16x16 => x,
    }
}

/// The same value, if it fits.
#[inline(always)]
fn fitting(x: i64, depth: Depth) -> Result<i32, Rule>
    requires { unsigned_abs x ≤ 2 ^ 40 }
    ensures { Fitting (limit_of depth) x result }
{
    let limit = limit_of(depth) as i64;
    if x < -limit || limit <= x {
        return Err(Rule::CoefRange);
    }
    Ok(x as i32)
}

/// What a level becomes.
#[inline(always)]
#[tactic(auto, unfolding(crate::specs::Residue::coefficient))]
pub fn coefficient(level: i32, place: usize, tx: TxSize, quant: Quant) -> Result<i32, Rule>
    requires { IsLevel level }
    ensures { Fitting (limit_of quant.depth) (coefficient quant tx place level) result }
{
    fitting(
        scaled(product(level, step_of(quant, place)), tx),
        quant.depth,
    )
}

/// The coefficients of any levels, in their places.
#[inline(never)]
fn dequantise_any(block: &mut [i32], tx: TxSize, quant: Quant) -> Result<(), Rule>
    requires { All IsLevel block.old }
    ensures { Dequantises quant tx block.old result block.new }
{
    for place in 0..block.len() {
        block[place] = coefficient(block[place], place, tx, quant)?;
    }
    Ok(())
}

/// The coefficients of levels of at most such a magnitude, in their places.
#[inline(always)]
pub fn dequantise(block: &mut [i32], whole: u32, tx: TxSize, quant: Quant) -> Result<(), Rule>
    requires size { length block.old ≡ area tx }
    requires levels { All IsLevel block.old }
    requires whole { All (λ x. unsigned_abs x ≤ whole) block.old }
    ensures { Dequantises quant tx block.old result block.new }
{
    if all_fit(whole, tx, quant) {
        scale(block, tx, quant);
        return Ok(());
    }
    dequantise_any(block, tx, quant)
}
