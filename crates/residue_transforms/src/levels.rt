//! From levels to residue.

ghost use Rattle.std.specs.Prelude.{◌≡◌, ◌+◌, ◌*◌, ◌^◌, ◌≤◌, ◌<◌, length, unsigned_abs, All, IsTrue, OnOk};
ghost use Rattle.inverse_transforms.specs.Flow.{Gives};
ghost use Rattle.inverse_transforms.specs.Ranges.{IsSmall};
ghost use Rattle.vp9_tables.specs.Scans.{area};
ghost use Rattle.vp9_types.specs.Sizes.{side};
ghost use Rattle.vp9_types.specs.declared.block.TxSize.TheVariants.{T8x8};
ghost use Rattle.residue_transforms.specs.Residue.{IsLevel, has_size, log2_of, rounding_bits, kind_of_rows, kind_of_columns, reconstructed, residue};
ghost use Rattle.residue_transforms.specs.First.{IsFirstAlone, AreCosines};

use crate::dequantise::dequantise;
use crate::first::{flatten, is_flat};
use crate::kind::{kind_of_columns, kind_of_rows, log2_of, rounding_bits};
use crate::quant::Quant;
use crate::scale::whole_of;
use crate::turn::{Pass, turn_rows};
use vp9_types::{Rule, TxSize, TxType};

#[inline(always)]
fn pass_of_rows(tx: TxSize, kind: TxType, quant: Quant) -> Pass
    ensures kind { result.kind ≡ kind_of_rows quant.lossless tx kind }
    ensures log2 { result.log2 ≡ log2_of tx }
    ensures depth { result.depth ≡ quant.depth }
    ensures bits { result.bits ≡ 0 }
    ensures size { IsTrue (has_size result.kind result.log2) }
    ensures side { 2 ^ result.log2 ≡ side tx }
    ensures least { 2 ≤ result.log2 }
    ensures most { result.log2 ≤ 5 }
{
    let log2 = log2_of(tx);
    Pass {
        kind: kind_of_rows(quant.lossless, tx, kind),
        log2,
        depth: quant.depth,
        bits: 0,
    }
}

#[inline(always)]
fn pass_of_columns(tx: TxSize, kind: TxType, quant: Quant) -> Pass
    ensures kind { result.kind ≡ kind_of_columns quant.lossless tx kind }
    ensures log2 { result.log2 ≡ log2_of tx }
    ensures depth { result.depth ≡ quant.depth }
    ensures bits { result.bits ≡ rounding_bits quant.lossless tx }
    ensures few { result.bits ≤ 6 }
    ensures size { IsTrue (has_size result.kind result.log2) }
    ensures side { 2 ^ result.log2 ≡ side tx }
    ensures least { 2 ≤ result.log2 }
    ensures most { result.log2 ≤ 5 }
{
    Pass {
        kind: kind_of_columns(quant.lossless, tx, kind),
        log2: log2_of(tx),
        depth: quant.depth,
        bits: rounding_bits(quant.lossless, tx),
    }
}

/// Rows, then columns, by way of a block of the same size.
#[inline(always)]
fn turn_twice(
    block: &mut [i32],
    middle: &mut [i32],
    tx: TxSize,
    kind: TxType,
    quant: Quant,
) -> Result<(), Rule>
    requires size { length block.old ≡ area tx }
    requires middle { length middle.old ≡ area tx }
    requires values { All IsSmall block.old }
    ensures { Gives (reconstructed quant tx kind block.old) result block.new }
{
    turn_rows(block, middle, pass_of_rows(tx, kind, quant))?;
    turn_rows(middle, block, pass_of_columns(tx, kind, quant))
}

#[inline(always)]
fn reconstruct(block: &mut [i32], tx: TxSize, kind: TxType, quant: Quant) -> Result<(), Rule>
    requires size { length block.old ≡ area tx }
    requires values { All IsSmall block.old }
    ensures { Gives (reconstructed quant tx kind block.old) result block.new }
{
    match tx {
        TxSize::T4x4 => turn_twice(block, &mut [0; 16], tx, kind, quant),
        TxSize::T8x8 => turn_twice(block, &mut [0; 64], tx, kind, quant),
        TxSize::T16x16 => turn_twice(block, &mut [0; 256], tx, kind, quant),
        TxSize::T32x32 => turn_twice(block, &mut [0; 1024], tx, kind, quant),
    }
}

/// The residue of a first level alone.
#[inline(always)]
fn flat_residue(block: &mut [i32], tx: TxSize, kind: TxType, quant: Quant) -> Result<(), Rule>
    requires size { length block.old ≡ area tx }
    requires levels { All IsLevel block.old }
    requires alone { IsFirstAlone block.old }
    requires cosines { AreCosines quant.lossless tx kind }
    ensures gives { Gives (residue quant tx kind block.old) result block.new }
    ensures small { OnOk result (All (λ x. unsigned_abs x < 2 ^ 24) block.new) }
{
    flatten(block, tx, quant)
}

/// The residue of any levels of at most such a magnitude.
#[inline(always)]
#[tactic(auto, unfolding(crate::specs::Residue::residue))]
fn whole_residue(
    block: &mut [i32],
    whole: u32,
    tx: TxSize,
    kind: TxType,
    quant: Quant,
) -> Result<(), Rule>
    requires size { length block.old ≡ area tx }
    requires levels { All IsLevel block.old }
    requires whole { All (λ x. unsigned_abs x ≤ whole) block.old }
    ensures gives { Gives (residue quant tx kind block.old) result block.new }
    ensures small { OnOk result (All (λ x. unsigned_abs x < 2 ^ 24) block.new) }
{
    dequantise(block, whole, tx, quant)?;
    reconstruct(block, tx, kind, quant)
}

/// Looks at the levels once, and again only where the first has all bits that any magnitude has, as it has if it is alone.
#[inline(always)]
fn sized_residue(block: &mut [i32], tx: TxSize, kind: TxType, quant: Quant) -> Result<(), Rule>
    requires size { length block.old ≡ area tx }
    requires levels { All IsLevel block.old }
    ensures gives { Gives (residue quant tx kind block.old) result block.new }
    ensures small { OnOk result (All (λ x. unsigned_abs x < 2 ^ 24) block.new) }
{
    let whole = whole_of(block);
    if block[0].unsigned_abs() == whole && is_flat(block, tx, kind, quant) {
        return flat_residue(block, tx, kind, quant);
    }
    whole_residue(block, whole, tx, kind, quant)
}

/// The residue of a block of 8x8, by loops of known length.
#[inline(never)]
fn middle_residue(block: &mut [i32], kind: TxType, quant: Quant) -> Result<(), Rule>
    requires size { length block.old ≡ 64 }
    requires levels { All IsLevel block.old }
    ensures gives { Gives (residue quant T8x8 kind block.old) result block.new }
    ensures small { OnOk result (All (λ x. unsigned_abs x < 2 ^ 24) block.new) }
{
    sized_residue(&mut block[..64], TxSize::T8x8, kind, quant)
}

/// The residue of a larger block.
#[inline(never)]
fn large_residue(block: &mut [i32], tx: TxSize, kind: TxType, quant: Quant) -> Result<(), Rule>
    requires size { length block.old ≡ area tx }
    requires levels { All IsLevel block.old }
    ensures gives { Gives (residue quant tx kind block.old) result block.new }
    ensures small { OnOk result (All (λ x. unsigned_abs x < 2 ^ 24) block.new) }
{
    sized_residue(block, tx, kind, quant)
}

/// Makes the residue of a block's levels, both row by row. A value that doesn't fit before the transforms is
/// `CoefRange`, and one in them `TransformRange`; the block is then of no use.
#[inline(always)]
pub fn residue(block: &mut [i32], tx: TxSize, kind: TxType, quant: Quant) -> Result<(), Rule>
    requires size { length block.old ≡ area tx }
    requires levels { All IsLevel block.old }
    ensures gives { Gives (residue quant tx kind block.old) result block.new }
    ensures small { OnOk result (All (λ x. unsigned_abs x < 2 ^ 24) block.new) }
{
    // Most blocks are the smallest, and their loops are of known length where the caller knows the size.
    match tx {
        TxSize::T4x4 => sized_residue(block, tx, kind, quant),
        TxSize::T8x8 => middle_residue(block, kind, quant),
        TxSize::T16x16 | TxSize::T32x32 => large_residue(block, tx, kind, quant),
    }
}
