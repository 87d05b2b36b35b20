//! Blocks whose rows become columns.

ghost use Rattle.std.specs.Prelude.{◌≡◌, ℕ, ◌+◌, ◌*◌, ◌/◌, ◌%◌, ◌^◌, ◌<◌, ◌≤◌, length, All, IsTrue};
ghost use Rattle.inverse_transforms.specs.Flow.{Gives};
ghost use Rattle.inverse_transforms.specs.Ranges.{IsSmall, limit_of};
ghost use Rattle.residue_transforms.specs.SquareBlocks.{each_row_turned, AreTurned, TurnsGroup};
ghost use Rattle.residue_transforms.specs.Residue.{has_size, rounded_transform};

use crate::cross::{load, load_four};
use crate::group::{store, store_four};
use crate::kind::{Kind, transform_columns, transform_nonzero};
use crate::repeats::{is_repeated, repeat_columns};
use inverse_transforms::Lanes;
use vp9_types::{Depth, Rule};

/// What is made of each row: a transform of `2 ^ log2` values, and a rounding.
#[derive(Clone, Copy, Debug)]
pub struct Pass {
    pub kind: Kind,
    pub log2: u8,
    pub depth: Depth,
    pub bits: u8,
}

/// Turns eight rows by rows of lanes.
#[inline(always)]
fn turn_by(
    t: &mut [Lanes],
    from: &[i32],
    to: &mut [i32],
    first: usize,
    pass: Pass,
) -> Result<(), Rule>
    requires kind { IsTrue (has_size pass.kind pass.log2) }
    requires side { length t.old ≡ 2 ^ pass.log2 }
    requires fours { length t.old % 4 ≡ 0 }
    requires most { length t.old ≤ 32 }
    requires from_size { length from.now ≡ length t.old * length t.old }
    requires to_size { length to.old ≡ length t.old * length t.old }
    requires columns { first + 8 ≤ length t.old }
    requires bits { pass.bits ≤ 6 }
    requires values { All IsSmall from.now }
    ensures { TurnsGroup (rounded_transform pass.kind (limit_of pass.depth) pass.log2 pass.bits) (length t.old) first 8 from.now result to.old to.new }
{
    load(t, from, first);
    transform_nonzero(pass.kind, pass.log2, t, pass.depth)?;
    store(to, t, first, pass.bits);
    Ok(())
}

/// Turns a block of 4x4.
#[inline(always)]
fn turn_four(from: &[i32], to: &mut [i32], pass: Pass) -> Result<(), Rule>
    requires kind { IsTrue (has_size pass.kind pass.log2) }
    requires side { 4 ≡ 2 ^ pass.log2 }
    requires from_size { length from.now ≡ 16 }
    requires to_size { length to.old ≡ 16 }
    requires bits { pass.bits ≤ 6 }
    requires values { All IsSmall from.now }
    ensures { TurnsGroup (rounded_transform pass.kind (limit_of pass.depth) pass.log2 pass.bits) 4 0 4 from.now result to.old to.new }
{
    let mut t = [[0; 8]; 4];
    load_four(&mut t, from);
    transform_columns(pass.kind, pass.log2, &mut t, pass.depth)?;
    store_four(to, &t, pass.bits);
    Ok(())
}

/// Turns a block of 8x8.
#[inline(never)]
fn turn_eight(from: &[i32], to: &mut [i32], pass: Pass) -> Result<(), Rule>
    requires kind { IsTrue (has_size pass.kind pass.log2) }
    requires side { 8 ≡ 2 ^ pass.log2 }
    requires from_size { length from.now ≡ 64 }
    requires to_size { length to.old ≡ 64 }
    requires bits { pass.bits ≤ 6 }
    requires values { All IsSmall from.now }
    ensures { TurnsGroup (rounded_transform pass.kind (limit_of pass.depth) pass.log2 pass.bits) 8 0 8 from.now result to.old to.new }
{
    let mut t = [[0; 8]; 8];
    turn_by(&mut t, from, to, 0, pass)
}

/// Turns a group of eight rows of a larger block.
fn turn_group(from: &[i32], to: &mut [i32], n: usize, first: usize, pass: Pass) -> Result<(), Rule>
    requires kind { IsTrue (has_size pass.kind pass.log2) }
    requires side { n ≡ 2 ^ pass.log2 }
    requires fours { n % 4 ≡ 0 }
    requires most { n ≤ 32 }
    requires from_size { length from.now ≡ n * n }
    requires to_size { length to.old ≡ n * n }
    requires columns { first + 8 ≤ n }
    requires bits { pass.bits ≤ 6 }
    requires values { All IsSmall from.now }
    ensures { TurnsGroup (rounded_transform pass.kind (limit_of pass.depth) pass.log2 pass.bits) n first 8 from.now result to.old to.new }
{
    let mut t = [[0; 8]; 32];
    turn_by(&mut t[..n], from, to, first, pass)
}

/// Turns a group of rows behind those that are turned already. Where few levels are read, groups are often the same as
/// the one before them, and so are their columns.
fn turn_next(from: &[i32], to: &mut [i32], n: usize, first: usize, pass: Pass) -> Result<(), Rule>
    requires kind { IsTrue (has_size pass.kind pass.log2) }
    requires side { n ≡ 2 ^ pass.log2 }
    requires fours { n % 4 ≡ 0 }
    requires most { n ≤ 32 }
    requires from_size { length from.now ≡ n * n }
    requires to_size { length to.old ≡ n * n }
    requires columns { first + 8 ≤ n }
    requires bits { pass.bits ≤ 6 }
    requires values { All IsSmall from.now }
    requires turned { AreTurned (rounded_transform pass.kind (limit_of pass.depth) pass.log2 pass.bits) n first from.now to.old }
    ensures { TurnsGroup (rounded_transform pass.kind (limit_of pass.depth) pass.log2 pass.bits) n first 8 from.now result to.old to.new }
{
    if 8 <= first && is_repeated(from, n, first, 8) {
        repeat_columns(to, n, first, 8);
        return Ok(());
    }
    turn_group(from, to, n, first, pass)
}

fn large_side(log2: u8) -> usize
    requires least { 4 ≤ log2 }
    requires most { log2 ≤ 5 }
    ensures side { result ≡ 2 ^ log2 }
    ensures most { result ≤ 32 }
    ensures fours { result % 4 ≡ 0 }
    ensures eights { result / 8 * 8 ≡ result }
{
    match log2 {
        4 => 16,
        5 => 32,
        _ => unreachable!(),
    }
}

/// Turns a block of 16x16 or 32x32, in groups of eight rows.
#[inline(never)]
fn turn_large(from: &[i32], to: &mut [i32], pass: Pass) -> Result<(), Rule>
    requires kind { IsTrue (has_size pass.kind pass.log2) }
    requires least { 4 ≤ pass.log2 }
    requires most { pass.log2 ≤ 5 }
    requires from_size { length from.now ≡ 2 ^ pass.log2 * 2 ^ pass.log2 }
    requires to_size { length to.old ≡ 2 ^ pass.log2 * 2 ^ pass.log2 }
    requires bits { pass.bits ≤ 6 }
    requires values { All IsSmall from.now }
    ensures { Gives (each_row_turned (rounded_transform pass.kind (limit_of pass.depth) pass.log2 pass.bits) (2 ^ pass.log2) from.now) result to.new }
{
    let n = large_side(pass.log2);
    for group in 0..n / 8 {
        turn_next(from, to, n, group * 8, pass)?;
    }
    Ok(())
}

/// What is made of each row of `from` becomes a column of `to`.
#[inline(always)]
pub fn turn_rows(from: &[i32], to: &mut [i32], pass: Pass) -> Result<(), Rule>
    requires kind { IsTrue (has_size pass.kind pass.log2) }
    requires least { 2 ≤ pass.log2 }
    requires most { pass.log2 ≤ 5 }
    requires from_size { length from.now ≡ 2 ^ pass.log2 * 2 ^ pass.log2 }
    requires to_size { length to.old ≡ 2 ^ pass.log2 * 2 ^ pass.log2 }
    requires bits { pass.bits ≤ 6 }
    requires values { All IsSmall from.now }
    ensures { Gives (each_row_turned (rounded_transform pass.kind (limit_of pass.depth) pass.log2 pass.bits) (2 ^ pass.log2) from.now) result to.new }
{
    match pass.log2 {
        2 => turn_four(from, to, pass),
        3 => turn_eight(from, to, pass),
        _ => turn_large(from, to, pass),
    }
}
