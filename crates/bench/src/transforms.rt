//! The transforms: a line, as `columns 1000`, `residue 1000` or `one-level 1000`, names how often to make the DCT of eight
//! columns of 32 values, the residue of a full block of 8x8, or that of a block of 32x32 with one level. The checksum is of
//! them.

ghost use Rattle.std.specs.Prelude.{◌≡◌, ◌≤◌, ◌^◌, unsigned_abs, length, All};
ghost use Rattle.std.specs.Bool.{OnTrue};
ghost use Rattle.inverse_transforms.specs.Ranges.{IsSmall};
ghost use Rattle.residue_transforms.specs.Residue.{IsLevel};

use crate::numbers::drawn;
use inverse_transforms::{Lanes, dct_columns};
use residue_transforms::{Quant, residue};
use std::alloc::{AllocError, Global};
use vp9_types::{Depth, Rule, TxSize, TxType};

const MOST: i32 = 1 << 19;

const QUANT: Quant = Quant {
    dc: 12,
    ac: 15,
    depth: Depth::Eight,
    lossless: false,
};

/// 32 rows of eight values from -512 to 511.
fn rows(seed: u32) -> [Lanes; 32] {
    let mut state = seed;
    let mut rows = [[0; 8]; 32];
    for row in rows.iter_mut() {
        for x in row.iter_mut() {
            state = drawn(state);
            *x = (state >> 22) as i32 - 512;
        }
    }
    rows
}

/// 64 levels from -16 to 15.
fn levels(seed: u32) -> [i32; 64] {
    let mut state = seed;
    let mut levels = [0; 64];
    for x in levels.iter_mut() {
        state = drawn(state);
        *x = (state >> 27) as i32 - 16;
    }
    levels
}

/// A block of 32x32 with one level, the first.
fn one_level(level: i32) -> [i32; 1024] {
    let mut levels = [0; 1024];
    levels[0] = level;
    levels
}

fn are_small(xs: &[i32]) -> bool
    ensures small { OnTrue result (All IsSmall xs.now) }
    ensures levels { OnTrue result (All IsLevel xs.now) }
{
    for x in xs {
        if *x < -MOST || MOST < *x {
            return false;
        }
    }
    true
}

fn rows_are_small(t: &[Lanes]) -> bool
    ensures { OnTrue result (All (All IsSmall) t.now) }
{
    for row in t {
        if !are_small(row) {
            return false;
        }
    }
    true
}

fn with_value(sum: u64, value: i32) -> u64 {
    sum.wrapping_mul(3)
        .wrapping_add(u64::from(value.unsigned_abs()))
}

/// The checksum of `count` times eight columns.
fn columns(first: &[Lanes; 32], second: &[Lanes; 32], count: u64) -> Result<u64, Rule>
    requires first { All (All IsSmall) first.now }
    requires second { All (All IsSmall) second.now }
{
    let mut sum = 0u64;
    for k in 0..count {
        let mut t = if k % 2 == 0 { *first } else { *second };
        dct_columns(5, &mut t, Depth::Eight)?;
        sum = with_value(sum, t[(k % 32) as usize][(k % 8) as usize]);
    }
    Ok(sum)
}

/// The checksum of `count` blocks.
fn residues(first: &[i32; 64], second: &[i32; 64], count: u64) -> Result<u64, Rule>
    requires first { All IsLevel first.now }
    requires second { All IsLevel second.now }
{
    let mut sum = 0u64;
    for k in 0..count {
        let mut block = if k % 2 == 0 { *first } else { *second };
        residue(&mut block, TxSize::T8x8, TxType::DctDct, QUANT)?;
        sum = with_value(sum, block[(k % 64) as usize]);
    }
    Ok(sum)
}

/// The checksum of `count` blocks of 32x32.
fn large_residues(first: &[i32; 1024], second: &[i32; 1024], count: u64) -> Result<u64, Rule>
    requires first { All IsLevel first.now }
    requires second { All IsLevel second.now }
{
    let mut sum = 0u64;
    for k in 0..count {
        let mut block = if k % 2 == 0 { *first } else { *second };
        residue(&mut block, TxSize::T32x32, TxType::DctDct, QUANT)?;
        sum = with_value(sum, block[(k % 1024) as usize]);
    }
    Ok(sum)
}

fn of_columns(count: u64) -> Option<Result<u64, Rule>> {
    let (first, second) = (rows(1), rows(2));
    if rows_are_small(&first) && rows_are_small(&second) {
        return Some(columns(&first, &second, count));
    }
    None
}

fn of_residue(count: u64) -> Option<Result<u64, Rule>> {
    let (first, second) = (levels(3), levels(4));
    if are_small(&first) && are_small(&second) {
        return Some(residues(&first, &second, count));
    }
    None
}

fn of_one_level(count: u64) -> Option<Result<u64, Rule>> {
    let (first, second) = (one_level(100), one_level(-77));
    if are_small(&first) && are_small(&second) {
        return Some(large_residues(&first, &second, count));
    }
    None
}

/// The checksum of what a line names.
fn checksum(kind: &str, count: u64) -> Option<Result<u64, Rule>> {
    if kind == "columns" {
        return of_columns(count);
    }
    if kind == "one-level" {
        return of_one_level(count);
    }
    of_residue(count)
}

/// What is printed for a line.
pub fn describe(alloc: Global, line: &str) -> Result<String, AllocError> {
    let Some((kind, number)) = line.split_once(' ') else {
        return format!(in alloc; "{line}: no number");
    };
    let Ok(count) = number.parse::<u64>() else {
        return format!(in alloc; "{line}: not a number");
    };
    match checksum(kind, count) {
        Some(Ok(sum)) => format!(in alloc; "{line}: {sum}"),
        Some(Err(rule)) => format!(in alloc; "{line}: {rule}"),
        None => format!(in alloc; "{line}: too large"),
    }
}
