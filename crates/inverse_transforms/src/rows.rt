//! The steps of the transforms of columns.

ghost use Rattle.std.specs.Prelude.{◌^◌, ◌≤◌, IsTrue};
ghost use Rattle.std.specs.List.{list_all};
ghost use Rattle.inverse_transforms.specs.Flow.{is_within, IsCalm};
ghost use Rattle.inverse_transforms.specs.Transforms.{AreDct, AreAdst, dct, adst};

use crate::renamed::{
    RENAMED_ADST_8, RENAMED_ADST_16, RENAMED_DCT_4, RENAMED_DCT_8, RENAMED_DCT_16, RENAMED_DCT_32,
};
use vp9_tables::FlowRow;

/// The DCT of `2 ^ log2` values, with its permutations put last.
pub fn dct_rows(log2: u8) -> &'static [FlowRow]
    requires least { 2 ≤ log2 }
    requires most { log2 ≤ 5 }
    ensures same { AreDct log2 result.now }
    ensures within { IsTrue (list_all (is_within (2 ^ log2)) result.now) }
    ensures size { 2 ^ log2 ≤ 32 }
{
    match log2 {
        2 => &RENAMED_DCT_4,
        3 => &RENAMED_DCT_8,
        4 => &RENAMED_DCT_16,
        5 => &RENAMED_DCT_32,
        _ => unreachable!(),
    }
}

/// What the magnitudes of `2 ^ log2` values may add up to for their DCT to store none of more than 16 bits.
pub fn dct_calm(log2: u8) -> u32
    requires least { 2 ≤ log2 }
    requires most { log2 ≤ 5 }
    ensures calm { IsCalm (2 ^ log2) result (λ limit. dct limit log2) }
    ensures narrow { result ≤ 2 ^ 15 }
{
    match log2 {
        2 => 32768,
        3 => 32768,
        4 => 25000,
        5 => 18000,
        _ => unreachable!(),
    }
}

/// The ADST of `2 ^ log2` values, likewise.
pub fn adst_rows(log2: u8) -> &'static [FlowRow]
    requires least { 3 ≤ log2 }
    requires most { log2 ≤ 4 }
    ensures same { AreAdst log2 result.now }
    ensures within { IsTrue (list_all (is_within (2 ^ log2)) result.now) }
    ensures size { 2 ^ log2 ≤ 32 }
{
    match log2 {
        3 => &RENAMED_ADST_8,
        4 => &RENAMED_ADST_16,
        _ => unreachable!(),
    }
}

/// What the magnitudes of `2 ^ log2` values may add up to for their ADST to store none of more than 16 bits.
pub fn adst_calm(log2: u8) -> u32
    requires least { 3 ≤ log2 }
    requires most { log2 ≤ 4 }
    ensures calm { IsCalm (2 ^ log2) result (λ limit. adst limit log2) }
    ensures narrow { result ≤ 2 ^ 15 }
{
    match log2 {
        3 => 25000,
        4 => 18000,
        _ => unreachable!(),
    }
}
