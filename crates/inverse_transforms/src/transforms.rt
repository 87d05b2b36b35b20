//! The transforms of one list, and of eight columns.

ghost use Rattle.std.specs.Prelude.{◌≡◌, ◌+◌, ◌^◌, ◌≤◌, length, All, IsTrue};
ghost use Rattle.std.specs.List.{list_all};
ghost use Rattle.vp9_tables.specs.TransformTables.{dct_of};
ghost use Rattle.inverse_transforms.specs.Flow.{Gives, IsCalm, run_flow, is_within};
ghost use Rattle.inverse_transforms.specs.Transforms.{size_of_log2, dct, adst, adst_rows, wht};
ghost use Rattle.inverse_transforms.specs.LaneColumns.{GivesColumns};
ghost use Rattle.inverse_transforms.specs.Ranges.{IsSmall, limit_of};

use crate::lanes::Lanes;
use crate::magnitudes::heaviest;
use crate::quads::{adst_of_4, wht_of_4};
use crate::{calm, lane_steps, narrow, rows, steps};
use vp9_tables::{FlowRow, adst_8_flow, adst_16_flow, dct_flow};
use vp9_types::{Depth, Rule, TxSize};

/// A value of `8 + depth` bits is at least minus this, and below it.
pub fn limit_of(depth: Depth) -> u32
    ensures value { result ≡ limit_of depth }
    ensures size { result ≤ 2 ^ 24 }
{
    match depth {
        Depth::Eight => 1 << 15,
        Depth::Ten => 1 << 17,
        Depth::Twelve => 1 << 19,
    }
}

/// The DCT of `2 ^ log2` values, 4 to 32.
#[tactic(auto, unfolding(crate::specs::Transforms::dct))]
pub fn dct(log2: u8, t: &mut [i32], depth: Depth) -> Result<(), Rule>
    requires least { 2 ≤ log2 }
    requires most { log2 ≤ 5 }
    requires size { length t.old ≡ 2 ^ log2 }
    requires small { All IsSmall t.old }
    ensures { Gives (dct (limit_of depth) log2 t.old) result t.new }
{
    steps::flow(t, dct_rows(log2), limit_of(depth))
}

/// The DCTs of eight columns of four rows. It is called: in place, where it is seen that a block of 4x4 leaves four lanes 0,
/// the others would be computed one by one.
#[inline(never)]
fn dct_columns_of_4(t: &mut [Lanes], depth: Depth) -> Result<(), Rule>
    requires size { length t.old ≡ 4 }
    requires small { All (All IsSmall) t.old }
    ensures gives { GivesColumns (dct (limit_of depth) 2) result t.old t.new }
    ensures small { All (All IsSmall) t.new }
{
    if heaviest(&t[..4]) <= 32768 {
        calm::dct_of_4(t);
        return Ok(());
    }
    flow_columns(t, rows::dct_rows(2), rows::dct_calm(2), depth)
}

/// The DCTs of eight columns of eight rows.
#[inline(never)]
fn dct_columns_of_8(t: &mut [Lanes], depth: Depth) -> Result<(), Rule>
    requires size { length t.old ≡ 8 }
    requires small { All (All IsSmall) t.old }
    ensures gives { GivesColumns (dct (limit_of depth) 3) result t.old t.new }
    ensures small { All (All IsSmall) t.new }
{
    if heaviest(&t[..8]) <= 32768 {
        calm::dct_of_8(t);
        return Ok(());
    }
    flow_columns(t, rows::dct_rows(3), rows::dct_calm(3), depth)
}

/// The DCTs of eight columns of sixteen rows.
#[inline(never)]
fn dct_columns_of_16(t: &mut [Lanes], depth: Depth) -> Result<(), Rule>
    requires size { length t.old ≡ 16 }
    requires small { All (All IsSmall) t.old }
    ensures gives { GivesColumns (dct (limit_of depth) 4) result t.old t.new }
    ensures small { All (All IsSmall) t.new }
{
    if heaviest(&t[..16]) <= 16384 {
        calm::dct_of_16(t);
        return Ok(());
    }
    flow_columns(t, rows::dct_rows(4), rows::dct_calm(4), depth)
}

/// The DCTs of eight columns of `2 ^ log2` rows.
pub fn dct_columns(log2: u8, t: &mut [Lanes], depth: Depth) -> Result<(), Rule>
    requires least { 2 ≤ log2 }
    requires most { log2 ≤ 5 }
    requires size { length t.old ≡ 2 ^ log2 }
    requires small { All (All IsSmall) t.old }
    ensures gives { GivesColumns (dct (limit_of depth) log2) result t.old t.new }
    ensures small { All (All IsSmall) t.new }
{
    if log2 == 2 {
        return dct_columns_of_4(t, depth);
    }
    if log2 == 3 {
        return dct_columns_of_8(t, depth);
    }
    if log2 == 4 {
        return dct_columns_of_16(t, depth);
    }
    flow_columns(t, rows::dct_rows(log2), rows::dct_calm(log2), depth)
}

/// The steps of a flow on eight columns: without tests where the magnitudes of no column add up to more than `calm`, and
/// by products of 32 bits where values of the depth fit in 16.
fn flow_columns(t: &mut [Lanes], rows: &[FlowRow], calm: u32, depth: Depth) -> Result<(), Rule>
    requires size { length t.old ≤ 32 }
    requires within { IsTrue (list_all (is_within (length t.old)) rows.now) }
    requires calm { IsCalm (length t.old) calm (λ limit. run_flow limit rows.now) }
    requires calm_is_narrow { calm ≤ 2 ^ 15 }
    requires small { All (All IsSmall) t.old }
    ensures gives { GivesColumns (run_flow (limit_of depth) rows.now) result t.old t.new }
    ensures small { All (All IsSmall) t.new }
{
    if heaviest(t) <= calm {
        return calm::flow(t, rows);
    }
    if depth == Depth::Eight && narrow::is_narrow(t) {
        return narrow::flow(t, rows);
    }
    lane_steps::flow(t, rows, limit_of(depth))
}

fn dct_rows(log2: u8) -> &'static [FlowRow]
    requires least { 2 ≤ log2 }
    requires most { log2 ≤ 5 }
    ensures table { result.now ≡ dct_of (size_of_log2 log2) }
    ensures within { IsTrue (list_all (is_within (2 ^ log2)) result.now) }
    ensures size { 2 ^ log2 ≤ 32 }
{
    match log2 {
        2 => dct_flow(TxSize::T4x4),
        3 => dct_flow(TxSize::T8x8),
        4 => dct_flow(TxSize::T16x16),
        5 => dct_flow(TxSize::T32x32),
        _ => unreachable!(),
    }
}

/// The ADST of `2 ^ log2` values, 4 to 16.
#[tactic(auto, unfolding(crate::specs::Transforms::adst))]
pub fn adst(log2: u8, t: &mut [i32], depth: Depth) -> Result<(), Rule>
    requires least { 2 ≤ log2 }
    requires most { log2 ≤ 4 }
    requires size { length t.old ≡ 2 ^ log2 }
    requires small { All IsSmall t.old }
    ensures { Gives (adst (limit_of depth) log2 t.old) result t.new }
{
    if log2 == 2 {
        return adst_of_4(t, limit_of(depth));
    }
    steps::flow(t, adst_rows(log2), limit_of(depth))
}

/// The ADSTs of eight columns of `2 ^ log2` rows.
#[tactic(auto, unfolding(crate::specs::Transforms::adst))]
pub fn adst_columns(log2: u8, t: &mut [Lanes], depth: Depth) -> Result<(), Rule>
    requires least { 2 ≤ log2 }
    requires most { log2 ≤ 4 }
    requires size { length t.old ≡ 2 ^ log2 }
    requires small { All (All IsSmall) t.old }
    ensures gives { GivesColumns (adst (limit_of depth) log2) result t.old t.new }
    ensures small { All (All IsSmall) t.new }
{
    if log2 == 2 {
        return lane_steps::adst_of_4(t, limit_of(depth));
    }
    flow_columns(t, rows::adst_rows(log2), rows::adst_calm(log2), depth)
}

fn adst_rows(log2: u8) -> &'static [FlowRow]
    requires least { 3 ≤ log2 }
    requires most { log2 ≤ 4 }
    ensures table { result.now ≡ adst_rows log2 }
    ensures within { IsTrue (list_all (is_within (2 ^ log2)) result.now) }
    ensures size { 2 ^ log2 ≤ 32 }
{
    match log2 {
        3 => adst_8_flow(),
        4 => adst_16_flow(),
        _ => unreachable!(),
    }
}

/// The WHT of four values, each shifted right first.
pub fn wht(t: &mut [i32], shift: u8, depth: Depth) -> Result<(), Rule>
    requires size { length t.old ≡ 4 }
    requires shift { shift ≤ 2 }
    requires small { All IsSmall t.old }
    ensures { Gives (wht (limit_of depth) shift t.old) result t.new }
{
    wht_of_4(t, shift, limit_of(depth))
}

/// The WHTs of eight columns of four rows.
pub fn wht_columns(t: &mut [Lanes], shift: u8, depth: Depth) -> Result<(), Rule>
    requires size { length t.old ≡ 4 }
    requires shift { shift ≤ 2 }
    requires small { All (All IsSmall) t.old }
    ensures gives { GivesColumns (wht (limit_of depth) shift) result t.old t.new }
    ensures small { All (All IsSmall) t.new }
{
    lane_steps::wht_of_4(t, shift, limit_of(depth))
}
