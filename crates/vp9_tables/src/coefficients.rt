ghost use Rattle.std.specs.Prelude.{◌≡◌, ℕ, ◌+◌, ◌*◌, ◌<◌, ◌≤◌, ◌∷◌, ◌++◌, [], length, slice_index, get_or, IsTrue, nat_le};
ghost use Rattle.std.specs.List.{list_all, All};
ghost use Rattle.vp9_tables.specs.Scans.{area};
ghost use Rattle.vp9_tables.specs.Coefficients.{is_probability, bands_of, spread, category_of, sixth_of, inverse_map};

use crate::data::coefficients::{
    CAT1_PROB, CAT2_PROB, CAT3_PROB, CAT4_PROB, CAT5_PROB, CAT6_PROB, COEF_BAND_4X4,
    COEF_BAND_LARGE, ENERGY_CLASS, INV_MAP, PARETO,
};
use vp9_types::{Depth, TxSize};

/// The bands of a scan's places. There are more of them than places for 8x8 and 16x16.
pub fn bands(size: TxSize) -> &'static [u8]
    ensures table { result.now ≡ bands_of size }
    ensures count { area size ≤ length result.now }
    ensures within { All (λ n. n ≤ 5) result.now }
{
    bands_table(size)
}

fn bands_table(size: TxSize) -> &'static [u8]
    ensures { result.now ≡ bands_of size }
{
    match size {
        TxSize::T4x4 => &COEF_BAND_4X4,
        TxSize::T8x8 | TxSize::T16x16 | TxSize::T32x32 => &COEF_BAND_LARGE,
    }
}

/// The band of one place.
pub fn band(size: TxSize, place: u16) -> u8
    requires { place < area size }
    ensures entry { result ≡ slice_index (bands_of size) place }
    ensures most { result ≤ 5 }
{
    match size {
        TxSize::T4x4 => band_in(&COEF_BAND_4X4, place),
        TxSize::T8x8 | TxSize::T16x16 | TxSize::T32x32 => band_in(&COEF_BAND_LARGE, place),
    }
}

fn band_in(table: &[u8], place: u16) -> u8
    requires index { place < length table.now }
    requires law { IsTrue (list_all (λ n. nat_le n 5) table.now) }
    ensures entry { result ≡ slice_index table.now place }
    ensures most { result ≤ 5 }
{
    table[place as usize]
}

/// How many places each band has.
pub fn bands_are_runs()
    ensures of_4x4 { COEF_BAND_4X4 ≡ spread ((0, 1) ∷ (1, 2) ∷ (2, 3) ∷ (3, 4) ∷ (4, 3) ∷ (5, 3) ∷ []) }
    ensures of_larger { COEF_BAND_LARGE ≡ spread ((0, 1) ∷ (1, 2) ∷ (2, 3) ∷ (3, 4) ∷ (4, 11) ∷ (5, 1003) ∷ []) }
{}

/// The probabilities of the tail of a token's tree, by (q - 1) / 2 for an odd probability q of its third node.
pub fn pareto(row: u8) -> &'static [u8; 8]
    requires { row < 128 }
    ensures row { result.now ≡ get_or PARETO row [] }
    ensures range { All (λ p. 1 ≤ p) result.now }
{
    &PARETO[row as usize]
}

/// The probabilities of the bits that a token of category 1 to 6 has, the highest first.
pub fn category_probs(category: u8, depth: Depth) -> &'static [u8]
    requires least { 1 ≤ category }
    requires most { category ≤ 6 }
    ensures table { result.now ≡ category_of category depth }
    ensures range { All (λ p. 1 ≤ p) result.now }
{
    category_table(category, depth)
}

fn category_table(category: u8, depth: Depth) -> &'static [u8]
    ensures { result.now ≡ category_of category depth }
{
    match category {
        1 => &CAT1_PROB,
        2 => &CAT2_PROB,
        3 => &CAT3_PROB,
        4 => &CAT4_PROB,
        5 => &CAT5_PROB,
        _ => sixth_category(depth),
    }
}

fn sixth_category(depth: Depth) -> &'static [u8]
    ensures { result.now ≡ sixth_of depth }
{
    let table: &'static [u8] = &CAT6_PROB;
    match depth {
        Depth::Eight => &table[4..],
        Depth::Ten => &table[2..],
        Depth::Twelve => table,
    }
}

/// How a token counts where it is a neighbour: zero to four and the six categories are 0 to 10, the end of the block 11.
pub fn energy_class(token: u8) -> u8
    requires { token < 12 }
    ensures entry { result ≡ slice_index ENERGY_CLASS token }
    ensures most { result ≤ 5 }
{
    band_in(&ENERGY_CLASS, token as u16)
}

/// What a coded number says of the new probability.
pub fn inv_map(number: u8) -> u8
    requires { number < 255 }
    ensures entry { result ≡ slice_index INV_MAP number }
    ensures least { 1 ≤ result }
    ensures most { result ≤ 254 }
{
    mapped(&INV_MAP, number)
}

fn mapped(table: &[u8], number: u8) -> u8
    requires index { number < length table.now }
    requires lower { IsTrue (list_all is_probability table.now) }
    requires upper { IsTrue (list_all (λ n. nat_le n 254) table.now) }
    ensures entry { result ≡ slice_index table.now number }
    ensures least { 1 ≤ result }
    ensures most { result ≤ 254 }
{
    table[number as usize]
}

/// The numbers that are coded shortest stand 13 apart, and the others follow in order.
pub fn coarse_numbers_come_first()
    ensures { INV_MAP ≡ inverse_map }
{}
