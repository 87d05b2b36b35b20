//! Values from outside, as tools/vectors.py transforms writes them: what each transform makes of one list, and of the
//! same list among eight columns.

ghost use Rattle.std.specs.Prelude.{◌≡◌, ◌^◌, ◌≤◌, ◌<◌, length, All};
ghost use Rattle.std.specs.Bool.{OnTrue};
ghost use Rattle.inverse_transforms.specs.Ranges.{IsSmall};

mod vectors;

use inverse_transforms::{Lanes, adst, adst_columns, dct, dct_columns, wht, wht_columns};
use std::process::Abort;
use vectors::{
    ADST_4, ADST_4_DIFFERENCES, ADST_4_DIFFERENCES_FITS, ADST_4_FITS, ADST_8, ADST_8_FITS, ADST_16,
    ADST_16_FITS, DCT_4, DCT_4_FITS, DCT_8, DCT_8_FITS, DCT_16, DCT_16_FITS, DCT_32, DCT_32_FITS,
    WHT_OF_COLUMNS, WHT_OF_COLUMNS_FITS, WHT_OF_ROWS, WHT_OF_ROWS_FITS,
};
use vp9_types::{Depth, Rule};

const MOST: i32 = 1 << 24;

#[derive(Clone, Copy, Debug, PartialEq, Eq)]
enum Kind {
    Dct,
    Adst,
    WhtOfRows,
    WhtOfColumns,
}

/// A list that is transformed, and what it gives if all fits.
#[derive(Clone, Copy, Debug)]
struct Case<'a> {
    kind: Kind,
    log2: u8,
    depth: Depth,
    input: &'a [i32],
    output: &'a [i32],
    fits: bool,
}

fn are_small(xs: &[i32]) -> bool
    ensures { OnTrue result (All IsSmall xs.now) }
{
    for x in xs {
        if *x < -MOST || MOST < *x {
            return false;
        }
    }
    true
}

fn rows_are_small(t: &[Lanes]) -> bool
    ensures { OnTrue result (All (All IsSmall) t.now) }
{
    for row in t {
        if !are_small(row) {
            return false;
        }
    }
    true
}

/// The number of values of a transform, 4 to 32.
fn size_of(rt: &impl Abort, log2: u8) -> usize
    ensures least { 2 ≤ log2 }
    ensures most { log2 ≤ 5 }
    ensures value { result ≡ 2 ^ log2 }
    ensures size { result ≤ 32 }
{
    match log2 {
        2 => 4,
        3 => 8,
        4 => 16,
        5 => 32,
        _ => panic!(rt; "no such size"),
    }
}

fn one_list(rt: &impl Abort, case: &Case, t: &mut [i32]) -> Result<(), Rule> {
    assert_eq!(rt; t.len(), size_of(rt, case.log2));
    assert!(rt; are_small(t));
    match case.kind {
        Kind::Dct => dct(case.log2, t, case.depth),
        Kind::Adst => {
            assert!(rt; case.log2 <= 4);
            adst(case.log2, t, case.depth)
        }
        Kind::WhtOfRows => {
            assert_eq!(rt; t.len(), 4);
            wht(t, 2, case.depth)
        }
        Kind::WhtOfColumns => {
            assert_eq!(rt; t.len(), 4);
            wht(t, 0, case.depth)
        }
    }
}

fn expect(rt: &impl Abort, case: &Case, answer: Result<(), Rule>, values: &[i32]) {
    if case.fits {
        assert_eq!(rt; answer, Ok(()));
        assert_eq!(rt; values, case.output);
    } else {
        assert_eq!(rt; answer, Err(Rule::TransformRange));
    }
}

fn list_gives(rt: &impl Abort, case: &Case) {
    let mut t = [0; 32];
    let size = case.input.len();
    assert!(rt; size <= 32);
    t[..size].copy_from_slice(case.input);
    let answer = one_list(rt, case, &mut t[..size]);
    expect(rt, case, answer, &t[..size]);
}

fn eight_columns(rt: &impl Abort, case: &Case, t: &mut [Lanes]) -> Result<(), Rule> {
    assert_eq!(rt; t.len(), size_of(rt, case.log2));
    assert!(rt; rows_are_small(t));
    match case.kind {
        Kind::Dct => dct_columns(case.log2, t, case.depth),
        Kind::Adst => {
            assert!(rt; case.log2 <= 4);
            adst_columns(case.log2, t, case.depth)
        }
        Kind::WhtOfRows => {
            assert_eq!(rt; t.len(), 4);
            wht_columns(t, 2, case.depth)
        }
        Kind::WhtOfColumns => {
            assert_eq!(rt; t.len(), 4);
            wht_columns(t, 0, case.depth)
        }
    }
}

fn put_column(t: &mut [Lanes], lane: usize, values: &[i32])
    requires size { length t.old ≡ length values.now }
    requires lane { lane < 8 }
{
    for i in 0..values.len() {
        t[i][lane] = values[i];
    }
}

fn column_of(t: &[Lanes], lane: usize) -> [i32; 32]
    requires size { length t.now ≤ 32 }
    requires lane { lane < 8 }
{
    let mut column = [0; 32];
    for i in 0..t.len() {
        column[i] = t[i][lane];
    }
    column
}

fn columns_give(rt: &impl Abort, case: &Case, lane: usize)
    requires { lane < 8 }
{
    let mut t = [[0; 8]; 32];
    let size = case.input.len();
    assert!(rt; size <= 32);
    put_column(&mut t[..size], lane, case.input);
    let answer = eight_columns(rt, case, &mut t[..size]);
    let values = column_of(&t[..size], lane);
    expect(rt, case, answer, &values[..size]);
}

/// Tries the lists of a transform, seven at each depth.
fn try_all(rt: &impl Abort, kind: Kind, log2: u8, values: &[i32], fits: &[bool]) {
    let size = size_of(rt, log2);
    let mut rest = values;
    for (number, fits) in fits.iter().enumerate() {
        assert!(rt; 2 * size <= rest.len());
        let (input, more) = rest.split_at(size);
        let (output, more) = more.split_at(size);
        rest = more;
        let depth = match number / 7 {
            0 => Depth::Eight,
            1 => Depth::Ten,
            _ => Depth::Twelve,
        };
        let case = Case {
            kind,
            log2,
            depth,
            input,
            output,
            fits: *fits,
        };
        list_gives(rt, &case);
        columns_give(rt, &case, number % 8);
    }
}

#[test]
fn cosines(rt: HostRuntime) {
    try_all(&rt, Kind::Dct, 2, &DCT_4, &DCT_4_FITS);
    try_all(&rt, Kind::Dct, 3, &DCT_8, &DCT_8_FITS);
    try_all(&rt, Kind::Dct, 4, &DCT_16, &DCT_16_FITS);
    try_all(&rt, Kind::Dct, 5, &DCT_32, &DCT_32_FITS);
}

#[test]
fn sines(rt: HostRuntime) {
    try_all(&rt, Kind::Adst, 2, &ADST_4, &ADST_4_FITS);
    try_all(
        &rt,
        Kind::Adst,
        2,
        &ADST_4_DIFFERENCES,
        &ADST_4_DIFFERENCES_FITS,
    );
    try_all(&rt, Kind::Adst, 3, &ADST_8, &ADST_8_FITS);
    try_all(&rt, Kind::Adst, 4, &ADST_16, &ADST_16_FITS);
}

#[test]
fn lifts(rt: HostRuntime) {
    try_all(&rt, Kind::WhtOfRows, 2, &WHT_OF_ROWS, &WHT_OF_ROWS_FITS);
    try_all(
        &rt,
        Kind::WhtOfColumns,
        2,
        &WHT_OF_COLUMNS,
        &WHT_OF_COLUMNS_FITS,
    );
}
