//! Bytes of the standard's arithmetic over numbers without bound, by tools/vectors.py token_writings,
//! for blocks whose first places of the scan hold drawn levels.

ghost use Rattle.std.specs.Prelude.{ℕ, true, ◌-◌, ◌≡◌, ◌≢◌, ◌≤◌, ◌<◌, [], pos, length, slice_index, unsigned_abs};
ghost use Rattle.std.specs.List.{All};
ghost use Rattle.vp9_tables.specs.Scans.{area, scan_of};
ghost use Rattle.coef_tokens.specs.Code.{HoldsLevels};
ghost use Rattle.token_writer.specs.TokenFits.{level_in};

use bool_encoder::BoolEncoder;
use coef_tokens::{TokenKind, TokenTables, tokens};
use counting_reader::CountingReader;
use prob_contexts::{Counts, default_contexts};
use std::alloc::Global;
use std::process::Abort;
use std::test::Fail;
use token_writer::put_tokens;
use vp9_tables::scan;
use vp9_types::{Depth, Plane, TxSize, TxType};

/// A block, the context of its first place, the levels of the places that are coded, and its bytes.
struct Row {
    at: TokenKind,
    first: u8,
    coded: &'static [i32],
    bytes: &'static [u8],
}

static ROWS: [Row; 4] = [
    Row {
        at: TokenKind {
            tx: TxSize::T4x4,
            kind: TxType::AdstDct,
            plane: Plane::Y,
            inter: false,
            depth: Depth::Eight,
        },
        first: 2,
        coded: &[16450, 0, -66, 0, 1, 0, -118, -132, -3, 2, 2, -35, -3],
        bytes: &[
            127, 255, 255, 255, 255, 255, 255, 255, 117, 252, 89, 19, 255, 255, 248, 210, 253, 17,
            199, 157, 127, 135, 156, 64, 0,
        ],
    },
    Row {
        at: TokenKind {
            tx: TxSize::T4x4,
            kind: TxType::DctAdst,
            plane: Plane::Y,
            inter: true,
            depth: Depth::Eight,
        },
        first: 1,
        coded: &[0, 2, 0, 2, -246, -3, 13, 38, -3, 20, 2, 38, 0, 12829, -1, 0],
        bytes: &[
            90, 1, 151, 255, 255, 254, 216, 68, 249, 15, 255, 152, 44, 122, 182, 1, 255, 255, 255,
            255, 254, 91, 219, 136, 0,
        ],
    },
    Row {
        at: TokenKind {
            tx: TxSize::T8x8,
            kind: TxType::DctDct,
            plane: Plane::U,
            inter: true,
            depth: Depth::Ten,
        },
        first: 0,
        coded: &[
            2, -3, 10, 1, 12292, 6041, 0, 0, 0, -1, 30, 16063, 1, 4771, -235, 4, 1, -1, -1, 1,
        ],
        bytes: &[
            127, 221, 64, 253, 202, 255, 255, 126, 255, 255, 245, 187, 127, 254, 254, 255, 210,
            240, 189, 255, 255, 250, 143, 255, 255, 255, 255, 207, 255, 255, 253, 124, 132, 255,
            255, 255, 253, 120, 130, 111, 255, 255, 255, 92, 62, 23, 42, 0, 0,
        ],
    },
    Row {
        at: TokenKind {
            tx: TxSize::T32x32,
            kind: TxType::DctDct,
            plane: Plane::Y,
            inter: true,
            depth: Depth::Twelve,
        },
        first: 1,
        coded: &[
            2, 1, 11, -95, -29, 4, -3, 4, 0, 0, 23, 0, 1, -1, 2, 13328, 4, 2, 11696, -1, 4, 11296,
            2, 0, -1, -75, -153, 4, 19, -3,
        ],
        bytes: &[
            110, 249, 253, 78, 255, 255, 253, 136, 127, 146, 102, 8, 23, 183, 7, 202, 159, 255,
            253, 255, 243, 252, 240, 164, 252, 255, 255, 191, 191, 246, 51, 216, 79, 255, 255, 253,
            125, 247, 254, 84, 20, 95, 255, 252, 151, 255, 255, 246, 52, 24, 143, 120, 0,
        ],
    },
];

/// A level that each depth can code.
fn coded_level(level: i32) -> i32
    ensures { unsigned_abs result < 16451 }
{
    if level.unsigned_abs() < 16451 {
        level
    } else {
        0
    }
}

/// Puts levels at the first places of the scan, where all are 0.
fn place_levels(at: TokenKind, coded: &[i32], levels: &mut [i32])
    requires room { length coded.now ≤ area at.tx }
    requires long { length levels.old ≡ area at.tx }
    requires clear { HoldsLevels levels.old [] }
    ensures size { length (scan_of at.tx at.kind) ≡ area at.tx }
    ensures small { All (λ level. unsigned_abs level < 16451) levels.new }
    ensures others { (position : ℕ) → ((k : ℕ) → k < length coded.now → slice_index (scan_of at.tx at.kind) k ≢ position)
        → level_in levels.new position ≡ pos 0 }
{
    let scan = scan(at.tx, at.kind);
    for place in 0..coded.len() {
        levels[scan[place] as usize] = coded_level(coded[place]);
    }
}

/// Whether the last place that is coded has a level, unless it is the scan's last.
fn ends_in_a_level(at: TokenKind, levels: &[i32], count: usize) -> bool
    requires long { length levels.now ≡ area at.tx }
    requires room { count ≤ area at.tx }
    ensures { result ≡ true → 0 < count → count < area at.tx → level_in levels.now (slice_index (scan_of at.tx at.kind) (count - 1)) ≢ pos 0 }
{
    if count == 0 || count == levels.len() {
        return true;
    }
    let level = levels[scan(at.tx, at.kind)[count - 1] as usize];
    level != 0
}

fn writes(
    rt: &impl Abort,
    alloc: Global,
    row: &Row,
    levels: &mut [i32],
    read: &mut [i32],
) -> Result<(), Fail>
    requires long { length levels.old ≡ area row.now.at.tx }
    requires read { length read.old ≡ area row.now.at.tx }
    requires clear { HoldsLevels levels.old [] }
    requires read_clear { HoldsLevels read.old [] }
{
    let contexts = default_contexts();
    let count = row.coded.len();
    assert!(rt; row.first <= 2);
    assert!(rt; count <= levels.len());
    place_levels(row.at, row.coded, levels);
    assert!(rt; ends_in_a_level(row.at, levels, count));
    let mut encoder = BoolEncoder::new(alloc);
    let tables = TokenTables::new(&contexts, row.at);
    put_tokens(&mut encoder, &tables, row.first, levels, count as u32)?;
    let bytes = encoder.finish()?;
    assert_eq!(rt; bytes.as_slice(), row.bytes);
    let mut reader = CountingReader::<false>::start(&bytes, Counts::new(alloc)?)?;
    assert_eq!(rt; tokens(&mut reader, &tables, row.first, read), count as u32);
    assert!(rt; *read == *levels);
    Ok(())
}

fn agrees(rt: &impl Abort, alloc: Global, row: &Row) -> Result<(), Fail> {
    match row.at.tx {
        TxSize::T4x4 => writes(rt, alloc, row, &mut [0; 16], &mut [0; 16]),
        TxSize::T8x8 => writes(rt, alloc, row, &mut [0; 64], &mut [0; 64]),
        TxSize::T16x16 => writes(rt, alloc, row, &mut [0; 256], &mut [0; 256]),
        TxSize::T32x32 => writes(rt, alloc, row, &mut [0; 1024], &mut [0; 1024]),
    }
}

#[test]
fn drawn_blocks(rt: HostRuntime) -> Result<(), Fail> {
    for row in &ROWS {
        agrees(&rt, rt.alloc(), row)?;
    }
    Ok(())
}
