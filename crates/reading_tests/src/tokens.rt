mod large_rows;
mod small_rows;

ghost use Rattle.std.specs.Prelude.{◌≡◌, ◌≤◌, ◌<◌, ◌^◌, [], length};
ghost use Rattle.vp9_tables.specs.Scans.{area};
ghost use Rattle.coef_tokens.specs.Code.{HoldsLevels};

use coef_tokens::{TokenKind, TokenTables, first_context, mark, tokens};
use counting_reader::CountingReader;
use large_rows::LARGE_ROWS;
use prob_contexts::{Contexts, Counts, default_contexts};
use small_rows::SMALL_ROWS;
use std::alloc::Global;
use std::test::Fail;
use vp9_types::TxSize;

/// A block, the context of its first place, its bytes, how many places of its scan are coded, and its levels that aren't 0, by position.
pub struct Row {
    pub at: TokenKind,
    pub first: u8,
    pub bytes: &'static [u8],
    pub count: u32,
    pub levels: &'static [(u16, i32)],
}

fn are_those(levels: &[i32], expected: &[(u16, i32)]) -> bool {
    let mut left = expected;
    for position in 0..levels.len() {
        let mut level = 0;
        if let Some((first, rest)) = left.split_first() {
            if first.0 as usize == position {
                level = first.1;
                left = rest;
            }
        }
        if levels[position] != level {
            return false;
        }
    }
    left.is_empty()
}

fn reads(alloc: Global, contexts: &Contexts, row: &Row, levels: &mut [i32]) -> Result<bool, Fail>
    requires size { length levels.old ≡ area row.now.at.tx }
    requires clear { HoldsLevels levels.old [] }
{
    let mut reader = CountingReader::<true>::start(row.bytes, Counts::new(alloc)?)?;
    if row.first > 2 {
        return Ok(false);
    }
    let tables = TokenTables::new(contexts, row.at);
    let count = tokens(&mut reader, &tables, row.first, levels);
    Ok(count == row.count && are_those(levels, row.levels))
}

fn agrees(alloc: Global, contexts: &Contexts, row: &Row) -> Result<bool, Fail> {
    match row.at.tx {
        TxSize::T4x4 => reads(alloc, contexts, row, &mut [0; 16]),
        TxSize::T8x8 => reads(alloc, contexts, row, &mut [0; 64]),
        TxSize::T16x16 => reads(alloc, contexts, row, &mut [0; 256]),
        TxSize::T32x32 => reads(alloc, contexts, row, &mut [0; 1024]),
    }
}

#[test]
fn small_blocks(rt: HostRuntime) -> Result<(), Fail> {
    let contexts = default_contexts();
    for row in &SMALL_ROWS {
        assert!(rt; agrees(rt.alloc(), &contexts, row)?);
    }
    Ok(())
}

#[test]
fn large_blocks(rt: HostRuntime) -> Result<(), Fail> {
    let contexts = default_contexts();
    for row in &LARGE_ROWS {
        assert!(rt; agrees(rt.alloc(), &contexts, row)?);
    }
    Ok(())
}

#[test]
fn sides(rt: HostRuntime) {
    let mut above = [false; 5];
    mark(&mut above, 3, 8, true);
    assert_eq!(rt; first_context(&above, 2, &[false], 0, TxSize::T8x8), 1);
    assert_eq!(rt; first_context(&above, 1, &[true], 0, TxSize::T8x8), 1);
    assert_eq!(rt; first_context(&above, 4, &[true], 0, TxSize::T32x32), 2);
}
