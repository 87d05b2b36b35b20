//! The reading of tokens: a line names how many rounds of blocks to read of pseudo-random bytes, one block of each size in a
//! round. The checksum is of them.

ghost use Rattle.std.specs.Prelude.{◌≡◌, ◌≤◌, ◌<◌, [], length};
ghost use Rattle.vp9_tables.specs.Scans.{area};
ghost use Rattle.coef_tokens.specs.Code.{HoldsLevels};

use crate::numbers::bytes;
use coef_tokens::{TokenKind, TokenTables, tokens};
use counting_reader::CountingReader;
use prob_contexts::{Contexts, Counts, default_contexts};
use std::alloc::{AllocError, Global};
use vp9_types::{Depth, Plane, Rule, TxSize, TxType};

/// After how many rounds the bytes are read from the beginning again.
const ROUNDS: u64 = 20000;

/// Kinds and planes in turn.
fn kind_in_turn(tx: TxSize, round: u64) -> TokenKind
    ensures { result.tx ≡ tx }
{
    let kind = match round % 4 {
        0 => TxType::DctDct,
        1 => TxType::AdstDct,
        2 => TxType::DctAdst,
        _ => TxType::AdstAdst,
    };
    TokenKind {
        tx,
        kind,
        plane: if round % 2 == 0 { Plane::Y } else { Plane::U },
        inter: round % 3 == 0,
        depth: Depth::Eight,
    }
}

/// Reads a block into levels that are 0.
fn read<const COUNTS: bool>(
    reader: &mut CountingReader<COUNTS>,
    tables: &TokenTables,
    first: u8,
    levels: &mut [i32],
) -> u64
    requires first { first ≤ 2 }
    requires long { length levels.old ≡ area tables.now.tx }
    requires some { 2 ≤ length levels.old }
    requires clear { HoldsLevels levels.old [] }
{
    let count = tokens(reader, tables, first, levels);
    u64::from(count) + u64::from(levels[0].unsigned_abs()) + u64::from(levels[1].unsigned_abs())
}

/// A checksum of a block of each size.
#[tactic(auto, using(coef_tokens::proofs::Turns::clear_at))]
fn read_round<const COUNTS: bool>(
    reader: &mut CountingReader<COUNTS>,
    contexts: &Contexts,
    round: u64,
    sum: u64,
) -> u64 {
    let first = (round % 3) as u8;
    let tables = TokenTables::new(contexts, kind_in_turn(TxSize::T4x4, round));
    let small = read(reader, &tables, first, &mut [0; 16]);
    let tables = TokenTables::new(contexts, kind_in_turn(TxSize::T8x8, round));
    let medium = read(reader, &tables, first, &mut [0; 64]);
    let tables = TokenTables::new(contexts, kind_in_turn(TxSize::T16x16, round));
    let large = read(reader, &tables, first, &mut [0; 256]);
    let tables = TokenTables::new(contexts, kind_in_turn(TxSize::T32x32, round));
    let huge = read(reader, &tables, first, &mut [0; 1024]);
    let sum = sum.wrapping_mul(3).wrapping_add(small);
    let sum = sum.wrapping_mul(3).wrapping_add(medium);
    let sum = sum.wrapping_mul(3).wrapping_add(large);
    sum.wrapping_mul(3).wrapping_add(huge)
}

/// A checksum of 16 blocks of 4x4 of one plane, which have coefficients beside them.
fn read_small<const COUNTS: bool>(
    reader: &mut CountingReader<COUNTS>,
    contexts: &Contexts,
    round: u64,
    sum: u64,
) -> u64 {
    let tables = TokenTables::new(contexts, kind_in_turn(TxSize::T4x4, round));
    let mut sum = sum;
    for _ in 0..16 {
        let block = read(reader, &tables, 2, &mut [0; 16]);
        sum = sum.wrapping_mul(3).wrapping_add(block);
    }
    sum
}

/// The checksum of so many rounds.
fn checksum<const COUNTS: bool>(
    bytes: &[u8],
    counts: Counts,
    small: bool,
    rounds: u64,
) -> Result<u64, Rule> {
    let contexts = default_contexts();
    let mut reader = CountingReader::<COUNTS>::start(bytes, counts)?;
    let mut sum: u64 = 0;
    for round in 0..rounds {
        if round % ROUNDS == 0 {
            reader = CountingReader::<COUNTS>::start(bytes, reader.into_counts())?;
        }
        sum = if small {
            read_small(&mut reader, &contexts, round, sum)
        } else {
            read_round(&mut reader, &contexts, round, sum)
        };
    }
    Ok(sum)
}

/// What is printed for a line: a number of rounds, behind `small` if all blocks are 4x4, and behind `silent` if nothing is
/// counted.
pub fn describe(alloc: Global, line: &str) -> Result<String, AllocError> {
    let (silent, rest) = match line.strip_prefix("silent ") {
        Some(rest) => (true, rest),
        None => (false, line),
    };
    let (small, rest) = match rest.strip_prefix("small ") {
        Some(rest) => (true, rest),
        None => (false, rest),
    };
    let Ok(rounds) = rest.parse::<u64>() else {
        return format!(in alloc; "{line}: not a number");
    };
    let (bytes, counts) = (bytes(alloc)?, Counts::new(alloc)?);
    let sum = if silent {
        checksum::<false>(bytes.as_slice(), counts, small, rounds)
    } else {
        checksum::<true>(bytes.as_slice(), counts, small, rounds)
    };
    match sum {
        Ok(sum) => format!(in alloc; "{line}: {sum}"),
        Err(rule) => format!(in alloc; "{line}: {rule}"),
    }
}
