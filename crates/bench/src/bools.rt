//! The bool decoder: a line, as `fixed 1000` or `varied 1000`, names how many bools to read of pseudo-random bytes, at one
//! probability or at 256 in turn. The checksum is of them.

use crate::numbers::{SEED, bytes, drawn};
use bool_decoder::BoolDecoder;
use std::alloc::{AllocError, Global};
use vp9_types::Rule;

const FIXED: u8 = 160;

/// 256 probabilities, 1 to 255.
fn probabilities() -> [u8; 256] {
    let mut probs = [1; 256];
    let mut state = SEED + 1;
    for p in probs.iter_mut() {
        state = drawn(state);
        *p = ((state >> 24) % 255) as u8 + 1;
    }
    probs
}

fn with_bool(sum: u64, bool: bool) -> u64 {
    sum.wrapping_mul(3).wrapping_add(u64::from(bool))
}

/// The checksum of `count` bools at one probability.
fn fixed(mut decoder: BoolDecoder, count: u64) -> u64 {
    let mut sum = 0;
    for _ in 0..count {
        sum = with_bool(sum, decoder.bit(FIXED));
    }
    sum
}

/// The checksum of `count` bools at 256 probabilities in turn.
fn varied(mut decoder: BoolDecoder, count: u64) -> u64 {
    let probs = probabilities();
    let mut sum = 0;
    for k in 0..count {
        sum = with_bool(sum, decoder.bit(probs[(k % 256) as usize]));
    }
    sum
}

/// The checksum of the bools that a line names.
fn checksum(bytes: &[u8], varies: bool, count: u64) -> Result<u64, Rule> {
    let decoder = BoolDecoder::start(bytes)?;
    Ok(if varies {
        varied(decoder, count)
    } else {
        fixed(decoder, count)
    })
}

/// What is printed for a line.
pub fn describe(alloc: Global, line: &str) -> Result<String, AllocError> {
    let Some((kind, number)) = line.split_once(' ') else {
        return format!(in alloc; "{line}: no number");
    };
    let Ok(count) = number.parse::<u64>() else {
        return format!(in alloc; "{line}: not a number");
    };
    let bytes = bytes(alloc)?;
    match checksum(bytes.as_slice(), kind == "varied", count) {
        Ok(sum) => format!(in alloc; "{line}: {sum}"),
        Err(rule) => format!(in alloc; "{line}: {rule}"),
    }
}
