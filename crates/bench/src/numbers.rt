//! Pseudo-random numbers, the same as in C.

use std::alloc::{AllocError, Global};

pub const SEED: u32 = 4;

/// How many bytes symbols are read of.
const SIZE: usize = 8 << 20;

/// The next state of a linear congruential generator, whose highest bits are what it draws.
pub fn drawn(state: u32) -> u32 {
    state.wrapping_mul(1664525).wrapping_add(1013904223)
}

/// The bytes that symbols are read of.
pub fn bytes(alloc: Global) -> Result<Vec<u8>, AllocError> {
    let mut bytes = Vec::with_capacity(alloc, SIZE)?;
    let mut state = SEED;
    for _ in 0..SIZE {
        state = drawn(state);
        bytes.push((state >> 24) as u8)?;
    }
    Ok(bytes)
}
