//! Values in chunks, which are never moved.

ghost use Rattle.std.specs.Prelude.{◌≡◌, ◌+◌, ◌≤◌, ◌++◌, [], length, slice_range, IfOk, OnOk, OnErr};

use std::alloc::{AllocError, Global};
use std::marker::Model;

/// Where values lie among chunks: in which one, from which of its values on, and how many they are.
#[derive(Clone, Copy, Debug, PartialEq, Eq)]
pub struct Piece {
    pub chunk: usize,
    pub from: usize,
    pub count: usize,
}

/// Values in memory that isn't moved as long as there is room for more.
#[derive(Drop)]
pub(crate) struct Chunk {
    values: Vec<i32>,
}

impl Model for Chunk {
    ghost use Rattle.std.specs.Prelude.{List, ℤ};

    ghost Value = { List ℤ };

    ghost view = { λ c. c.values.items };
}

impl Chunk {
    /// No values, with room for so many.
    pub(crate) fn new(alloc: Global, room: usize) -> Result<Chunk, AllocError>
        ensures { IfOk result (λ c. c ≡ []) }
    {
        Ok(Chunk {
            values: Vec::with_capacity(alloc, room)?,
        })
    }

    /// Whether so many more values fit in.
    pub(crate) fn has_room(&self, count: usize) -> bool {
        count <= self.values.capacity() - self.values.len()
    }

    /// Adds values to the `number`-th chunk, and answers where they lie.
    pub(crate) fn put(&mut self, number: usize, values: &[i32]) -> Result<Piece, AllocError>
        ensures values { OnOk result (self.new ≡ self.old ++ values.now) }
        ensures piece { IfOk result (λ p. p ≡ record { chunk = number; from = length self.old; count = length values.now }) }
        ensures kept { OnErr result (self.new ≡ self.old) }
    {
        let piece = Piece {
            chunk: number,
            from: self.values.len(),
            count: values.len(),
        };
        self.values.extend_from_slice(values)?;
        Ok(piece)
    }

    /// The values from one on, so many.
    pub(crate) fn get(&self, from: usize, count: usize) -> &[i32]
        requires { from + count ≤ length self.now }
        ensures { result.now ≡ slice_range self.now from (from + count) }
    {
        &self.values[from..from + count]
    }
}
