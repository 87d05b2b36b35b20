//! Where the rows of superblocks of a tile column begin in its plan.

use std::alloc::{AllocError, Global};

/// Where a row of superblocks begins in a tile column's plan: how many blocks come before it, and how many transform blocks
/// they have.
#[derive(Clone, Copy, Debug, PartialEq, Eq)]
pub struct RowPlace {
    pub block: usize,
    pub piece: usize,
}

/// Where the rows of superblocks of a tile column begin, as far down as its blocks reach.
#[derive(Drop)]
pub struct RowPlaces {
    pub places: Vec<RowPlace>,
}

impl RowPlaces {
    ghost use Rattle.std.specs.Prelude.{◌≡◌, ◌+◌, ◌-◌, ◌++◌, ◌<◌, [], length, replicate, get_or, OnOk, if◌then◌else◌, nat_lt};

    /// None.
    pub fn new(alloc: Global) -> RowPlaces
        ensures { result.places.items ≡ [] }
    {
        RowPlaces {
            places: Vec::new(alloc),
        }
    }

    /// Forgets them. Their memory stays for others.
    pub fn clear(&mut self)
        ensures { self.new.places.items ≡ [] }
    {
        self.places.clear();
    }

    /// Notes that a block which starts in a row of superblocks comes next, where no block reached that row before.
    pub fn reach(&mut self, row: u32, next: RowPlace) -> Result<(), AllocError>
        ensures { OnOk result (self.new.places.items ≡ self.old.places.items ++ replicate (row + 1 - length self.old.places.items) next) }
    {
        while self.places.len() <= row as usize {
            self.places.push(next)?;
        }
        Ok(())
    }

    /// Where a row begins, in a plan that ends so.
    pub fn at(&self, row: u32, end: RowPlace) -> RowPlace
        ensures { result ≡ (if nat_lt row (length self.now.places.items) then get_or self.now.places.items row end else end) }
    {
        match self.places.get(row as usize) {
            Some(place) => *place,
            None => end,
        }
    }
}
