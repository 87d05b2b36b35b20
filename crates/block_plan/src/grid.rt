//! The blocks of some columns of a frame.

ghost use Rattle.std.specs.Prelude.{◌≡◌, ◌*◌, ◌-◌, ◌<◌, ◌≤◌, ◌++◌, ◌∷◌, [], length, vec_capacity, IfOk, IsOk, OnErr, OnOk};
ghost use Rattle.block_plan.specs.Grid.{GridOf, AgreesWith, NumbersBelow};

use crate::block::BlockInfo;
use crate::neighbours::Neighbours;
use crate::places::number_places;
use std::alloc::{AllocError, Global};
use std::marker::Model;

/// The blocks so far of some columns of a frame, and which of them stands at each place.
#[derive(Drop)]
pub struct BlockGrid {
    rows: u32,
    from: u32,
    to: u32,
    blocks: Vec<BlockInfo>,
    // Row by row, the last block that covers the place: 0 for none, else its index and 1.
    places: Vec<usize>,
}

impl Model for BlockGrid {
    ghost Value = { GridOf };

    ghost view = { λ g. record { rows = g.rows; from = g.from; to = g.to; room = vec_capacity g.blocks - length g.blocks.items; blocks = g.blocks.items } };

    ghost invariant = { λ g. (length g.places.items ≡ g.rows * (g.to - g.from))
        × NumbersBelow (length g.blocks.items) g.rows (g.to - g.from) g.places.items
        × AgreesWith g.blocks.items g.rows g.from (g.to - g.from) g.places.items };
}

impl BlockGrid {
    /// No blocks, of the columns `from` to `to`, the last excluded, of a frame of so many rows, all in places of 8x8 luma
    /// samples. There is room for so many blocks.
    pub fn new(
        alloc: Global,
        rows: u32,
        from: u32,
        to: u32,
        room: usize,
    ) -> Result<BlockGrid, AllocError>
        requires { from ≤ to }
        ensures { IfOk result (λ g. g ≡ record { rows = rows; from = from; to = to; room = room; blocks = [] }) }
    {
        let count = rows as usize * (to - from) as usize;
        let blocks = Vec::with_capacity(alloc, room)?;
        let places = Vec::from_elem(alloc, 0, count)?;
        Ok(BlockGrid {
            rows,
            from,
            to,
            blocks,
            places,
        })
    }

    /// Makes this a grid of no blocks, of other columns. It takes no memory where it has enough, and if there is not enough
    /// it stays as it was.
    pub fn renew(
        &mut self,
        alloc: Global,
        rows: u32,
        from: u32,
        to: u32,
        room: usize,
    ) -> Result<(), AllocError>
        requires { from ≤ to }
        ensures grid { OnOk result (self.new ≡ record { rows = rows; from = from; to = to; room = self.new.room; blocks = [] }) }
        ensures room { OnOk result (room ≤ self.new.room) }
        ensures kept { OnErr result (self.new ≡ self.old) }
        ensures again { rows * (to - from) ≡ self.old.rows * (self.old.to - self.old.from) → room ≤ self.old.room → IsOk result }
    {
        let count = rows as usize * (to - from) as usize;
        if self.places.len() != count || self.blocks.capacity() < room {
            *self = BlockGrid::new(alloc, rows, from, to, room)?;
            return Ok(());
        }
        self.blocks.clear();
        self.places.fill(0);
        self.rows = rows;
        self.from = from;
        self.to = to;
        Ok(())
    }

    /// The next block, which starts at a place of these columns.
    pub fn put(&mut self, block: BlockInfo)
        requires room { 0 < self.old.room }
        requires row { block.row < self.old.rows }
        requires first { self.old.from ≤ block.col }
        requires last { block.col < self.old.to }
        ensures { self.new ≡ record self.old { room = self.old.room - 1; blocks = self.old.blocks ++ block ∷ [] } }
    {
        self.blocks.push_reserved(block);
        let number = self.blocks.len();
        number_places(
            &mut self.places,
            &block,
            self.rows,
            self.from,
            self.to - self.from,
            number,
        );
    }

    /// The first of its columns, in places of 8x8 luma samples.
    #[inline(always)]
    pub fn first_col(&self) -> u32
        ensures { result ≡ self.now.from }
    {
        self.from
    }

    /// The blocks in order.
    pub fn blocks(&self) -> &[BlockInfo]
        ensures { result.now ≡ self.now.blocks }
    {
        &self.blocks
    }
}

impl Neighbours for BlockGrid {
    ghost use Rattle.block_plan.specs.Grid.{IsInGrid};

    ghost blocks = { λ g. g.blocks };

    ghost holds = { λ g r c. IsInGrid g r c };

    fn at(&self, row: u32, col: u32) -> Option<&BlockInfo> {
        let place = row as usize * (self.to - self.from) as usize + (col - self.from) as usize;
        let number = self.places[place];
        if number == 0 {
            return None;
        }
        self.blocks.get(number - 1)
    }
}
