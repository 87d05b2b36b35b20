//! The map.

ghost use Rattle.std.specs.Prelude.{◌≡◌, ◌*◌, ◌<◌, ◌≤◌, IfOk, IsOk, OnErr, OnOk, length};
ghost use Rattle.vp9_types.specs.Maps.{with_block};
ghost use Rattle.block_geometry.specs.Parts.{part_inside};
ghost use Rattle.block_geometry.specs.declared.transform_blocks.FramePlaces.{FramePlaces};
ghost use Rattle.block_plan.specs.SegmentMaps.{SegmentIds, id_map, least_id};

use crate::segment_ids::{least_in, put_in};
use block_geometry::{FramePlaces, part_inside};
use std::alloc::{AllocError, Global};
use std::marker::Model;
use vp9_types::BlockSize;

/// A segment id for each place of 8x8 luma samples of a frame.
#[derive(Drop)]
pub struct SegmentMap {
    frame: FramePlaces,
    ids: Vec<u8>,
}

impl Model for SegmentMap {
    ghost Value = { SegmentIds };

    ghost view = { λ m. record { rows = m.frame.rows; cols = m.frame.cols; ids = m.ids.items } };

    ghost invariant = { λ m. length m.ids.items ≡ m.frame.rows * m.frame.cols };
}

impl SegmentMap {
    /// The map of a frame of so many rows and columns, with the id 0 everywhere.
    pub fn new(alloc: Global, rows: u32, cols: u32) -> Result<SegmentMap, AllocError>
        ensures rows { IfOk result (λ m. m.rows ≡ rows) }
        ensures cols { IfOk result (λ m. m.cols ≡ cols) }
        ensures zero { IfOk result (λ m. id_map m ≡ (λ _ _. 0)) }
    {
        let ids = Vec::from_elem(alloc, 0, rows as usize * cols as usize)?;
        Ok(SegmentMap {
            frame: FramePlaces { rows, cols },
            ids,
        })
    }

    /// Makes this the map of a frame of so many rows and columns, with the id 0 everywhere. It takes no memory where it has as
    /// many places, and if there is not enough it stays as it was.
    pub fn renew(&mut self, alloc: Global, rows: u32, cols: u32) -> Result<(), AllocError>
        ensures rows { OnOk result (self.new.rows ≡ rows) }
        ensures cols { OnOk result (self.new.cols ≡ cols) }
        ensures zero { OnOk result (id_map self.new ≡ (λ _ _. 0)) }
        ensures kept { OnErr result (self.new ≡ self.old) }
        ensures again { rows * cols ≡ self.old.rows * self.old.cols → IsOk result }
    {
        if self.ids.len() != rows as usize * cols as usize {
            *self = SegmentMap::new(alloc, rows, cols)?;
            return Ok(());
        }
        self.ids.fill(0);
        self.frame = FramePlaces { rows, cols };
        Ok(())
    }

    /// The same map once more.
    pub fn copied(&self, alloc: Global) -> Result<SegmentMap, AllocError>
        ensures { IfOk result (λ m. m ≡ self.now) }
    {
        let mut ids = Vec::with_capacity(alloc, self.ids.len())?;
        ids.extend_from_slice(&self.ids)?;
        Ok(SegmentMap {
            frame: self.frame,
            ids,
        })
    }

    /// The least id over the part of a block inside the map. The block starts there.
    pub fn predicted(&self, row: u32, col: u32, size: BlockSize) -> u8
        requires row { row < self.now.rows }
        requires col { col < self.now.cols }
        ensures { result ≡ least_id (id_map self.now) (part_inside (record { rows = self.now.rows; cols = self.now.cols }) row col size) }
    {
        let part = part_inside(self.frame, row, col, size);
        least_in(&self.ids, self.frame.cols as usize, part)
    }

    /// Puts an id, 0 to 7, at each place of the part of a block inside the map. The block starts there.
    pub fn set(&mut self, row: u32, col: u32, size: BlockSize, id: u8)
        requires row { row < self.old.rows }
        requires col { col < self.old.cols }
        requires id { id < 8 }
        ensures rows { self.new.rows ≡ self.old.rows }
        ensures cols { self.new.cols ≡ self.old.cols }
        ensures map { let part = part_inside (record { rows = self.old.rows; cols = self.old.cols }) row col size in
            id_map self.new ≡ with_block (id_map self.old) part.row part.col part.rows part.cols (λ _ _. id) }
    {
        let part = part_inside(self.frame, row, col, size);
        put_in(&mut self.ids, self.frame.cols as usize, part, id);
    }
}
