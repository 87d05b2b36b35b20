//! A frame read from the buffers that its rows of superblocks were filtered in.

ghost use Rattle.std.specs.Prelude.{◌≡◌, ◌/◌, length, map};
ghost use Rattle.band_cells.specs.Bands.{band_height};
ghost use Rattle.filtered_rows.specs.BufferRows.{HoldRows};
ghost use Rattle.filtered_rows.specs.Code.{rows_from};

use band_cells::Meaning;
use planes::FramePlanes;
use std::marker::{Model, PhantomData};
use vp9_types::{Plane, Sample, Samples, Shape};

/// Rows of a frame, in the buffers of some of its rows of superblocks, which lie apart and are lent. A row is read where it is. Contracts see
/// which rows of superblocks they are.
#[derive(Drop)]
pub struct FilteredFrame<'a, P: Sample, M: Meaning> {
    frame: u64,
    shape: Shape,
    first: u32,
    last: u32,
    buffers: &'a [&'a FramePlanes<P>],
    of: PhantomData<M>,
}

impl<'a, P: Sample, M: Meaning> Model for FilteredFrame<'a, P, M> {
    ghost use Rattle.std.specs.Prelude.{◌≡◌, ◌-◌, length, map};
    ghost use Rattle.vp9_types.specs.Shapes.{mi_rows};
    ghost use Rattle.vp9_types.specs.Sizes.{superblocks_along};
    ghost use Rattle.filtered_rows.specs.BufferRows.{RowSpan, HoldRows};
    ghost use Rattle.filtered_rows.specs.Code.{rows_from};

    ghost Value = { RowSpan };

    ghost view = { λ v. rows_from v.frame v.first (length v.buffers.now) };

    ghost invariant = { λ v. (v.shape ≡ (M.pictures v.frame).shape)
        × (v.last ≡ superblocks_along (mi_rows v.shape) - 1)
        × (HoldRows (M.pictures v.frame) v.first (map (λ b. b.now) v.buffers.now)) };
}

// How many rows of superblocks so many rows of a plane fill.
#[inline(always)]
fn filled_rows(shape: &Shape, plane: Plane, rows: usize) -> usize
    ensures { result ≡ rows / band_height shape.now plane }
{
    match plane {
        Plane::U | Plane::V if shape.ss_y => rows / 32,
        _ => rows / 64,
    }
}

impl<'a, P: Sample, M: Meaning> FilteredFrame<'a, P, M> {
    /// The rows of a frame in these buffers, the first of which is that of row `first` of superblocks. The pictures are `M`'s.
    pub fn new(
        frame: u64,
        shape: Shape,
        first: u32,
        buffers: &'a [&'a FramePlanes<P>],
    ) -> FilteredFrame<'a, P, M>
        requires shape { shape ≡ (M.pictures frame).shape }
        requires rows { HoldRows (M.pictures frame) first (map (λ b. b.now) buffers.now) }
        ensures { result ≡ rows_from frame first (length buffers.now) }
    {
        FilteredFrame {
            frame,
            shape,
            first,
            last: shape.superblock_rows().saturating_sub(1),
            buffers,
            of: PhantomData,
        }
    }
}

impl<'a, P: Sample, M: Meaning> Samples for FilteredFrame<'a, P, M> {
    type Kept = P;

    ghost use Rattle.filtered_rows.specs.Code.{held_in, width_in, map_in};

    ghost holds = { λ rows p y. held_in M.pictures rows p y };

    ghost width = { λ rows p. width_in M.pictures rows p };

    ghost map = { λ rows. map_in M.pictures rows };

    #[inline(always)]
    fn row(&self, plane: Plane, y: u32) -> &[P] {
        let row = filled_rows(&self.shape, plane, y as usize + 8).min(self.last as usize);
        let samples = self.buffers[row - self.first as usize].plane(plane);
        let columns = samples.area().columns;
        samples.row(y as usize, 0, columns)
    }

    #[inline(always)]
    fn rows(&self, plane: Plane, y: u32, count: usize) -> Option<(&[P], usize)> {
        let last = self.last as usize;
        let from = y as usize + 8;
        let row = filled_rows(&self.shape, plane, from).min(last);
        let end = filled_rows(&self.shape, plane, from + count - 1).min(last);
        if row == end {
            let samples = self.buffers[row - self.first as usize].plane(plane);
            Some(samples.rows(y as usize, count))
        } else {
            None
        }
    }
}
