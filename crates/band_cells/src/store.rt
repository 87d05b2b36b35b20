ghost use Rattle.std.specs.Prelude.{◌≡◌, ◌<◌, ◌≤◌, Some, IfOk, IsOk, OnOk, map, slice_get, vec_capacity};
ghost use Rattle.vp9_types.specs.Shapes.{bands_of};
ghost use Rattle.band_cells.specs.Code.{name_of, span_length, AreBandsOf};

use crate::band::Band;
use crate::cell::BandCell;
use crate::meaning::Meaning;
use std::alloc::{AllocError, Global};
use std::marker::Model;
use std::sync::Wait;
use std::thread;
use vp9_types::{BandSpan, Sample, Shape};

/// The cells of the bands of one frame.
#[derive(Drop)]
pub struct Store<M: Meaning, P: Sample> {
    frame: u64,
    shape: Shape,
    cells: Vec<BandCell<M, P>>,
}

impl<M: Meaning, P: Sample> Model for Store<M, P> {
    ghost use Rattle.std.specs.Prelude.{◌≡◌, map};
    ghost use Rattle.std.specs.List.{range_with_len};
    ghost use Rattle.vp9_types.specs.Shapes.{bands_of};
    ghost use Rattle.band_cells.specs.Code.{StoreParts, name_of};

    ghost Value = { StoreParts };

    ghost view = { λ s. record { frame = s.frame; shape = s.shape; cells = s.cells.items } };

    ghost invariant = { λ s. (s.shape ≡ (M.pictures s.frame).shape)
        × (map (λ c. c.name) s.cells.items ≡ map (name_of s.frame) (range_with_len 0 (bands_of s.shape))) };
}

impl<M: Meaning, P: Sample> Store<M, P> {
    /// Empty cells for the bands of a frame of this shape, which is what `M` says of the frame.
    pub fn new(alloc: Global, frame: u64, shape: &Shape) -> Result<Store<M, P>, AllocError>
        requires { shape.now ≡ (M.pictures frame).shape }
        ensures { IfOk result (λ s. (s.frame ≡ frame) × (s.shape ≡ shape.now)) }
    {
        let bands = shape.bands();
        let mut cells = Vec::with_capacity(alloc, bands as usize)?;
        for index in 0..bands {
            cells.push_reserved(BandCell::new(alloc, frame, index));
        }
        Ok(Store {
            frame,
            shape: *shape,
            cells,
        })
    }

    /// The number of the frame.
    pub fn frame(&self) -> u64
        ensures { result ≡ self.now.frame }
    {
        self.frame
    }

    /// The shape of the frame.
    pub fn shape(&self) -> &Shape
        ensures shape { result.now ≡ self.now.shape }
        ensures meant { self.now.shape ≡ (M.pictures self.now.frame).shape }
    {
        &self.shape
    }

    /// How many bands the frame has.
    pub fn bands(&self) -> u32
        ensures { result ≡ bands_of self.now.shape }
    {
        self.shape.bands()
    }

    /// The cell of a band.
    pub fn cell(&self, index: u32) -> &BandCell<M, P>
        requires { index < bands_of self.now.shape }
        ensures cell { slice_get self.now.cells index ≡ Some result.now }
        ensures name { result.now.name ≡ name_of self.now.frame index }
    {
        &self.cells[index as usize]
    }

    // A band, which is waited for if it isn't there yet.
    fn wait_for<'a, R: Wait>(&'a self, rt: &R, index: u32) -> &'a Band<M, P>
        requires { index < bands_of self.now.shape }
        ensures { result.now ≡ Some (name_of self.now.frame index) }
    {
        let cell = self.cell(index);
        let mut note = cell.note();
        for _ in rt.forever() {
            if let Some(band) = cell.look(&mut note) {
                return band;
            }
            thread::yield_now();
        }
        unreachable!()
    }

    /// Looks up the bands of a span of the frame, for `BandRows`. One that isn't there yet is waited for. They take the place
    /// of those that were listed before, whose room is used again.
    pub fn look_up<'a, R: Wait>(
        &'a self,
        rt: &R,
        span: BandSpan,
        bands: &mut Vec<&'a Band<M, P>>,
    ) -> Result<(), AllocError>
        requires frame { span.frame ≡ self.now.frame }
        requires last { span.last < bands_of self.now.shape }
        ensures found { OnOk result (AreBandsOf span (map (λ b. b.now) bands.new.items)) }
        ensures room { vec_capacity bands.old ≤ vec_capacity bands.new }
        ensures again { span_length span ≤ vec_capacity bands.old → IsOk result }
    {
        // Their number bounds the sum.
        let _all = self.bands();
        bands.clear();
        let end = span.last + 1;
        bands.reserve(end.saturating_sub(span.first) as usize)?;
        for index in span.first..end {
            bands.push_reserved(self.wait_for(rt, index));
        }
        Ok(())
    }
}
