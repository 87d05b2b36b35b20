ghost use Rattle.std.specs.Prelude.{◌≡◌, ◌+◌, ◌≤◌, ◌<◌, ℕ, Some, None, IfSome, map};
ghost use Rattle.band_cells.specs.Bands.{IsRowOf};
ghost use Rattle.band_cells.specs.Code.{AreSamplesOf, HasRow, IsPieceOf, picture_row, name_of};

use crate::meaning::Meaning;
use crate::samples::{BandName, BandSamples};
use std::marker::{Model, PhantomData};
use vp9_types::{Plane, Sample};

// The samples are those of the band that the name names.
#[derive(Drop)]
struct Filled<M: Meaning, P: Sample> {
    name: BandName,
    samples: BandSamples<P>,
    of: PhantomData<M>,
    ghost are_meant: { AreSamplesOf (M.pictures name.frame) name.index samples },
}

impl<M: Meaning, P: Sample> Filled<M, P> {
    fn new(name: BandName, samples: BandSamples<P>) -> Filled<M, P>
        requires { AreSamplesOf (M.pictures name.frame) name.index samples }
        ensures { result.name ≡ name }
    {
        Filled {
            name,
            samples,
            of: PhantomData,
        }
    }

    #[inline(always)]
    fn row(&self, plane: Plane, y: u32) -> &[P]
        requires { IsRowOf (M.pictures self.now.name.frame).shape plane self.now.name.index y }
        ensures { map P.value result.now ≡ picture_row (M.pictures self.now.name.frame) plane y }
    {
        let samples = self.samples.planes.plane(plane);
        let columns = samples.area().columns;
        samples.row(y as usize, 0, columns)
    }

    #[inline(always)]
    fn rows(&self, plane: Plane, y: u32, count: usize) -> (&[P], usize)
        requires some { 0 < count }
        requires few { count ≤ 256 }
        requires rows { (r : ℕ) → r < count → IsRowOf (M.pictures self.now.name.frame).shape plane self.now.name.index (y + r) }
        ensures { IsPieceOf (M.pictures self.now.name.frame) plane y count (map P.value result.0.now) result.1 }
    {
        self.samples.planes.plane(plane).rows(y as usize, count)
    }
}

/// A band of a frame, or a blank one. Contracts see it as its name; its samples are those that `M` has there.
#[derive(Drop)]
pub struct Band<M: Meaning, P: Sample> {
    filled: Option<Filled<M, P>>,
}

impl<M: Meaning, P: Sample> Model for Band<M, P> {
    ghost use Rattle.std.specs.Prelude.{Option};
    ghost use Rattle.std.specs.Option.{option_map};
    ghost use Rattle.band_cells.specs.declared.samples.BandName.{BandName};

    ghost Value = { Option BandName };

    ghost view = { λ b. option_map (λ f. f.name) b.filled };
}

impl<M: Meaning, P: Sample> Band<M, P> {
    /// A band without a name, to be filled.
    pub fn blank() -> Band<M, P>
        ensures { result ≡ None }
    {
        Band { filled: None }
    }

    /// Makes it this band of this frame. The samples are `M`'s.
    pub fn fill(&mut self, frame: u64, index: u32, samples: BandSamples<P>)
        requires { AreSamplesOf (M.pictures frame) index samples }
        ensures { self.new ≡ Some (name_of frame index) }
    {
        self.filled = Some(Filled::new(BandName { frame, index }, samples));
    }

    /// Its name, or nothing where it is blank.
    pub fn name(&self) -> Option<BandName>
        ensures { result ≡ self.now }
    {
        match &self.filled {
            Some(filled) => Some(filled.name),
            None => None,
        }
    }

    /// A row of a plane: `y` counts the rows of the frame. The band isn't blank, and has the row.
    #[inline(always)]
    pub fn row(&self, plane: Plane, y: u32) -> &[P]
        requires { HasRow M.pictures self.now plane y }
        ensures { IfSome self.now (λ name. map P.value result.now ≡ picture_row (M.pictures name.frame) plane y) }
    {
        match &self.filled {
            Some(filled) => filled.row(plane, y),
            None => unreachable!(),
        }
    }

    /// So many rows of a plane from row `y` on, which the band has, and how far each begins behind the one above.
    #[inline(always)]
    pub fn rows(&self, plane: Plane, y: u32, count: usize) -> (&[P], usize)
        requires some { 0 < count }
        requires few { count ≤ 256 }
        requires rows { (r : ℕ) → r < count → HasRow M.pictures self.now plane (y + r) }
        ensures { IfSome self.now (λ name. IsPieceOf (M.pictures name.frame) plane y count (map P.value result.0.now) result.1) }
    {
        match &self.filled {
            Some(filled) => filled.rows(plane, y, count),
            None => unreachable!(),
        }
    }
}
