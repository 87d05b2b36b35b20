ghost use Rattle.std.specs.Prelude.{◌≡◌, ◌<◌, IfOk};
ghost use Rattle.vp9_types.specs.Shapes.{bands_of};
ghost use Rattle.planes.specs.Pictures.{FitsPlanes, samples_of, blank};
ghost use Rattle.band_cells.specs.Code.{LieIn};

use crate::layout::band_area;
use planes::{FramePlanes, SamplePlane};
use std::alloc::{AllocError, Global};
use vp9_types::{Plane, Sample, Shape};

/// Which band it is: of the frame of this number, counted from 0.
#[derive(Clone, Copy, Debug, PartialEq, Eq)]
pub struct BandName {
    pub frame: u64,
    pub index: u32,
}

/// The samples of a band in each plane, with all columns that the plane is decoded in.
#[derive(Drop)]
pub struct BandSamples<P: Sample> {
    /// The shape of the frame.
    pub shape: Shape,
    pub planes: FramePlanes<P>,
}

impl<P: Sample> BandSamples<P> {
    /// Zeros, with the rows of this band of a frame of this shape.
    pub fn new(alloc: Global, shape: &Shape, index: u32) -> Result<BandSamples<P>, AllocError>
        requires size { FitsPlanes shape.now }
        requires index { index < bands_of shape.now }
        ensures shape { IfOk result (λ samples. samples.shape ≡ shape.now) }
        ensures place { IfOk result (λ samples. LieIn shape.now index samples.planes) }
        ensures zero { IfOk result (λ samples. samples_of samples.planes ≡ blank) }
    {
        let planes = FramePlanes {
            y: SamplePlane::new(alloc, band_area(shape, Plane::Y, index))?,
            u: SamplePlane::new(alloc, band_area(shape, Plane::U, index))?,
            v: SamplePlane::new(alloc, band_area(shape, Plane::V, index))?,
        };
        Ok(BandSamples {
            shape: *shape,
            planes,
        })
    }
}
