ghost use Rattle.std.specs.Prelude.{◌≡◌, ◌≤◌, ℕ, IfOk, OnOk, OnErr, IsOk, MatchBool};
ghost use Rattle.planes.specs.Planes.{IsArea};
ghost use Rattle.planes.specs.Pictures.{FitsPlanes, coded_area};

use crate::area::Area;
use crate::plane::SamplePlane;
use std::alloc::{AllocError, Global};
use vp9_types::{Plane, Sample, Shape, halved};

/// The three planes of a frame.
#[derive(Drop)]
pub struct FramePlanes<P: Sample> {
    pub y: SamplePlane<P>,
    pub u: SamplePlane<P>,
    pub v: SamplePlane<P>,
}

impl<P: Sample> FramePlanes<P> {
    ghost use Rattle.planes.specs.Pictures.{HasSizes, plane_of, samples_of, blank};

    /// Zeros, with all places of 8x8 luma samples of a frame.
    pub fn new(alloc: Global, shape: &Shape) -> Result<FramePlanes<P>, AllocError>
        requires { FitsPlanes shape.now }
        ensures sizes { IfOk result (λ f. HasSizes shape.now f) }
        ensures zero { IfOk result (λ f. samples_of f ≡ blank) }
    {
        Ok(FramePlanes {
            y: SamplePlane::new(alloc, coded_area(shape, Plane::Y))?,
            u: SamplePlane::new(alloc, coded_area(shape, Plane::U))?,
            v: SamplePlane::new(alloc, coded_area(shape, Plane::V))?,
        })
    }

    pub fn plane(&self, plane: Plane) -> &SamplePlane<P>
        ensures { result.now ≡ plane_of self.now plane }
    {
        match plane {
            Plane::Y => &self.y,
            Plane::U => &self.u,
            Plane::V => &self.v,
        }
    }

    /// All zeros.
    pub fn clear(&mut self)
        ensures sizes { (shape : Shape) → HasSizes shape self.old → HasSizes shape self.new }
        ensures zero { samples_of self.new ≡ blank }
    {
        self.y.clear();
        self.u.clear();
        self.v.clear();
    }

    /// Makes these planes of zeros of a frame. Where the sizes are the same they need no memory, and if there is not
    /// enough they stay as they were.
    pub fn renew(&mut self, alloc: Global, shape: &Shape) -> Result<(), AllocError>
        requires { FitsPlanes shape.now }
        ensures sizes { OnOk result (HasSizes shape.now self.new) }
        ensures zero { OnOk result (samples_of self.new ≡ blank) }
        ensures kept { OnErr result (self.new ≡ self.old) }
        ensures again { HasSizes shape.now self.old → IsOk result }
    {
        if self.has_sizes(shape) {
            self.clear();
            return Ok(());
        }
        *self = FramePlanes::new(alloc, shape)?;
        Ok(())
    }

    /// Whether these are planes of a frame of this shape.
    pub fn has_sizes(&self, shape: &Shape) -> bool
        requires { FitsPlanes shape.now }
        ensures { MatchBool result (HasSizes shape.now self.now) (¬ (HasSizes shape.now self.now)) }
    {
        self.y.area() == coded_area(shape, Plane::Y)
            && self.u.area() == coded_area(shape, Plane::U)
            && self.v.area() == coded_area(shape, Plane::V)
    }
}

/// A plane of a frame, with all of its places of 8x8 luma samples.
pub fn coded_area(shape: &Shape, plane: Plane) -> Area
    requires { FitsPlanes shape.now }
    ensures value { result ≡ coded_area shape.now plane }
    ensures near { IsArea result }
{
    let (columns, rows) = shape.coded_size(plane);
    Area::whole(rows, columns)
}
