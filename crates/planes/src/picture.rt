ghost use Rattle.std.specs.Prelude.{◌≡◌, ◌≤◌, ◌<◌, ℕ, IfOk, OnOk, OnErr, IsOk};
ghost use Rattle.std.specs.Borrow.{sem};
ghost use Rattle.planes.specs.Planes.{HasRow};

use crate::frame_planes::FramePlanes;
use crate::plane::SamplePlane;
use std::alloc::{AllocError, Global};
use vp9_types::{Depth, Plane, Sample, Samples, Shape};

/// The samples of a frame, and its shape. Its planes have all of its places of 8x8 luma samples, and what is shown of
/// them is their part of the shape.
#[derive(Drop)]
pub struct Picture<P: Sample> {
    shape: Shape,
    planes: FramePlanes<P>,
}

impl<P: Sample> Picture<P> {
    ghost use Rattle.planes.specs.Pictures.{FitsPlanes, HasSizes, IsBlank, plane_of};
    ghost use Rattle.planes.specs.Code.{LendsPlanes};

    /// A picture of zeros.
    pub fn new(alloc: Global, shape: Shape) -> Result<Picture<P>, AllocError>
        requires { FitsPlanes shape }
        ensures { IfOk result (λ p. IsBlank shape p) }
    {
        let planes = FramePlanes::new(alloc, &shape)?;
        Ok(Picture { shape, planes })
    }

    /// A picture of no samples, which needs no memory: it keeps the place of one that is lent out.
    pub fn none(alloc: Global) -> Picture<P> {
        let shape = Shape {
            w: 0,
            h: 0,
            depth: Depth::Eight,
            ss_x: false,
            ss_y: false,
        };
        let planes = FramePlanes {
            y: SamplePlane::none(alloc),
            u: SamplePlane::none(alloc),
            v: SamplePlane::none(alloc),
        };
        Picture { shape, planes }
    }

    pub fn shape(&self) -> Shape
        ensures { result ≡ self.now.shape }
    {
        self.shape
    }

    pub fn plane(&self, plane: Plane) -> &SamplePlane<P>
        ensures { result.now ≡ plane_of self.now.planes plane }
    {
        self.planes.plane(plane)
    }

    /// Its planes for writing.
    pub fn planes_mut(&mut self) -> &mut FramePlanes<P>
        ensures* writes_back { sem 𝓛 (LendsPlanes P.row P.Sample self.entry result) }
        ensures value { result.now ≡ self.old.planes }
    {
        &mut self.planes
    }

    /// Makes this a picture of zeros of another shape. Where the sizes are the same it needs no memory, and if there is
    /// not enough it stays as it was.
    pub fn renew(&mut self, alloc: Global, shape: Shape) -> Result<(), AllocError>
        requires { FitsPlanes shape }
        ensures blank { OnOk result (IsBlank shape self.new) }
        ensures kept { OnErr result (self.new ≡ self.old) }
        ensures again { HasSizes shape self.old.planes → IsOk result }
    {
        self.planes.renew(alloc, &shape)?;
        self.shape = shape;
        Ok(())
    }
}

impl<P: Sample> Samples for Picture<P> {
    type Kept = P;

    ghost use Rattle.planes.specs.Pictures.{plane_of, map_of};

    ghost holds = { λ f p y. HasRow (plane_of f.planes p).area y 0 (plane_of f.planes p).area.columns };

    ghost width = { λ f p. (plane_of f.planes p).area.columns };

    ghost map = { λ f. map_of f };

    fn row(&self, plane: Plane, y: u32) -> &[P] {
        let plane = self.planes.plane(plane);
        let columns = plane.area().columns;
        plane.row(y as usize, 0, columns)
    }

    #[inline(always)]
    fn rows(&self, plane: Plane, y: u32, count: usize) -> Option<(&[P], usize)> {
        Some(self.planes.plane(plane).rows(y as usize, count))
    }
}
