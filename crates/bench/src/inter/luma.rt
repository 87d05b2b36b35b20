//! A reference of one plane.

ghost use Rattle.planes.specs.Planes.{HasRow, plane_map};

use planes::SamplePlane;
use vp9_types::{Plane, Samples};

/// The same samples in each plane.
#[derive(Drop)]
pub struct Luma {
    pub plane: SamplePlane<u8>,
}

impl Samples for Luma {
    type Kept = u8;

    ghost holds = { λ f p y. HasRow f.plane.area y 0 f.plane.area.columns };

    ghost width = { λ f p. f.plane.area.columns };

    ghost map = { λ f p. plane_map f.plane };

    fn row(&self, plane: Plane, y: u32) -> &[u8] {
        self.plane.row(y as usize, 0, self.plane.area().columns)
    }

    fn rows(&self, plane: Plane, y: u32, count: usize) -> Option<(&[u8], usize)> {
        Some(self.plane.rows(y as usize, count))
    }
}
