//! Who has the samples before the filter.

ghost use Rattle.std.specs.Prelude.{◌≡◌, ℕ};
ghost use Rattle.vp9_types.specs.Maps.{FrameMap, IsAtMost};
ghost use Rattle.vp9_types.specs.Sizes.{greatest};
ghost use Rattle.vp9_types.specs.declared.shape.Shape.{Shape as FrameShape};
ghost use Rattle.planes.specs.Planes.{plane_map};
ghost use Rattle.planes.specs.Pictures.{FitsPlanes};
ghost use Rattle.loop_filter.specs.Code.{HasFilterRows};
ghost use Rattle.filter_rows.specs.Code.{HasPut};

use planes::SamplePlane;
use vp9_types::{Plane, Sample, Shape};

/// The samples of a frame before the filter, whoever holds them: as strips of tile columns, or whole.
pub trait Strips {
    /// What a sample is kept as.
    type Kept: Sample;

    /// The frame before the filter.
    ghost raw: { Self → FrameMap };

    /// Which rows of superblocks of a frame of a shape may be asked for.
    ghost holds: { Self → FrameShape → ℕ → Type 0 };

    /// Puts the samples of a row of superblocks into a plane that has room for them.
    fn put_row(&self, to: &mut SamplePlane<Self::Kept>, shape: &Shape, plane: Plane, sr: u32)
        requires size { FitsPlanes shape.now }
        requires held { holds self.now shape.now sr }
        requires room { HasFilterRows shape.now plane sr to.old.area }
        requires range { IsAtMost (greatest shape.now.depth) (plane_map to.old) }
        ensures area { to.new.area ≡ to.old.area }
        ensures rows { HasPut shape.now plane sr (raw self.now plane) (plane_map to.old) (plane_map to.new) }
        ensures range { IsAtMost (greatest shape.now.depth) (plane_map to.new) };
}
