ghost use Rattle.std.specs.Prelude.{◌≡◌, ◌+◌, ◌≤◌, ◌<◌, ℕ, IfSome, map as each};
ghost use Rattle.vp9_types.specs.Maps.{FrameMap, IsPiece, row_of};

use crate::sample::Sample;
use crate::shape::Plane;

/// The rows of a frame, whoever holds them.
pub trait Samples {
    ghost use Rattle.vp9_types.specs.declared.shape.Plane.{Plane};

    /// What it keeps a sample as.
    type Kept: Sample;

    /// Which rows may be asked for.
    ghost holds: { Self → Plane → ℕ → Type 0 };

    /// How many samples a row of a plane has.
    ghost width: { Self → Plane → ℕ };

    /// The sample at each plane, row and column.
    ghost map: { Self → FrameMap };

    /// A row of a plane.
    fn row(&self, plane: Plane, y: u32) -> &[Self::Kept]
        requires { holds self.now plane y }
        ensures { each Self.Kept.value result.now ≡ row_of (map self.now plane) y 0 (width self.now plane) };

    /// So many rows of a plane from one on, if they lie in one piece, and how far each of them begins behind the one above.
    /// `None` says nothing of the rows.
    fn rows(&self, plane: Plane, y: u32, count: usize) -> Option<(&[Self::Kept], usize)>
        requires some { 0 < count }
        requires few { count ≤ 256 }
        requires held { (r : ℕ) → r < count → holds self.now plane (y + r) }
        ensures { IfSome result (λ p. IsPiece (map self.now plane) (width self.now plane) y count (each Self.Kept.value p.0.now) p.1) }
    {
        None
    }
}
