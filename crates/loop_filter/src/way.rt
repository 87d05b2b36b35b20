//! A pass over a plane.

ghost use Rattle.std.specs.Prelude.{◌≡◌};
ghost use Rattle.loop_edges.specs.Cells.{sub_x, sub_y};

use line_filter::Pass;
use vp9_types::{Plane, Shape};

/// A pass over a plane.
#[derive(Clone, Copy, Debug, PartialEq, Eq)]
pub struct PlanePass {
    pub plane: Plane,
    pub pass: Pass,
}

/// Whether a plane has half of the luma's columns.
#[inline(always)]
pub(crate) fn sub_x(shape: &Shape, plane: Plane) -> bool
    ensures { result ≡ sub_x shape.now plane }
{
    plane != Plane::Y && shape.ss_x
}

/// Whether a plane has half of the luma's rows.
#[inline(always)]
pub fn sub_y(shape: &Shape, plane: Plane) -> bool
    ensures { result ≡ sub_y shape.now plane }
{
    plane != Plane::Y && shape.ss_y
}
