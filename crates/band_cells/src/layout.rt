//! Where bands lie in the planes of a frame.

ghost use Rattle.std.specs.Prelude.{◌≡◌, ◌<◌};
ghost use Rattle.vp9_types.specs.Shapes.{bands_of};
ghost use Rattle.planes.specs.Planes.{IsArea};
ghost use Rattle.planes.specs.Pictures.{FitsPlanes};
ghost use Rattle.band_cells.specs.Bands.{band_area, band_height};

use planes::Area;
use vp9_types::{Plane, Shape};

/// How many rows of a plane a band has, but for the last one.
#[inline(always)]
pub(crate) fn band_height(shape: &Shape, plane: Plane) -> u32
    ensures height { result ≡ band_height shape.now plane }
    ensures some { 0 < result }
{
    match plane {
        Plane::U | Plane::V if shape.ss_y => 32,
        _ => 64,
    }
}

/// Where the band with this number lies in a plane of a frame of this shape: its rows, with all columns that the plane is
/// decoded in.
pub fn band_area(shape: &Shape, plane: Plane, index: u32) -> Area
    requires size { FitsPlanes shape.now }
    requires index { index < bands_of shape.now }
    ensures value { result ≡ band_area shape.now plane index }
    ensures near { IsArea result }
{
    let height = band_height(shape, plane) as usize;
    let first_row = index as usize * height;
    let (columns, all) = shape.coded_size(plane);
    Area {
        first_row,
        first_column: 0,
        rows: height.min(all.saturating_sub(first_row)),
        columns,
    }
}
