//! Bands whose samples are all the same.

ghost use Rattle.std.specs.Prelude.{◌≡◌, ◌≤◌, ◌<◌, ℕ, IfOk, OnOk};
ghost use Rattle.vp9_types.specs.Shapes.{bands_of};
ghost use Rattle.planes.specs.Planes.{plane_map, lower_end, right_end};
ghost use Rattle.planes.specs.Pictures.{FitsPlanes};
ghost use Rattle.band_cells.specs.Code.{AreSamplesOf};

use band_cells::BandSamples;
use planes::SamplePlane;
use std::alloc::{AllocError, Global};
use vp9_types::Shape;

fn fill(alloc: Global, plane: &mut SamplePlane<u16>, number: u16) -> Result<(), AllocError>
    ensures area { plane.new.area ≡ plane.old.area }
    ensures filled { OnOk result ((y x : ℕ) → plane.old.area.first_row ≤ y → y < lower_end plane.old.area →
        plane.old.area.first_column ≤ x → x < right_end plane.old.area → plane_map plane.new y x ≡ number) }
{
    let area = plane.area();
    let block = Vec::from_elem(alloc, number, area.rows * area.columns)?;
    plane.put_block(
        area.first_row,
        area.first_column,
        area.rows,
        area.columns,
        &block,
    );
    Ok(())
}

/// The samples of a band of a frame of this shape, all of whose samples are this number.
pub(crate) fn filled_band(
    alloc: Global,
    shape: &Shape,
    index: u32,
    number: u16,
) -> Result<BandSamples<u16>, AllocError>
    requires size { FitsPlanes shape.now }
    requires index { index < bands_of shape.now }
    ensures { IfOk result (λ samples. AreSamplesOf (record { shape = shape.now; map = λ _ _ _. number }) index samples) }
{
    let mut samples = BandSamples::new(alloc, shape, index)?;
    fill(alloc, &mut samples.planes.y, number)?;
    fill(alloc, &mut samples.planes.u, number)?;
    fill(alloc, &mut samples.planes.v, number)?;
    Ok(samples)
}
