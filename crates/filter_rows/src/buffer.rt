//! The buffer: where it stands in a frame.

ghost use Rattle.std.specs.Prelude.{◌≡◌, List, IfOk};
ghost use Rattle.vp9_types.specs.Maps.{FrameMap};
ghost use Rattle.block_plan.specs.declared.block.BlockInfo.{BlockInfo};
ghost use Rattle.planes.specs.Planes.{IsArea};
ghost use Rattle.planes.specs.Pictures.{FitsPlanes, samples_of, blank};
ghost use Rattle.loop_edges.specs.declared.setting.EdgeSetting.{EdgeSetting};
ghost use Rattle.filter_rows.specs.Buffer.{buffer_area, StandsAt, AwaitsRow};

use loop_filter::sub_y;
use planes::{Area, FramePlanes, SamplePlane, coded_area};
use std::alloc::{AllocError, Global};
use vp9_types::{Plane, Sample, Shape, halved};

// Where the buffer of a plane stands at a row of superblocks, or behind the last one.
fn buffer_area(shape: &Shape, plane: Plane, sr: u32) -> Area
    requires { FitsPlanes shape.now }
    ensures value { result ≡ buffer_area shape.now plane sr }
    ensures near { IsArea result }
{
    let whole = coded_area(shape, plane);
    let ss_y = sub_y(shape, plane);
    let rows = whole.rows.min(halved(ss_y, 64) + 8);
    let changed = halved(ss_y, 64 * (sr as usize)).saturating_sub(8);
    Area {
        first_row: changed.min(whole.rows - rows),
        first_column: 0,
        rows,
        columns: whole.columns,
    }
}

/// A buffer for frames of a shape, at the first row of superblocks: none is pending.
pub fn new_buffer<P: Sample>(alloc: Global, shape: &Shape) -> Result<FramePlanes<P>, AllocError>
    requires { FitsPlanes shape.now }
    ensures place { IfOk result (λ planes. StandsAt shape.now 0 planes) }
    ensures zero { IfOk result (λ planes. samples_of planes ≡ blank) }
    ensures first { IfOk result (λ planes. (f : EdgeSetting) (blocks : List BlockInfo) (raw : FrameMap) → f.shape ≡ shape.now → AwaitsRow f blocks raw 0 planes) }
{
    Ok(FramePlanes {
        y: SamplePlane::new(alloc, buffer_area(shape, Plane::Y, 0))?,
        u: SamplePlane::new(alloc, buffer_area(shape, Plane::U, 0))?,
        v: SamplePlane::new(alloc, buffer_area(shape, Plane::V, 0))?,
    })
}
