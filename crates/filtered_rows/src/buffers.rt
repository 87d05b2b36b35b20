//! The buffer that awaits a row of superblocks, made from the one above it.

ghost use Rattle.std.specs.Prelude.{◌≡◌, ◌<◌, ◌-◌, ℕ, List, IfOk};
ghost use Rattle.std.specs.Option.{option_copied};
ghost use Rattle.vp9_types.specs.Maps.{FrameMap, IsAtMost};
ghost use Rattle.vp9_types.specs.Shapes.{mi_rows};
ghost use Rattle.vp9_types.specs.Sizes.{superblocks_along};
ghost use Rattle.block_plan.specs.declared.block.BlockInfo.{BlockInfo};
ghost use Rattle.planes.specs.Planes.{IsArea, plane_map};
ghost use Rattle.planes.specs.Pictures.{FitsPlanes, IsInRange};
ghost use Rattle.loop_edges.specs.declared.setting.EdgeSetting.{EdgeSetting};
ghost use Rattle.filter_rows.specs.Buffer.{buffer_area, StandsAt, AwaitsRow};
ghost use Rattle.filter_rows.specs.Code.{KeepsPending};
ghost use Rattle.filtered_rows.specs.Buffers.{StandsAbove, IsFilteredAbove};
ghost use Rattle.filtered_rows.specs.Code.{pending_part};

use filter_rows::new_buffer;
use loop_filter::sub_y;
use plane_parts::copy_part;
use planes::{Area, FramePlanes, SamplePlane, coded_area};
use std::alloc::{AllocError, Global};
use vp9_types::{Plane, Sample, Shape, halved};

// The rows of a plane that are pending for a row of superblocks.
fn pending_part(shape: &Shape, plane: Plane, row: u32) -> Area
    ensures { result ≡ pending_part shape.now plane row }
{
    let (columns, height) = shape.coded_size(plane);
    let own = halved(sub_y(shape, plane), 64 * row as usize);
    let first_row = own.saturating_sub(8);
    Area {
        first_row,
        first_column: 0,
        rows: height.min(own).saturating_sub(first_row),
        columns,
    }
}

// Copies them from the plane that the row above was filtered in to the one that awaits the row.
fn take_pending<P: Sample>(
    to: &mut SamplePlane<P>,
    from: &SamplePlane<P>,
    shape: &Shape,
    plane: Plane,
    row: u32,
)
    requires row { row < superblocks_along (mi_rows shape.now) }
    requires below { 0 < row }
    requires from { from.now.area ≡ buffer_area shape.now plane (row - 1) }
    requires to { to.old.area ≡ buffer_area shape.now plane row }
    ensures area { to.new.area ≡ to.old.area }
    ensures kept { KeepsPending shape.now plane row (plane_map from.now) (plane_map to.new) }
    ensures range { (most : ℕ) → IsAtMost most (plane_map from.now) → IsAtMost most (plane_map to.old) → IsAtMost most (plane_map to.new) }
{
    copy_part(to, from, &pending_part(shape, plane, row));
}

/// Makes this the buffer that awaits a row of superblocks: only the rows that are pending are copied, from the buffer that the row
/// above it was filtered in, which stays as it is. It stands at the row already, as the buffer of that row of an earlier frame does.
pub fn renew_buffer<P: Sample>(
    to: &mut FramePlanes<P>,
    shape: &Shape,
    row: u32,
    above: Option<&FramePlanes<P>>,
)
    requires row { row < superblocks_along (mi_rows shape.now) }
    requires above { StandsAbove shape.now row (option_copied above) }
    requires place { StandsAt shape.now row to.old }
    requires range { IsInRange shape.now.depth to.old }
    ensures place { StandsAt shape.now row to.new }
    ensures awaits { (f : EdgeSetting) (blocks : List BlockInfo) (raw : FrameMap) → f.shape ≡ shape.now →
        IsFilteredAbove f blocks raw row (option_copied above.entry) → AwaitsRow f blocks raw row to.new }
{
    if let Some(above) = above {
        take_pending(&mut to.y, &above.y, shape, Plane::Y, row);
        take_pending(&mut to.u, &above.u, shape, Plane::U, row);
        take_pending(&mut to.v, &above.v, shape, Plane::V, row);
    }
}

// Where the buffer of a plane stands at a row of superblocks, made of where it stands at the row above: it ends with the plane.
fn area_below(shape: &Shape, plane: Plane, row: u32, above: Area) -> Area
    requires size { FitsPlanes shape.now }
    requires above { above ≡ buffer_area shape.now plane (row - 1) }
    ensures value { result ≡ buffer_area shape.now plane row }
    ensures near { IsArea result }
{
    let height = coded_area(shape, plane).rows;
    let changed = halved(sub_y(shape, plane), 64 * row as usize).saturating_sub(8);
    Area {
        first_row: changed.min(height - above.rows),
        ..above
    }
}

/// As `renew_buffer`, in memory of its own.
pub fn next_buffer<P: Sample>(
    alloc: Global,
    shape: &Shape,
    row: u32,
    above: Option<&FramePlanes<P>>,
) -> Result<FramePlanes<P>, AllocError>
    requires size { FitsPlanes shape.now }
    requires row { row < superblocks_along (mi_rows shape.now) }
    requires above { StandsAbove shape.now row (option_copied above) }
    ensures place { IfOk result (λ planes. StandsAt shape.now row planes) }
    ensures awaits { IfOk result (λ planes. (f : EdgeSetting) (blocks : List BlockInfo) (raw : FrameMap) → f.shape ≡ shape.now →
        IsFilteredAbove f blocks raw row (option_copied above.entry) → AwaitsRow f blocks raw row planes) }
{
    let Some(before) = above else {
        return new_buffer(alloc, shape);
    };
    let mut planes = FramePlanes {
        y: SamplePlane::new(alloc, area_below(shape, Plane::Y, row, before.y.area()))?,
        u: SamplePlane::new(alloc, area_below(shape, Plane::U, row, before.u.area()))?,
        v: SamplePlane::new(alloc, area_below(shape, Plane::V, row, before.v.area()))?,
    };
    renew_buffer(&mut planes, shape, row, above);
    Ok(planes)
}
