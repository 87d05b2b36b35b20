//! The strips, and how a row of superblocks is put together of them.

ghost use Rattle.std.specs.Prelude.{◌≡◌, ◌≤◌, ◌<◌, ℕ};
ghost use Rattle.vp9_types.specs.Maps.{FrameMap, IsAtMost};
ghost use Rattle.vp9_types.specs.Shapes.{mi_rows};
ghost use Rattle.vp9_types.specs.Sizes.{superblocks_along};
ghost use Rattle.planes.specs.Planes.{lower_end, plane_map};
ghost use Rattle.planes.specs.Pictures.{FitsPlanes};
ghost use Rattle.plane_parts.specs.PlaneParts.{HasPart, LiesIn};
ghost use Rattle.loop_filter.specs.Laws.{first_own};
ghost use Rattle.column_strips.specs.StripRows.{rows_from};

use filter_rows::Strips;
use loop_filter::sub_y;
use plane_parts::copy_part;
use planes::{Area, FramePlanes, SamplePlane};
use std::marker::{Brand, PhantomData};
use vp9_types::{Plane, Sample, Shape, halved};

/// A frame before the loop filter. It holds nothing at run time, and only names the frame's samples.
pub trait RawFrame {
    /// Plane, row, column, sample.
    ghost raw: { FrameMap };
}

/// A call that filters a frame picks its samples.
impl RawFrame for Brand {
    ghost raw = { λ _ _ _. 0 };
}

/// The strips of the tile columns of a frame in one of its rows of superblocks, the k-th of the k-th tile column.
#[derive(Drop)]
pub struct ColumnStrips<'a, P: Sample, F> {
    pub strips: &'a [FramePlanes<P>],
    of: PhantomData<F>,
}

impl<'a, P: Sample, F> ColumnStrips<'a, P, F> {
    pub fn new(strips: &'a [FramePlanes<P>]) -> ColumnStrips<'a, P, F>
        ensures { result.strips.now ≡ strips.now }
    {
        ColumnStrips {
            strips,
            of: PhantomData,
        }
    }
}

/// The first row of a row of superblocks in a plane.
pub(crate) fn first_own(shape: &Shape, plane: Plane, sr: u32) -> usize
    requires { sr < superblocks_along (mi_rows shape.now) }
    ensures { result ≡ first_own shape.now plane sr }
{
    halved(sub_y(shape, plane), 64 * sr as usize)
}

/// Copies the rows of a strip's plane from a first one on.
pub(crate) fn put_strip<P: Sample>(
    to: &mut SamplePlane<P>,
    strip: &SamplePlane<P>,
    first_row: usize,
)
    requires there { strip.now.area.first_row ≤ first_row }
    requires above { first_row ≤ lower_end strip.now.area }
    requires room { LiesIn (rows_from first_row strip.now.area) to.old.area }
    ensures area { to.new.area ≡ to.old.area }
    ensures part { HasPart (rows_from first_row strip.now.area) (plane_map strip.now) (plane_map to.old) (plane_map to.new) }
    ensures range { (most : ℕ) → IsAtMost most (plane_map strip.now) → IsAtMost most (plane_map to.old) → IsAtMost most (plane_map to.new) }
{
    let area = strip.area();
    let own = Area {
        first_row,
        rows: area.lower_end() - first_row,
        ..area
    };
    copy_part(to, strip, &own);
}

impl<'a, P: Sample, F: RawFrame> Strips for ColumnStrips<'a, P, F> {
    type Kept = P;

    ghost use Rattle.column_strips.specs.StripRows.{AreRow};

    ghost raw = { λ s. F.raw };

    ghost holds = { λ s shape sr. AreRow shape F.raw sr s.strips.now };

    fn put_row(&self, to: &mut SamplePlane<P>, shape: &Shape, plane: Plane, sr: u32) {
        let first_row = first_own(shape, plane, sr);
        for k in 0..self.strips.len() {
            put_strip(to, self.strips[k].plane(plane), first_row);
        }
    }
}
