//! A row of superblocks put in and filtered.

ghost use Rattle.std.specs.Prelude.{◌≡◌, ◌≤◌, ◌<◌, ◌*◌, ◌+◌, ℕ};
ghost use Rattle.vp9_types.specs.Shapes.{mi_rows, mi_cols};
ghost use Rattle.vp9_types.specs.Sizes.{greatest, superblocks_along};
ghost use Rattle.planes.specs.Pictures.{FitsPlanes};
ghost use Rattle.loop_filter.specs.Code.{AllFit};
ghost use Rattle.filter_rows.specs.Buffer.{AwaitsRow, HasFiltered};

use crate::strips::Strips;
use block_plan::Neighbours;
use loop_edges::EdgeSetting;
use loop_filter::{EdgeSample, filter_next};
use planes::FramePlanes;
use vp9_types::Plane;

/// Puts the samples of a row of superblocks into the buffer, which awaits them, and filters the row.
pub fn filter_next_row<P: EdgeSample, S: Strips<Kept = P>, N: Neighbours>(
    planes: &mut FramePlanes<P>,
    f: &EdgeSetting,
    blocks: &N,
    strips: &S,
    sr: u32,
)
    requires size { FitsPlanes f.now.shape }
    requires row { sr < superblocks_along (mi_rows f.now.shape) }
    requires held { (r c : ℕ) → 8 * sr ≤ r → r < 8 * (sr + 1) → r < mi_rows f.now.shape → c < mi_cols f.now.shape → N.holds blocks.now r c }
    requires fit { AllFit (N.blocks blocks.now) }
    requires kept { greatest f.now.shape.depth ≤ P.greatest }
    requires strips { S.holds strips.now f.now.shape sr }
    requires awaits { AwaitsRow f.now (N.blocks blocks.now) (S.raw strips.now) sr planes.old }
    ensures { HasFiltered f.now (N.blocks blocks.now) (S.raw strips.now) sr planes.new }
{
    strips.put_row(&mut planes.y, &f.shape, Plane::Y, sr);
    strips.put_row(&mut planes.u, &f.shape, Plane::U, sr);
    strips.put_row(&mut planes.v, &f.shape, Plane::V, sr);
    filter_next(planes, f, blocks, sr);
}
