//! A row of superblocks filtered in a buffer that has not all of the frame.

ghost use Rattle.std.specs.Prelude.{◌≤◌, ◌<◌, ◌*◌, ◌+◌, ℕ};
ghost use Rattle.vp9_types.specs.Shapes.{mi_rows, mi_cols};
ghost use Rattle.vp9_types.specs.Sizes.{greatest, superblocks_along};
ghost use Rattle.planes.specs.Pictures.{FitsPlanes, IsInRange, samples_of};
ghost use Rattle.loop_filter.specs.Code.{HoldsFilterRows, HasAreasOf, AllFit};
ghost use Rattle.loop_filter.specs.Laws.{IsNextOf};

use crate::rows::filter_row;
use block_plan::Neighbours;
use line_filter::EdgeSample;
use loop_edges::EdgeSetting;
use planes::FramePlanes;

/// As `filter_row`, in a buffer that need not have more of the frame than the row's samples before the filter and the pending
/// rows above them: it leaves rows of the filtered frame, and the pending ones of the next row.
pub fn filter_next<P: EdgeSample, N: Neighbours>(
    planes: &mut FramePlanes<P>,
    f: &EdgeSetting,
    blocks: &N,
    sr: u32,
)
    requires size { FitsPlanes f.now.shape }
    requires rows { HoldsFilterRows f.now.shape sr planes.old }
    requires row { sr < superblocks_along (mi_rows f.now.shape) }
    requires held { (r c : ℕ) → 8 * sr ≤ r → r < 8 * (sr + 1) → r < mi_rows f.now.shape → c < mi_cols f.now.shape → N.holds blocks.now r c }
    requires fit { AllFit (N.blocks blocks.now) }
    requires kept { greatest f.now.shape.depth ≤ P.greatest }
    requires range { IsInRange f.now.shape.depth planes.old }
    ensures areas { HasAreasOf planes.old planes.new }
    ensures next { IsNextOf f.now (N.blocks blocks.now) sr (samples_of planes.old) (samples_of planes.new) }
    ensures range { IsInRange f.now.shape.depth planes.new }
{
    filter_row(planes, f, blocks, sr);
}
