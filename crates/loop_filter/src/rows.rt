//! A row of superblocks filtered, in place.

ghost use Rattle.std.specs.Prelude.{◌≡◌, ◌≤◌, ◌<◌, ◌*◌, ◌+◌, ◌/◌, ◌++◌, ℕ, false, nat_eq};
ghost use Rattle.std.specs.List.{fold};
ghost use Rattle.vp9_types.specs.Maps.{IsAtMost};
ghost use Rattle.vp9_types.specs.Shapes.{mi_rows, mi_cols};
ghost use Rattle.vp9_types.specs.Sizes.{greatest, superblocks_along};
ghost use Rattle.vp9_types.specs.declared.shape.Plane.TheVariants.{Y, U, V};
ghost use Rattle.planes.specs.Planes.{plane_map};
ghost use Rattle.planes.specs.Pictures.{FitsPlanes, HasSizes, IsInRange, samples_of};
ghost use Rattle.line_filter.specs.FilteredEdges.{with_edge};
ghost use Rattle.line_filter.specs.declared.edge.Pass.TheVariants.{Vertical, Horizontal};
ghost use Rattle.loop_edges.specs.Code.{with_row};
ghost use Rattle.loop_edges.specs.FrameEdges.{superblock_edges, row_edges, filtered_frame};
ghost use Rattle.loop_filter.specs.Code.{HoldsFilterRows, HasAreasOf, AllFit};
ghost use Rattle.loop_filter.specs.FilterPlans.{listed_edges, AreCellsWithin};

use crate::cells::filter_pass;
use crate::plans::{CellList, SuperblockPlans, no_plans, plan_superblock};
use crate::way::PlanePass;
use block_plan::Neighbours;
use line_filter::{EdgeSample, Pass};
use loop_edges::{EdgeSetting, EdgeTables};
use planes::{FramePlanes, SamplePlane};
use vp9_types::Plane;

/// A superblock of a plane: all its vertical edges, then all its horizontal ones. Each plane has a `SITE` of its own, and is
/// compiled by itself.
#[inline(always)]
fn filter_superblock<P: EdgeSample, const SITE: usize>(
    samples: &mut SamplePlane<P>,
    f: &EdgeTables,
    plane: Plane,
    list: &CellList,
)
    requires size { FitsPlanes f.now.setting.shape }
    requires cells { AreCellsWithin f.now.setting plane samples.old.area list.now }
    requires kept { greatest f.now.setting.shape.depth ≤ P.greatest }
    requires range { IsAtMost (greatest f.now.setting.shape.depth) (plane_map samples.old) }
    ensures area { samples.new.area ≡ samples.old.area }
    ensures map { plane_map samples.new ≡ fold with_edge (plane_map samples.old)
        (listed_edges f.now.setting plane Vertical list.now ++ listed_edges f.now.setting plane Horizontal list.now) }
    ensures range { IsAtMost (greatest f.now.setting.shape.depth) (plane_map samples.new) }
{
    let way = PlanePass {
        plane,
        pass: Pass::Vertical,
    };
    filter_pass(samples, f, way, list);
    let way = PlanePass {
        plane,
        pass: Pass::Horizontal,
    };
    filter_pass(samples, f, way, list);
}

/// A superblock of all planes.
fn filter_planes<P: EdgeSample, N: Neighbours>(
    planes: &mut FramePlanes<P>,
    plans: &mut SuperblockPlans,
    f: &EdgeTables,
    blocks: &N,
    sr: u32,
    sc: u32,
)
    requires size { FitsPlanes f.now.setting.shape }
    requires rows { HoldsFilterRows f.now.setting.shape sr planes.old }
    requires row { 8 * sr ≤ mi_rows f.now.setting.shape }
    requires column { 8 * sc ≤ mi_cols f.now.setting.shape }
    requires held { (r c : ℕ) → 8 * sr ≤ r → r < 8 * (sr + 1) → r < mi_rows f.now.setting.shape → c < mi_cols f.now.setting.shape → N.holds blocks.now r c }
    requires fit { AllFit (N.blocks blocks.now) }
    requires kept { greatest f.now.setting.shape.depth ≤ P.greatest }
    requires range { IsInRange f.now.setting.shape.depth planes.old }
    ensures areas { HasAreasOf planes.old planes.new }
    ensures y { plane_map planes.new.y ≡ fold with_edge (plane_map planes.old.y) (superblock_edges f.now.setting (N.blocks blocks.now) Y sr sc) }
    ensures u { plane_map planes.new.u ≡ fold with_edge (plane_map planes.old.u) (superblock_edges f.now.setting (N.blocks blocks.now) U sr sc) }
    ensures v { plane_map planes.new.v ≡ fold with_edge (plane_map planes.old.v) (superblock_edges f.now.setting (N.blocks blocks.now) V sr sc) }
    ensures range { IsInRange f.now.setting.shape.depth planes.new }
{
    plan_superblock(f, blocks, sr, sc, plans);
    filter_superblock::<P, 0>(&mut planes.y, f, Plane::Y, &plans.luma);
    filter_superblock::<P, 1>(&mut planes.u, f, Plane::U, &plans.chroma);
    filter_superblock::<P, 2>(&mut planes.v, f, Plane::V, &plans.chroma);
}

/// A row of superblocks of all planes, from left to right.
fn filter_superblocks<P: EdgeSample, N: Neighbours>(
    planes: &mut FramePlanes<P>,
    f: &EdgeTables,
    blocks: &N,
    sr: u32,
)
    requires size { FitsPlanes f.now.setting.shape }
    requires on { nat_eq f.now.setting.filter.level 0 ≡ false }
    requires rows { HoldsFilterRows f.now.setting.shape sr planes.old }
    requires row { 8 * sr ≤ mi_rows f.now.setting.shape }
    requires held { (r c : ℕ) → 8 * sr ≤ r → r < 8 * (sr + 1) → r < mi_rows f.now.setting.shape → c < mi_cols f.now.setting.shape → N.holds blocks.now r c }
    requires fit { AllFit (N.blocks blocks.now) }
    requires kept { greatest f.now.setting.shape.depth ≤ P.greatest }
    requires range { IsInRange f.now.setting.shape.depth planes.old }
    ensures areas { HasAreasOf planes.old planes.new }
    ensures map { samples_of planes.new ≡ with_row f.now.setting (N.blocks blocks.now) (samples_of planes.old) sr }
    ensures range { IsInRange f.now.setting.shape.depth planes.new }
{
    let mut plans = no_plans();
    for sc in 0..f.setting.shape.superblock_cols() {
        filter_planes(planes, &mut plans, f, blocks, sr, sc);
    }
}

/// Filters a row of superblocks of a frame, in place. The planes are whole, or parts that have the row's samples and the
/// eight rows above it, which the filter goes on changing; those above them it leaves. The blocks are those of the whole
/// frame, asked for in this row alone. The samples are what the rows before have left.
pub fn filter_row<P: EdgeSample, N: Neighbours>(
    planes: &mut FramePlanes<P>,
    f: &EdgeSetting,
    blocks: &N,
    sr: u32,
)
    requires size { FitsPlanes f.now.shape }
    requires rows { HoldsFilterRows f.now.shape sr planes.old }
    requires row { 8 * sr ≤ mi_rows f.now.shape }
    requires held { (r c : ℕ) → 8 * sr ≤ r → r < 8 * (sr + 1) → r < mi_rows f.now.shape → c < mi_cols f.now.shape → N.holds blocks.now r c }
    requires fit { AllFit (N.blocks blocks.now) }
    requires kept { greatest f.now.shape.depth ≤ P.greatest }
    requires range { IsInRange f.now.shape.depth planes.old }
    ensures areas { HasAreasOf planes.old planes.new }
    ensures map { samples_of planes.new ≡ with_row f.now (N.blocks blocks.now) (samples_of planes.old) sr }
    ensures range { IsInRange f.now.shape.depth planes.new }
{
    if f.filter.level > 0 {
        let tables = EdgeTables::new(f);
        filter_superblocks(planes, &tables, blocks, sr);
    }
}

/// Filters a frame in place, row after row of superblocks. The planes are whole.
pub fn filter_frame<P: EdgeSample, N: Neighbours>(
    planes: &mut FramePlanes<P>,
    f: &EdgeSetting,
    blocks: &N,
)
    requires size { FitsPlanes f.now.shape }
    requires sizes { HasSizes f.now.shape planes.old }
    requires held { (r c : ℕ) → r < mi_rows f.now.shape → c < mi_cols f.now.shape → N.holds blocks.now r c }
    requires fit { AllFit (N.blocks blocks.now) }
    requires kept { greatest f.now.shape.depth ≤ P.greatest }
    requires range { IsInRange f.now.shape.depth planes.old }
    ensures sizes { HasSizes f.now.shape planes.new }
    ensures map { samples_of planes.new ≡ filtered_frame f.now (N.blocks blocks.now) (samples_of planes.old) }
    ensures range { IsInRange f.now.shape.depth planes.new }
{
    for sr in 0..f.shape.superblock_rows() {
        filter_row(planes, f, blocks, sr);
    }
}
