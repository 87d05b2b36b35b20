//! What the filter does at the cells of a superblock, found once for all planes and passes.

ghost use Rattle.std.specs.Prelude.{◌≡◌, ◌≤◌, ◌<◌, ◌*◌, ◌+◌, ◌-◌, ◌∷◌, ◌++◌, min, [], ℕ, false, Some, None};
ghost use Rattle.vp9_types.specs.Shapes.{mi_rows, mi_cols};
ghost use Rattle.vp9_types.specs.declared.shape.Plane.{Plane};
ghost use Rattle.vp9_tables.specs.BlockTables.{greatest_of};
ghost use Rattle.vp9_tables.specs.Numbers.{tx_number};
ghost use Rattle.planes.specs.Pictures.{FitsPlanes};
ghost use Rattle.block_plan.specs.Blocks.{covering};
ghost use Rattle.loop_edges.specs.FilterLevels.{filter_level};
ghost use Rattle.loop_filter.specs.Code.{AllFit};
ghost use Rattle.loop_filter.specs.FilterPlans.{has_chroma, crossed_by, cells_in, list_of, HasPlace, HasPlaces, IsPlanned};

use block_plan::{BlockInfo, Neighbours};
use line_filter::Pass;
use loop_edges::{CellAt, CellEdges, EdgeTables, cell_edges, is_inside};
use vp9_types::{Plane, Shape};

/// The edges of a cell in both passes.
#[derive(Clone, Copy, Debug, PartialEq, Eq)]
pub struct CrossedEdges {
    pub vertical: CellEdges,
    pub horizontal: CellEdges,
}

/// A cell that may have edges, by the row and column of its 8x8 luma samples, with its block's level.
#[derive(Clone, Copy, Debug, PartialEq, Eq)]
pub struct PlannedCell {
    pub row: u16,
    pub col: u16,
    pub level: u8,
    pub edges: CrossedEdges,
}

/// Cells of a superblock in order: the first `count` of these. Those without edges may be left out.
#[derive(Clone, Copy)]
pub struct CellList {
    pub cells: [PlannedCell; 64],
    pub count: usize,
}

/// The cells of a superblock. Both planes of chroma have the same.
#[derive(Clone, Copy)]
pub struct SuperblockPlans {
    pub luma: CellList,
    pub chroma: CellList,
}

#[inline(always)]
fn no_edges() -> CellEdges
    ensures outer { result.outer ≡ None }
    ensures inner { result.inner ≡ false }
{
    CellEdges {
        outer: None,
        inner: false,
    }
}

#[inline(always)]
fn no_cells() -> CellList
    ensures { result.count ≡ 0 }
{
    let nothing = PlannedCell {
        row: 0,
        col: 0,
        level: 0,
        edges: CrossedEdges {
            vertical: no_edges(),
            horizontal: no_edges(),
        },
    };
    CellList {
        cells: [nothing; 64],
        count: 0,
    }
}

/// Room for the cells of a superblock.
#[inline(always)]
pub fn no_plans() -> SuperblockPlans
    ensures luma { result.luma.count ≡ 0 }
    ensures chroma { result.chroma.count ≡ 0 }
{
    SuperblockPlans {
        luma: no_cells(),
        chroma: no_cells(),
    }
}

/// Adds a cell behind those of a list.
#[inline(always)]
fn add(list: &mut CellList, cell: PlannedCell)
    requires room { list.old.count < 64 }
    ensures count { list.new.count ≡ list.old.count + 1 }
    ensures cells { cells_in list.new ≡ cells_in list.old ++ cell ∷ [] }
{
    list.cells[list.count] = cell;
    list.count += 1;
}

/// Whether a cell of chroma begins at a place.
#[inline(always)]
fn has_chroma(shape: &Shape, at: CellAt) -> bool
    ensures { result ≡ has_chroma shape.now at.row at.col }
{
    let is_between_columns = shape.ss_x & (at.col % 2 == 1);
    let is_between_rows = shape.ss_y & (at.row % 2 == 1);
    !is_between_columns & !is_between_rows
}

#[inline(always)]
fn crossed_by(shape: &Shape, plane: Plane, block: &BlockInfo, at: CellAt) -> CrossedEdges
    requires size { FitsPlanes shape.now }
    requires row { at.row ≤ 8192 }
    requires col { at.col ≤ 8192 }
    requires fits { tx_number block.now.tx ≤ greatest_of block.now.size }
    ensures { result ≡ crossed_by shape.now plane at.row at.col block.now }
{
    CrossedEdges {
        vertical: cell_edges(shape, plane, Pass::Vertical, block, at),
        horizontal: cell_edges(shape, plane, Pass::Horizontal, block, at),
    }
}

#[inline(always)]
fn planned(shape: &Shape, plane: Plane, block: &BlockInfo, at: CellAt, level: u8) -> PlannedCell
    requires size { FitsPlanes shape.now }
    requires row { at.row ≤ 8192 }
    requires col { at.col ≤ 8192 }
    requires fits { tx_number block.now.tx ≤ greatest_of block.now.size }
    ensures row { result.row ≡ at.row }
    ensures col { result.col ≡ at.col }
    ensures level { result.level ≡ level }
    ensures edges { result.edges ≡ crossed_by shape.now plane at.row at.col block.now }
{
    PlannedCell {
        row: at.row as u16,
        col: at.col as u16,
        level,
        edges: crossed_by(shape, plane, block, at),
    }
}

/// The cells that begin at a place of a block, added to those before it.
#[inline(always)]
fn add_cells(f: &EdgeTables, block: &BlockInfo, at: CellAt, level: u8, plans: &mut SuperblockPlans)
    requires size { FitsPlanes f.now.setting.shape }
    requires row { at.row ≤ 8192 }
    requires col { at.col ≤ 8192 }
    requires fits { tx_number block.now.tx ≤ greatest_of block.now.size }
    requires level { level ≡ filter_level f.now.setting block.now }
    requires filtered { 0 < level }
    requires luma_room { plans.old.luma.count < 64 }
    requires chroma_room { plans.old.chroma.count < 64 }
    ensures { (plane : Plane) → HasPlace f.now.setting plane at.row at.col (Some block.now) (list_of plans.old plane) (list_of plans.new plane) }
{
    let shape = &f.setting.shape;
    let luma = planned(shape, Plane::Y, block, at, level);
    add(&mut plans.luma, luma);
    if has_chroma(shape, at) {
        let chroma = planned(shape, Plane::U, block, at, level);
        add(&mut plans.chroma, chroma);
    }
}

/// What the filter does at a place of a block. The level isn't looked up where there is no edge.
#[inline(always)]
fn plan_block(f: &EdgeTables, block: &BlockInfo, at: CellAt, plans: &mut SuperblockPlans)
    requires size { FitsPlanes f.now.setting.shape }
    requires row { at.row ≤ 8192 }
    requires col { at.col ≤ 8192 }
    requires fits { tx_number block.now.tx ≤ greatest_of block.now.size }
    requires luma_room { plans.old.luma.count < 64 }
    requires chroma_room { plans.old.chroma.count < 64 }
    ensures { (plane : Plane) → HasPlace f.now.setting plane at.row at.col (Some block.now) (list_of plans.old plane) (list_of plans.new plane) }
{
    if !is_inside(block, at) {
        let level = f.level(block);
        if level > 0 {
            add_cells(f, block, at, level, plans);
        }
    }
}

#[inline(always)]
fn plan_place<N: Neighbours>(f: &EdgeTables, blocks: &N, at: CellAt, plans: &mut SuperblockPlans)
    requires size { FitsPlanes f.now.setting.shape }
    requires row { at.row ≤ 8192 }
    requires col { at.col ≤ 8192 }
    requires held { N.holds blocks.now at.row at.col }
    requires fit { AllFit (N.blocks blocks.now) }
    requires luma_room { plans.old.luma.count < 64 }
    requires chroma_room { plans.old.chroma.count < 64 }
    ensures { (plane : Plane) → HasPlace f.now.setting plane at.row at.col (covering (N.blocks blocks.now) at.row at.col) (list_of plans.old plane) (list_of plans.new plane) }
{
    if let Some(block) = blocks.at(at.row, at.col) {
        plan_block(f, block, at, plans);
    }
}

/// The cells of a row of a superblock, added to those above it.
#[inline(always)]
fn plan_row<N: Neighbours>(
    f: &EdgeTables,
    blocks: &N,
    row: u32,
    sc: u32,
    plans: &mut SuperblockPlans,
)
    requires size { FitsPlanes f.now.setting.shape }
    requires row { row < mi_rows f.now.setting.shape }
    requires column { 8 * sc ≤ mi_cols f.now.setting.shape }
    requires held { (c : ℕ) → c < mi_cols f.now.setting.shape → N.holds blocks.now row c }
    requires fit { AllFit (N.blocks blocks.now) }
    requires luma_room { plans.old.luma.count ≤ 56 }
    requires chroma_room { plans.old.chroma.count ≤ 56 }
    ensures { (plane : Plane) → HasPlaces f.now.setting (N.blocks blocks.now) plane row sc (min 8 (mi_cols f.now.setting.shape - 8 * sc)) (list_of plans.old plane) (list_of plans.new plane) }
{
    let count = (f.setting.shape.place_cols() - 8 * sc).min(8);
    for j in 0..count {
        let col = 8 * sc + j;
        plan_place(f, blocks, CellAt { row, col }, plans);
    }
}

/// What the filter does at the cells of a superblock, in place of what was planned for another. It is a part of its caller, which
/// has the lists: so the compiler knows that a cell that is added changes no block.
#[inline(always)]
pub fn plan_superblock<N: Neighbours>(
    f: &EdgeTables,
    blocks: &N,
    sr: u32,
    sc: u32,
    plans: &mut SuperblockPlans,
)
    requires size { FitsPlanes f.now.setting.shape }
    requires row { 8 * sr ≤ mi_rows f.now.setting.shape }
    requires column { 8 * sc ≤ mi_cols f.now.setting.shape }
    requires held { (r c : ℕ) → 8 * sr ≤ r → r < 8 * (sr + 1) → r < mi_rows f.now.setting.shape → c < mi_cols f.now.setting.shape → N.holds blocks.now r c }
    requires fit { AllFit (N.blocks blocks.now) }
    ensures { (plane : Plane) → IsPlanned f.now.setting (N.blocks blocks.now) plane sr sc (list_of plans.new plane) }
{
    let count = (f.setting.shape.place_rows() - 8 * sr).min(8);
    plans.luma.count = 0;
    plans.chroma.count = 0;
    for i in 0..count {
        plan_row(f, blocks, 8 * sr + i, sc, plans);
    }
}
