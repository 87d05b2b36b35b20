//! The levels of a block in a plane, and in all planes.

ghost use Rattle.std.specs.Prelude.{◌≡◌, ◌≤◌, ◌<◌, ◌*◌, ◌+◌, true, length, map};
ghost use Rattle.vp9_tables.specs.Scans.{area, scan_of};
ghost use Rattle.frame_headers.specs.HeaderState.{shape_of};
ghost use Rattle.prob_contexts.specs.ProbLists.{ContextLists, lists_of};
ghost use Rattle.block_geometry.specs.Code.{IsSmallGrid};
ghost use Rattle.block_geometry.specs.TransformBlocks.{grid_blocks, tx_step};
ghost use Rattle.residue_syntax.specs.BlocksInPlanes.{token_kind, type_at};
ghost use Rattle.residue_syntax.specs.Code.{IsInFrame};
ghost use Rattle.coef_tokens.specs.TokenKinds.{block_tables};
ghost use Rattle.token_writer.specs.TokenFits.{CanPut};
ghost use Rattle.residue_writer.specs.ResidueFits.{CanPutAll, CanPutBlock, CanPutIn};
ghost use Rattle.listed_symbols.specs.ListedBlocks.{listed_levels, plane_told};
ghost use Rattle.listed_symbols.specs.Code.{IsMade};
ghost use Rattle.listed_symbols.specs.ListedLevels.{by_position, can_levels, no_levels, with_each, with_levels};

use crate::levels::{can_levels, place_levels};
use crate::lists::ListedLevels;
use block_geometry::{TransformGrid, TransformPlace, transform_grid};
use block_plan::BlockInfo;
use frame_setting::FrameSetting;
use residue_syntax::BlockInPlane;
use residue_writer::{BlockLevels, PlaneLevels};
use vp9_tables::{area_of, scan};
use vp9_types::Plane;

/// Gives the k-th transform block of a block its levels.
#[tactic(auto, unfolding(crate::specs::ListedLevels::with_levels))]
fn put_levels(
    levels: &mut PlaneLevels,
    b: &BlockInPlane,
    at: TransformPlace,
    k: usize,
    listed: &[i32],
)
    requires down { at.row < 16 }
    requires across { at.column < 16 }
    requires k { k < 256 }
    requires room { k * area b.now.block.tx + area b.now.block.tx ≤ 4096 }
    requires few { length listed.now ≤ area b.now.block.tx }
    requires can { can_levels b.now.quant.depth (area b.now.block.tx) listed.now ≡ true }
    ensures made { levels.new ≡ with_levels b.now at k listed.now levels.old }
    ensures counts { length levels.new.counts ≡ 256 }
    ensures values { length levels.new.values ≡ 4096 }
    ensures can { (contexts : ContextLists) → CanPut (block_tables contexts (token_kind b.now at.row at.column)) (by_position (area b.now.block.tx) (scan_of b.now.block.tx (type_at b.now at.row at.column)) listed.now) (length listed.now) }
{
    let area = area_of(b.block.tx);
    let kind = b.token_kind(at.row, at.column);
    let from = k * area;
    levels.counts[k] = listed.len() as u32;
    place_levels(
        &mut levels.values[from..from + area],
        scan(kind.tx, kind.kind),
        listed,
    );
}

/// Gives the transform blocks of a block their levels, one after another, if they can be said, and answers whether they can.
fn put_each(
    levels: &mut PlaneLevels,
    b: &BlockInPlane,
    grid: &TransformGrid,
    listed: &[&[i32]],
) -> bool
    requires small { IsSmallGrid grid.now }
    requires step { grid.now.step ≡ tx_step b.now.block.tx }
    requires none { levels.old ≡ no_levels }
    ensures made { IsMade (with_each b.now (grid_blocks grid.now) 0 (map (λ l. l.now) listed.now) no_levels) result levels.new }
    ensures can { result ≡ true → (contexts : ContextLists) → CanPutAll contexts b.now (grid_blocks grid.now) levels.new }
{
    let count = grid.count() as usize;
    let area = area_of(b.block.tx);
    for k in 0..listed.len() {
        let here = listed[k];
        if k >= count {
            return false;
        }
        if !can_levels(b.quant.depth, area, here) {
            return false;
        }
        put_levels(levels, b, grid.place(k as u32), k, here);
    }
    true
}

/// The levels of a block in a plane, and whether they can be said.
fn list_plane(
    levels: &mut PlaneLevels,
    setting: &FrameSetting,
    block: &BlockInfo,
    plane: Plane,
    listed: &[&[i32]],
) -> bool
    requires inside { IsInFrame (shape_of setting.now.header) block.now }
    ensures made { IsMade (plane_told setting.now.header block.now plane (map (λ l. l.now) listed.now)) result levels.new }
    ensures can { result ≡ true → CanPutIn setting.now.header (lists_of setting.now.contexts) block.now plane levels.new }
{
    let b = BlockInPlane::of(&setting.header, block, plane);
    let grid = transform_grid(setting.places, b.block);
    *levels = PlaneLevels {
        counts: [0; 256],
        values: [0; 4096],
    };
    put_each(levels, &b, &grid, listed)
}

/// The levels of a block whose modes are known, and whether they can be said.
#[tactic(auto, unfolding(crate::specs::ListedBlocks::listed_levels))]
pub(crate) fn list_levels(
    levels: &mut BlockLevels,
    setting: &FrameSetting,
    block: &BlockInfo,
    listed: &ListedLevels,
) -> bool
    requires inside { IsInFrame (shape_of setting.now.header) block.now }
    ensures made { IsMade (listed_levels setting.now.header block.now listed.now) result levels.new }
    ensures can { result ≡ true → CanPutBlock setting.now.header (lists_of setting.now.contexts) block.now levels.new }
{
    if !list_plane(&mut levels.y, setting, block, Plane::Y, listed.y) {
        return false;
    }
    if !list_plane(&mut levels.u, setting, block, Plane::U, listed.u) {
        return false;
    }
    list_plane(&mut levels.v, setting, block, Plane::V, listed.v)
}
