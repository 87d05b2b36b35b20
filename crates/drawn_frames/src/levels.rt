//! The levels of blocks.

ghost use Rattle.std.specs.Prelude.{◌≡◌, ◌<◌, ◌≤◌};
ghost use Rattle.frame_headers.specs.HeaderState.{shape_of};
ghost use Rattle.prob_contexts.specs.ProbLists.{ContextLists};
ghost use Rattle.block_geometry.specs.Code.{IsSmallGrid};
ghost use Rattle.block_geometry.specs.TransformBlocks.{grid_blocks, tx_step};
ghost use Rattle.residue_syntax.specs.Code.{IsInFrame};
ghost use Rattle.residue_writer.specs.ResidueFits.{CanPutAll, CanPutBlock, CanPutIn};
ghost use Rattle.drawn_symbols.specs.Draws.{IsDrawn};
ghost use Rattle.drawn_frames.specs.BlockLevelDraws.{draw_block_levels, draw_from, draw_plane, no_plane};

use block_geometry::{TransformGrid, transform_grid};
use block_plan::BlockInfo;
use drawn_symbols::{Draws, draw_levels_at};
use frame_setting::FrameSetting;
use residue_syntax::BlockInPlane;
use residue_writer::{BlockLevels, PlaneLevels};
use vp9_tables::area_of;
use vp9_types::Plane;

/// Draws the levels of a block's transform blocks in a plane, of which there are none before.
fn draw_transform_blocks(
    draws: &mut Draws,
    b: &BlockInPlane,
    grid: &TransformGrid,
    levels: &mut PlaneLevels,
)
    requires small { IsSmallGrid grid.now }
    requires step { grid.now.step ≡ tx_step b.now.block.tx }
    requires none { levels.old ≡ no_plane }
    ensures drawn { IsDrawn (draw_from b.now (grid_blocks grid.now) 0 no_plane) draws.old levels.new draws.new }
    ensures can { (contexts : ContextLists) → CanPutAll contexts b.now (grid_blocks grid.now) levels.new }
{
    let area = area_of(b.block.tx);
    for k in 0..grid.count() {
        let from = k as usize * area;
        let values = &mut levels.values[from..from + area];
        levels.counts[k as usize] = draw_levels_at(draws, b, grid.place(k), values);
    }
}

fn clear(levels: &mut PlaneLevels)
    ensures { levels.new ≡ no_plane }
{
    levels.counts.fill(0);
    levels.values.fill(0);
}

/// Draws those of a block in a plane, in place of those of the block before it.
#[tactic(auto, unfolding(crate::specs::BlockLevelDraws::draw_plane))]
fn draw_plane(
    draws: &mut Draws,
    setting: &FrameSetting,
    block: &BlockInfo,
    plane: Plane,
    levels: &mut PlaneLevels,
)
    requires { IsInFrame (shape_of setting.now.header) block.now }
    ensures drawn { IsDrawn (draw_plane setting.now.header block.now plane) draws.old levels.new draws.new }
    ensures can { (contexts : ContextLists) → CanPutIn setting.now.header contexts block.now plane levels.new }
{
    clear(levels);
    if block.skip {
        return;
    }
    let b = BlockInPlane::of(&setting.header, block, plane);
    let grid = transform_grid(setting.places, b.block);
    draw_transform_blocks(draws, &b, &grid, levels);
}

/// Draws the levels of a block that starts inside its frame, in place of those of the block before it: such can be put by
/// `residue_writer::put_block`, whatever the contexts.
#[tactic(auto, unfolding(crate::specs::BlockLevelDraws::draw_block_levels))]
pub(crate) fn draw_block_levels(
    draws: &mut Draws,
    setting: &FrameSetting,
    block: &BlockInfo,
    levels: &mut BlockLevels,
)
    requires { IsInFrame (shape_of setting.now.header) block.now }
    ensures drawn { IsDrawn (draw_block_levels setting.now.header block.now) draws.old levels.new draws.new }
    ensures can { (contexts : ContextLists) → CanPutBlock setting.now.header contexts block.now levels.new }
{
    draw_plane(draws, setting, block, Plane::Y, &mut levels.y);
    draw_plane(draws, setting, block, Plane::U, &mut levels.u);
    draw_plane(draws, setting, block, Plane::V, &mut levels.v);
}
