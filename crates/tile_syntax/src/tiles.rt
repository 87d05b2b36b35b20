//! The tiles of a column that is planned.

ghost use Rattle.std.specs.Prelude.{◌≡◌, ◌-◌, ◌+◌, ◌*◌, ◌≤◌, OnOk};
ghost use Rattle.frame_headers.specs.HeaderState.{shape_of};
ghost use Rattle.vp9_types.specs.Sizes.{superblocks_along};
ghost use Rattle.mode_syntax.specs.Walk.{decode_tile};
ghost use Rattle.frame_state.specs.Past.{IsPastOf};
ghost use Rattle.frame_state.specs.Code.{IsReady, SameColumns, read_whole, sources_of};
ghost use Rattle.frame_state.specs.TilePlaces.{tile_superblocks};
ghost use Rattle.tile_syntax.specs.Code.{GivesTile, GivesWhole, IsKept, tile_held, plan_walk};

use crate::planning::PlanReader;
use crate::plans::ColumnPlan;
use block_plan::BlockResidues;
use counting_reader::CountingReader;
use frame_state::{FrameSources, Halt, TilePlaces, superblocks};
use mode_syntax::SquareAt;
use prob_contexts::Counts;
use tile_reader::read_rows;

/// The level of a superblock.
const SUPERBLOCK: u8 = 3;

/// The blocks of a tile.
fn read_planned<const COUNTS: bool>(
    planning: &mut PlanReader<'_, '_, '_, COUNTS>,
    tile: &TilePlaces,
) -> Result<(), Halt>
    requires ready { IsReady planning.old.by.now.setting planning.old.plan.now.column }
    requires kept { IsKept planning.old.by.now.setting.header planning.old.plan.now }
    requires past { IsPastOf planning.old.by.now.setting.header planning.old.by.now.past }
    requires from { tile.now.col_from ≡ planning.old.plan.now.column.grid.from }
    requires to { tile.now.col_to ≡ planning.old.plan.now.column.grid.to }
    requires order { tile.now.row_from ≤ tile.now.row_to }
    requires low { tile.now.row_to ≤ 8192 }
    requires room { 64 * (superblocks_along (planning.old.plan.now.column.grid.to - planning.old.plan.now.column.grid.from) * superblocks_along (tile.now.row_to - tile.now.row_from)) ≤ planning.old.plan.now.column.grid.room }
    ensures gives { GivesTile (decode_tile (plan_walk (sources_of planning.old.by.now) planning.old.by.now.setting.places planning.old.plan.now.column.grid.from planning.old.plan.now.column.grid.to) (tile_superblocks tile.now) (tile_held (shape_of planning.old.by.now.setting.header) planning.old.plan.now))
        planning.old.reader.now result (tile_held (shape_of planning.old.by.now.setting.header) planning.new.plan.now) planning.new.reader.now }
    ensures ready { OnOk result (IsReady planning.old.by.now.setting planning.new.plan.now.column) }
    ensures kept { OnOk result (IsKept planning.old.by.now.setting.header planning.new.plan.now) }
    ensures same { OnOk result (SameColumns planning.old.plan.now.column planning.new.plan.now.column) }
    ensures room { OnOk result (planning.old.plan.now.column.grid.room ≤ planning.new.plan.now.column.grid.room + 64 * (superblocks_along (planning.old.plan.now.column.grid.to - planning.old.plan.now.column.grid.from) * superblocks_along (tile.now.row_to - tile.now.row_from))) }
    ensures same_reader { planning.new.reader.ghost_name ≡ planning.old.reader.ghost_name }
    ensures same_plan { planning.new.plan.ghost_name ≡ planning.old.plan.ghost_name }
{
    let first = SquareAt {
        row: tile.row_from,
        col: tile.col_from,
        level: SUPERBLOCK,
        tile_from: tile.col_from,
        tile_to: tile.col_to,
    };
    let across = superblocks(tile.col_from, tile.col_to);
    let down = superblocks(tile.row_from, tile.row_to);
    read_rows(planning, first, across, down)
}

/// All blocks of a tile, into its column's plan.
#[tactic(auto, using(crate::proofs::PlanSteps::plan_left))]
fn plan_blocks<const COUNTS: bool>(
    by: &FrameSources<'_>,
    reader: &mut CountingReader<'_, COUNTS>,
    plan: &mut ColumnPlan,
    tile: &TilePlaces,
) -> Result<(), Halt>
    requires ready { IsReady by.now.setting plan.old.column }
    requires kept { IsKept by.now.setting.header plan.old }
    requires past { IsPastOf by.now.setting.header by.now.past }
    requires from { tile.now.col_from ≡ plan.old.column.grid.from }
    requires to { tile.now.col_to ≡ plan.old.column.grid.to }
    requires order { tile.now.row_from ≤ tile.now.row_to }
    requires low { tile.now.row_to ≤ 8192 }
    requires room { 64 * (superblocks_along (plan.old.column.grid.to - plan.old.column.grid.from) * superblocks_along (tile.now.row_to - tile.now.row_from)) ≤ plan.old.column.grid.room }
    ensures gives { GivesTile (decode_tile (plan_walk (sources_of by.now) by.now.setting.places plan.old.column.grid.from plan.old.column.grid.to) (tile_superblocks tile.now) (tile_held (shape_of by.now.setting.header) plan.old))
        reader.old result (tile_held (shape_of by.now.setting.header) plan.new) reader.new }
    ensures ready { OnOk result (IsReady by.now.setting plan.new.column) }
    ensures kept { OnOk result (IsKept by.now.setting.header plan.new) }
    ensures same { OnOk result (SameColumns plan.old.column plan.new.column) }
    ensures room { OnOk result (plan.old.column.grid.room ≤ plan.new.column.grid.room + 64 * (superblocks_along (plan.old.column.grid.to - plan.old.column.grid.from) * superblocks_along (tile.now.row_to - tile.now.row_from))) }
{
    let mut room = BlockResidues::new();
    let mut planning = PlanReader {
        by,
        reader,
        plan,
        room: &mut room,
    };
    read_planned(&mut planning, tile)
}

/// A tile, from its bytes, into its column's plan, with the counts so far; answers the counts behind it.
#[tactic(auto, unfolding(frame_state::specs::Code::read_whole))]
pub(crate) fn plan_tile<const COUNTS: bool>(
    bytes: &[u8],
    by: &FrameSources<'_>,
    tile: &TilePlaces,
    plan: &mut ColumnPlan,
    counts: Counts,
) -> Result<Counts, Halt>
    requires ready { IsReady by.now.setting plan.old.column }
    requires kept { IsKept by.now.setting.header plan.old }
    requires past { IsPastOf by.now.setting.header by.now.past }
    requires from { tile.now.col_from ≡ plan.old.column.grid.from }
    requires to { tile.now.col_to ≡ plan.old.column.grid.to }
    requires order { tile.now.row_from ≤ tile.now.row_to }
    requires low { tile.now.row_to ≤ 8192 }
    requires room { 64 * (superblocks_along (plan.old.column.grid.to - plan.old.column.grid.from) * superblocks_along (tile.now.row_to - tile.now.row_from)) ≤ plan.old.column.grid.room }
    ensures gives { GivesWhole COUNTS counts (read_whole (decode_tile (plan_walk (sources_of by.now) by.now.setting.places plan.old.column.grid.from plan.old.column.grid.to) (tile_superblocks tile.now) (tile_held (shape_of by.now.setting.header) plan.old)) bytes.now)
        result (tile_held (shape_of by.now.setting.header) plan.new) }
    ensures ready { OnOk result (IsReady by.now.setting plan.new.column) }
    ensures kept { OnOk result (IsKept by.now.setting.header plan.new) }
    ensures same { OnOk result (SameColumns plan.old.column plan.new.column) }
    ensures room { OnOk result (plan.old.column.grid.room ≤ plan.new.column.grid.room + 64 * (superblocks_along (plan.old.column.grid.to - plan.old.column.grid.from) * superblocks_along (tile.now.row_to - tile.now.row_from))) }
{
    let mut reader = CountingReader::<COUNTS>::start(bytes, counts)?;
    plan_blocks(by, &mut reader, plan, tile)?;
    Ok(reader.into_counts())
}
