//! A tile whose blocks are planned as they are read.

ghost use Rattle.std.specs.Prelude.{◌≡◌, ◌+◌, ◌<◌, ◌≤◌, OnOk};
ghost use Rattle.frame_headers.specs.HeaderState.{shape_of};
ghost use Rattle.block_geometry.specs.BlockSizes.{width_8};
ghost use Rattle.frame_state.specs.KeptColumns.{limit_of};
ghost use Rattle.frame_state.specs.Past.{IsPastOf};
ghost use Rattle.frame_state.specs.Code.{IsReady, SameColumns, sources_of};
ghost use Rattle.tile_syntax.specs.Code.{GivesTile, IsKept, plan_block, tile_held};

use crate::plans::ColumnPlan;
use block_geometry::FramePlaces;
use block_plan::{BlockAt, BlockResidues};
use column_plan::push_block;
use counting_reader::CountingReader;
use frame_state::{FrameSources, Halt, frame_is_intra};
use inter_modes::mode_info;
use mode_syntax::{SquareAt, read_partition};
use residue_syntax::block_residue;
use tile_reader::TileReader;
use vp9_types::Partition;

/// A block that starts inside the frame.
pub(crate) fn plan_block<const COUNTS: bool>(
    by: &FrameSources<'_>,
    reader: &mut CountingReader<'_, COUNTS>,
    plan: &mut ColumnPlan,
    room: &mut BlockResidues,
    at: BlockAt,
) -> Result<(), Halt>
    requires ready { IsReady by.now.setting plan.old.column }
    requires kept { IsKept by.now.setting.header plan.old }
    requires past { IsPastOf by.now.setting.header by.now.past }
    requires row { at.row < by.now.setting.places.rows }
    requires first { at.tile_from ≤ at.col }
    requires col { at.col < at.tile_to }
    requires from { at.tile_from ≡ plan.old.column.grid.from }
    requires to { at.tile_to ≡ plan.old.column.grid.to }
    requires wide { at.col + width_8 at.size ≤ limit_of plan.old.column }
    requires room { 1 ≤ plan.old.column.grid.room }
    ensures gives { GivesTile (plan_block (sources_of by.now) at (tile_held (shape_of by.now.setting.header) plan.old))
        reader.old result (tile_held (shape_of by.now.setting.header) plan.new) reader.new }
    ensures ready { OnOk result (IsReady by.now.setting plan.new.column) }
    ensures kept { OnOk result (IsKept by.now.setting.header plan.new) }
    ensures same { OnOk result (SameColumns plan.old.column plan.new.column) }
    ensures room { OnOk result (plan.old.column.grid.room ≤ plan.new.column.grid.room + 1) }
{
    let setting = &by.setting;
    let vectors = by.past.vectors.as_ref();
    let grid = &plan.column.grid;
    let block = mode_info(reader, setting, at, grid, by.past.segments, vectors)?;
    let listed = block_residue(reader, setting, &block, &mut plan.column.sides, room)?;
    let end = plan.end();
    plan.rows.reach(at.row / 8, end)?;
    push_block(&mut plan.residues, setting, &block, room)?;
    plan.column.grid.put(listed);
    Ok(())
}

/// A tile that is planned: what its blocks are read by, its bools, its column's plan, and room for a block's residues.
#[derive(Drop)]
pub(crate) struct PlanReader<'a, 'b, 'c, const COUNTS: bool> {
    pub by: &'a FrameSources<'b>,
    pub reader: &'a mut CountingReader<'c, COUNTS>,
    pub plan: &'a mut ColumnPlan,
    pub room: &'a mut BlockResidues,
}

impl<'a, 'b, 'c, const COUNTS: bool> TileReader for PlanReader<'a, 'b, 'c, COUNTS> {
    ghost use Rattle.std.specs.Borrow.{GName};
    ghost use Rattle.counting_reader.specs.Code.{standing_of};
    ghost use Rattle.tile_reader.specs.Code.{Tile};
    ghost use Rattle.frame_state.specs.declared.sources.FrameSources.{FrameSources};
    ghost use Rattle.tile_syntax.specs.Code.{PlanTile, plan_walk, rule_of};

    ghost State = { PlanTile };

    type Halt = Halt;

    ghost tile = { λ w. record {
      walk = plan_walk (sources_of w.by.now) w.by.now.setting.places w.plan.now.column.grid.from w.plan.now.column.grid.to;
      rule_of = rule_of;
      limit = limit_of w.plan.now.column;
      room = w.plan.now.column.grid.room;
      state = tile_held (shape_of w.by.now.setting.header) w.plan.now;
      standing = standing_of w.reader.now;
    } };

    ghost ready = { λ w. IsPastOf w.by.now.setting.header w.by.now.past × IsReady w.by.now.setting w.plan.now.column
        × IsKept w.by.now.setting.header w.plan.now };

    ghost Kept = { GName × GName × FrameSources };

    ghost kept = { λ w. (w.reader.ghost_name, w.plan.ghost_name, w.by.now) };

    fn frame(&self) -> FramePlaces {
        self.by.setting.places
    }

    fn read_partition(&mut self, at: SquareAt) -> Partition {
        let setting = &self.by.setting;
        let intra = frame_is_intra(&setting.header.kind);
        read_partition(self.reader, setting, intra, &self.plan.column.grid, at)
    }

    fn read_block(&mut self, at: BlockAt) -> Result<(), Halt> {
        plan_block(self.by, self.reader, self.plan, self.room, at)
    }
}
