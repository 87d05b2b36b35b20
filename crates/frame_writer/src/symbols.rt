//! What a frame's blocks say.

ghost use Rattle.std.specs.Prelude.{◌≡◌, ◌<◌, ◌≤◌, ℕ, Bool, true, List, Option, IfSome};
ghost use Rattle.prob_contexts.specs.ProbLists.{lists_of};
ghost use Rattle.frame_headers.specs.HeaderState.{shape_of};
ghost use Rattle.vp9_types.specs.declared.block.Partition.{Partition};
ghost use Rattle.block_plan.specs.declared.block.BlockAt.{BlockAt};
ghost use Rattle.block_plan.specs.declared.block.BlockInfo.{BlockInfo};
ghost use Rattle.residue_syntax.specs.Code.{IsInFrame};
ghost use Rattle.frame_state.specs.Code.{sources_of};
ghost use Rattle.frame_state.specs.Past.{IsPastOf};
ghost use Rattle.frame_state.specs.KeptColumns.{AllSmall};
ghost use Rattle.mode_writer.specs.ModeFits.{CanPartition};
ghost use Rattle.inter_writer.specs.InterFits.{CanPut};
ghost use Rattle.residue_writer.specs.ResidueFits.{CanPutBlock};
ghost use Rattle.frame_writer.specs.FrameSymbols.{Speaker};
ghost use Rattle.frame_writer.specs.Code.{Tells, TellsInto};
ghost use Rattle.frame_state.specs.Sources.{block_sources};

use block_plan::{BlockAt, BlockGrid, BlockInfo};
use frame_state::FrameSources;
use inter_writer::BlockSymbols;
use residue_writer::BlockLevels;
use vp9_types::Partition;

/// Who tells what a frame's blocks say, each in its place. What is told can be said there; if there is nothing to tell, or
/// nothing that can be said, the frame isn't written.
pub trait FrameSymbols {
    /// What is told, and who tells it then.
    ghost speaker: { Speaker Self };

    /// The partition of a square, by whether its lower and its right half begin inside the frame.
    fn partition(&mut self, has_rows: bool, has_cols: bool) -> Option<Partition>
        ensures tells { Tells (speaker.partition has_rows has_cols self.old) result self.new }
        ensures can { IfSome result (CanPartition has_rows has_cols) };

    /// What a block says that starts inside the frame and its tile. `grid` has the blocks of its tile column before it.
    fn block(
        &mut self,
        by: &FrameSources<'_>,
        grid: &BlockGrid,
        at: BlockAt,
    ) -> Option<BlockSymbols>
        requires past { IsPastOf by.now.setting.header by.now.past }
        requires row { at.row < by.now.setting.places.rows }
        requires first { at.tile_from ≤ at.col }
        requires last { at.col < at.tile_to }
        requires tile { at.tile_to ≤ by.now.setting.places.cols }
        requires rows { grid.now.rows ≡ by.now.setting.places.rows }
        requires from { at.tile_from ≡ grid.now.from }
        requires to { at.tile_to ≡ grid.now.to }
        requires small { AllSmall grid.now.blocks }
        ensures tells { Tells (speaker.block (sources_of by.now) grid.now.blocks at self.old) result self.new }
        ensures can { IfSome result (CanPut (block_sources (sources_of by.now)) grid.now.blocks at) };

    /// The levels of a block whose modes are known. A skipped block has none to tell. It answers whether there are any to tell.
    fn levels(&mut self, by: &FrameSources<'_>, block: &BlockInfo, levels: &mut BlockLevels) -> bool
        requires inside { IsInFrame (shape_of by.now.setting.header) block.now }
        ensures tells { TellsInto (speaker.levels (sources_of by.now) block.now self.old) result levels.new self.new }
        ensures can { result ≡ true → CanPutBlock by.now.setting.header (lists_of by.now.setting.contexts) block.now levels.new };
}
