//! What drawn blocks say.

use crate::frames::is_drawn_frame;
use crate::levels::draw_block_levels;
use block_plan::{BlockAt, BlockGrid, BlockInfo};
use drawn_symbols::{Draws, draw_block, draw_partition};
use frame_state::FrameSources;
use frame_writer::FrameSymbols;
use inter_writer::BlockSymbols;
use residue_writer::BlockLevels;
use vp9_types::Partition;

/// Draws what the blocks of a frame say, in the order in which it is written.
#[derive(Drop)]
pub struct DrawnSymbols {
    pub draws: Draws,
}

impl FrameSymbols for DrawnSymbols {
    ghost use Rattle.drawn_frames.specs.SymbolDraws.{drawing};

    ghost speaker = { drawing };

    fn partition(&mut self, has_rows: bool, has_cols: bool) -> Option<Partition> {
        Some(draw_partition(&mut self.draws, has_rows, has_cols))
    }

    fn block(
        &mut self,
        by: &FrameSources<'_>,
        grid: &BlockGrid,
        at: BlockAt,
    ) -> Option<BlockSymbols> {
        let setting = &by.setting;
        if !is_drawn_frame(&setting.header) {
            return None;
        }
        let before = by.past.vectors.as_ref();
        Some(draw_block(&mut self.draws, setting, at, grid, before))
    }

    fn levels(
        &mut self,
        by: &FrameSources<'_>,
        block: &BlockInfo,
        levels: &mut BlockLevels,
    ) -> bool {
        draw_block_levels(&mut self.draws, &by.setting, block, levels);
        true
    }
}
