//! What stands next in the lists.

ghost use Rattle.std.specs.Prelude.{◌≡◌, ◌<◌, ◌≤◌, true};
ghost use Rattle.frame_state.specs.Sources.{block_sources};
ghost use Rattle.frame_state.specs.Code.{sources_of};
ghost use Rattle.frame_state.specs.KeptColumns.{AllSmall};
ghost use Rattle.frame_state.specs.Past.{IsPastOf};
ghost use Rattle.inter_writer.specs.InterFits.{CanPut, CanPutIntra};
ghost use Rattle.listed_symbols.specs.ListedBlocks.{can_put, can_put_intra, last_told};

use crate::in_planes::list_levels;
use crate::inter::can_put_inter;
use crate::intra::{can_luma, can_partition};
use crate::lists::{ListedBlock, ListedSymbols};
use crate::starts::can_start_intra;
use block_plan::{BlockAt, BlockGrid, BlockInfo};
use frame_headers::FrameKind;
use frame_setting::FrameSetting;
use frame_state::FrameSources;
use frame_writer::FrameSymbols;
use inter_modes::Frame;
use inter_writer::{BlockSymbols, PredictionSymbols};
use residue_writer::BlockLevels;
use vp9_types::Partition;

/// Whether a block of an intra frame can say this.
#[tactic(auto, using(crate::proofs::Cans::intra_can))]
fn can_put_intra(setting: &FrameSetting, at: &BlockAt, symbols: &BlockSymbols) -> bool
    ensures is { result ≡ can_put_intra setting.now.header setting.now.modes at.now symbols.now.start symbols.now.prediction }
    ensures can { result ≡ true → CanPutIntra setting.now.header setting.now.modes at.now symbols.now.start symbols.now.prediction }
{
    let PredictionSymbols::Intra(prediction) = &symbols.prediction else {
        return false;
    };
    let segmentation = &setting.header.params.segmentation;
    can_start_intra(segmentation, setting.modes.tx_mode, at.size, &symbols.start)
        && can_luma(at.size, prediction.luma)
}

/// Whether a block can say this, by the blocks of its tile column before it.
fn can_put(by: &FrameSources<'_>, grid: &BlockGrid, at: BlockAt, symbols: &BlockSymbols) -> bool
    requires past { IsPastOf by.now.setting.header by.now.past }
    requires row { at.row < by.now.setting.places.rows }
    requires first { at.tile_from ≤ at.col }
    requires last { at.col < at.tile_to }
    requires tile { at.tile_to ≤ by.now.setting.places.cols }
    requires rows { grid.now.rows ≡ by.now.setting.places.rows }
    requires from { at.tile_from ≡ grid.now.from }
    requires to { at.tile_to ≡ grid.now.to }
    requires small { AllSmall grid.now.blocks }
    ensures is { result ≡ can_put (sources_of by.now) grid.now.blocks at symbols.now }
    ensures can { result ≡ true → CanPut (block_sources (sources_of by.now)) grid.now.blocks at symbols.now }
{
    let setting = &by.setting;
    match &setting.header.kind {
        FrameKind::Inter(fields) => {
            let frame = Frame { setting, fields };
            let before = by.past.vectors.as_ref();
            can_put_inter(&frame, at, grid, by.past.segments, before, symbols)
        }
        FrameKind::Key | FrameKind::IntraOnly => can_put_intra(setting, &at, symbols),
    }
}

/// The block that was told last.
fn last_told<'a>(symbols: &ListedSymbols<'a>) -> Option<ListedBlock<'a>>
    ensures { result ≡ last_told symbols.now }
{
    if symbols.blocks_told == 0 {
        return None;
    }
    symbols.blocks.get(symbols.blocks_told - 1).copied()
}

impl<'a> FrameSymbols for ListedSymbols<'a> {
    ghost use Rattle.listed_symbols.specs.ListedBlocks.{listed};

    ghost speaker = { listed };

    fn partition(&mut self, has_rows: bool, has_cols: bool) -> Option<Partition> {
        let partition = *self.partitions.get(self.partitions_told)?;
        if !can_partition(has_rows, has_cols, partition) {
            return None;
        }
        self.partitions_told += 1;
        Some(partition)
    }

    fn block(
        &mut self,
        by: &FrameSources<'_>,
        grid: &BlockGrid,
        at: BlockAt,
    ) -> Option<BlockSymbols> {
        let block = self.blocks.get(self.blocks_told)?;
        if !can_put(by, grid, at, &block.symbols) {
            return None;
        }
        self.blocks_told += 1;
        Some(block.symbols)
    }

    fn levels(
        &mut self,
        by: &FrameSources<'_>,
        block: &BlockInfo,
        levels: &mut BlockLevels,
    ) -> bool {
        let Some(listed) = last_told(self) else {
            return false;
        };
        list_levels(levels, &by.setting, block, &listed.levels)
    }
}
