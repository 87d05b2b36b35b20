//! A tile whose blocks are put in as they are read.

ghost use Rattle.std.specs.Prelude.{◌≡◌, ◌+◌, ◌<◌, ◌≤◌, OnOk};
ghost use Rattle.vp9_types.specs.Sizes.{greatest};
ghost use Rattle.block_geometry.specs.BlockSizes.{width_8};
ghost use Rattle.frame_headers.specs.HeaderState.{shape_of};
ghost use Rattle.frame_state.specs.Code.{IsReady, SameColumns, sources_of};
ghost use Rattle.frame_state.specs.KeptColumns.{limit_of};
ghost use Rattle.frame_decoder.specs.Code.{plain_block, pictures_of, tile_of, ArePlanes, CanPredict, GivesTile};

use block_geometry::FramePlaces;
use block_plan::{BlockAt, BlockResidues};
use block_rebuild::{Rebuilding, RoomSample, put_block};
use counting_reader::CountingReader;
use frame_state::{FrameSources, TileColumn, frame_is_intra};
use inter_modes::mode_info;
use mode_syntax::{SquareAt, read_partition};
use planes::{FramePlanes, Picture};
use residue_syntax::block_residue;
use tile_reader::TileReader;
use vp9_types::{Partition, Rule, Sample};

/// What the blocks of a frame are read by, and the pictures that they are predicted from.
#[derive(Drop)]
pub struct PlainSources<'a, P: Sample> {
    pub reading: FrameSources<'a>,
    pub pictures: Rebuilding<'a, Picture<P>>,
}

/// Room for one block: its residue, and what it is put in by.
#[derive(Drop)]
pub(crate) struct BlockRoom<R> {
    pub residues: BlockResidues,
    pub rebuild: R,
}

impl<R> BlockRoom<R> {
    pub fn with(rebuild: R) -> BlockRoom<R> {
        BlockRoom {
            residues: BlockResidues::new(),
            rebuild,
        }
    }
}

/// A block that starts inside the frame.
fn decode_block<P: RoomSample, const COUNTS: bool>(
    by: &PlainSources<'_, P>,
    reader: &mut CountingReader<COUNTS>,
    column: &mut TileColumn,
    planes: &mut FramePlanes<P>,
    room: &mut BlockRoom<P::Room>,
    at: BlockAt,
) -> Result<(), Rule>
    requires ready { IsReady by.now.reading.setting column.old }
    requires planes { ArePlanes (shape_of by.now.reading.setting.header) planes.old }
    requires past { CanPredict by.now }
    requires kept { P.takes (greatest (shape_of by.now.reading.setting.header).depth) }
    requires row { at.row < by.now.reading.setting.places.rows }
    requires first { at.tile_from ≤ at.col }
    requires col { at.col < at.tile_to }
    requires from { at.tile_from ≡ column.old.grid.from }
    requires to { at.tile_to ≡ column.old.grid.to }
    requires wide { at.col + width_8 at.size ≤ limit_of column.old }
    requires room { 1 ≤ column.old.grid.room }
    ensures gives { GivesTile (plain_block (sources_of by.now.reading) (pictures_of by.now) at (tile_of column.old planes.old))
        reader.old result column.new planes.new reader.new }
    ensures ready { OnOk result (IsReady by.now.reading.setting column.new) }
    ensures planes { OnOk result (ArePlanes (shape_of by.now.reading.setting.header) planes.new) }
    ensures same { OnOk result (SameColumns column.old column.new) }
    ensures room { OnOk result (column.old.grid.room ≤ column.new.grid.room + 1) }
{
    let FrameSources { setting, past } = &by.reading;
    let vectors = past.vectors.as_ref();
    let block = mode_info(reader, setting, at, &column.grid, past.segments, vectors)?;
    let listed = block_residue(
        reader,
        setting,
        &block,
        &mut column.sides,
        &mut room.residues,
    )?;
    put_block(
        planes,
        &by.pictures,
        at.tile_from,
        &block,
        &room.residues,
        &mut room.rebuild,
    );
    column.grid.put(listed);
    Ok(())
}

/// What the blocks of a tile are read and put in by, its bools, its column, the frame's planes, and room for one block.
#[derive(Drop)]
pub(crate) struct PlainReader<'a, 'b, 'c, P: RoomSample, const COUNTS: bool> {
    pub by: &'a PlainSources<'b, P>,
    pub reader: &'a mut CountingReader<'c, COUNTS>,
    pub column: &'a mut TileColumn,
    pub planes: &'a mut FramePlanes<P>,
    pub room: &'a mut BlockRoom<P::Room>,
}

impl<'a, 'b, 'c, P: RoomSample, const COUNTS: bool> TileReader
    for PlainReader<'a, 'b, 'c, P, COUNTS> {
    ghost use Rattle.std.specs.Prelude.{Some};
    ghost use Rattle.std.specs.Borrow.{GName};
    ghost use Rattle.counting_reader.specs.Code.{standing_of};
    ghost use Rattle.tile_reader.specs.Code.{Tile};
    ghost use Rattle.vp9_types.specs.Sizes.{greatest};
    ghost use Rattle.frame_headers.specs.HeaderState.{shape_of};
    ghost use Rattle.frame_state.specs.Code.{IsReady};
    ghost use Rattle.frame_state.specs.KeptColumns.{limit_of};
    ghost use Rattle.frame_decoder.specs.Code.{PlainTile, ArePlanes, CanPredict, tile_of, walk_of};
    ghost use Rattle.frame_decoder.specs.declared.plain.PlainSources.{PlainSources};

    ghost State = { PlainTile };

    type Halt = Rule;

    ghost tile = { λ w. record {
      walk = walk_of w.by.now w.column.now;
      rule_of = λ rule. Some rule;
      limit = limit_of w.column.now;
      room = w.column.now.grid.room;
      state = tile_of w.column.now w.planes.now;
      standing = standing_of w.reader.now;
    } };

    ghost ready = { λ w. CanPredict w.by.now × P.takes (greatest (shape_of w.by.now.reading.setting.header).depth) × IsReady w.by.now.reading.setting w.column.now × ArePlanes (shape_of w.by.now.reading.setting.header) w.planes.now };

    ghost Kept = { GName × GName × GName × PlainSources P };

    ghost kept = { λ w. (w.reader.ghost_name, w.column.ghost_name, w.planes.ghost_name, w.by.now) };

    fn frame(&self) -> FramePlaces {
        self.by.reading.setting.places
    }

    fn read_partition(&mut self, at: SquareAt) -> Partition {
        let setting = &self.by.reading.setting;
        let intra = frame_is_intra(&setting.header.kind);
        read_partition(self.reader, setting, intra, &self.column.grid, at)
    }

    fn read_block(&mut self, at: BlockAt) -> Result<(), Rule> {
        decode_block(
            self.by,
            self.reader,
            self.column,
            self.planes,
            self.room,
            at,
        )
    }
}
