//! The superblocks of a tile.

ghost use Rattle.std.specs.Prelude.{◌≡◌, ◌-◌, ◌+◌, ◌*◌, ◌<◌, ◌≤◌, length, IsOk, OnOk};
ghost use Rattle.frame_headers.specs.Spans.{tile_count, tile_spans};
ghost use Rattle.frame_headers.specs.HeaderState.{shape_of};
ghost use Rattle.frame_headers.specs.Tiles.{AreFewTiles};
ghost use Rattle.vp9_types.specs.Sizes.{greatest, superblocks_along};
ghost use Rattle.prob_contexts.specs.Code.{no_counts};
ghost use Rattle.mode_syntax.specs.Walk.{decode_tile};
ghost use Rattle.frame_state.specs.TilePlaces.{tile_superblocks};
ghost use Rattle.frame_state.specs.Code.{counts_if, sources_of, read_whole, IsReady, SameColumns};
ghost use Rattle.frame_state.specs.KeptColumns.{AreTileColumns};
ghost use Rattle.frame_state.specs.FrameReading.{FrameRead, nothing_read, read_all_tiles, read_tile_of};
ghost use Rattle.frame_decoder.specs.Code.{pictures_of, tile_of, walk_of, ArePlanes, CanPredict, HoldsRead, GivesRead, GivesTile, GivesWhole};

use crate::plain::{BlockRoom, PlainReader, PlainSources};
use block_rebuild::RoomSample;
use counting_reader::CountingReader;
use frame_headers::tile_span;
use frame_state::{TileColumn, TilePlaces, superblocks};
use mode_syntax::SquareAt;
use planes::FramePlanes;
use prob_contexts::Counts;
use tile_reader::read_rows;
use vp9_types::{Rule, Span};

/// The level of a superblock.
const SUPERBLOCK: u8 = 3;

/// The blocks of a tile.
fn read_tile<P: RoomSample, const COUNTS: bool>(
    plain: &mut PlainReader<'_, '_, '_, P, COUNTS>,
    tile: &TilePlaces,
) -> Result<(), Rule>
    requires ready { IsReady plain.old.by.now.reading.setting plain.old.column.now }
    requires planes { ArePlanes (shape_of plain.old.by.now.reading.setting.header) plain.old.planes.now }
    requires past { CanPredict plain.old.by.now }
    requires kept { P.takes (greatest (shape_of plain.old.by.now.reading.setting.header).depth) }
    requires from { tile.now.col_from ≡ plain.old.column.now.grid.from }
    requires to { tile.now.col_to ≡ plain.old.column.now.grid.to }
    requires order { tile.now.row_from ≤ tile.now.row_to }
    requires low { tile.now.row_to ≤ 8192 }
    requires room { 64 * (superblocks_along (plain.old.column.now.grid.to - plain.old.column.now.grid.from) * superblocks_along (tile.now.row_to - tile.now.row_from)) ≤ plain.old.column.now.grid.room }
    ensures gives { GivesTile (decode_tile (walk_of plain.old.by.now plain.old.column.now) (tile_superblocks tile.now) (tile_of plain.old.column.now plain.old.planes.now))
        plain.old.reader.now result plain.new.column.now plain.new.planes.now plain.new.reader.now }
    ensures ready { OnOk result (IsReady plain.old.by.now.reading.setting plain.new.column.now) }
    ensures planes { OnOk result (ArePlanes (shape_of plain.old.by.now.reading.setting.header) plain.new.planes.now) }
    ensures same { OnOk result (SameColumns plain.old.column.now plain.new.column.now) }
    ensures room { OnOk result (plain.old.column.now.grid.room ≤ plain.new.column.now.grid.room + 64 * (superblocks_along (plain.old.column.now.grid.to - plain.old.column.now.grid.from) * superblocks_along (tile.now.row_to - tile.now.row_from))) }
    ensures same_reader { plain.new.reader.ghost_name ≡ plain.old.reader.ghost_name }
    ensures same_column { plain.new.column.ghost_name ≡ plain.old.column.ghost_name }
    ensures same_planes { plain.new.planes.ghost_name ≡ plain.old.planes.ghost_name }
{
    let first = SquareAt {
        row: tile.row_from,
        col: tile.col_from,
        level: SUPERBLOCK,
        tile_from: tile.col_from,
        tile_to: tile.col_to,
    };
    let across = superblocks(tile.col_from, tile.col_to);
    let down = superblocks(tile.row_from, tile.row_to);
    read_rows(plain, first, across, down)
}

/// All blocks of a tile.
#[tactic(auto, using(crate::proofs::PlainTiles::tile_left))]
fn decode_blocks<P: RoomSample, const COUNTS: bool>(
    by: &PlainSources<'_, P>,
    reader: &mut CountingReader<'_, COUNTS>,
    column: &mut TileColumn,
    planes: &mut FramePlanes<P>,
    tile: &TilePlaces,
) -> Result<(), Rule>
    requires ready { IsReady by.now.reading.setting column.old }
    requires planes { ArePlanes (shape_of by.now.reading.setting.header) planes.old }
    requires past { CanPredict by.now }
    requires kept { P.takes (greatest (shape_of by.now.reading.setting.header).depth) }
    requires from { tile.now.col_from ≡ column.old.grid.from }
    requires to { tile.now.col_to ≡ column.old.grid.to }
    requires order { tile.now.row_from ≤ tile.now.row_to }
    requires low { tile.now.row_to ≤ 8192 }
    requires room { 64 * (superblocks_along (column.old.grid.to - column.old.grid.from) * superblocks_along (tile.now.row_to - tile.now.row_from)) ≤ column.old.grid.room }
    ensures gives { GivesTile (decode_tile (walk_of by.now column.old) (tile_superblocks tile.now) (tile_of column.old planes.old))
        reader.old result column.new planes.new reader.new }
    ensures ready { OnOk result (IsReady by.now.reading.setting column.new) }
    ensures planes { OnOk result (ArePlanes (shape_of by.now.reading.setting.header) planes.new) }
    ensures same { OnOk result (SameColumns column.old column.new) }
    ensures room { OnOk result (column.old.grid.room ≤ column.new.grid.room + 64 * (superblocks_along (column.old.grid.to - column.old.grid.from) * superblocks_along (tile.now.row_to - tile.now.row_from))) }
{
    let mut room = BlockRoom::with(P::new_room());
    let mut plain = PlainReader {
        by,
        reader,
        column,
        planes,
        room: &mut room,
    };
    read_tile(&mut plain, tile)
}

/// A tile, from its bytes, with the counts so far; answers the counts behind it.
#[tactic(auto, unfolding(frame_state::specs::Code::read_whole))]
fn decode_tile<P: RoomSample, const COUNTS: bool>(
    bytes: &[u8],
    by: &PlainSources<'_, P>,
    tile: &TilePlaces,
    column: &mut TileColumn,
    planes: &mut FramePlanes<P>,
    counts: Counts,
) -> Result<Counts, Rule>
    requires ready { IsReady by.now.reading.setting column.old }
    requires planes { ArePlanes (shape_of by.now.reading.setting.header) planes.old }
    requires past { CanPredict by.now }
    requires kept { P.takes (greatest (shape_of by.now.reading.setting.header).depth) }
    requires from { tile.now.col_from ≡ column.old.grid.from }
    requires to { tile.now.col_to ≡ column.old.grid.to }
    requires order { tile.now.row_from ≤ tile.now.row_to }
    requires low { tile.now.row_to ≤ 8192 }
    requires room { 64 * (superblocks_along (column.old.grid.to - column.old.grid.from) * superblocks_along (tile.now.row_to - tile.now.row_from)) ≤ column.old.grid.room }
    ensures gives { GivesWhole COUNTS counts (read_whole (decode_tile (walk_of by.now column.old) (tile_superblocks tile.now) (tile_of column.old planes.old)) bytes.now)
        result column.new planes.new }
    ensures ready { OnOk result (IsReady by.now.reading.setting column.new) }
    ensures planes { OnOk result (ArePlanes (shape_of by.now.reading.setting.header) planes.new) }
    ensures same { OnOk result (SameColumns column.old column.new) }
    ensures room { OnOk result (column.old.grid.room ≤ column.new.grid.room + 64 * (superblocks_along (column.old.grid.to - column.old.grid.from) * superblocks_along (tile.now.row_to - tile.now.row_from))) }
{
    let mut reader = CountingReader::<COUNTS>::start(bytes, counts)?;
    decode_blocks(by, &mut reader, column, planes, tile)?;
    Ok(reader.into_counts())
}

/// The `n`-th tile of a frame, from its bytes, with the counts so far; answers the counts behind it.
fn decode_nth<P: RoomSample, const COUNTS: bool>(
    bytes: &[u8],
    by: &PlainSources<'_, P>,
    n: u32,
    columns: &mut [TileColumn],
    planes: &mut FramePlanes<P>,
    counts: Counts,
) -> Result<Counts, Rule>
    requires past { CanPredict by.now }
    requires kept { P.takes (greatest (shape_of by.now.reading.setting.header).depth) }
    requires few { AreFewTiles by.now.reading.setting.header.params.tiles }
    requires below { n < tile_count by.now.reading.setting.header }
    requires columns { AreTileColumns by.now.reading.setting.header n columns.old }
    requires planes { ArePlanes (shape_of by.now.reading.setting.header) planes.old }
    ensures gives { (read : FrameRead) → HoldsRead (pictures_of by.now) columns.old planes.old read → counts ≡ counts_if COUNTS read.counted
        → GivesRead (pictures_of by.now) COUNTS (read_tile_of (sources_of by.now.reading) n bytes.now read) result columns.new planes.new }
    ensures columns { OnOk result (AreTileColumns by.now.reading.setting.header (n + 1) columns.new) }
    ensures planes { OnOk result (ArePlanes (shape_of by.now.reading.setting.header) planes.new) }
{
    let tiles = by.reading.setting.header.params.tiles;
    let tile = TilePlaces::new(by.reading.setting.places, tiles, n);
    let column = &mut columns[(n % tiles.columns()) as usize];
    column.sides.clear_left();
    decode_tile::<P, COUNTS>(bytes, by, &tile, column, planes, counts)
}

/// All tiles of a frame in order, whose compressed header lies at `compressed`. Their sizes are tested. Answers the counts of
/// all of them, from `none` on, if counting is on.
pub(crate) fn decode_tiles<P: RoomSample, const COUNTS: bool>(
    bytes: &[u8],
    by: &PlainSources<'_, P>,
    compressed: Span,
    columns: &mut [TileColumn],
    planes: &mut FramePlanes<P>,
    none: Counts,
) -> Result<Counts, Rule>
    requires past { CanPredict by.now }
    requires kept { P.takes (greatest (shape_of by.now.reading.setting.header).depth) }
    requires few { AreFewTiles by.now.reading.setting.header.params.tiles }
    requires within { compressed.to ≤ length bytes.now }
    requires tested { IsOk (tile_spans bytes.now by.now.reading.setting.header compressed) }
    requires columns { AreTileColumns by.now.reading.setting.header 0 columns.old }
    requires planes { ArePlanes (shape_of by.now.reading.setting.header) planes.old }
    requires start { HoldsRead (pictures_of by.now) columns.old planes.old (nothing_read by.now.reading.setting.header) }
    requires none { none ≡ no_counts }
    ensures gives { GivesRead (pictures_of by.now) COUNTS (read_all_tiles (sources_of by.now.reading) bytes.now compressed)
        result columns.new planes.new }
    ensures columns { OnOk result (AreTileColumns by.now.reading.setting.header (tile_count by.now.reading.setting.header) columns.new) }
    ensures planes { OnOk result (ArePlanes (shape_of by.now.reading.setting.header) planes.new) }
{
    let mut counts = none;
    for n in 0..by.reading.setting.header.params.tiles.count() {
        let span = tile_span(bytes, &by.reading.setting.header, compressed, n);
        let tile = &bytes[span.from..span.to];
        counts = decode_nth::<P, COUNTS>(tile, by, n, columns, planes, counts)?;
    }
    Ok(counts)
}
