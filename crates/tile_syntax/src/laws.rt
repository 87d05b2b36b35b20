//! Laws of the definitions, as contracts of functions that do nothing.

ghost use Rattle.std.specs.Prelude.{◌≡◌, ℕ};
ghost use Rattle.counting_reader.specs.Counting.{mapped};
ghost use Rattle.block_geometry.specs.declared.transform_blocks.FramePlaces.{FramePlaces};
ghost use Rattle.mode_syntax.specs.Laws.{squares_from};
ghost use Rattle.mode_syntax.specs.Walk.{decode_tile};
ghost use Rattle.frame_state.specs.FrameReading.{TileRead, read_walk};
ghost use Rattle.frame_state.specs.Sources.{FrameSources};
ghost use Rattle.frame_state.specs.declared.tile_places.TilePlaces.{TilePlaces};
ghost use Rattle.tile_syntax.specs.Code.{plan_view, plan_walk};

/// A tile that is planned reads and counts what the tile says, and keeps its column's earlier blocks and its own.
pub fn plans_read_what_tiles_say()
    ensures { (by : FrameSources) (frame : FramePlaces) (tile : TilePlaces) (columns r c n : ℕ) (s : TileRead) →
        let squares = squares_from (read_walk by frame tile) columns r c n in
        decode_tile (plan_walk by frame tile.col_from tile.col_to) squares (plan_view s) ≡ mapped plan_view (decode_tile (read_walk by frame tile) squares s) }
{}
