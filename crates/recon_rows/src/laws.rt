//! Laws of the definitions, as contracts of functions that do nothing.

ghost use Rattle.std.specs.Prelude.{ℕ, ◌≡◌, List, Ok};
ghost use Rattle.std.specs.List.{All};
ghost use Rattle.counting_reader.specs.Counting.{Settled};
ghost use Rattle.frame_headers.specs.Spans.{tile_count};
ghost use Rattle.frame_headers.specs.HeaderState.{shape_of};
ghost use Rattle.frame_headers.specs.declared.header.Header.{Header};
ghost use Rattle.block_rebuild.specs.Code.{IsPlaced};
ghost use Rattle.frame_state.specs.KeptColumns.{IsTileColumn};
ghost use Rattle.frame_state.specs.ColumnPlans.{ColumnRead, plan_of};
ghost use Rattle.frame_state.specs.Sources.{FrameSources};
ghost use Rattle.frame_state.specs.declared.columns.TileColumn.{TileColumn};
ghost use Rattle.tile_syntax.specs.Code.{HoldsColumn};
ghost use Rattle.tile_syntax.specs.declared.plans.ColumnPlan.{ColumnPlan};
ghost use Rattle.recon_rows.specs.OwnStrips.{IsReadPlan};
ghost use Rattle.recon_rows.specs.Laws.{IsPlanOf};

/// The blocks of a tile column start inside of the frame and of the column, and their transforms fit.
pub fn blocks_of_tile_columns_are_placed()
    ensures { (header : Header) (n k : ℕ) (c : TileColumn) → IsTileColumn header n k c → All (IsPlaced (shape_of header) c.grid.from) c.grid.blocks }
{}

/// Where a tile column is read to its end, the plan that holds it is as `rows` asks for it, and has its blocks and places: so what
/// `rows` says of the plan's column it says of the column that is read.
pub fn plans_are_tile_columns()
    ensures read { (by : FrameSources) (bytes : ℕ → List ℕ) (k : ℕ) (read : Settled ColumnRead) (plan : ColumnPlan) → plan_of by bytes k ≡ Ok read →
        HoldsColumn (shape_of by.header) plan read.value.column → IsTileColumn by.header (tile_count by.header) k plan.column → IsReadPlan (shape_of by.header) plan }
    ensures same { (by : FrameSources) (k : ℕ) (read : Settled ColumnRead) (plan : ColumnPlan) →
        HoldsColumn (shape_of by.header) plan read.value.column → IsTileColumn by.header (tile_count by.header) k plan.column → IsPlanOf by.header k read.value.column plan }
{}
