//! The plan of a tile column.

ghost use Rattle.std.specs.Prelude.{◌≡◌, ◌+◌, ◌^◌, ◌<◌, ◌≤◌, ℕ, List, length, Ok, IfOk, IsOk, OnOk};
ghost use Rattle.vp9_types.specs.declared.job.Span.{Span};
ghost use Rattle.frame_headers.specs.Spans.{tile_count, tile_spans};
ghost use Rattle.frame_headers.specs.HeaderState.{shape_of};
ghost use Rattle.frame_headers.specs.Tiles.{AreFewTiles};
ghost use Rattle.prob_contexts.specs.Code.{no_counts};
ghost use Rattle.column_plan.specs.PlanRows.{place_of_row};
ghost use Rattle.frame_headers.specs.declared.header.Header.{Header};
ghost use Rattle.frame_state.specs.KeptColumns.{IsTileColumn};
ghost use Rattle.frame_state.specs.Past.{IsPastOf};
ghost use Rattle.frame_state.specs.Code.{sources_of};
ghost use Rattle.frame_state.specs.ColumnPlans.{ColumnRead, column_tile, plan_of, tile_bytes};
ghost use Rattle.frame_state.specs.FrameReading.{no_column};
ghost use Rattle.frame_state.specs.Sources.{adapts};
ghost use Rattle.frame_state.specs.TilePlaces.{column_of};
ghost use Rattle.tile_syntax.specs.Code.{GivesNext, GivesPlan, HoldsColumn, IsKept, unplanned_at};
ghost use Rattle.tile_syntax.specs.declared.plans.Unplanned.TheVariants as unplanned;

use crate::tiles::plan_tile;
use column_plan::{PlanResidues, RowPlace, RowPlaces};
use frame_headers::tile_span;
use frame_setting::FrameSetting;
use frame_state::{FrameSources, Halt, TileColumn, TilePlaces, adapts};
use prob_contexts::Counts;
use std::alloc::{AllocError, Global};
use vp9_types::{Rule, Span};

/// Why a tile column isn't planned: the rule that it breaks first, with the number of the tile in its frame, or want of memory.
#[derive(Clone, Copy, Debug, PartialEq, Eq)]
pub enum Unplanned {
    Broken(u32, Rule),
    OutOfMemory,
}

impl Unplanned {
    /// Why the `n`-th tile of a frame isn't planned.
    fn at(n: u32, halt: Halt) -> Unplanned
        ensures { result ≡ unplanned_at n halt }
    {
        match halt {
            Halt::Broken(rule) => Unplanned::Broken(n, rule),
            Halt::OutOfMemory => Unplanned::OutOfMemory,
        }
    }
}

impl From<AllocError> for Unplanned {
    ghost from_gives = { λ _ e. e ≡ unplanned.OutOfMemory };

    fn from(_: AllocError) -> Self {
        Unplanned::OutOfMemory
    }
}

/// The blocks of a tile column, where they have coefficients, their residues, and where each row of superblocks begins in them.
#[derive(Drop)]
pub struct ColumnPlan {
    pub column: TileColumn,
    pub residues: PlanResidues,
    pub rows: RowPlaces,
}

impl ColumnPlan {
    /// Room for the plan of the `k`-th tile column of a frame.
    pub fn new(alloc: Global, setting: &FrameSetting, k: u32) -> Result<ColumnPlan, AllocError>
        requires few { AreFewTiles setting.now.header.params.tiles }
        requires below { k < 2 ^ setting.now.header.params.tiles.columns_log2 }
        ensures { IfOk result (λ p. IsTileColumn setting.now.header 0 k p.column) }
    {
        Ok(ColumnPlan {
            column: TileColumn::new(alloc, setting, k)?,
            residues: PlanResidues::new(alloc),
            rows: RowPlaces::new(alloc),
        })
    }

    /// Where it ends so far.
    pub(crate) fn end(&self) -> RowPlace
        ensures { result ≡ record { block = length self.now.column.grid.blocks; piece = length self.now.residues } }
    {
        RowPlace {
            block: self.column.grid.blocks().len(),
            piece: self.residues.len(),
        }
    }

    /// Where a row of superblocks begins in it: at its end, if no block starts there or below.
    pub fn row_place(&self, row: u32) -> RowPlace
        ensures { (header : Header) → IsKept header self.now → result ≡ place_of_row (shape_of header) row self.now.column.grid.blocks }
    {
        let end = self.end();
        self.rows.at(row, end)
    }
}

/// The `n`-th tile of a frame, from its bytes, into the plan of its column, with the counts so far; answers the counts behind it.
fn plan_nth<const COUNTS: bool>(
    plan: &mut ColumnPlan,
    bytes: &[u8],
    by: &FrameSources<'_>,
    n: u32,
    counts: Counts,
) -> Result<Counts, Halt>
    requires past { IsPastOf by.now.setting.header by.now.past }
    requires few { AreFewTiles by.now.setting.header.params.tiles }
    requires below { n < tile_count by.now.setting.header }
    requires column { IsTileColumn by.now.setting.header n (column_of by.now.setting.header.params.tiles n) plan.old.column }
    requires kept { IsKept by.now.setting.header plan.old }
    ensures gives { (bytes_of : ℕ → List ℕ) (read : ColumnRead) → bytes_of n ≡ bytes.now → HoldsColumn (shape_of by.now.setting.header) plan.old read.column
        → GivesNext COUNTS counts (column_tile (sources_of by.now) bytes_of n read) result (shape_of by.now.setting.header) plan.new }
    ensures column { OnOk result (IsTileColumn by.now.setting.header (n + 1) (column_of by.now.setting.header.params.tiles n) plan.new.column) }
    ensures kept { OnOk result (IsKept by.now.setting.header plan.new) }
{
    let tile = TilePlaces::new(by.setting.places, by.setting.header.params.tiles, n);
    plan.column.sides.clear_left();
    plan_tile::<COUNTS>(bytes, by, &tile, plan, counts)
}

/// All tiles of the `k`-th tile column of a frame, whose compressed header lies at `compressed`. Answers the counts of all of
/// them, from `none` on, if counting is on.
fn plan_tiles<const COUNTS: bool>(
    plan: &mut ColumnPlan,
    bytes: &[u8],
    by: &FrameSources<'_>,
    compressed: Span,
    k: u32,
    none: Counts,
) -> Result<Counts, Unplanned>
    requires past { IsPastOf by.now.setting.header by.now.past }
    requires few { AreFewTiles by.now.setting.header.params.tiles }
    requires below { k < 2 ^ by.now.setting.header.params.tiles.columns_log2 }
    requires within { compressed.to ≤ length bytes.now }
    requires tested { IsOk (tile_spans bytes.now by.now.setting.header compressed) }
    requires column { IsTileColumn by.now.setting.header 0 k plan.old.column }
    requires start { HoldsColumn (shape_of by.now.setting.header) plan.old (no_column (shape_of by.now.setting.header)) }
    requires kept { IsKept by.now.setting.header plan.old }
    requires none { none ≡ no_counts }
    ensures gives { (spans : List Span) → tile_spans bytes.now by.now.setting.header compressed ≡ Ok spans
        → GivesPlan COUNTS (plan_of (sources_of by.now) (tile_bytes bytes.now spans) k) result (shape_of by.now.setting.header) plan.new }
    ensures column { OnOk result (IsTileColumn by.now.setting.header (tile_count by.now.setting.header) k plan.new.column) }
    ensures kept { OnOk result (IsKept by.now.setting.header plan.new) }
{
    let tiles = by.setting.header.params.tiles;
    let mut counts = none;
    for i in 0..tiles.rows() {
        let n = i * tiles.columns() + k;
        let span = tile_span(bytes, &by.setting.header, compressed, n);
        let tile = &bytes[span.from..span.to];
        match plan_nth::<COUNTS>(plan, tile, by, n, counts) {
            Ok(more) => counts = more,
            Err(halt) => return Err(Unplanned::at(n, halt)),
        }
    }
    Ok(counts)
}

/// Reads the `k`-th tile column of a frame, whose compressed header lies at `compressed` and whose tiles' sizes are tested, into
/// a plan in the memory of an earlier one. Answers what was counted, if the frame's probabilities are adapted.
pub fn column(
    plan: &mut ColumnPlan,
    alloc: Global,
    bytes: &[u8],
    by: &FrameSources<'_>,
    compressed: Span,
    k: u32,
) -> Result<Counts, Unplanned>
    requires past { IsPastOf by.now.setting.header by.now.past }
    requires few { AreFewTiles by.now.setting.header.params.tiles }
    requires below { k < 2 ^ by.now.setting.header.params.tiles.columns_log2 }
    requires within { compressed.to ≤ length bytes.now }
    requires tested { IsOk (tile_spans bytes.now by.now.setting.header compressed) }
    ensures gives { (spans : List Span) → tile_spans bytes.now by.now.setting.header compressed ≡ Ok spans
        → GivesPlan (adapts by.now.setting.header) (plan_of (sources_of by.now) (tile_bytes bytes.now spans) k) result (shape_of by.now.setting.header) plan.new }
    ensures column { OnOk result (IsTileColumn by.now.setting.header (tile_count by.now.setting.header) k plan.new.column) }
    ensures kept { OnOk result (IsKept by.now.setting.header plan.new) }
{
    plan.column.renew(alloc, &by.setting, k)?;
    plan.residues.clear();
    plan.rows.clear();
    let none = Counts::new(alloc)?;
    if adapts(&by.setting.header) {
        plan_tiles::<true>(plan, bytes, by, compressed, k, none)
    } else {
        plan_tiles::<false>(plan, bytes, by, compressed, k, none)
    }
}
