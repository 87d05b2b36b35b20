//! Laws of the definitions, as contracts of functions that do nothing.

ghost use Rattle.std.specs.Prelude.{◌≡◌, ℕ, ◌+◌, ◌*◌, ◌^◌, ◌<◌, ◌≤◌, Bool, ◌⊎◌, List, Result, Ok, Err, min, count_by, sum_by};
ghost use Rattle.std.specs.List.{range_with_len};
ghost use Rattle.vp9_types.specs.Syntax.{Syntax};
ghost use Rattle.vp9_types.specs.declared.block.Modes.{Modes};
ghost use Rattle.vp9_types.specs.declared.rule.Rule.{Rule};
ghost use Rattle.frame_headers.specs.declared.header.Header.{Header};
ghost use Rattle.prob_contexts.specs.ProbLists.{ContextLists};
ghost use Rattle.prob_contexts.specs.declared.kind.CountedBool.{CountedBool};
ghost use Rattle.counting_reader.specs.Counting.{Settled, Yields, mapped};
ghost use Rattle.block_geometry.specs.declared.transform_blocks.FramePlaces.{FramePlaces};
ghost use Rattle.block_plan.specs.declared.block.BlockAt.{BlockAt};
ghost use Rattle.block_plan.specs.declared.block.BlockInfo.{BlockInfo};
ghost use Rattle.mode_syntax.specs.IntraModeInfo.{intra_frame_mode_info};
ghost use Rattle.mode_syntax.specs.Partitions.{partition_at};
ghost use Rattle.mode_syntax.specs.Superblocks.{superblocks_of};
ghost use Rattle.mode_syntax.specs.TileSquares.{Cut, tile_leaves, times_covered};
ghost use Rattle.mode_syntax.specs.Walk.{TileWalk, decode_partition, decode_tile};
ghost use Rattle.mode_syntax.specs.Laws.{square_at, decode_rows, squares_from, ListsItsBlock, ListsLeaves, ListsTile, walk_over, KeepsStep, SameIn, in_columns, mode_walk, Layout, IsLaidOut, mode_tile, column_blocks};
ghost use Rattle.mode_syntax.specs.TileColumns.{read_all, counted_of, AreSeparate, column_alone, by_column};
ghost use Rattle.mode_syntax.specs.declared.square_at.SquareAt.{SquareAt};

/// However the superblocks of a tile are partitioned, its blocks cover each of its places inside the frame once. The
/// tile has so many rows and columns of superblocks, from the first one on.
pub fn blocks_cover_a_tile_once()
    ensures { (frame : FramePlaces) (first : SquareAt) (rows columns : ℕ) (cuts : SquareAt → Cut) (y x : ℕ) →
        first.row ≤ y → y < first.row + 8 * rows → first.col ≤ x → x < first.col + 8 * columns → y < frame.rows → x < frame.cols →
        times_covered (tile_leaves frame cuts (superblocks_of first rows columns)) y x ≡ 1 }
{}

/// Where what a block reads lists that block alone, reading a square lists the blocks of a partition tree of it, in
/// order. `S` is what reading keeps.
pub fn squares_list_their_leaves<S>()
    ensures { (walk : TileWalk S) → ListsItsBlock walk → (n r c : ℕ) (s : S) →
        Yields (decode_partition walk (square_at walk n r c) s) (ListsLeaves walk n r c s) }
{}

/// So does reading a tile of `n` rows of superblocks: it lists the blocks of its superblocks' partition trees, in order.
pub fn tiles_list_their_leaves<S>()
    ensures { (walk : TileWalk S) → ListsItsBlock walk → (columns r c n : ℕ) (s : S) →
        Yields (decode_tile walk (squares_from walk columns r c n) s) (ListsTile walk (squares_from walk columns r c n) s) }
{}

/// Reading the superblocks of a tile is reading them row by row.
pub fn tiles_are_read_row_by_row<S>()
    ensures { (walk : TileWalk S) (columns r c n : ℕ) (s : S) → decode_tile walk (squares_from walk columns r c n) s ≡ decode_rows walk columns r c n s }
{}

/// Where another state keeps step with a walk's, reading a square and reading a tile do to it what they do to the walk's
/// state, seen through `view`: both ask and count the same.
pub fn walks_map<S, T>()
    ensures square { (walk : TileWalk S) (block : BlockAt → T → Syntax ℕ Rule (Settled T)) (blocks : T → List BlockInfo) (view : S → T) (low high : ℕ) →
        KeepsStep walk block blocks view low high → (n r c : ℕ) (s : S) → n ≤ 3 → low ≤ c → c + 2 ^ n ≤ high →
        decode_partition (walk_over walk block blocks) (square_at walk n r c) (view s) ≡ mapped view (decode_partition walk (square_at walk n r c) s) }
    ensures tile { (walk : TileWalk S) (block : BlockAt → T → Syntax ℕ Rule (Settled T)) (blocks : T → List BlockInfo) (view : S → T) (low high : ℕ) →
        KeepsStep walk block blocks view low high → (columns r c n : ℕ) (s : S) → low ≤ c → c + 8 * columns ≤ high →
        decode_tile (walk_over walk block blocks) (squares_from walk columns r c n) (view s) ≡ mapped view (decode_tile walk (squares_from walk columns r c n) s) }
    ensures everywhere { (walk : TileWalk S) (block : BlockAt → T → Syntax ℕ Rule (Settled T)) (blocks : T → List BlockInfo) (view : S → T) →
        ((at : BlockAt) (s : S) → block at (view s) ≡ mapped view (walk.block at s)) → ((s : S) → blocks (view s) ≡ walk.blocks s) →
        (columns r c n : ℕ) (s : S) → decode_tile (walk_over walk block blocks) (squares_from walk columns r c n) (view s) ≡ mapped view (decode_tile walk (squares_from walk columns r c n) s) }
{}

/// What a square and an intra block read depends on the earlier blocks only through those in their tile's columns.
pub fn columns_are_apart()
    ensures part { (from to : ℕ) (blocks : List BlockInfo) → SameIn from to (in_columns from to blocks) blocks }
    ensures partition { (intra : Bool) (probs : List ℕ) (frame : FramePlaces) (at : SquareAt) (xs ys : List BlockInfo) →
        SameIn at.tile_from at.tile_to xs ys → at.tile_from ≤ at.col → at.col < at.tile_to →
        partition_at intra probs xs frame at ≡ partition_at intra probs ys frame at }
    ensures modes { (header : Header) (modes : Modes) (contexts : ContextLists) (at : BlockAt) (xs ys : List BlockInfo) →
        SameIn at.tile_from at.tile_to xs ys → at.tile_from ≤ at.col → at.col < at.tile_to →
        intra_frame_mode_info header modes contexts xs at ≡ intra_frame_mode_info header modes contexts ys at }
{}

/// Reading a tile's modes does to the blocks of its columns what it does to all, and leaves those of other columns.
pub fn tiles_read_their_columns()
    ensures own { (header : Header) (modes : Modes) (contexts : ContextLists) (frame : FramePlaces) (from to columns r n : ℕ) (blocks : List BlockInfo) →
        min (from + 8 * columns) frame.cols ≤ to →
        let walk = mode_walk header modes contexts frame from to in
        decode_tile walk (squares_from walk columns r from n) (in_columns from to blocks) ≡ mapped (in_columns from to) (decode_tile walk (squares_from walk columns r from n) blocks) }
    ensures others { (header : Header) (modes : Modes) (contexts : ContextLists) (frame : FramePlaces) (tile_from tile_to columns r n from to : ℕ) (blocks : List BlockInfo) →
        (tile_from + 8 * columns ≤ from) ⊎ (to ≤ tile_from) →
        let walk = mode_walk header modes contexts frame tile_from tile_to in
        Yields (decode_tile walk (squares_from walk columns r tile_from n) blocks) (λ t. in_columns from to t ≡ in_columns from to blocks) }
{}

/// Where a tile does to its column what it does to all, reading tile by tile is reading each column alone: where all tiles
/// are read, so they are in each column, to the same end, and the columns count together what the tiles count; the first
/// tile that fails is the first that fails in its column, and where another column fails, it does at a later tile.
pub fn columns_read_apart<S, T, E>()
    ensures read { (column_of : ℕ → ℕ) (step : ℕ → S → Result (Settled S) E) (view : ℕ → S → T) (column_step : ℕ → T → Result (Settled T) E) →
        AreSeparate column_of step view column_step → (ns : List ℕ) (s : S) (t : Settled S) → read_all step ns s ≡ Ok t → (k : ℕ) →
        (b : Settled T) × (column_alone column_of view column_step ns s k ≡ Ok b) × (b.value ≡ view k t.value) }
    ensures counted { (column_of : ℕ → ℕ) (step : ℕ → S → Result (Settled S) E) (view : ℕ → S → T) (column_step : ℕ → T → Result (Settled T) E) →
        AreSeparate column_of step view column_step → (which : CountedBool → Bool) (columns : ℕ) → ((n : ℕ) → column_of n < columns) →
        (ns : List ℕ) (s : S) (t : Settled S) → read_all step ns s ≡ Ok t →
        count_by which t.counted ≡ sum_by (λ k. count_by which (counted_of (column_alone column_of view column_step ns s k))) (range_with_len 0 columns) }
    ensures broken { (column_of : ℕ → ℕ) (step : ℕ → S → Result (Settled S) E) (view : ℕ → S → T) (column_step : ℕ → T → Result (Settled T) E) →
        AreSeparate column_of step view column_step → (m count : ℕ) (s : S) (n : ℕ) (e : E) → read_all step (range_with_len m count) s ≡ Err (n, e) →
        (column_alone column_of view column_step (range_with_len m count) s (column_of n) ≡ Err (n, e))
        × ((k j : ℕ) (f : E) → (column_of n ≡ k → ⊥) → column_alone column_of view column_step (range_with_len m count) s k ≡ Err (j, f) → n < j) }
{}

/// The tiles of a frame do so, where they are laid out in columns.
pub fn mode_tiles_are_separate()
    ensures { (header : Header) (modes : Modes) (contexts : ContextLists) (frame : FramePlaces) (l : Layout) (column_of : ℕ → ℕ) → IsLaidOut frame l →
        AreSeparate column_of (mode_tile header modes contexts frame l column_of) (column_blocks l) (mode_tile header modes contexts frame l column_of) }
{}

/// Where each column has a state of its own, its tiles are separate as they stand.
pub fn columns_with_their_own_state_are_separate<T, E>()
    ensures { (column_of : ℕ → ℕ) (step : ℕ → T → Result (Settled T) E) → AreSeparate column_of (by_column column_of step) (λ k s. s k) step }
{}
