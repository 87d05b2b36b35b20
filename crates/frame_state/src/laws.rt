//! Laws of the definitions, as contracts of functions that do nothing.

ghost use Rattle.std.specs.Prelude.{◌≡◌, ℕ, List, Ok, Err};
ghost use Rattle.vp9_types.specs.declared.job.Span.{Span};
ghost use Rattle.vp9_types.specs.declared.rule.Rule.{Rule};
ghost use Rattle.frame_headers.specs.Spans.{tile_spans};
ghost use Rattle.counting_reader.specs.Counting.{Settled};
ghost use Rattle.frame_state.specs.Laws.{AreReadAll, IsFirstBroken, IsFrameVerdict, columns_across, least_verdict, verdict_of};
ghost use Rattle.frame_state.specs.ColumnPlans.{ColumnRead, plan_of, tile_bytes};
ghost use Rattle.frame_state.specs.FrameReading.{FrameRead, read_all_tiles};
ghost use Rattle.frame_state.specs.Sources.{FrameSources};

/// Reading all tiles of a frame in order is reading each of its tile columns by itself: where all are read, the columns come
/// to the same blocks, sides and counts; the rule that is broken first is the first one of its tile's column, and where
/// another column breaks a rule, it does in a later tile, so that the rule of the least tile is the frame's.
pub fn frames_are_read_by_columns()
    ensures read { (by : FrameSources) (bytes : List ℕ) (compressed : Span) (spans : List Span) (read : FrameRead) →
        tile_spans bytes by.header compressed ≡ Ok spans → read_all_tiles by bytes compressed ≡ Ok read →
        (plans : ℕ → Settled ColumnRead) × ((k : ℕ) → plan_of by (tile_bytes bytes spans) k ≡ Ok (plans k)) × AreReadAll by.header read plans }
    ensures broken { (by : FrameSources) (bytes : List ℕ) (compressed : Span) (spans : List Span) (rule : Rule) →
        tile_spans bytes by.header compressed ≡ Ok spans → read_all_tiles by bytes compressed ≡ Err rule →
        (n : ℕ) × IsFirstBroken by.header (plan_of by (tile_bytes bytes spans)) n rule }
    ensures verdict { (by : FrameSources) (bytes : List ℕ) (compressed : Span) (spans : List Span) →
        tile_spans bytes by.header compressed ≡ Ok spans →
        IsFrameVerdict (read_all_tiles by bytes compressed) (least_verdict (λ k. verdict_of (plan_of by (tile_bytes bytes spans) k)) (columns_across by.header)) }
{}
