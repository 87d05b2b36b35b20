//! A frame's tile columns, joined.

ghost use Rattle.std.specs.Prelude.{◌≡◌, ◌↔◌, ℕ, Bool, List, length, Contains, IsTrue, Some, Ok, Err};
ghost use Rattle.vp9_types.specs.declared.rule.Rule.{Rule};
ghost use Rattle.vp9_types.specs.declared.job.Span.{Span};
ghost use Rattle.frame_headers.specs.Spans.{tile_spans};
ghost use Rattle.prob_contexts.specs.Code.{no_counts};
ghost use Rattle.frame_state.specs.Laws.{earlier, least_verdict};
ghost use Rattle.frame_state.specs.FrameReading.{read_all_tiles};
ghost use Rattle.frame_state.specs.Sources.{FrameSources};
ghost use Rattle.frame_state.specs.declared.halt.Halt.TheVariants as halt;
ghost use Rattle.tile_syntax.specs.declared.plans.Unplanned.TheVariants as unplanned;
ghost use Rattle.frame_close.specs.Code.{AreColumnResults, GivesFrame, broken_by, lent, lent_result, result_at, sum_of};

use frame_state::Halt;
use prob_contexts::Counts;
use tile_syntax::Unplanned;
use vp9_types::Rule;

/// Whether this one wants memory.
fn is_starved(column: &Result<&Counts, Unplanned>) -> bool
    ensures { IsTrue result ↔ (lent_result column.now ≡ Err unplanned.OutOfMemory) }
{
    matches!(column, Err(Unplanned::OutOfMemory))
}

/// Whether a tile column wants memory.
fn wants_memory(columns: &[Result<&Counts, Unplanned>]) -> bool
    ensures { IsTrue result ↔ Contains (lent columns.now) (Err unplanned.OutOfMemory) }
{
    for column in columns {
        if is_starved(column) {
            return true;
        }
    }
    false
}

/// The rule that a tile column breaks first, with its tile, if it breaks one.
fn broken_by(column: &Result<&Counts, Unplanned>) -> Option<(u32, Rule)>
    ensures { result ≡ broken_by (lent_result column.now) }
{
    match column {
        Err(Unplanned::Broken(n, rule)) => Some((*n, *rule)),
        _ => None,
    }
}

/// Of two tile columns' rules that of the earlier tile.
fn earlier(a: Option<(u32, Rule)>, b: Option<(u32, Rule)>) -> Option<(u32, Rule)>
    ensures { result ≡ earlier a b }
{
    match (a, b) {
        (Some((m, _)), Some((n, _))) => if n < m { b } else { a },
        (Some(_), None) => a,
        (None, _) => b,
    }
}

/// The rule that is broken in the least tile, with this tile, if one is broken.
fn least(columns: &[Result<&Counts, Unplanned>]) -> Option<(u32, Rule)>
    ensures { result ≡ least_verdict (λ k. broken_by (result_at (lent columns.now) k)) (length columns.now) }
{
    let mut least = None;
    for column in columns {
        least = earlier(least, broken_by(column));
    }
    least
}

/// The counts of the tile columns that are read, added up from `none` on.
fn add_all(columns: &[Result<&Counts, Unplanned>], none: Counts) -> Counts
    requires { none ≡ no_counts }
    ensures { result ≡ sum_of (result_at (lent columns.now)) (length columns.now) }
{
    let mut sum = none;
    for column in columns {
        if let Ok(counts) = column {
            sum.add(counts);
        }
    }
    sum
}

/// Joins what reading the tile columns of a frame came to, in whatever order they were read: their counts, if counting is on,
/// added up from `none` on, or the rule that the frame breaks first. Want of memory in a column goes before its rules.
pub fn close(columns: &[Result<&Counts, Unplanned>], none: Counts) -> Result<Counts, Halt>
    requires none { none ≡ no_counts }
    ensures memory { result ≡ Err halt.OutOfMemory ↔ Contains (lent columns.now) (Err unplanned.OutOfMemory) }
    ensures broken { (rule : Rule) → result ≡ Err (halt.Broken rule) →
        (n : ℕ) × (least_verdict (λ k. broken_by (result_at (lent columns.now) k)) (length columns.now) ≡ Some (n, rule)) }
    ensures frame { (counting : Bool) (by : FrameSources) (bytes : List ℕ) (compressed : Span) (spans : List Span) →
        tile_spans bytes by.header compressed ≡ Ok spans → AreColumnResults counting by bytes spans (lent columns.now) →
        GivesFrame counting (read_all_tiles by bytes compressed) result }
{
    if wants_memory(columns) {
        return Err(Halt::OutOfMemory);
    }
    match least(columns) {
        Some((_, rule)) => Err(Halt::Broken(rule)),
        None => Ok(add_all(columns, none)),
    }
}
