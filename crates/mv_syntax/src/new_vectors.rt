//! Vectors of the mode new.

ghost use Rattle.std.specs.Prelude.{◌≡◌, ◌≤◌, unsigned_abs, IfOk};
ghost use Rattle.prob_contexts.specs.ProbLists.{vector_lists};
ghost use Rattle.counting_reader.specs.Code.{Reads};
ghost use Rattle.mv_prediction.specs.Vectors.{IsSmallVector};
ghost use Rattle.mv_syntax.specs.Differences.{added, in_range_or_rule, new_vector};

use crate::differences::read_mv;
use block_plan::Mv;
use counting_reader::CountingReader;
use mv_prediction::is_short_vector;
use prob_contexts::VectorProbs;
use vp9_types::Rule;

/// The best vector and a difference from it.
pub fn added(best: Mv, difference: Mv) -> Mv
    requires small { IsSmallVector best }
    requires row { unsigned_abs difference.row ≤ 16384 }
    requires column { unsigned_abs difference.column ≤ 16384 }
    ensures { result ≡ added best difference }
{
    Mv {
        row: best.row + difference.row,
        column: best.column + difference.column,
    }
}

/// A vector whose components lie between -16384 and 16384: else `MvRange`.
pub fn in_range_or_rule(v: Mv) -> Result<Mv, Rule>
    ensures is { result ≡ in_range_or_rule v }
    ensures small { IfOk result IsSmallVector }
{
    if v.row.unsigned_abs() < 16384 && v.column.unsigned_abs() < 16384 {
        Ok(v)
    } else {
        Err(Rule::MvRange)
    }
}

/// The vector of the mode new, by the best one: `MvRange` if the sum with the difference isn't between -16384 and 16384.
/// Either way the reader stands behind the difference.
#[tactic(auto, unfolding(crate::specs::Differences::new_vector), using(counting_reader::proofs::CountingRuns::counting_bind, counting_reader::proofs::CountingRuns::run_settle))]
pub fn read_new_vector<const COUNTS: bool>(
    reader: &mut CountingReader<COUNTS>,
    probs: &VectorProbs,
    high_precision: bool,
    best: Mv,
) -> Result<Mv, Rule>
    requires { IsSmallVector best }
    ensures read { Reads (new_vector (vector_lists probs.now) high_precision best) reader.old result reader.new }
    ensures small { IfOk result IsSmallVector }
{
    let precise = high_precision && is_short_vector(best);
    let difference = read_mv(reader, probs, precise);
    in_range_or_rule(added(best, difference))
}
