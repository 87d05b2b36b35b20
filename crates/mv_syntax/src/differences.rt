//! Differences of vectors.

ghost use Rattle.std.specs.Prelude.{◌≡◌, ◌≤◌, unsigned_abs};
ghost use Rattle.prob_contexts.specs.ProbLists.{vector_lists};
ghost use Rattle.counting_reader.specs.Code.{Reads};
ghost use Rattle.mv_syntax.specs.Differences.{component_if, read_mv};

use crate::components::{read_component, read_ones};
use block_plan::Mv;
use counting_reader::CountingReader;
use prob_contexts::{ProbKind, VectorProbs};
use vp9_tables::Component;

#[inline(always)]
#[tactic(auto, unfolding(crate::specs::Differences::component_if), using(counting_reader::proofs::CountingRuns::run_settle))]
fn read_component_if<const COUNTS: bool>(
    reader: &mut CountingReader<COUNTS>,
    coded: bool,
    probs: &VectorProbs,
    component: Component,
    precise: bool,
) -> i16
    ensures read { Reads (component_if coded (vector_lists probs.now) component precise) reader.old result reader.new }
    ensures most { unsigned_abs result ≤ 16384 }
{
    if coded {
        read_component(reader, probs, component, precise)
    } else {
        0
    }
}

/// A difference, which has bits of high precision or not. Each component is at most 16384 in size.
#[tactic(auto, unfolding(crate::specs::Differences::read_mv), using(counting_reader::proofs::CountingRuns::counting_bind, counting_reader::proofs::CountingRuns::run_settle))]
pub fn read_mv<const COUNTS: bool>(
    reader: &mut CountingReader<COUNTS>,
    probs: &VectorProbs,
    precise: bool,
) -> Mv
    ensures read { Reads (read_mv (vector_lists probs.now) precise) reader.old result reader.new }
    ensures row { unsigned_abs result.row ≤ 16384 }
    ensures column { unsigned_abs result.column ≤ 16384 }
{
    let joint = read_ones(reader, ProbKind::VectorJoint, 0, &probs.joints);
    let row = read_component_if(reader, joint >= 2, probs, Component::Row, precise);
    let has_column = joint == 1 || joint == 3;
    let column = read_component_if(reader, has_column, probs, Component::Column, precise);
    Mv { row, column }
}
