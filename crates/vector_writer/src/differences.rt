//! Differences of vectors.

ghost use Rattle.std.specs.Prelude.{◌≡◌, ◌≢◌, ◌≤◌, ◌||◌, pos, true, false, not, nat_eq, nat_le, IfOk};
ghost use Rattle.std.specs.Ordering.{int_eq};
ghost use Rattle.prob_contexts.specs.ProbLists.{vector_lists};
ghost use Rattle.bool_encoder.specs.CountedBools.{PutsValue};
ghost use Rattle.mv_syntax.specs.Differences.{component_if, read_mv};
ghost use Rattle.vector_writer.specs.VectorFits.{IsDifference, CanDiffer};

use crate::components::put_component;
use block_plan::Mv;
use bool_encoder::{BoolEncoder, put_tree};
use prob_contexts::VectorProbs;
use std::alloc::AllocError;
use vp9_tables::{Component, mv_joint_tree};

/// A component, where it isn't 0.
#[tactic(auto, unfolding(mv_syntax::specs::Differences::component_if), using(bool_encoder::proofs::CountedPuts::valued_settle))]
fn put_component_if(
    encoder: &mut BoolEncoder,
    coded: bool,
    probs: &VectorProbs,
    component: Component,
    precise: bool,
    value: i16,
) -> Result<(), AllocError>
    requires none { coded ≡ false → value ≡ pos 0 }
    requires some { coded ≡ true → value ≢ pos 0 }
    requires can { IsDifference precise value }
    ensures { IfOk result (λ _. PutsValue (component_if coded (vector_lists probs.now) component precise) encoder.old value encoder.new) }
{
    if coded {
        put_component(encoder, probs, component, precise, value)?;
    }
    Ok(())
}

/// The joint of a difference: which of its components are coded.
fn joint_of(difference: Mv) -> u8
    ensures most { result ≤ 3 }
    ensures row { nat_le 2 result ≡ not (int_eq difference.row (pos 0)) }
    ensures column { (nat_eq result 1 || nat_eq result 3) ≡ not (int_eq difference.column (pos 0)) }
{
    let row = difference.row != 0;
    let column = difference.column != 0;
    2 * u8::from(row) + u8::from(column)
}

/// Puts a difference, which has bits of high precision or not. After want of memory some of the bools were put, and the tile
/// is given up as a whole.
#[tactic(auto, unfolding(mv_syntax::specs::Differences::read_mv), using(bool_encoder::proofs::CountedPuts::valued_in_order, bool_encoder::proofs::CountedPuts::valued_settle, bool_encoder::proofs::CountedPuts::valued_tree, vp9_types::proofs::Binds::writes_bind))]
pub fn put_mv(
    encoder: &mut BoolEncoder,
    probs: &VectorProbs,
    precise: bool,
    difference: Mv,
) -> Result<(), AllocError>
    requires { CanDiffer precise difference }
    ensures { IfOk result (λ _. PutsValue (read_mv (vector_lists probs.now) precise) encoder.old difference encoder.new) }
{
    let Mv { row, column } = difference;
    let joint = joint_of(difference);
    put_tree(encoder, mv_joint_tree(), &probs.joints, joint)?;
    put_component_if(encoder, joint >= 2, probs, Component::Row, precise, row)?;
    let has_column = joint == 1 || joint == 3;
    put_component_if(
        encoder,
        has_column,
        probs,
        Component::Column,
        precise,
        column,
    )?;
    Ok(())
}
