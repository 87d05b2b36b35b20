//! The vectors of inter blocks.

ghost use Rattle.std.specs.Prelude.{◌≡◌, ◌<◌, ◌≤◌, IfOk};
ghost use Rattle.std.specs.Option.{option_copied};
ghost use Rattle.bool_encoder.specs.CountedBools.{PutsValue};
ghost use Rattle.block_plan.specs.BlockMvs.{vector_at};
ghost use Rattle.mv_prediction.specs.Code.{AreSmall};
ghost use Rattle.mv_prediction.specs.Vectors.{IsSmallVector};
ghost use Rattle.inter_modes.specs.Code.{MaySearch, AreSmallBefore, sources_in};
ghost use Rattle.inter_modes.specs.BlockVectors.{inter_of, inter_mode, near_of_block, best_mv, block_vector, block_vectors};
ghost use Rattle.vector_writer.specs.VectorFits.{CanBeNew, CanSayVectors};
ghost use Rattle.vector_writer.specs.SaidVectors.{block_vector_said, block_vectors_said};

use crate::new_vectors::put_new_vector;
use crate::symbols::QuarterSymbols;
use block_plan::{Mv, Neighbours, ReferenceFrames};
use bool_encoder::{BoolEncoder, put_tree};
use counting_reader::nodes_from;
use inter_modes::{NO_VECTOR, Sources, WantedVector, near_of_block};
use std::alloc::AllocError;
use vp9_tables::inter_mode_tree;
use vp9_types::{InterMode, Rule};

fn number_of(mode: InterMode) -> u8
    ensures is { inter_of result ≡ mode }
    ensures most { result ≤ 3 }
{
    match mode {
        InterMode::Nearest => 0,
        InterMode::Near => 1,
        InterMode::Zero => 2,
        InterMode::New => 3,
    }
}

/// Puts the mode of a block or a quarter, by the context of modes.
#[tactic(auto, unfolding(inter_modes::specs::BlockVectors::inter_mode), using(bool_encoder::proofs::CountedPuts::valued_in_order, bool_encoder::proofs::CountedPuts::valued_settle, bool_encoder::proofs::CountedPuts::valued_tree, vp9_types::proofs::Binds::writes_bind))]
pub fn put_inter_mode(
    encoder: &mut BoolEncoder,
    probs: &[u8; 21],
    context: u8,
    mode: InterMode,
) -> Result<(), AllocError>
    requires { context ≤ 6 }
    ensures { IfOk result (λ _. PutsValue (inter_mode probs.now context) encoder.old mode encoder.new) }
{
    let nodes = nodes_from(probs, 3 * u16::from(context));
    put_tree(encoder, inter_mode_tree(), nodes, number_of(mode))?;
    Ok(())
}

/// A block's vector of a reference, of the first list or the second.
#[tactic(auto, unfolding(inter_modes::specs::BlockVectors::block_vector, inter_modes::specs::BlockVectors::vector_of_mode, crate::specs::SaidVectors::block_vector_said, crate::specs::SaidVectors::vector_said), using(bool_encoder::proofs::CountedPuts::valued_settle))]
fn put_block_vector<N: Neighbours, Q: Neighbours>(
    encoder: &mut BoolEncoder,
    src: &Sources<'_, N, Q>,
    said: QuarterSymbols,
    wanted: WantedVector,
) -> Result<Result<Mv, Rule>, AllocError>
    requires list { wanted.list < 2 }
    requires may { MaySearch N.holds N.blocks Q.holds Q.blocks src.now.earlier.now (option_copied src.now.before) src.now.search }
    requires can { CanBeNew src.now.high_precision said.mode (near_of_block (sources_in N.blocks Q.blocks src.now) wanted.reference).nearest (vector_at said.differences wanted.list) }
    ensures put { IfOk result (λ v. PutsValue (block_vector (sources_in N.blocks Q.blocks src.now) said.mode wanted.reference) encoder.old v encoder.new) }
    ensures is { IfOk result (λ v. v ≡ block_vector_said (sources_in N.blocks Q.blocks src.now) said wanted.reference wanted.list) }
    ensures small { IfOk result (λ v. IfOk v IsSmallVector) }
{
    let WantedVector { reference, list } = wanted;
    match said.mode {
        InterMode::Zero => Ok(Ok(NO_VECTOR)),
        InterMode::Nearest => Ok(Ok(near_of_block(src, reference).nearest)),
        InterMode::Near => Ok(Ok(near_of_block(src, reference).near)),
        InterMode::New => {
            let best = near_of_block(src, reference).nearest;
            let difference = said.differences[list];
            put_new_vector(encoder, src.probs, src.high_precision, best, difference)
        }
    }
}

/// A block's vectors of its references.
#[tactic(auto, unfolding(inter_modes::specs::BlockVectors::block_vectors, inter_modes::specs::BlockVectors::with_second, crate::specs::SaidVectors::block_vectors_said, crate::specs::SaidVectors::second_said), using(bool_encoder::proofs::CountedPuts::valued_in_order, bool_encoder::proofs::CountedPuts::valued_settle, vp9_types::proofs::Binds::writes_bind))]
pub(crate) fn put_block_vectors<N: Neighbours, Q: Neighbours>(
    encoder: &mut BoolEncoder,
    src: &Sources<'_, N, Q>,
    said: QuarterSymbols,
    references: ReferenceFrames,
) -> Result<Result<[Mv; 2], Rule>, AllocError>
    requires may { MaySearch N.holds N.blocks Q.holds Q.blocks src.now.earlier.now (option_copied src.now.before) src.now.search }
    requires can { CanSayVectors src.now.high_precision (best_mv (sources_in N.blocks Q.blocks src.now) references) references said }
    ensures put { IfOk result (λ v. PutsValue (block_vectors (sources_in N.blocks Q.blocks src.now) said.mode references) encoder.old v encoder.new) }
    ensures is { IfOk result (λ v. v ≡ block_vectors_said (sources_in N.blocks Q.blocks src.now) said references) }
    ensures small { IfOk result (λ v. IfOk v AreSmall) }
{
    let wanted = WantedVector {
        reference: references.first,
        list: 0,
    };
    let first = match put_block_vector(encoder, src, said, wanted)? {
        Ok(first) => first,
        Err(rule) => return Ok(Err(rule)),
    };
    match references.second {
        None => Ok(Ok([first, NO_VECTOR])),
        Some(reference) => {
            let wanted = WantedVector { reference, list: 1 };
            match put_block_vector(encoder, src, said, wanted)? {
                Ok(second) => Ok(Ok([first, second])),
                Err(rule) => Ok(Err(rule)),
            }
        }
    }
}
