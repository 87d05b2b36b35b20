//! Quarters of blocks below 8x8.

ghost use Rattle.std.specs.Prelude.{◌≡◌, ◌<◌, ◌≤◌, ℕ, true, IfOk};
ghost use Rattle.std.specs.Option.{option_copied};
ghost use Rattle.block_geometry.specs.BlockSizes.{is_below_8x8};
ghost use Rattle.bool_encoder.specs.CountedBools.{PutsValue};
ghost use Rattle.block_plan.specs.BlockMvs.{vector_at};
ghost use Rattle.mv_prediction.specs.Code.{AreSmall};
ghost use Rattle.mv_prediction.specs.Vectors.{IsSmallVector};
ghost use Rattle.inter_modes.specs.Code.{MaySearch, AreSmallBefore, AreSmallQuarters, four_quarters, quarter_columns, quarter_rows, sources_in};
ghost use Rattle.inter_modes.specs.BlockVectors.{best_mv, quarter_vector, quarter_vectors, quarter, quarters};
ghost use Rattle.vector_writer.specs.VectorFits.{CanBeNew, CanSayVectors, quarter_saying};
ghost use Rattle.vector_writer.specs.SaidVectors.{symbols_at, quarter_vector_said, quarter_vectors_said, quarter_said, four_said, columns_said, rows_said, quarters_said};

use crate::new_vectors::put_new_vector;
use crate::symbols::{InterSymbols, QuarterSymbols, symbols_at};
use crate::vectors::put_inter_mode;
use block_plan::{Mv, Neighbours, ReferenceFrames};
use bool_encoder::BoolEncoder;
use inter_modes::{
    NO_VECTOR, NO_VECTORS, Quarter, QuartersBefore, Sources, WantedVector, before_of, best_mv,
    near_of_quarter, nearest_of_quarter, of_list,
};
use std::alloc::AllocError;
use vp9_types::{BlockSize, InterMode, Rule};

/// A quarter's vector of a reference, of the first list or the second.
#[tactic(auto, unfolding(inter_modes::specs::BlockVectors::quarter_vector, inter_modes::specs::BlockVectors::vector_of_mode, crate::specs::SaidVectors::quarter_vector_said, crate::specs::SaidVectors::vector_said), using(bool_encoder::proofs::CountedPuts::valued_settle))]
fn put_quarter_vector<N: Neighbours, Q: Neighbours>(
    encoder: &mut BoolEncoder,
    src: &Sources<'_, N, Q>,
    said: QuarterSymbols,
    wanted: WantedVector,
    k: u8,
    before: &QuartersBefore,
) -> Result<Result<Mv, Rule>, AllocError>
    requires list { wanted.list < 2 }
    requires k { k < 4 }
    requires may { MaySearch N.holds N.blocks Q.holds Q.blocks src.now.earlier.now (option_copied src.now.before) src.now.search }
    requires small { AreSmallBefore before.now }
    requires can { CanBeNew src.now.high_precision said.mode (vector_at before.now.best wanted.list) (vector_at said.differences wanted.list) }
    ensures put { IfOk result (λ v. PutsValue (quarter_vector (sources_in N.blocks Q.blocks src.now) said.mode wanted.reference wanted.list k before.now) encoder.old v encoder.new) }
    ensures is { IfOk result (λ v. v ≡ quarter_vector_said (sources_in N.blocks Q.blocks src.now) said wanted.reference wanted.list k before.now) }
    ensures small { IfOk result (λ v. IfOk v IsSmallVector) }
{
    let WantedVector { reference, list } = wanted;
    let quarters = of_list(list, &before.rows);
    match said.mode {
        InterMode::Zero => Ok(Ok(NO_VECTOR)),
        InterMode::Nearest => Ok(Ok(nearest_of_quarter(src, reference, k, &quarters))),
        InterMode::Near => Ok(Ok(near_of_quarter(src, reference, k, &quarters).near)),
        InterMode::New => {
            let best = before.best[list];
            let difference = said.differences[list];
            put_new_vector(encoder, src.probs, src.high_precision, best, difference)
        }
    }
}

/// A quarter's vectors of its block's references.
#[tactic(auto, unfolding(inter_modes::specs::BlockVectors::quarter_vectors, inter_modes::specs::BlockVectors::with_second, crate::specs::SaidVectors::quarter_vectors_said, crate::specs::SaidVectors::second_said), using(bool_encoder::proofs::CountedPuts::valued_in_order, bool_encoder::proofs::CountedPuts::valued_settle, vp9_types::proofs::Binds::writes_bind))]
fn put_quarter_vectors<N: Neighbours, Q: Neighbours>(
    encoder: &mut BoolEncoder,
    src: &Sources<'_, N, Q>,
    said: QuarterSymbols,
    references: ReferenceFrames,
    k: u8,
    before: &QuartersBefore,
) -> Result<Result<[Mv; 2], Rule>, AllocError>
    requires k { k < 4 }
    requires may { MaySearch N.holds N.blocks Q.holds Q.blocks src.now.earlier.now (option_copied src.now.before) src.now.search }
    requires small { AreSmallBefore before.now }
    requires can { CanSayVectors src.now.high_precision before.now.best references said }
    ensures put { IfOk result (λ v. PutsValue (quarter_vectors (sources_in N.blocks Q.blocks src.now) said.mode references k before.now) encoder.old v encoder.new) }
    ensures is { IfOk result (λ v. v ≡ quarter_vectors_said (sources_in N.blocks Q.blocks src.now) said references k before.now) }
    ensures small { IfOk result (λ v. IfOk v AreSmall) }
{
    let wanted = WantedVector {
        reference: references.first,
        list: 0,
    };
    let first = match put_quarter_vector(encoder, src, said, wanted, k, before)? {
        Ok(first) => first,
        Err(rule) => return Ok(Err(rule)),
    };
    match references.second {
        None => Ok(Ok([first, NO_VECTOR])),
        Some(reference) => {
            let wanted = WantedVector { reference, list: 1 };
            match put_quarter_vector(encoder, src, said, wanted, k, before)? {
                Ok(second) => Ok(Ok([first, second])),
                Err(rule) => Ok(Err(rule)),
            }
        }
    }
}

/// A quarter's mode and vectors.
#[tactic(auto, unfolding(inter_modes::specs::BlockVectors::quarter, crate::specs::SaidVectors::quarter_said), using(bool_encoder::proofs::CountedPuts::valued_in_order, bool_encoder::proofs::CountedPuts::valued_settle, vp9_types::proofs::Binds::writes_bind))]
fn put_quarter<N: Neighbours, Q: Neighbours>(
    encoder: &mut BoolEncoder,
    src: &Sources<'_, N, Q>,
    symbols: &InterSymbols,
    k: u8,
    before: &QuartersBefore,
) -> Result<Result<Quarter, Rule>, AllocError>
    requires context { src.now.context ≤ 6 }
    requires k { k < 4 }
    requires may { MaySearch N.holds N.blocks Q.holds Q.blocks src.now.earlier.now (option_copied src.now.before) src.now.search }
    requires small { AreSmallBefore before.now }
    requires can { CanSayVectors src.now.high_precision before.now.best symbols.now.references (symbols_at symbols.now k) }
    ensures put { IfOk result (λ q. PutsValue (quarter (sources_in N.blocks Q.blocks src.now) src.now.modes.now src.now.context symbols.now.references k before.now) encoder.old q encoder.new) }
    ensures is { IfOk result (λ q. q ≡ quarter_said (sources_in N.blocks Q.blocks src.now) (symbols_at symbols.now k) symbols.now.references k before.now) }
    ensures small { IfOk result (λ r. IfOk r (λ q. AreSmall q.vectors)) }
{
    let said = symbols_at(symbols, usize::from(k));
    put_inter_mode(encoder, src.modes, src.context, said.mode)?;
    match put_quarter_vectors(encoder, src, said, symbols.references, k, before)? {
        Ok(vectors) => Ok(Ok(Quarter {
            mode: said.mode,
            vectors,
        })),
        Err(rule) => Ok(Err(rule)),
    }
}

/// Those of a block of 4x4, one after another.
#[tactic(auto, unfolding(inter_modes::specs::Code::four_quarters, crate::specs::SaidVectors::four_said), using(bool_encoder::proofs::CountedPuts::valued_in_order, bool_encoder::proofs::CountedPuts::valued_settle, vp9_types::proofs::Binds::writes_bind))]
fn put_four<N: Neighbours, Q: Neighbours>(
    encoder: &mut BoolEncoder,
    src: &Sources<'_, N, Q>,
    symbols: &InterSymbols,
    best: [Mv; 2],
) -> Result<Result<[Quarter; 4], Rule>, AllocError>
    requires context { src.now.context ≤ 6 }
    requires may { MaySearch N.holds N.blocks Q.holds Q.blocks src.now.earlier.now (option_copied src.now.before) src.now.search }
    requires small { AreSmall best }
    requires first { CanSayVectors src.now.high_precision best symbols.now.references (symbols_at symbols.now 0) }
    requires second { CanSayVectors src.now.high_precision best symbols.now.references (symbols_at symbols.now 1) }
    requires third { CanSayVectors src.now.high_precision best symbols.now.references (symbols_at symbols.now 2) }
    requires fourth { CanSayVectors src.now.high_precision best symbols.now.references (symbols_at symbols.now 3) }
    ensures put { IfOk result (λ qs. PutsValue (four_quarters (sources_in N.blocks Q.blocks src.now) src.now.modes.now src.now.context symbols.now.references best) encoder.old qs encoder.new) }
    ensures is { IfOk result (λ qs. qs ≡ four_said (sources_in N.blocks Q.blocks src.now) symbols.now best) }
    ensures small { IfOk result (λ qs. IfOk qs AreSmallQuarters) }
{
    let before = before_of(best, NO_VECTORS, NO_VECTORS, NO_VECTORS);
    let q = match put_quarter(encoder, src, symbols, 0, &before)? {
        Ok(quarter) => quarter,
        Err(rule) => return Ok(Err(rule)),
    };
    let before = before_of(best, q.vectors, NO_VECTORS, NO_VECTORS);
    let r = match put_quarter(encoder, src, symbols, 1, &before)? {
        Ok(quarter) => quarter,
        Err(rule) => return Ok(Err(rule)),
    };
    let before = before_of(best, q.vectors, r.vectors, NO_VECTORS);
    let t = match put_quarter(encoder, src, symbols, 2, &before)? {
        Ok(quarter) => quarter,
        Err(rule) => return Ok(Err(rule)),
    };
    let before = before_of(best, q.vectors, r.vectors, t.vectors);
    let u = match put_quarter(encoder, src, symbols, 3, &before)? {
        Ok(quarter) => quarter,
        Err(rule) => return Ok(Err(rule)),
    };
    Ok(Ok([q, r, t, u]))
}

/// Those of a block of 4x8: one at the left and one at the right.
#[tactic(auto, unfolding(inter_modes::specs::Code::quarter_columns, crate::specs::SaidVectors::columns_said), using(bool_encoder::proofs::CountedPuts::valued_in_order, bool_encoder::proofs::CountedPuts::valued_settle, vp9_types::proofs::Binds::writes_bind))]
fn put_two_columns<N: Neighbours, Q: Neighbours>(
    encoder: &mut BoolEncoder,
    src: &Sources<'_, N, Q>,
    symbols: &InterSymbols,
    best: [Mv; 2],
) -> Result<Result<[Quarter; 4], Rule>, AllocError>
    requires context { src.now.context ≤ 6 }
    requires may { MaySearch N.holds N.blocks Q.holds Q.blocks src.now.earlier.now (option_copied src.now.before) src.now.search }
    requires small { AreSmall best }
    requires left { CanSayVectors src.now.high_precision best symbols.now.references (symbols_at symbols.now 0) }
    requires right { CanSayVectors src.now.high_precision best symbols.now.references (symbols_at symbols.now 1) }
    ensures put { IfOk result (λ qs. PutsValue (quarter_columns (sources_in N.blocks Q.blocks src.now) src.now.modes.now src.now.context symbols.now.references best) encoder.old qs encoder.new) }
    ensures is { IfOk result (λ qs. qs ≡ columns_said (sources_in N.blocks Q.blocks src.now) symbols.now best) }
    ensures small { IfOk result (λ qs. IfOk qs AreSmallQuarters) }
{
    let none = NO_VECTORS;
    let before = before_of(best, none, none, none);
    let q = match put_quarter(encoder, src, symbols, 0, &before)? {
        Ok(quarter) => quarter,
        Err(rule) => return Ok(Err(rule)),
    };
    let before = before_of(best, q.vectors, none, none);
    let r = match put_quarter(encoder, src, symbols, 1, &before)? {
        Ok(quarter) => quarter,
        Err(rule) => return Ok(Err(rule)),
    };
    Ok(Ok([q, r, q, r]))
}

/// Those of a block of 8x4: an upper and a lower one.
#[tactic(auto, unfolding(inter_modes::specs::Code::quarter_rows, crate::specs::SaidVectors::rows_said), using(bool_encoder::proofs::CountedPuts::valued_in_order, bool_encoder::proofs::CountedPuts::valued_settle, vp9_types::proofs::Binds::writes_bind))]
fn put_two_rows<N: Neighbours, Q: Neighbours>(
    encoder: &mut BoolEncoder,
    src: &Sources<'_, N, Q>,
    symbols: &InterSymbols,
    best: [Mv; 2],
) -> Result<Result<[Quarter; 4], Rule>, AllocError>
    requires context { src.now.context ≤ 6 }
    requires may { MaySearch N.holds N.blocks Q.holds Q.blocks src.now.earlier.now (option_copied src.now.before) src.now.search }
    requires small { AreSmall best }
    requires upper { CanSayVectors src.now.high_precision best symbols.now.references (symbols_at symbols.now 0) }
    requires lower { CanSayVectors src.now.high_precision best symbols.now.references (symbols_at symbols.now 2) }
    ensures put { IfOk result (λ qs. PutsValue (quarter_rows (sources_in N.blocks Q.blocks src.now) src.now.modes.now src.now.context symbols.now.references best) encoder.old qs encoder.new) }
    ensures is { IfOk result (λ qs. qs ≡ rows_said (sources_in N.blocks Q.blocks src.now) symbols.now best) }
    ensures small { IfOk result (λ qs. IfOk qs AreSmallQuarters) }
{
    let none = NO_VECTORS;
    let before = before_of(best, none, none, none);
    let q = match put_quarter(encoder, src, symbols, 0, &before)? {
        Ok(quarter) => quarter,
        Err(rule) => return Ok(Err(rule)),
    };
    let before = before_of(best, q.vectors, q.vectors, none);
    let r = match put_quarter(encoder, src, symbols, 2, &before)? {
        Ok(quarter) => quarter,
        Err(rule) => return Ok(Err(rule)),
    };
    Ok(Ok([q, q, r, r]))
}

/// The quarters of a block below 8x8.
#[tactic(auto, unfolding(inter_modes::specs::Code::quarters_by_size, crate::specs::SaidVectors::quarters_said), using(inter_modes::proofs::QuartersBySize::quarters_of_size))]
pub(crate) fn put_quarters<N: Neighbours, Q: Neighbours>(
    encoder: &mut BoolEncoder,
    src: &Sources<'_, N, Q>,
    symbols: &InterSymbols,
) -> Result<Result<[Quarter; 4], Rule>, AllocError>
    requires below { is_below_8x8 src.now.search.at.size ≡ true }
    requires context { src.now.context ≤ 6 }
    requires may { MaySearch N.holds N.blocks Q.holds Q.blocks src.now.earlier.now (option_copied src.now.before) src.now.search }
    requires can { (k : ℕ) → k < 4 → CanSayVectors src.now.high_precision (best_mv (sources_in N.blocks Q.blocks src.now) symbols.now.references) symbols.now.references (symbols_at symbols.now (quarter_saying src.now.search.at.size k)) }
    ensures put { IfOk result (λ qs. PutsValue (quarters (sources_in N.blocks Q.blocks src.now) src.now.modes.now src.now.context symbols.now.references src.now.search.at.size) encoder.old qs encoder.new) }
    ensures is { IfOk result (λ qs. qs ≡ quarters_said (sources_in N.blocks Q.blocks src.now) symbols.now src.now.search.at.size) }
    ensures small { IfOk result (λ qs. IfOk qs AreSmallQuarters) }
{
    let best = best_mv(src, symbols.references);
    match src.search.at.size {
        BlockSize::B4x8 => put_two_columns(encoder, src, symbols, best),
        BlockSize::B8x4 => put_two_rows(encoder, src, symbols, best),
        _ => put_four(encoder, src, symbols, best),
    }
}
