//! A transform block: its tokens, and whether they have a residue.

ghost use Rattle.std.specs.Prelude.{◌≡◌, ◌<◌, ℕ, IfOk, length, nat_lt, unsigned_abs};
ghost use Rattle.std.specs.List.{All};
ghost use Rattle.prob_contexts.specs.ProbLists.{lists_of};
ghost use Rattle.vp9_types.specs.Results.{map_ok};
ghost use Rattle.vp9_tables.specs.Scans.{area};
ghost use Rattle.bool_lists.specs.BoolLists.{HasPut};
ghost use Rattle.bool_encoder.specs.CountedBools.{PutsTo};
ghost use Rattle.token_writer.specs.TokenFits.{IsCoded};
ghost use Rattle.residue_syntax.specs.BlocksInPlanes.{type_at};
ghost use Rattle.residue_syntax.specs.Residues.{read_residue, with_sides};
ghost use Rattle.residue_syntax.specs.Code.{IsBeside, KeepsLengths};
ghost use Rattle.residue_writer.specs.SaidResidues.{residue_said};
ghost use Rattle.residue_writer.specs.ResidueLists.{spelled_at};
ghost use Rattle.residue_writer.specs.ResidueFits.{CanPutAt};
ghost use Rattle.residue_writer.specs.Code.{TellsAny};

use crate::levels::Coded;
use block_geometry::TransformPlace;
use bool_encoder::BoolEncoder;
use coef_tokens::TokenTables;
use prob_contexts::Contexts;
use residue_syntax::{BlockInPlane, Sides};
use residue_transforms::residue;
use std::alloc::AllocError;
use token_writer::put_tokens;
use vp9_types::{Rule, TxType};

/// Whether a transform block has a residue, if no rule is broken by its levels.
fn residue_said(b: &BlockInPlane, tx_type: TxType, coded: &Coded) -> Result<bool, Rule>
    requires long { length coded.now.levels.now ≡ area b.now.block.tx }
    requires coded { All (λ level. IsCoded b.now.quant.depth (unsigned_abs level)) coded.now.levels.now }
    ensures { (y x : ℕ) → tx_type ≡ type_at b.now y x → TellsAny (residue_said b.now y x coded.now.count coded.now.levels.now) result }
{
    if coded.count == 0 {
        return Ok(false);
    }
    let mut buffer = [0; 1024];
    let values = &mut buffer[..coded.levels.len()];
    values.copy_from_slice(coded.levels);
    residue(values, b.block.tx, tx_type, b.quant)?;
    Ok(true)
}

/// Puts the residue of the transform block at a place, and answers whether it has any, or which rule is broken by it. The
/// sides are then of no use.
pub(crate) fn put_residue(
    encoder: &mut BoolEncoder,
    contexts: &Contexts,
    sides: &mut Sides,
    b: &BlockInPlane,
    at: TransformPlace,
    coded: &Coded,
) -> Result<Result<bool, Rule>, AllocError>
    requires down { at.row < 16 }
    requires across { at.column < 16 }
    requires beside { IsBeside b.now.block at.row at.column sides.old }
    requires long { length coded.now.levels.now ≡ area b.now.block.tx }
    requires can { CanPutAt (lists_of contexts.now) b.now at coded.now.levels.now coded.now.count }
    ensures puts { IfOk result (λ _. PutsTo (read_residue (lists_of contexts.now) b.now at.row at.column sides.old) encoder.old
        (map_ok (λ r. (r, with_sides b.now.block at.row at.column (nat_lt 0 coded.now.count) sides.old)) (residue_said b.now at.row at.column coded.now.count coded.now.levels.now)) encoder.new) }
    ensures tells { IfOk result (λ told. TellsAny (residue_said b.now at.row at.column coded.now.count coded.now.levels.now) told) }
    ensures spells { IfOk result (λ _. HasPut encoder.old (spelled_at (lists_of contexts.now) b.now at coded.now.count coded.now.levels.now sides.old) encoder.new) }
    ensures sides { IfOk result (λ _. sides.new ≡ with_sides b.now.block at.row at.column (nat_lt 0 coded.now.count) sides.old) }
    ensures lengths { KeepsLengths sides.old sides.new }
{
    let kind = b.token_kind(at.row, at.column);
    let tables = TokenTables::new(contexts, kind);
    let first = sides.first_context(&b.block, at.row, at.column);
    put_tokens(encoder, &tables, first, coded.levels, coded.count)?;
    sides.mark(&b.block, at.row, at.column, 0 < coded.count);
    Ok(residue_said(b, kind.kind, coded))
}
