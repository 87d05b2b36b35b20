//! A transform block: its tokens and its residue.

ghost use Rattle.std.specs.Prelude.{◌≡◌, ◌<◌, ◌^◌, ℕ, List, [], length, unsigned_abs, OnOk};
ghost use Rattle.std.specs.List.{All};
ghost use Rattle.coef_tokens.specs.Code.{HoldsLevels};
ghost use Rattle.coef_tokens.specs.Places.{Read};
ghost use Rattle.prob_contexts.specs.ProbLists.{lists_of};
ghost use Rattle.vp9_tables.specs.Scans.{area};
ghost use Rattle.residue_syntax.specs.BlocksInPlanes.{type_at};
ghost use Rattle.residue_syntax.specs.Residues.{residue_of, read_residue};
ghost use Rattle.residue_syntax.specs.Code.{IsBeside, KeepsLengths, GivesAny, GivesResidue};

use crate::in_plane::BlockInPlane;
use crate::sides::Sides;
use block_geometry::TransformPlace;
use coef_tokens::{TokenTables, tokens};
use counting_reader::CountingReader;
use prob_contexts::Contexts;
use residue_transforms::residue;
use vp9_types::{Rule, TxType};

/// Makes levels of zeros.
#[inline(always)]
fn clear(values: &mut [i32])
    ensures clear { HoldsLevels values.new [] }
    ensures long { length values.new ≡ length values.old }
{
    values.fill(0);
}

/// Makes the residue of levels, of which so many places are coded, and answers whether there is any.
#[inline(always)]
fn residue_of(
    b: &BlockInPlane,
    tx_type: TxType,
    count: u32,
    levels: &mut [i32],
) -> Result<bool, Rule>
    requires long { length levels.old ≡ area b.now.block.tx }
    requires levels { All (λ level. unsigned_abs level < 2 ^ 19) levels.old }
    ensures gives { (y x : ℕ) (reads : List Read) → tx_type ≡ type_at b.now y x → HoldsLevels levels.old reads →
        GivesAny count (residue_of b.now y x count reads) result levels.new }
    ensures small { OnOk result (All (λ x. unsigned_abs x < 2 ^ 24) levels.new) }
    ensures long { length levels.new ≡ length levels.old }
{
    if count == 0 {
        return Ok(false);
    }
    residue(levels, b.block.tx, tx_type, b.quant)?;
    Ok(true)
}

/// Reads the residue of the transform block at a place, and answers whether it has any.
#[inline(always)]
pub(crate) fn read_residue<const COUNTS: bool>(
    reader: &mut CountingReader<COUNTS>,
    contexts: &Contexts,
    sides: &mut Sides,
    b: &BlockInPlane,
    at: TransformPlace,
    values: &mut [i32],
) -> Result<bool, Rule>
    requires down { at.row < 16 }
    requires across { at.column < 16 }
    requires beside { IsBeside b.now.block at.row at.column sides.old }
    requires long { length values.old ≡ area b.now.block.tx }
    ensures gives { GivesResidue (read_residue (lists_of contexts.now) b.now at.row at.column sides.old) reader.old result values.new sides.new reader.new }
    ensures lengths { KeepsLengths sides.old sides.new }
    ensures small { OnOk result (All (λ x. unsigned_abs x < 2 ^ 24) values.new) }
    ensures long { length values.new ≡ length values.old }
{
    clear(values);
    let kind = b.token_kind(at.row, at.column);
    let tables = TokenTables::new(contexts, kind);
    let first = sides.first_context(&b.block, at.row, at.column);
    let count = tokens(reader, &tables, first, values);
    let some = residue_of(b, kind.kind, count, values)?;
    sides.mark(&b.block, at.row, at.column, some);
    Ok(some)
}
