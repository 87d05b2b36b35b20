//! The places of a block, one after another.

ghost use Rattle.std.specs.Prelude.{◌≡◌, ◌+◌, ◌≤◌, ◌<◌, IfOk, length, slice_index};
ghost use Rattle.vp9_tables.specs.Scans.{area};
ghost use Rattle.coef_tokens.specs.Code.{tables_of};
ghost use Rattle.token_writer.specs.TokenFits.{CanPut};
ghost use Rattle.token_writer.specs.Code.{AreThree, PutsLevels};

use crate::step::{put_end, put_some, put_zero};
use bool_encoder::BoolEncoder;
use coef_tokens::{TokenTables, next_row};
use std::alloc::AllocError;

/// The three probabilities of a row.
fn probs_at(tables: &TokenTables, row: usize) -> [u8; 3]
    requires { row + 2 < 99 }
    ensures are { AreThree (tables_of tables.now) row result }
    ensures some { 1 ≤ slice_index result 2 }
{
    [
        tables.probs[row],
        tables.probs[row + 1],
        tables.probs[row + 2],
    ]
}

/// Puts the tokens of a transform block: its levels, by position, of which `count` places of the scan are coded. `first` is
/// the context of its first place. After want of memory some of the bools were put, and the tile is given up as a whole.
pub fn put_tokens(
    encoder: &mut BoolEncoder,
    tables: &TokenTables,
    first: u8,
    levels: &[i32],
    count: u32,
) -> Result<(), AllocError>
    requires first { first ≤ 2 }
    requires long { length levels.now ≡ area tables.now.tx }
    requires can { CanPut (tables_of tables.now) levels.now count }
    ensures { IfOk result (λ _. PutsLevels (tables_of tables.now) first encoder.old levels.now count encoder.new) }
{
    let mut cache = [0; 1024];
    let mut check = true;
    let mut row = 3 * first as usize;
    for place in 0..count as usize {
        let probs = probs_at(tables, row);
        let position = tables.scan[place] as usize;
        let level = levels[position];
        if level == 0 {
            put_zero(encoder, check, probs)?;
            check = false;
        } else {
            cache[position] = put_some(encoder, tables.depth, check, probs, level)?;
            check = true;
        }
        row = next_row(tables, &cache, place + 1);
    }
    if count as usize == tables.scan.len() {
        return Ok(());
    }
    put_end(encoder, probs_at(tables, row))?;
    Ok(())
}
