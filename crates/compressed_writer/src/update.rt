//! One probability, and several in a row. An update is put exactly where a probability changes.

ghost use Rattle.std.specs.Prelude.{◌≡◌, ◌+◌, ◌*◌, ◌≤◌, IfOk, length, false};
ghost use Rattle.std.specs.List.{All};
ghost use Rattle.vp9_types.specs.Each.{each};
ghost use Rattle.bool_encoder.specs.WrittenBools.{Puts};
ghost use Rattle.bool_lists.specs.BoolLists.{HasPut};
ghost use Rattle.compressed_writer.specs.Spelling.{spelled_updates_from, spelled_update, spelled_updates, spelled_updates_if, spelled_vector_update, spelled_vector_updates};
ghost use Rattle.compressed_header.specs.Updates.{diff_update_prob, update_mv_prob, updates_if, mv_updates};
ghost use Rattle.compressed_writer.specs.Code.{new_of};
ghost use Rattle.compressed_writer.specs.CodedUpdates.{IsOddUpdate, AreOddUpdates};

use crate::differences::difference_to;
use bool_encoder::{BoolEncoder, put_difference, put_flag, put_literal};
use std::alloc::AllocError;

/// The probability that one isn't updated.
const STAYS: u8 = 252;

#[tactic(auto, unfolding(crate::specs::Spelling::spelled_update, compressed_header::specs::Updates::diff_update_prob), using(bool_lists::proofs::Ways::flag_way, bool_lists::proofs::Ways::flag_and_difference, vp9_types::proofs::Binds::writes_bind))]
fn put_update(encoder: &mut BoolEncoder, old: u8, new: u8) -> Result<(), AllocError>
    requires old { 1 ≤ old }
    requires new { 1 ≤ new }
    ensures puts { IfOk result (λ _. Puts (diff_update_prob old) encoder.old new encoder.new) }
    ensures spells { IfOk result (λ _. HasPut encoder.old (spelled_update old new) encoder.new) }
{
    if new == old {
        return put_flag(encoder, STAYS, false);
    }
    put_flag(encoder, STAYS, true)?;
    put_difference(encoder, difference_to(new, old))
}

#[tactic(auto, unfolding(crate::specs::Spelling::spelled_vector_update, compressed_header::specs::Updates::update_mv_prob), using(bool_lists::proofs::Ways::flag_way, bool_lists::proofs::Ways::flag_and_number, vp9_types::proofs::Binds::writes_bind))]
fn put_vector_update(encoder: &mut BoolEncoder, old: u8, new: u8) -> Result<(), AllocError>
    requires { IsOddUpdate old new }
    ensures puts { IfOk result (λ _. Puts (update_mv_prob old) encoder.old new encoder.new) }
    ensures spells { IfOk result (λ _. HasPut encoder.old (spelled_vector_update old new) encoder.new) }
{
    if new == old {
        return put_flag(encoder, STAYS, false);
    }
    put_flag(encoder, STAYS, true)?;
    put_literal(encoder, 7, u32::from(new / 2))
}

pub fn put_updates(encoder: &mut BoolEncoder, before: &[u8], after: &[u8]) -> Result<(), AllocError>
    requires size { length before.now ≡ length after.now }
    requires old { All (λ p. 1 ≤ p) before.now }
    requires new { All (λ p. 1 ≤ p) after.now }
    ensures puts { IfOk result (λ _. Puts (each diff_update_prob before.now) encoder.old after.now encoder.new) }
    ensures spells { IfOk result (λ _. HasPut encoder.old (spelled_updates before.now after.now) encoder.new) }
{
    for i in 0..after.len() {
        put_update(encoder, before[i], after[i])?;
    }
    Ok(())
}

pub fn put_vector_updates(
    encoder: &mut BoolEncoder,
    before: &[u8],
    after: &[u8],
) -> Result<(), AllocError>
    requires size { length before.now ≡ length after.now }
    requires odd { AreOddUpdates before.now after.now }
    ensures puts { IfOk result (λ _. Puts (each update_mv_prob before.now) encoder.old after.now encoder.new) }
    ensures spells { IfOk result (λ _. HasPut encoder.old (spelled_vector_updates before.now after.now) encoder.new) }
{
    for i in 0..after.len() {
        put_vector_update(encoder, before[i], after[i])?;
    }
    Ok(())
}

/// Puts them where the header has updates for them. Else they are as they were.
#[tactic(auto, unfolding(crate::specs::Spelling::spelled_updates_if, compressed_header::specs::Updates::updates_if), using(bool_lists::proofs::Ways::spells_none))]
pub fn put_updates_if(
    encoder: &mut BoolEncoder,
    coded: bool,
    before: &[u8],
    after: &[u8],
) -> Result<(), AllocError>
    requires size { length before.now ≡ length after.now }
    requires old { All (λ p. 1 ≤ p) before.now }
    requires new { All (λ p. 1 ≤ p) after.now }
    requires kept { coded ≡ false → after.now ≡ before.now }
    ensures puts { IfOk result (λ _. Puts (updates_if coded before.now) encoder.old after.now encoder.new) }
    ensures spells { IfOk result (λ _. HasPut encoder.old (spelled_updates_if coded before.now after.now) encoder.new) }
{
    if coded {
        return put_updates(encoder, before, after);
    }
    Ok(())
}

/// Puts the `n` of a component, 0 or 1, from a place on. Those of components before it are new.
pub fn put_component_updates(
    encoder: &mut BoolEncoder,
    i: usize,
    from: usize,
    n: usize,
    before: &[u8],
    after: &[u8],
) -> Result<(), AllocError>
    requires component { i ≤ 1 }
    requires place { from ≡ n * i }
    requires old_size { length before.now ≡ 2 * n }
    requires new_size { length after.now ≡ 2 * n }
    requires odd { AreOddUpdates before.now after.now }
    ensures puts { IfOk result (λ _. Puts (mv_updates from n (new_of i n before.now after.now)) encoder.old (new_of (i + 1) n before.now after.now) encoder.new) }
    ensures spells { IfOk result (λ _. HasPut encoder.old (spelled_updates_from from n before.now after.now) encoder.new) }
{
    put_vector_updates(encoder, &before[from..from + n], &after[from..from + n])?;
    Ok(())
}
