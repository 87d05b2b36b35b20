//! The loop filter's parameters.

ghost use Rattle.std.specs.Prelude.{◌≡◌, ◌≢◌, length, IfOk, false};
ghost use Rattle.vp9_types.specs.Each.{each};
ghost use Rattle.frame_headers.specs.Filter.{coded_delta, coded_deltas, delta_changes, loop_filter_params};
ghost use Rattle.header_writer.specs.Code.{HasPut};
ghost use Rattle.header_writer.specs.WrittenFields.{Puts};
ghost use Rattle.header_writer.specs.Spelling.{spelled_coded_deltas, spelled_delta, spelled_delta_changes, spelled_deltas, spelled_loop_filter};
ghost use Rattle.header_writer.specs.WellFormed.{IsSigned, AreDeltas, IsLoopFilter};

use crate::bits::BitWriter;
use frame_headers::{FieldName, LoopDeltas, LoopFilter};
use std::alloc::AllocError;

#[tactic(auto, unfolding(frame_headers::specs::Filter::coded_delta, crate::specs::Spelling::spelled_delta), using(vp9_types::proofs::Binds::writes_bind, crate::proofs::Spells::spells_on))]
fn put_delta(
    bits: &mut BitWriter,
    update: FieldName,
    name: FieldName,
    old: i16,
    delta: i16,
) -> Result<(), AllocError>
    requires { delta ≢ old → IsSigned 6 delta }
    ensures puts { IfOk result (λ _. Puts (coded_delta update name old) bits.old delta bits.new) }
    ensures spells { IfOk result (λ _. HasPut bits.old (spelled_delta old delta) bits.new) }
{
    if delta == old {
        return bits.flag_field(update, false);
    }
    bits.flag_field(update, true)?;
    bits.signed_number(name, 6, delta)
}

fn put_deltas(
    bits: &mut BitWriter,
    update: FieldName,
    name: FieldName,
    olds: &[i16],
    deltas: &[i16],
) -> Result<(), AllocError>
    requires size { length olds.now ≡ length deltas.now }
    requires fit { AreDeltas olds.now deltas.now }
    ensures puts { IfOk result (λ _. Puts (each (coded_delta update name) olds.now) bits.old deltas.now bits.new) }
    ensures spells { IfOk result (λ _. HasPut bits.old (spelled_deltas olds.now deltas.now) bits.new) }
{
    for i in 0..deltas.len() {
        let old = olds[i];
        let delta = deltas[i];
        put_delta(bits, update, name, old, delta)?;
    }
    Ok(())
}

#[tactic(auto, unfolding(frame_headers::specs::Filter::coded_deltas, crate::specs::Spelling::spelled_coded_deltas), using(vp9_types::proofs::Binds::writes_bind, crate::proofs::Spells::spells_on))]
fn put_coded_deltas(
    bits: &mut BitWriter,
    old: LoopDeltas,
    deltas: LoopDeltas,
) -> Result<(), AllocError>
    requires reference { AreDeltas old.reference deltas.reference }
    requires mode { AreDeltas old.mode deltas.mode }
    ensures puts { IfOk result (λ _. Puts (coded_deltas old) bits.old deltas bits.new) }
    ensures spells { IfOk result (λ _. HasPut bits.old (spelled_coded_deltas old deltas) bits.new) }
{
    put_deltas(
        bits,
        FieldName::UpdateRefDelta,
        FieldName::LoopFilterRefDelta,
        &old.reference,
        &deltas.reference,
    )?;
    put_deltas(
        bits,
        FieldName::UpdateModeDelta,
        FieldName::LoopFilterModeDelta,
        &old.mode,
        &deltas.mode,
    )
}

/// Deltas that aren't coded are as they were.
#[tactic(auto, unfolding(frame_headers::specs::Filter::delta_changes, crate::specs::Spelling::spelled_delta_changes), using(vp9_types::proofs::Binds::writes_bind, crate::proofs::Spells::spells_on))]
fn put_delta_changes(
    bits: &mut BitWriter,
    old: LoopDeltas,
    deltas: LoopDeltas,
    update: bool,
) -> Result<(), AllocError>
    requires kept { update ≡ false → deltas ≡ old }
    requires reference { AreDeltas old.reference deltas.reference }
    requires mode { AreDeltas old.mode deltas.mode }
    ensures puts { IfOk result (λ _. Puts (delta_changes old) bits.old deltas bits.new) }
    ensures spells { IfOk result (λ _. HasPut bits.old (spelled_delta_changes update old deltas) bits.new) }
{
    if !update {
        return bits.flag_field(FieldName::LoopFilterDeltaUpdate, false);
    }
    bits.flag_field(FieldName::LoopFilterDeltaUpdate, true)?;
    put_coded_deltas(bits, old, deltas)
}

/// Puts `loop_filter_params` (6.2.8 of the standard) over the deltas so far.
#[tactic(auto, unfolding(frame_headers::specs::Filter::loop_filter_params, crate::specs::Spelling::spelled_loop_filter), using(vp9_types::proofs::Binds::writes_bind, crate::proofs::Spells::spells_on, crate::proofs::Spells::spells_same))]
pub fn put_loop_filter(
    bits: &mut BitWriter,
    old: LoopDeltas,
    filter: LoopFilter,
    update: bool,
) -> Result<(), AllocError>
    requires is { IsLoopFilter old filter }
    requires kept { update ≡ false → filter.deltas ≡ old }
    ensures puts { IfOk result (λ _. Puts (loop_filter_params old) bits.old filter bits.new) }
    ensures spells { IfOk result (λ _. HasPut bits.old (spelled_loop_filter update old filter) bits.new) }
{
    bits.byte(FieldName::LoopFilterLevel, 6, filter.level)?;
    bits.byte(FieldName::LoopFilterSharpness, 3, filter.sharpness)?;
    bits.flag_field(FieldName::LoopFilterDeltaEnabled, filter.delta_enabled)?;
    if filter.delta_enabled {
        put_delta_changes(bits, old, filter.deltas, update)?;
    }
    Ok(())
}
