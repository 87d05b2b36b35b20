ghost use Rattle.std.specs.Prelude.{◌≡◌};
ghost use Rattle.frame_headers.specs.Fields.{Reads, ReadsInto};
ghost use Rattle.frame_headers.specs.Filter.{coded_delta, coded_deltas, delta_changes, loop_filter_params};
ghost use Rattle.vp9_types.specs.Each.{each};

use crate::bits::BitReader;
use crate::field::FieldName;
use vp9_types::Rule;

/// What is added to a block's filter level: by its reference (intra, last, golden, altref), and by its mode (zero
/// vector, other). -63 to 63 each.
#[derive(Clone, Copy, Debug, PartialEq, Eq)]
pub struct LoopDeltas {
    pub reference: [i16; 4],
    pub mode: [i16; 2],
}

impl LoopDeltas {
    /// Those after the loss of the past.
    pub const DEFAULT: LoopDeltas = LoopDeltas {
        reference: [1, 0, -1, -1],
        mode: [0, 0],
    };
}

/// `loop_filter_params` (6.2.8 of the standard): level 0 to 63, sharpness 0 to 7, and the deltas in force.
#[derive(Clone, Copy, Debug, PartialEq, Eq)]
pub struct LoopFilter {
    pub level: u8,
    pub sharpness: u8,
    pub delta_enabled: bool,
    pub deltas: LoopDeltas,
}

#[tactic(auto, unfolding(crate::specs::Filter::coded_delta), using(vp9_types::proofs::Runs::run_bind))]
fn read_delta(
    bits: &mut BitReader<'_>,
    update: FieldName,
    delta: FieldName,
    old: i16,
) -> Result<i16, Rule>
    ensures { Reads (coded_delta update delta old) bits.old result bits.new }
{
    if bits.flag_field(update)? {
        bits.signed(delta, 6)
    } else {
        Ok(old)
    }
}

fn read_deltas(
    bits: &mut BitReader<'_>,
    update: FieldName,
    delta: FieldName,
    deltas: &mut [i16],
) -> Result<(), Rule>
    ensures { ReadsInto (each (coded_delta update delta) deltas.old) bits.old result deltas.new bits.new }
{
    for i in 0..deltas.len() {
        let old = deltas[i];
        deltas[i] = read_delta(bits, update, delta, old)?;
    }
    Ok(())
}

#[tactic(auto, unfolding(crate::specs::Filter::coded_deltas), using(vp9_types::proofs::Runs::run_bind))]
fn read_coded_deltas(bits: &mut BitReader<'_>, old: LoopDeltas) -> Result<LoopDeltas, Rule>
    ensures { Reads (coded_deltas old) bits.old result bits.new }
{
    let mut reference = old.reference;
    read_deltas(
        bits,
        FieldName::UpdateRefDelta,
        FieldName::LoopFilterRefDelta,
        &mut reference,
    )?;
    let mut mode = old.mode;
    read_deltas(
        bits,
        FieldName::UpdateModeDelta,
        FieldName::LoopFilterModeDelta,
        &mut mode,
    )?;
    Ok(LoopDeltas { reference, mode })
}

#[tactic(auto, unfolding(crate::specs::Filter::delta_changes), using(vp9_types::proofs::Runs::run_bind))]
fn read_delta_changes(bits: &mut BitReader<'_>, old: LoopDeltas) -> Result<LoopDeltas, Rule>
    ensures { Reads (delta_changes old) bits.old result bits.new }
{
    if bits.flag_field(FieldName::LoopFilterDeltaUpdate)? {
        read_coded_deltas(bits, old)
    } else {
        Ok(old)
    }
}

/// Reads `loop_filter_params` over the deltas so far.
#[tactic(auto, unfolding(crate::specs::Filter::loop_filter_params), using(vp9_types::proofs::Runs::run_bind))]
pub fn read_loop_filter(bits: &mut BitReader<'_>, old: LoopDeltas) -> Result<LoopFilter, Rule>
    ensures { Reads (loop_filter_params old) bits.old result bits.new }
{
    let level = bits.byte(FieldName::LoopFilterLevel, 6)?;
    let sharpness = bits.byte(FieldName::LoopFilterSharpness, 3)?;
    let delta_enabled = bits.flag_field(FieldName::LoopFilterDeltaEnabled)?;
    let deltas = if delta_enabled {
        read_delta_changes(bits, old)?
    } else {
        old
    };
    Ok(LoopFilter {
        level,
        sharpness,
        delta_enabled,
        deltas,
    })
}
