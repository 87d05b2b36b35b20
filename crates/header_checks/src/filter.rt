//! Tests of loop filters.

ghost use Rattle.std.specs.Prelude.{◌≡◌, ◌≢◌, length, true};
ghost use Rattle.std.specs.Cmp.Lexicographic.{pointwise};
ghost use Rattle.header_writer.specs.WellFormed.{AreDeltas, IsLoopFilter, IsSigned};
ghost use Rattle.header_checks.specs.Code.{CanCodeDeltas};
ghost use Rattle.header_checks.specs.Params.{are_deltas, is_delta, is_loop_filter};

use crate::same::same_deltas;
use frame_headers::{LoopDeltas, LoopFilter};

fn is_delta(old: i16, delta: i16) -> bool
    ensures is { result ≡ is_delta old delta }
    ensures signed { result ≡ true → delta ≢ old → IsSigned 6 delta }
    ensures complete { (delta ≢ old → IsSigned 6 delta) → result ≡ true }
{
    delta == old || delta.unsigned_abs() < 64
}

fn are_coded(olds: &[i16], deltas: &[i16]) -> bool
    requires { length olds.now ≡ length deltas.now }
    ensures is { result ≡ pointwise is_delta olds.now deltas.now }
    ensures deltas { result ≡ true → AreDeltas olds.now deltas.now }
    ensures complete { AreDeltas olds.now deltas.now → result ≡ true }
{
    for i in 0..deltas.len() {
        if !is_delta(olds[i], deltas[i]) {
            return false;
        }
    }
    true
}

#[tactic(auto, unfolding(crate::specs::Params::are_deltas))]
fn are_deltas(old: &LoopDeltas, filter: &LoopFilter) -> bool
    ensures is { result ≡ are_deltas old.now filter.now }
    ensures can { result ≡ true → CanCodeDeltas old.now filter.now }
    ensures complete { CanCodeDeltas old.now filter.now → result ≡ true }
{
    let deltas = &filter.deltas;
    if !filter.delta_enabled && !same_deltas(deltas, old) {
        return false;
    }
    are_coded(&old.reference, &deltas.reference) && are_coded(&old.mode, &deltas.mode)
}

/// Whether a loop filter can be coded over the deltas before.
#[tactic(auto, unfolding(crate::specs::Params::is_loop_filter))]
pub(crate) fn is_loop_filter(old: &LoopDeltas, filter: &LoopFilter) -> bool
    ensures is { result ≡ is_loop_filter old.now filter.now }
    ensures filter { result ≡ true → IsLoopFilter old.now filter.now }
    ensures complete { IsLoopFilter old.now filter.now → result ≡ true }
{
    filter.level < 64 && filter.sharpness < 8 && are_deltas(old, filter)
}
