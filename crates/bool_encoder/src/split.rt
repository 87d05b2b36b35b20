//! What a bool leaves of a range.

ghost use Rattle.std.specs.Prelude.{◌≡◌, ℕ, ◌+◌, ◌*◌, ◌^◌, ◌<◌, ◌≤◌};
ghost use Rattle.prob_contexts.specs.Counted.{bool_number};
ghost use Rattle.bool_decoder.specs.Coder.{doublings, split_of};
ghost use Rattle.bool_encoder.specs.Part.{NumberPart, after_put, doubled_part};

/// Where the range is split for a bool at `p`.
fn split_of(range: u32, p: u8) -> u32
    requires wide { 128 ≤ range }
    requires fits { range ≤ 255 }
    ensures is { result ≡ split_of range p }
    ensures some { 1 ≤ result }
    ensures within { result < range }
{
    1 + (((range - 1) * u32::from(p)) >> 8)
}

/// How often the range doubles until it is 128 or more.
pub(crate) fn doublings(range: u32) -> u32
    requires some { 1 ≤ range }
    requires fits { range ≤ 255 }
    ensures is { result ≡ doublings range }
    ensures few { result ≤ 7 }
    ensures enough { 128 ≤ range * 2 ^ result }
    ensures within { range * 2 ^ result ≤ 255 }
{
    range.leading_zeros() - 24
}

/// How far the part that a bool leaves lies above low, and its range, which isn't doubled yet.
#[tactic(auto, unfolding(crate::specs::Part::after_put))]
pub(crate) fn narrowed(range: u32, p: u8, value: bool) -> (u32, u32)
    requires wide { 128 ≤ range }
    requires fits { range ≤ 255 }
    ensures part { (e : NumberPart) → e.range ≡ range →
        after_put p (bool_number value) e ≡ doubled_part e.n (e.low + result.0) result.1 (doublings result.1) }
    ensures within { result.0 + result.1 ≤ range }
    ensures some { 1 ≤ result.1 }
{
    let split = split_of(range, p);
    if value {
        (split, range - split)
    } else {
        (0, split)
    }
}
