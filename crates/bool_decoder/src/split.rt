//! The arithmetic of ranges.

ghost use Rattle.std.specs.Prelude.{◌≡◌, ℕ, ◌+◌, ◌-◌, ◌*◌, ◌/◌, ◌^◌, ◌<◌, ◌≤◌};
ghost use Rattle.bool_decoder.specs.Coder.{doublings, split_of};

/// Where the range is split for a bool at `p`.
#[inline(always)]
pub(crate) fn split_of(range: u32, p: u8) -> u32
    requires wide { 128 ≤ range }
    requires fits { range ≤ 255 }
    ensures is { result ≡ split_of range p }
    ensures some { 1 ≤ result }
    ensures within { result < range }
{
    1 + (((range - 1) * u32::from(p)) >> 8)
}

/// How often the range doubles until it is 128 or more.
#[inline(always)]
pub(crate) fn doublings(range: u32) -> u32
    requires some { 1 ≤ range }
    requires fits { range ≤ 255 }
    ensures is { result ≡ doublings range }
    ensures few { result ≤ 7 }
    ensures enough { 128 ≤ range * 2 ^ result }
    ensures within { range * 2 ^ result ≤ 255 }
{
    range.leading_zeros() - 24
}
