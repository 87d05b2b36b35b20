//! Places along an axis.

ghost use Rattle.std.specs.Prelude.{◌≡◌, ◌<◌, ◌≤◌};
ghost use Rattle.inter_places.specs.Axes.{straight, fraction, offset, IsAxis};

use crate::axis::Axis;

/// The place that lies n samples after the third before the first.
#[inline(always)]
pub fn straight(a: &Axis, n: usize) -> usize
    requires axis { IsAxis a.now }
    requires near { n ≤ 256 }
    ensures value { result ≡ straight a.now n }
    ensures inside { result < a.now.size }
{
    let at = (a.start >> 4) + n as i32 - 3;
    if at < 0 {
        0
    } else {
        (at as usize).min(a.size as usize - 1)
    }
}

/// The phase of the first place.
#[inline(always)]
pub fn phase_of(a: &Axis) -> u8
    requires axis { IsAxis a.now }
    ensures value { result ≡ fraction a.now }
    ensures low { result < 16 }
{
    if a.start >= 0 {
        (a.start % 16) as u8
    } else {
        (15 - (-(a.start + 1)) % 16) as u8
    }
}

/// How far value j lies behind the first whole place, in sixteenths of a sample.
#[inline(always)]
pub fn offset_of(a: &Axis, j: usize) -> usize
    requires axis { IsAxis a.now }
    requires j { j ≤ 64 }
    ensures value { result ≡ offset a.now j }
    ensures near { result ≤ 2063 }
{
    phase_of(a) as usize + a.step as usize * j
}
