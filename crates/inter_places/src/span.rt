//! Vectors along one direction.

ghost use Rattle.std.specs.Prelude.{◌≡◌, ◌*◌, ◌^◌, ◌≤◌, pos, ◌-ℤ◌, unsigned_abs};
ghost use Rattle.inter_places.specs.PlaneVectors.{IsSpan, span_length, clamped_vector, in_sixteenths, spel, least_vector, greatest_vector};

/// A block along one direction: its first place of 8x8 luma samples, how many of them it has, how many its frame has, and
/// whether its plane is subsampled.
#[derive(Clone, Copy, Debug, PartialEq, Eq)]
pub struct BlockSpan {
    pub first: u32,
    pub count: u32,
    pub all: u32,
    pub ss: bool,
}

#[inline(always)]
pub(crate) fn in_sixteenths(ss: bool, mv: i32) -> i32
    requires { unsigned_abs mv ≤ 2 ^ 20 }
    ensures value { result ≡ in_sixteenths ss mv }
    ensures near { unsigned_abs result ≤ 2 * unsigned_abs mv }
    ensures most { unsigned_abs result ≤ 2 ^ 21 }
{
    if ss { mv } else { 2 * mv }
}

/// The block's samples in the plane.
#[inline(always)]
fn length_of(span: &BlockSpan) -> i32
    requires { IsSpan span.now }
    ensures value { result ≡ pos (span_length span.now) }
    ensures few { unsigned_abs result ≤ 64 }
{
    let luma = 8 * span.count as i32;
    if span.ss { luma / 2 } else { luma }
}

/// How far a vector may point out of the frame: by the block and so many samples more.
#[inline(always)]
pub(crate) fn reach(span: &BlockSpan, more: u8) -> i32
    requires span { IsSpan span.now }
    requires more { more ≤ 4 }
    ensures value { result ≡ spel more span.now }
    ensures near { unsigned_abs result ≤ 2 ^ 11 }
{
    16 * (i32::from(more) + length_of(span))
}

#[inline(always)]
fn least_vector(span: &BlockSpan) -> i32
    requires { IsSpan span.now }
    ensures value { result ≡ least_vector span.now }
    ensures near { unsigned_abs result ≤ 2 ^ 21 }
{
    let edge = in_sixteenths(span.ss, 64 * span.first as i32);
    let reach = reach(span, 4);
    -edge - reach
}

/// The places of 8x8 that the frame has behind the block, fewer than 0 where the block goes past its end.
#[inline(always)]
fn places_behind(span: &BlockSpan) -> i32
    requires { IsSpan span.now }
    ensures value { result ≡ ((pos span.now.all -ℤ pos span.now.count) -ℤ pos span.now.first) }
    ensures near { unsigned_abs result ≤ 8192 }
{
    span.all as i32 - span.count as i32 - span.first as i32
}

#[inline(always)]
fn greatest_vector(span: &BlockSpan) -> i32
    requires { IsSpan span.now }
    ensures value { result ≡ greatest_vector span.now }
    ensures near { unsigned_abs result ≤ 2 ^ 21 }
{
    let edge = in_sixteenths(span.ss, 64 * places_behind(span));
    let reach = reach(span, 3);
    edge + reach
}

/// The plane's component of a vector, in sixteenths of the plane's samples, so that it points no further out of the frame
/// than by the block and four samples more.
#[inline(always)]
#[tactic(auto, unfolding(crate::specs::PlaneVectors::clamped_vector))]
pub fn clamp_mv(span: &BlockSpan, mv: i32) -> i32
    requires span { IsSpan span.now }
    requires near { unsigned_abs mv ≤ 2 ^ 16 }
    ensures value { result ≡ clamped_vector span.now mv }
    ensures near { unsigned_abs result ≤ 2 ^ 21 }
{
    let least = least_vector(span);
    let greatest = greatest_vector(span);
    let vector = in_sixteenths(span.ss, mv);
    if vector < least {
        least
    } else if greatest < vector {
        greatest
    } else {
        vector
    }
}
