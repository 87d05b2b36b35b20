//! Arithmetic in which nothing is lost.

ghost use Rattle.std.specs.Prelude.{◌≡◌, ◌+◌, ◌*◌, ◌^◌, ◌≤◌, ◌+ℤ◌, ◌-ℤ◌, ◌*ℤ◌, neg_ℤ, unsigned_abs};
ghost use Rattle.std.specs.Int.{int_shr};
ghost use Rattle.inverse_transforms.specs.Ranges.{fits, round14, IsNarrow, IsSmall};
ghost use Rattle.inverse_transforms.specs.Flow.{wide};

/// Round2 by 14 bits.
#[inline(always)]
#[tactic(auto, unfolding(crate::specs::Ranges::round14))]
pub fn rounded(x: i64) -> i32
    requires { unsigned_abs x ≤ 2 ^ 44 }
    ensures { result ≡ round14 x }
{
    ((x + 8192) >> 14) as i32
}

#[inline(always)]
pub fn product(x: i32, c: i32) -> i64
    requires small { unsigned_abs x ≤ 2 ^ 26 }
    requires constant { unsigned_abs c ≤ 16384 }
    ensures value { result ≡ (x *ℤ c) }
    ensures size { unsigned_abs result ≤ 2 ^ 40 }
{
    x as i64 * c as i64
}

/// Round2 by 14 bits of a sum of two products of narrow values.
#[inline(always)]
#[tactic(auto, unfolding(crate::specs::Ranges::round14))]
pub fn narrow_rounded(x: i32) -> i32
    requires { unsigned_abs x ≤ 2 ^ 30 }
    ensures value { result ≡ round14 x }
    ensures small { IsSmall result }
{
    (x + 8192) >> 14
}

#[inline(always)]
pub fn narrow_product(x: i32, c: i32) -> i32
    requires narrow { IsNarrow x }
    requires constant { unsigned_abs c ≤ 16384 }
    ensures value { result ≡ (x *ℤ c) }
    ensures size { unsigned_abs result ≤ 2 ^ 29 }
{
    x * c
}

#[inline(always)]
pub fn sum(x: i64, y: i64) -> i64
    requires first { unsigned_abs x ≤ 2 ^ 43 }
    requires second { unsigned_abs y ≤ 2 ^ 43 }
    ensures value { result ≡ (x +ℤ y) }
    ensures size { unsigned_abs result ≤ unsigned_abs x + unsigned_abs y }
{
    x + y
}

#[inline(always)]
pub fn difference(x: i64, y: i64) -> i64
    requires first { unsigned_abs x ≤ 2 ^ 43 }
    requires second { unsigned_abs y ≤ 2 ^ 43 }
    ensures value { result ≡ (x -ℤ y) }
    ensures size { unsigned_abs result ≤ unsigned_abs x + unsigned_abs y }
{
    x - y
}

#[inline(always)]
pub fn plus(x: i32, y: i32) -> i32
    requires first { unsigned_abs x ≤ 2 ^ 29 }
    requires second { unsigned_abs y ≤ 2 ^ 29 }
    ensures value { result ≡ (x +ℤ y) }
    ensures size { unsigned_abs result ≤ unsigned_abs x + unsigned_abs y }
{
    x + y
}

#[inline(always)]
pub fn minus(x: i32, y: i32) -> i32
    requires first { unsigned_abs x ≤ 2 ^ 29 }
    requires second { unsigned_abs y ≤ 2 ^ 29 }
    ensures value { result ≡ (x -ℤ y) }
    ensures size { unsigned_abs result ≤ unsigned_abs x + unsigned_abs y }
{
    x - y
}

/// Half of a value, rounded down.
#[inline(always)]
pub fn half(x: i32) -> i32
    ensures value { result ≡ int_shr x 1 }
    ensures size { unsigned_abs result ≤ unsigned_abs x }
{
    x >> 1
}

/// Whether a value fits where -limit is the least and limit - 1 the greatest.
#[inline(always)]
pub fn is_fit(x: i32, limit: u32) -> bool
    requires { limit ≤ 2 ^ 24 }
    ensures { result ≡ fits limit x }
{
    (-(limit as i32) <= x) & (x < limit as i32)
}

/// The same of a value of 16 bits more.
#[inline(always)]
pub fn is_wide(x: i64, limit: u32) -> bool
    requires { limit ≤ 2 ^ 24 }
    ensures { result ≡ wide limit x }
{
    let most = limit as i64 * 65536;
    (-most <= x) & (x < most)
}
