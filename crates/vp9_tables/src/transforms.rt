ghost use Rattle.std.specs.Prelude.{◌≡◌, ℕ, ◌+◌, ◌-◌, ◌*◌, ◌<◌, ◌≤◌, ◌^◌, ◌∷◌, [], pos, ◌+ℤ◌, ◌*ℤ◌, ◌≤ℤ◌, slice_index_or, unsigned_abs, int_lt, nat_le, length, IsTrue};
ghost use Rattle.std.specs.List.{list_all, range_with_len};
ghost use Rattle.vp9_types.specs.Sizes.{side};
ghost use Rattle.vp9_tables.specs.TransformTables.{is_on_circle, cos64, cosine_of, is_flow, dct_of};

use crate::data::cosines::{COS64, COSINES, SINPI};
use crate::data::flows::{
    FLOW_ADST_8, FLOW_ADST_16, FLOW_DCT_4, FLOW_DCT_8, FLOW_DCT_16, FLOW_DCT_32,
};
use crate::flow_row::FlowRow;
use vp9_types::TxSize;

/// The cosine of k 64ths of pi, times 16384 and rounded.
pub fn cos64(k: u8) -> i32
    requires { k ≤ 32 }
    ensures entry { result ≡ cos64 k }
    ensures size { unsigned_abs result ≤ 16384 }
{
    constant_in(&COS64, k as usize)
}

fn constant_in(table: &[i32], place: usize) -> i32
    requires index { place < length table.now }
    requires law { IsTrue (list_all (λ c. nat_le (unsigned_abs c) 16384) table.now) }
    ensures entry { result ≡ slice_index_or table.now place (pos 0) }
    ensures size { unsigned_abs result ≤ 16384 }
{
    table[place]
}

/// The same all around the circle.
pub fn cosine(angle: u8) -> i32
    requires { angle < 128 }
    ensures value { result ≡ cosine_of angle }
    ensures size { unsigned_abs result ≤ 16384 }
{
    constant_in(&COSINES, angle as usize)
}

/// The four constants of the ADST of 4, k from 1 to 4.
pub fn sinpi(k: u8) -> i32
    requires least { 1 ≤ k }
    requires most { k ≤ 4 }
    ensures entry { result ≡ slice_index_or SINPI (k - 1) (pos 0) }
    ensures size { unsigned_abs result ≤ 16384 }
{
    constant_in(&SINPI, k as usize - 1)
}

/// The cosines begin, pass the middle and end as they must, fall, and each with the sine beside it lies on the circle
/// but for rounding. The constants of the ADST of 4 are these.
pub fn constants_of_transforms()
    ensures ends { (cos64 0 ≡ pos 16384) × (cos64 16 ≡ pos 11585) × (cos64 32 ≡ pos 0) }
    ensures falls { IsTrue (list_all (λ k. int_lt (cos64 (k + 1)) (cos64 k)) (range_with_len 0 32)) }
    ensures circle { IsTrue (list_all is_on_circle (range_with_len 0 33)) }
    ensures sines { SINPI ≡ pos 5283 ∷ pos 9929 ∷ pos 13377 ∷ pos 15212 ∷ [] }
{}

/// The steps of a DCT.
pub fn dct_flow(size: TxSize) -> &'static [FlowRow]
    ensures table { result.now ≡ dct_of size }
    ensures within { IsTrue (is_flow (side size) result.now) }
{
    match size {
        TxSize::T4x4 => &FLOW_DCT_4,
        TxSize::T8x8 => &FLOW_DCT_8,
        TxSize::T16x16 => &FLOW_DCT_16,
        TxSize::T32x32 => &FLOW_DCT_32,
    }
}

/// The steps of the ADST of 8.
pub fn adst_8_flow() -> &'static [FlowRow]
    ensures table { result.now ≡ FLOW_ADST_8 }
    ensures within { IsTrue (is_flow 8 result.now) }
{
    &FLOW_ADST_8
}

/// The steps of the ADST of 16.
pub fn adst_16_flow() -> &'static [FlowRow]
    ensures table { result.now ≡ FLOW_ADST_16 }
    ensures within { IsTrue (is_flow 16 result.now) }
{
    &FLOW_ADST_16
}
