//! Runs of filtered values.

ghost use Rattle.std.specs.Prelude.{◌≡◌, ℕ, ℤ, ◌+◌, ◌*◌, ◌^◌, ◌/◌, ◌<◌, ◌≤◌, length, slice_index};
ghost use Rattle.tap_filter.specs.Filter.{filtered};

use crate::taps::TapLanes;

/// So many filtered values, sixteen at a time: for the value at place j tap k stands at `from + k * step + j`. In
/// rows of n samples that lie one after another a step of n filters down their columns.
#[inline(always)]
pub fn filter_run(
    out: &mut [u16],
    count: usize,
    samples: &[u16],
    from: usize,
    step: usize,
    taps: &TapLanes,
    most: u16,
)
    requires few { count ≤ 4096 }
    requires sixteens { count ≡ 16 * (count / 16) }
    requires room { count ≤ length out.old }
    requires near { from ≤ 65536 }
    requires narrow { step ≤ 64 }
    requires enough { from + count + 7 * step ≤ length samples.now }
    requires small { (k : ℕ) → slice_index samples.now k ≤ 4095 }
    ensures value { (j : ℕ) → j < count → slice_index out.new j ≡ filtered most taps.now (λ k. slice_index samples.now (from + k * step + j)) }
    ensures after { (j : ℕ) → count ≤ j → slice_index out.new j ≡ slice_index out.old j }
{
    for b in 0..count / 16 {
        let at = 16 * b;
        let values = taps.filter_sixteen(samples, from + at, step, most);
        out[at..at + 16].copy_from_slice(&values);
    }
}

/// n values filtered along a row, from a place on: tap k stands k places after a value's own. So many samples are read as
/// the next multiple of sixteen would take.
#[inline(always)]
pub fn filter_line(
    out: &mut [u16],
    n: usize,
    samples: &[u16],
    from: usize,
    taps: &TapLanes,
    most: u16,
)
    requires few { n ≤ 64 }
    requires room { n ≤ length out.old }
    requires near { from ≤ 65536 }
    requires enough { from + 16 * ((n + 15) / 16) + 7 ≤ length samples.now }
    requires small { (k : ℕ) → slice_index samples.now k ≤ 4095 }
    ensures value { (j : ℕ) → j < n → slice_index out.new j ≡ filtered most taps.now (λ k. slice_index samples.now (from + (j + k))) }
    ensures after { (j : ℕ) → n ≤ j → slice_index out.new j ≡ slice_index out.old j }
{
    for b in 0..n / 16 {
        let at = 16 * b;
        let values = taps.filter_along(samples, from + at, most);
        out[at..at + 16].copy_from_slice(&values);
    }
    let whole = 16 * (n / 16);
    if n - whole > 8 {
        let values = taps.filter_along(samples, from + whole, most);
        out[whole..n].copy_from_slice(&values[..n - whole]);
    } else if n - whole == 8 {
        let values = taps.filter_eight_along(samples, from + whole, most);
        out[whole..whole + 8].copy_from_slice(&values);
    } else if whole < n {
        let values = taps.filter_eight_along(samples, from + whole, most);
        out[whole..n].copy_from_slice(&values[..n - whole]);
    }
}
