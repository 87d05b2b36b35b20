//! Filtered values of samples of one byte: their sums have room in sixteen bits.

ghost use Rattle.std.specs.Prelude.{◌≡◌, ℕ, ◌+◌, ◌-◌, ◌*◌, ◌/◌, ◌^◌, ◌<◌, ◌≤◌, pos, ◌+ℤ◌, slice_index, length};
ghost use Rattle.std.specs.Int.{int_shr};
ghost use Rattle.vp9_types.specs.Sizes.{clip};
ghost use Rattle.tap_filter.specs.Filter.{filtered};
ghost use Rattle.vp9_tables.specs.Filters.{AreTaps};

/// The byte of a sum that was begun 128 whole samples below its half.
#[inline(always)]
fn byte_of(sum: i16) -> u8
    ensures { result ≡ clip 255 (int_shr sum 7 +ℤ pos 128) }
{
    ((sum >> 7).max(-128).min(127) + 128) as u8
}

/// One filtered value, tap k standing k * step places after the first.
#[inline(always)]
fn filtered_byte(samples: &[u8], place: usize, step: usize, taps: &[i16; 8]) -> u8
    requires near { place ≤ 2 ^ 18 }
    requires narrow { step ≤ 64 }
    requires room { place + 7 * step < length samples.now }
    requires taps { AreTaps taps.now }
    ensures { result ≡ filtered 255 taps.now (λ k. slice_index samples.now (place + k * step)) }
{
    let mut sum = 64 - 16384;
    for k in 0..8usize {
        sum += taps[k] * i16::from(samples[place + k * step]);
    }
    byte_of(sum)
}

/// Sixteen filtered values.
#[inline(always)]
pub(crate) fn filtered_bytes(samples: &[u8], place: usize, step: usize, taps: &[i16; 8]) -> [u8; 16]
    requires near { place ≤ 2 ^ 17 }
    requires narrow { step ≤ 64 }
    requires room { place + 7 * step + 16 ≤ length samples.now }
    requires taps { AreTaps taps.now }
    ensures { (j : ℕ) → j < 16 → slice_index result j ≡ filtered 255 taps.now (λ k. slice_index samples.now (place + k * step + j)) }
{
    let mut values = [0; 16];
    for j in 0..16usize {
        values[j] = filtered_byte(samples, place + j, step, taps);
    }
    values
}

/// Sixteen values filtered along a row.
#[inline(always)]
fn bytes_along(samples: &[u8], place: usize, taps: &[i16; 8]) -> [u8; 16]
    requires near { place ≤ 2 ^ 17 }
    requires room { place + 23 ≤ length samples.now }
    requires taps { AreTaps taps.now }
    ensures { (j : ℕ) → j < 16 → slice_index result j ≡ filtered 255 taps.now (λ k. slice_index samples.now (place + (j + k))) }
{
    filtered_bytes(samples, place, 1, taps)
}

/// The bytes of numbers.
#[inline(always)]
pub(crate) fn bytes_of(numbers: &[u16; 71]) -> [u8; 71]
    requires { (k : ℕ) → slice_index numbers.now k ≤ 255 }
    ensures { (k : ℕ) → slice_index result k ≡ slice_index numbers.now k }
{
    let mut bytes = [0; 71];
    for k in 0..71usize {
        bytes[k] = numbers[k] as u8;
    }
    bytes
}

/// So many filtered values.
#[inline(always)]
fn byte_run(out: &mut [u8], count: usize, samples: &[u8], from: usize, step: usize, taps: &[i16; 8])
    requires few { count ≤ 4096 }
    requires sixteens { count ≡ 16 * (count / 16) }
    requires room { count ≤ length out.old }
    requires near { from ≤ 65536 }
    requires narrow { step ≤ 64 }
    requires enough { from + count + 7 * step ≤ length samples.now }
    requires taps { AreTaps taps.now }
    ensures value { (j : ℕ) → j < count → slice_index out.new j ≡ filtered 255 taps.now (λ k. slice_index samples.now (from + k * step + j)) }
    ensures after { (j : ℕ) → count ≤ j → slice_index out.new j ≡ slice_index out.old j }
{
    for b in 0..count / 16 {
        let at = 16 * b;
        let values = filtered_bytes(samples, from + at, step, taps);
        out[at..at + 16].copy_from_slice(&values);
    }
}

/// So many filtered values, as `filter_run` does, of samples of one byte.
#[inline(always)]
pub fn filter_byte_run(
    out: &mut [u8],
    count: usize,
    samples: &[u8],
    from: usize,
    step: usize,
    taps: &[i16; 8],
)
    requires few { count ≤ 4096 }
    requires sixteens { count ≡ 16 * (count / 16) }
    requires room { count ≤ length out.old }
    requires near { from ≤ 65536 }
    requires narrow { step ≤ 64 }
    requires enough { from + count + 7 * step ≤ length samples.now }
    requires taps { AreTaps taps.now }
    ensures value { (j : ℕ) → j < count → slice_index out.new j ≡ filtered 255 taps.now (λ k. slice_index samples.now (from + k * step + j)) }
    ensures after { (j : ℕ) → count ≤ j → slice_index out.new j ≡ slice_index out.old j }
{
    // The steps of narrow blocks are then known where this is compiled.
    if step == 8 {
        byte_run(out, count, samples, from, 8, taps);
    } else if step == 4 {
        byte_run(out, count, samples, from, 4, taps);
    } else {
        byte_run(out, count, samples, from, step, taps);
    }
}

/// Puts the first so many of sixteen values at a place.
#[inline(always)]
fn put_first(out: &mut [u8], at: usize, count: usize, values: &[u8; 16])
    requires few { count ≤ 16 }
    requires near { at ≤ 65536 }
    requires room { at + count ≤ length out.old }
    ensures put { (k : ℕ) → at ≤ k → k < at + count → slice_index out.new k ≡ slice_index values.now (k - at) }
    ensures before { (k : ℕ) → k < at → slice_index out.new k ≡ slice_index out.old k }
    ensures after { (k : ℕ) → at + count ≤ k → slice_index out.new k ≡ slice_index out.old k }
{
    // The numbers of values that are frequent are then known where this is compiled.
    if count == 8 {
        out[at..at + 8].copy_from_slice(&values[..8]);
    } else if count == 4 {
        out[at..at + 4].copy_from_slice(&values[..4]);
    } else {
        out[at..at + count].copy_from_slice(&values[..count]);
    }
}

/// n values filtered along a row, as `filter_line` does, of samples of one byte.
#[inline(always)]
pub fn filter_byte_line(out: &mut [u8], n: usize, samples: &[u8], from: usize, taps: &[i16; 8])
    requires few { n ≤ 64 }
    requires room { n ≤ length out.old }
    requires near { from ≤ 65536 }
    requires enough { from + 16 * ((n + 15) / 16) + 7 ≤ length samples.now }
    requires taps { AreTaps taps.now }
    ensures value { (j : ℕ) → j < n → slice_index out.new j ≡ filtered 255 taps.now (λ k. slice_index samples.now (from + (j + k))) }
    ensures after { (j : ℕ) → n ≤ j → slice_index out.new j ≡ slice_index out.old j }
{
    for b in 0..n / 16 {
        let at = 16 * b;
        let values = bytes_along(samples, from + at, taps);
        out[at..at + 16].copy_from_slice(&values);
    }
    let whole = 16 * (n / 16);
    if whole < n {
        let values = bytes_along(samples, from + whole, taps);
        put_first(out, whole, n - whole, &values);
    }
}
