//! Samples by the numbers that they stand for.

ghost use Rattle.std.specs.Prelude.{◌≡◌, ℕ, ◌+◌, ◌*◌, ◌<◌, ◌≤◌, length, map, slice_index};

use vp9_types::Sample;

/// The sample at a place.
#[inline(always)]
pub(crate) fn sample_at<P: Sample>(samples: &[P], at: usize) -> P
    requires { at < length samples.now }
    ensures { P.value result ≡ slice_index (map P.value samples.now) at }
{
    samples[at]
}

/// Puts a sample at a place.
#[inline(always)]
pub(crate) fn put_at<P: Sample>(samples: &mut [P], at: usize, sample: P)
    requires { at < length samples.old }
    ensures put { slice_index (map P.value samples.new) at ≡ P.value sample }
    ensures before { (k : ℕ) → k < at → slice_index (map P.value samples.new) k ≡ slice_index (map P.value samples.old) k }
    ensures after { (k : ℕ) → at < k → slice_index (map P.value samples.new) k ≡ slice_index (map P.value samples.old) k }
{
    samples[at] = sample;
}

/// Puts one sample at all places from `from` to `end`.
#[inline(always)]
pub(crate) fn fill_part<P: Sample>(out: &mut [P], from: usize, end: usize, sample: P)
    requires order { from ≤ end }
    requires room { end ≤ length out.old }
    ensures put { (k : ℕ) → from ≤ k → k < end → slice_index (map P.value out.new) k ≡ P.value sample }
    ensures before { (k : ℕ) → k < from → slice_index (map P.value out.new) k ≡ slice_index (map P.value out.old) k }
    ensures after { (k : ℕ) → end ≤ k → slice_index (map P.value out.new) k ≡ slice_index (map P.value out.old) k }
{
    for k in from..end {
        put_at(out, k, sample);
    }
}

/// Puts n samples from a place on, which follow one another in others.
#[inline(always)]
pub(crate) fn copy_part<P: Sample>(out: &mut [P], at: usize, samples: &[P], from: usize, n: usize)
    requires room { at + n ≤ length out.old }
    requires enough { from + n ≤ length samples.now }
    ensures put { (k : ℕ) → k < n → slice_index (map P.value out.new) (at + k) ≡ slice_index (map P.value samples.now) (from + k) }
    ensures before { (k : ℕ) → k < at → slice_index (map P.value out.new) k ≡ slice_index (map P.value out.old) k }
    ensures after { (k : ℕ) → at + n ≤ k → slice_index (map P.value out.new) k ≡ slice_index (map P.value out.old) k }
{
    out[at..at + n].copy_from_slice(&samples[from..from + n]);
}

/// The numbers of as many samples.
#[inline(always)]
fn widen_all<P: Sample>(out: &mut [u16], samples: &[P])
    requires { length out.old ≡ length samples.now }
    ensures { (k : ℕ) → k < length samples.now → slice_index out.new k ≡ slice_index (map P.value samples.now) k }
{
    for k in 0..samples.len() {
        out[k] = sample_at(samples, k).widen();
    }
}

/// Puts the numbers of n samples from a place on, which follow one another.
#[inline(always)]
pub(crate) fn widen_part<P: Sample>(
    out: &mut [u16],
    at: usize,
    samples: &[P],
    from: usize,
    n: usize,
)
    requires room { at + n ≤ length out.old }
    requires enough { from + n ≤ length samples.now }
    ensures put { (k : ℕ) → k < n → slice_index out.new (at + k) ≡ slice_index (map P.value samples.now) (from + k) }
    ensures before { (k : ℕ) → k < at → slice_index out.new k ≡ slice_index out.old k }
    ensures after { (k : ℕ) → at + n ≤ k → slice_index out.new k ≡ slice_index out.old k }
{
    widen_all(&mut out[at..at + n], &samples[from..from + n]);
}
