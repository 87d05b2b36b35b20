//! The mean of two predictions.

ghost use Rattle.std.specs.Prelude.{◌≡◌, ℕ, ◌<◌, ◌≤◌, length, map, slice_index};
ghost use Rattle.inter_predict.specs.InterSamples.{average};

use crate::kept::{put_at, sample_at};
use tap_filter::FilterSample;

/// Makes the first so many samples of a block the rounded means of them and of another's.
pub fn average<P: FilterSample>(block: &mut [P], other: &[P], count: usize)
    requires room { count ≤ length block.old }
    requires enough { count ≤ length other.now }
    ensures value { (k : ℕ) → k < count → slice_index (map P.value block.new) k ≡ average (slice_index (map P.value block.old) k) (slice_index (map P.value other.now) k) }
    ensures after { (k : ℕ) → count ≤ k → slice_index (map P.value block.new) k ≡ slice_index (map P.value block.old) k }
{
    for k in 0..count {
        let mean = sample_at(block, k).mean(sample_at(other, k));
        put_at(block, k, mean);
    }
}
