//! Sums of bytes.

ghost use Rattle.std.specs.Prelude.{◌≡◌};
ghost use Rattle.stream_trial.specs.TrialLines.{sum_of, sum_with};

/// The sum behind one more byte.
fn sum_with(sum: u64, byte: u8) -> u64
    ensures { result ≡ sum_with sum byte }
{
    sum.wrapping_mul(6364136223846793005)
        .wrapping_add(u64::from(byte))
        .wrapping_add(1)
}

/// The sum of bytes.
pub(crate) fn sum_of(bytes: &[u8]) -> u64
    ensures { result ≡ sum_of bytes.now }
{
    let mut sum = 0;
    for i in 0..bytes.len() {
        sum = sum_with(sum, bytes[i]);
    }
    sum
}
