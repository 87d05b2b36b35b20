//! Digests of numbers.

ghost use Rattle.std.specs.Prelude.{◌≡◌, ◌+◌, ◌*◌, ◌%◌, ◌^◌};

/// A number that stands for those that were added in turn, each to 31 times the sum so far.
#[derive(Drop)]
pub struct Digest {
    sum: u64,
}

impl Digest {
    /// Of nothing.
    pub fn new() -> Self
        ensures { result.sum ≡ 0 }
    {
        Digest { sum: 0 }
    }

    /// Of what an earlier sum stands for.
    pub fn from_sum(sum: u64) -> Self
        ensures { result.sum ≡ sum }
    {
        Digest { sum }
    }

    pub fn add(&mut self, number: u64)
        ensures { self.new.sum ≡ (self.old.sum * 31 + number) % 2 ^ 64 }
    {
        self.sum = self.sum.wrapping_mul(31).wrapping_add(number);
    }

    /// Adds a number moved up by 65536, as those are that may be below 0.
    pub fn add_shifted(&mut self, number: u64) {
        self.add(number.wrapping_add(65536));
    }

    /// Adds a number moved up by 65536.
    pub fn add_signed(&mut self, number: i16) {
        self.add((i32::from(number) + 65536) as u64);
    }

    pub fn add_samples(&mut self, samples: &[u16]) {
        for sample in samples {
            self.add(u64::from(*sample));
        }
    }

    pub fn sum(&self) -> u64
        ensures { result ≡ self.now.sum }
    {
        self.sum
    }

    /// The sum of 32 bits.
    pub fn sum_32(&self) -> u32
        ensures { result ≡ self.now.sum % 2 ^ 32 }
    {
        (self.sum % (1 << 32)) as u32
    }
}
