//! A linear congruential generator.

ghost use Rattle.std.specs.Prelude.{◌≡◌, ◌<◌, ◌≤◌, ◌+◌, ◌*◌, ◌%◌, ◌^◌, ℕ, length, slice_index};

/// Draws numbers, each by the state behind the one before. Scripts that make expected values draw the same.
#[derive(Drop)]
pub struct Draws {
    state: u32,
}

impl Draws {
    /// What is drawn behind a seed.
    pub fn new(seed: u32) -> Self
        ensures { result.state ≡ seed }
    {
        Draws { state: seed }
    }

    /// All bits of the next state.
    pub fn word(&mut self) -> u32
        ensures state { self.new.state ≡ (self.old.state * 1664525 + 1013904223) % 2 ^ 32 }
        ensures value { result ≡ self.new.state }
    {
        self.state = self.state.wrapping_mul(1664525).wrapping_add(1013904223);
        self.state
    }

    /// The highest byte.
    pub fn byte(&mut self) -> u8 {
        (self.word() >> 24) as u8
    }

    /// A number below another one.
    pub fn below(&mut self, n: u32) -> u32
        requires { 0 < n }
        ensures { result < n }
    {
        (self.word() >> 16) % n
    }

    /// A sample of 0 to `most`.
    pub fn sample(&mut self, most: u16) -> u16
        ensures { result ≤ most }
    {
        self.below(u32::from(most) + 1) as u16
    }

    /// A sample that is 0 or `most`.
    pub fn extreme(&mut self, most: u16) -> u16
        ensures { result ≤ most }
    {
        if self.word() >= 1 << 31 { most } else { 0 }
    }

    /// Samples of 0 to `most`.
    pub fn fill(&mut self, samples: &mut [u16], most: u16)
        ensures { (k : ℕ) → slice_index samples.new k ≤ most }
    {
        for sample in samples.iter_mut() {
            *sample = self.sample(most);
        }
    }

    /// Samples that are 0 or `most`.
    pub fn fill_extreme(&mut self, samples: &mut [u16], most: u16)
        ensures { (k : ℕ) → slice_index samples.new k ≤ most }
    {
        for sample in samples.iter_mut() {
            *sample = self.extreme(most);
        }
    }

    /// Bytes with some bits always set; the first bit is 0.
    pub fn fill_bytes(&mut self, bytes: &mut [u8], ones: u8)
        ensures { length bytes.new ≡ length bytes.old }
    {
        for i in 0..bytes.len() {
            let byte = self.below(256) as u8 | ones;
            bytes[i] = if i == 0 { byte & 127 } else { byte };
        }
    }
}
