ghost use Rattle.std.specs.Prelude.{◌≡◌, ◌≤◌, ℕ, IfOk, length, map, replicate};

use std::alloc::{AllocError, Global};

/// A sample as a plane keeps it: one byte where the depth is 8, two bytes at any depth.
pub trait Sample: Copy {
    /// The number that it stands for.
    ghost value: { Self → ℕ };

    /// The greatest number that it can stand for.
    ghost greatest: { ℕ };

    /// So many zeros.
    fn zeros(alloc: Global, count: usize) -> Result<Vec<Self>, AllocError>
        ensures long { IfOk result (λ v. length v.items ≡ count) }
        ensures zero { IfOk result (λ v. map value v.items ≡ replicate count 0) };

    /// Makes all of them zeros.
    fn clear(samples: &mut [Self])
        ensures long { length samples.new ≡ length samples.old }
        ensures zero { map value samples.new ≡ replicate (length samples.old) 0 };

    /// Its number.
    fn widen(self) -> u16
        ensures { result ≡ value self };

    /// The sample of a number.
    fn narrow(number: u16) -> Self
        requires { number ≤ greatest }
        ensures { value result ≡ number };
}

impl Sample for u8 {
    ghost value = { λ n. n };

    ghost greatest = { 255 };

    fn zeros(alloc: Global, count: usize) -> Result<Vec<u8>, AllocError> {
        Vec::from_elem(alloc, 0, count)
    }

    fn clear(samples: &mut [u8]) {
        samples.fill(0);
    }

    #[inline(always)]
    fn widen(self) -> u16 {
        u16::from(self)
    }

    #[inline(always)]
    fn narrow(number: u16) -> u8 {
        number as u8
    }
}

impl Sample for u16 {
    ghost value = { λ n. n };

    ghost greatest = { 65535 };

    fn zeros(alloc: Global, count: usize) -> Result<Vec<u16>, AllocError> {
        Vec::from_elem(alloc, 0, count)
    }

    fn clear(samples: &mut [u16]) {
        samples.fill(0);
    }

    #[inline(always)]
    fn widen(self) -> u16 {
        self
    }

    #[inline(always)]
    fn narrow(number: u16) -> u16 {
        number
    }
}
