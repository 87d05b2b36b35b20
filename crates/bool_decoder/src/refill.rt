//! The window's supply of bytes, as functions of numbers and slices.

ghost use Rattle.std.specs.Prelude.{◌≡◌, ℕ, ◌+◌, ◌-◌, ◌*◌, ◌/◌, ◌%◌, ◌^◌, ◌<◌, ◌≤◌, length, drop, slice_index};
ghost use Rattle.bool_decoder.specs.Ahead.{bits_ahead, front_bytes};
ghost use Rattle.bool_decoder.specs.Window.{trimmed};

/// How many bytes a refill brings.
const REFILL: usize = 6;

/// The first byte, or 0 where there is none; and the bytes after it.
fn first_byte(bytes: &[u8]) -> (u8, &[u8])
    ensures byte { result.0 ≡ slice_index bytes.now 0 }
    ensures rest { result.1.now ≡ drop 1 bytes.now }
{
    match bytes.split_first() {
        Some((first, rest)) => (*first, rest),
        None => (0, bytes),
    }
}

/// The first six bytes as a number, the first byte being the highest, with zeros past the end; and the bytes after them.
fn six_bytes(bytes: &[u8]) -> (u64, &[u8])
    ensures number { result.0 ≡ front_bytes 6 bytes.now }
    ensures rest { result.1.now ≡ drop 6 bytes.now }
{
    if let Some(eight) = bytes.first_chunk::<8>() {
        return (u64::from_be_bytes(*eight) >> 16, &bytes[REFILL..]);
    }
    let mut number = 0u64;
    let mut rest = bytes;
    for _ in 0..REFILL {
        let (byte, others) = first_byte(rest);
        number = 256 * number + u64::from(byte);
        rest = others;
    }
    (number, rest)
}

/// A window of `count` bits with six more bytes, and the bytes after them. It is called once for 48 bits.
pub(crate) fn filled(window: u64, count: u32, bytes: &[u8]) -> (u64, u32, &[u8])
    requires room { count ≤ 16 }
    requires clean { window % 2 ^ (64 - count) ≡ 0 }
    ensures count { result.1 ≡ count + 48 }
    ensures clean { result.0 % 2 ^ (64 - result.1) ≡ 0 }
    ensures top { 8 ≤ count → result.0 / 2 ^ 56 ≡ window / 2 ^ 56 }
    ensures ahead { trimmed (bits_ahead result.0 result.1 result.2.now) ≡ trimmed (bits_ahead window count bytes.now) }
{
    let (six, rest) = six_bytes(bytes);
    (window + (six << (16 - count)), count + 48, rest)
}
