//! Bytes as one number, the first byte being the highest.

ghost use Rattle.std.specs.Prelude.{◌≡◌, ℕ, ◌+◌, ◌-◌, ◌*◌, ◌/◌, ◌%◌, ◌^◌, ◌<◌, ◌≤◌, length, ◌++◌, IfOk, OnErr, Ok};
ghost use Rattle.bool_encoder.specs.Code.{be_number};
ghost use Rattle.vp9_types.specs.Bits.{bits_of, spelled};

use std::alloc::AllocError;

/// Adds one to the number.
fn carry(bytes: &mut [u8])
    requires { be_number bytes.old + 1 < 2 ^ (8 * length bytes.old) }
    ensures { be_number bytes.new ≡ be_number bytes.old + 1 }
{
    let mut at = bytes.len();
    while 0 < at && bytes[at - 1] == 255 {
        at -= 1;
        bytes[at] = 0;
    }
    if 0 < at {
        bytes[at - 1] += 1;
    }
}

/// Adds to the number of the bytes and of `held` bits behind them. The answer is those bits.
pub(crate) fn added(bytes: &mut [u8], low: u32, held: u32, split: u32) -> u32
    requires low { low < 2 ^ held }
    requires least { 8 ≤ held }
    requires most { held ≤ 15 }
    requires split { split < 256 }
    requires fits { be_number bytes.old * 2 ^ held + low + split < 2 ^ (8 * length bytes.old + held) }
    ensures number { be_number bytes.new * 2 ^ held + result ≡ be_number bytes.old * 2 ^ held + low + split }
    ensures low { result < 2 ^ held }
{
    let sum = low + split;
    if sum < 1 << held {
        return sum;
    }
    carry(bytes);
    sum - (1 << held)
}

/// Moves a byte of the held bits behind the bytes, where they are 16 or more. The answer is the bits that are still held.
pub(crate) fn spill(bytes: &mut Vec<u8>, low: u32, held: u32) -> Result<(u32, u32), AllocError>
    requires low { low < 2 ^ held }
    requires least { 8 ≤ held }
    requires most { held ≤ 22 }
    ensures number { IfOk result (λ r. be_number bytes.new.items * 2 ^ r.1 + r.0 ≡ be_number bytes.old.items * 2 ^ held + low) }
    ensures length { IfOk result (λ r. 8 * length bytes.new.items + r.1 ≡ 8 * length bytes.old.items + held) }
    ensures low { IfOk result (λ r. r.0 < 2 ^ r.1) }
    ensures least { IfOk result (λ r. 8 ≤ r.1) }
    ensures most { IfOk result (λ r. r.1 ≤ 15) }
    ensures same { OnErr result (bytes.new.items ≡ bytes.old.items) }
{
    if held < 16 {
        return Ok((low, held));
    }
    let kept = held - 8;
    bytes.push((low >> kept) as u8)?;
    Ok((low % (1 << kept), kept))
}

/// Puts the held bits behind the bytes, and 0 bits to the end of a byte.
pub(crate) fn close(bytes: &mut Vec<u8>, low: u32, held: u32) -> Result<(), AllocError>
    requires low { low < 2 ^ held }
    requires least { 8 ≤ held }
    requires most { held ≤ 22 }
    requires fits { be_number bytes.old.items * 2 ^ held + low < 2 ^ (8 * length bytes.old.items + held) }
    ensures { IfOk result (λ _. bits_of bytes.new.items ≡
        spelled (8 * length bytes.old.items + held) (be_number bytes.old.items * 2 ^ held + low) ++ spelled (8 * ((held + 7) / 8) - held) 0) }
{
    let last = (low << (32 - held)).to_be_bytes();
    let count = (held as usize + 7) / 8;
    bytes.extend_from_slice(&last[..count])?;
    Ok(())
}
