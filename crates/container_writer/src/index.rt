//! Superframe indexes (Annex B of the standard).

ghost use Rattle.std.specs.Prelude.{◌≡◌, ◌≤◌, ◌++◌, max, length, take, IfOk, OnErr};
ghost use Rattle.byteorder.specs.Endian.{little_bytes};
ghost use Rattle.container_writer.specs.Indexes.{greatest, width_of, size_list, index_by, index_bytes};

use std::alloc::AllocError;

/// The marker 110 of an index, in the three highest bits of its first and last byte.
const MARKER: u8 = 0xc0;

fn larger(a: u32, b: u32) -> u32
    ensures { result ≡ max a b }
{
    if a < b { b } else { a }
}

fn greatest_of(sizes: &[u32]) -> u32
    ensures { result ≡ greatest sizes.now }
{
    let mut most = 0;
    for i in 0..sizes.len() {
        most = larger(most, sizes[i]);
    }
    most
}

fn bytes_of(size: u32) -> u8
    ensures value { result ≡ width_of size }
    ensures least { 1 ≤ result }
    ensures most { result ≤ 4 }
{
    if size < 0x100 {
        return 1;
    }
    if size < 0x1_0000 {
        return 2;
    }
    if size < 0x100_0000 {
        return 3;
    }
    4
}

/// Puts a size in so many bytes, the lowest first. After want of memory all is as it was.
#[tactic(auto, using(crate::proofs::WrittenIndexes::low_bytes_of))]
fn put_size(out: &mut Vec<u8>, size: u32, width: u8) -> Result<(), AllocError>
    requires least { 1 ≤ width }
    requires most { width ≤ 4 }
    ensures put { IfOk result (λ _. out.new.items ≡ out.old.items ++ little_bytes width size) }
    ensures same { OnErr result (out.new.items ≡ out.old.items) }
{
    let bytes = size.to_le_bytes();
    out.extend_from_slice(&bytes[..usize::from(width)])?;
    Ok(())
}

/// Puts each size in as many bytes, the lowest first. After want of memory some may be there.
fn put_sizes(out: &mut Vec<u8>, sizes: &[u32], width: u8) -> Result<(), AllocError>
    requires least { 1 ≤ width }
    requires most { width ≤ 4 }
    ensures put { IfOk result (λ _. out.new.items ≡ out.old.items ++ size_list width sizes.now) }
    ensures front { take (length out.old.items) out.new.items ≡ out.old.items }
{
    for i in 0..sizes.len() {
        put_size(out, sizes[i], width)?;
    }
    Ok(())
}

/// Puts an index whose sizes have so many bytes each. After want of memory some of it may be there.
fn put_index(out: &mut Vec<u8>, sizes: &[u32], width: u8) -> Result<(), AllocError>
    requires some { 1 ≤ length sizes.now }
    requires few { length sizes.now ≤ 8 }
    requires least { 1 ≤ width }
    requires most { width ≤ 4 }
    ensures put { IfOk result (λ _. out.new.items ≡ out.old.items ++ index_by width sizes.now) }
    ensures front { take (length out.old.items) out.new.items ≡ out.old.items }
{
    let header = MARKER + 8 * (width - 1) + (sizes.len() - 1) as u8;
    out.push(header)?;
    put_sizes(out, sizes, width)?;
    out.push(header)?;
    Ok(())
}

/// Puts the index of a payload with frames of these sizes behind what is there, each size in the least number of bytes
/// that all fit in. After want of memory all is as it was.
#[tactic(auto, unfolding(crate::specs::Indexes::index_bytes))]
pub fn write_index(out: &mut Vec<u8>, sizes: &[u32]) -> Result<(), AllocError>
    requires some { 1 ≤ length sizes.now }
    requires few { length sizes.now ≤ 8 }
    ensures put { IfOk result (λ _. out.new.items ≡ out.old.items ++ index_bytes sizes.now) }
    ensures same { OnErr result (out.new.items ≡ out.old.items) }
{
    let before = out.len();
    let width = bytes_of(greatest_of(sizes));
    if let Err(refused) = put_index(out, sizes, width) {
        out.truncate(before);
        return Err(refused);
    }
    Ok(())
}
