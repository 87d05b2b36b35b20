//! Counts that no one would choose: want of memory is no answer to them.

use bool_encoder::BoolEncoder;
use container_writer::{write_header, write_packet};
use md5::{Digest, Md5};
use std::test::Fail;

// The digest of 13,777 bytes, as tools/vectors.py bool_writings has it.
const MANY_BOOLS: [u8; 16] = [
    0xe8, 0x47, 0x12, 0xa7, 0x8c, 0xde, 0x60, 0xc2, 0xae, 0x4f, 0x85, 0xbb, 0x30, 0x30, 0xdf, 0x31,
];

#[test]
fn many_bools(rt: HostRuntime) -> Result<(), Fail> {
    let mut encoder = BoolEncoder::new(rt.alloc());
    for k in 0..77_777u32 {
        encoder.bit((1 + k % 255) as u8, k % 7 == 0)?;
    }
    let bytes = encoder.finish()?;
    assert_eq!(rt; bytes.len(), 13_777);
    assert!(rt; Md5::digest(bytes.as_slice()) == MANY_BOOLS);
    Ok(())
}

// Packets of 7,777 bytes, with 12 before each.
#[test]
fn many_packets(rt: HostRuntime) -> Result<(), Fail> {
    let mut file = Vec::new(rt.alloc());
    write_header(&mut file, 520, 136, 30, 1, 79)?;
    for n in 0..79u64 {
        write_packet(&mut file, n, &[7; 7777])?;
    }
    assert_eq!(rt; file.len(), 615_363);
    Ok(())
}
