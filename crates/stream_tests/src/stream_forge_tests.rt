//! Files that were made by another decoder's generator from the same rule: their digests.

use listed_frames::stream_forge::make_stream;
use md5::{Digest, Md5};
use std::alloc::Global;
use std::test::Fail;

/// Whether the file of so many frames has a digest.
fn is_made(alloc: Global, number: u32, frames: u32, digest: [u8; 16]) -> bool {
    match make_stream(alloc, number, frames) {
        Ok(file) => Md5::digest(file.as_slice()) == digest,
        Err(_) => false,
    }
}

#[test]
fn one_key_frame(rt: HostRuntime) -> Result<(), Fail> {
    let digest = [
        0x50, 0x8a, 0xf1, 0xd7, 0x22, 0xb0, 0xf9, 0x23, 0xe6, 0x18, 0x3f, 0x11, 0x39, 0xcf, 0x3e,
        0xf2,
    ];
    assert!(rt; is_made(rt.alloc(), 7, 1, digest));
    Ok(())
}

#[test]
fn forty_frames_of_all_kinds(rt: HostRuntime) -> Result<(), Fail> {
    let digest = [
        0x7b, 0x8a, 0x3e, 0xd6, 0xd1, 0x8d, 0x86, 0x41, 0x35, 0xd1, 0x2c, 0x04, 0x19, 0x4d, 0xd4,
        0x5c,
    ];
    assert!(rt; is_made(rt.alloc(), 7, 40, digest));
    Ok(())
}
