// Files of real sizes, and of many frames: want of memory is never their answer.

use crate::files::{GREY_1_BY_1, decodes_to_grey, decodes_to_grey_as, run_frames};
use std::test::Fail;
use vp9_app::Status;

// Key frames whose every bool is 0, so that each sample is grey: by tools/vectors.py grey.
const GREY_352_BY_288: &[u8] = b"\x83I\x83B\0\x15\xf0\x11\xf0\0\0\0\0\x04\0\0";

pub const GREY_130_BY_132: &[u8] = b"\x83I\x83B\0\x08\x10\x080\0\0\0\0\x04\0\0";

const GREY_1_BY_65536: &[u8] = b"\x83I\x83B\0\0\x0f\xff\xf0\0\0\0\0\x04\0\0";

const GREY_65536_BY_1: &[u8] =
    b"\x83I\x83B\x0f\xff\xf0\0\0\0\0\0\0\x02\0\0\0\0\x01\0\0\0\0\x01\0\0\0\0\x01\0\0\0\0\x01\0\0\0\0\
\x01\0\0\0\0\x01\0\0\0\0\x01\0\0\0\0\x01\0\0\0\0\x01\0\0\0\0\x01\0\0\0\0\x01\0\0\0\0\x01\0\0\0\0\
\x01\0\0\0\0\x01\0\0\0\0\x01\0\0";

#[test]
fn frames_of_352x288_are_decoded(rt: HostRuntime) -> Result<(), Fail> {
    assert!(rt; decodes_to_grey(&rt, rt.alloc(), GREY_352_BY_288, 3, 456_192)?);
    Ok(())
}

#[test]
fn frames_of_130x132_are_decoded(rt: HostRuntime) -> Result<(), Fail> {
    assert!(rt; decodes_to_grey(&rt, rt.alloc(), GREY_130_BY_132, 2, 51_480)?);
    Ok(())
}

#[test]
fn a_column_of_65536_is_decoded(rt: HostRuntime) -> Result<(), Fail> {
    assert!(rt; decodes_to_grey(&rt, rt.alloc(), GREY_1_BY_65536, 2, 262_144)?);
    Ok(())
}

#[test]
fn ten_thousand_packets_are_decoded(rt: HostRuntime) -> Result<(), Fail> {
    assert!(rt; decodes_to_grey(&rt, rt.alloc(), GREY_1_BY_1, 10_000, 30_000)?);
    Ok(())
}

#[test]
fn ten_thousand_packets_are_decoded_by_64_workers(rt: HostRuntime) -> Result<(), Fail> {
    let crews: [&[&'static str]; 2] = [
        &["decode", "--workers", "64", "--window", "2"],
        &["decode", "--workers", "64", "--window", "16"],
    ];
    for words in crews {
        assert!(rt; decodes_to_grey_as(&rt, rt.alloc(), words, GREY_1_BY_1, 10_000, 30_000)?);
    }
    Ok(())
}

// A row of so many samples has 16 tiles.
#[test]
fn a_row_of_65536_is_decoded(rt: HostRuntime) -> Result<(), Fail> {
    assert!(rt; decodes_to_grey(&rt, rt.alloc(), GREY_65536_BY_1, 2, 262_144)?);
    Ok(())
}

#[test]
fn many_frames_are_listed(rt: HostRuntime) -> Result<(), Fail> {
    let mut text = String::new(rt.alloc());
    for frame in 0..100_000u32 {
        writeln!(
            text,
            "frame {frame}: key 1x1 profile 0 depth 8 ss 11 show 1 refresh ff q 0 level 0 tiles 1x1 size 16"
        )?;
    }
    let ran = run_frames(&rt, rt.alloc(), &["list"], GREY_1_BY_1, 100_000)?;
    assert!(rt; ran.status != Status::OutOfMemory);
    assert_eq!(rt; ran.status, Status::Done);
    assert!(rt; ran.out.bytes() == text.as_bytes());
    Ok(())
}

#[test]
fn a_row_of_65536_is_listed(rt: HostRuntime) -> Result<(), Fail> {
    let ran = run_frames(&rt, rt.alloc(), &["list"], GREY_65536_BY_1, 1)?;
    assert!(rt; ran.status != Status::OutOfMemory);
    let line =
        b"frame 0: key 65536x1 profile 0 depth 8 ss 11 show 1 refresh ff q 0 level 0 tiles 16x1 size 91\n";
    assert_eq!(rt; ran.out.bytes(), line.as_slice());
    Ok(())
}
