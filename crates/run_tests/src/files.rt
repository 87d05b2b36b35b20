//! Files of many frames that are the same.

use crate::runs::{MemRan, NONE, run_words};
use std::alloc::{AllocError, Global};
use std::sync::Wait;
use std::thread::Threads;
use vp9_app::Status;

/// A key frame whose every bool is 0, so that its sample is grey.
pub const GREY_1_BY_1: &[u8] = b"\x83I\x83B\0\0\0\0\0\0\0\0\0\x04\0\0";

/// Puts a packet behind a file for each frame.
pub fn put_packets(file: &mut Vec<u8>, frame: &[u8], count: u32) -> Result<(), AllocError> {
    for _ in 0..count {
        file.extend_from_slice(&(frame.len() as u64).to_le_bytes()[..4])?;
        file.extend_from_slice(&[0; 8])?;
        file.extend_from_slice(frame)?;
    }
    Ok(())
}

/// An IVF file of so many packets of the same frame.
pub fn file_of(alloc: Global, frame: &[u8], count: u32) -> Result<Vec<u8>, AllocError> {
    let mut file = Vec::new(alloc);
    file.extend_from_slice(b"DKIF\0\0 \0VP90")?;
    file.extend_from_slice(&[0; 20])?;
    put_packets(&mut file, frame, count)?;
    Ok(file)
}

/// What words do with such a file.
pub fn run_frames<R: Threads + Wait + Sync>(
    rt: &R,
    alloc: Global,
    words: &[&'static str],
    frame: &[u8],
    count: u32,
) -> Result<MemRan, AllocError> {
    let file = file_of(alloc, frame, count)?;
    run_words(rt, alloc, words, &file, &NONE)
}

/// Whether bytes are so many grey samples.
pub fn are_grey(bytes: &[u8], samples: usize) -> bool {
    bytes.len() == samples && bytes.iter().all(|byte| *byte == 0x80)
}

/// Whether these words decode so many of such frames, to so many grey samples.
pub fn decodes_to_grey_as<R: Threads + Wait + Sync>(
    rt: &R,
    alloc: Global,
    words: &[&'static str],
    frame: &[u8],
    count: u32,
    samples: usize,
) -> Result<bool, AllocError> {
    let ran = run_frames(rt, alloc, words, frame, count)?;
    Ok(
        ran.status != Status::OutOfMemory
            && ran.status == Status::Done
            && are_grey(ran.out.bytes(), samples),
    )
}

/// Whether so many of such frames are decoded, to so many grey samples.
pub fn decodes_to_grey<R: Threads + Wait + Sync>(
    rt: &R,
    alloc: Global,
    frame: &[u8],
    count: u32,
    samples: usize,
) -> Result<bool, AllocError> {
    decodes_to_grey_as(rt, alloc, &["decode"], frame, count, samples)
}
