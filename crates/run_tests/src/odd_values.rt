// Values that no one would choose. What no contract can refuse is a needless want of memory: that a size, a count, a number or
// an option has a value is no reason for it.

use crate::files::{GREY_1_BY_1, decodes_to_grey, file_of, put_packets};
use crate::runs::{MemRan, NONE, run_words};
use md5::{Digest, Md5};
use std::alloc::{AllocError, Global};
use std::sync::Wait;
use std::test::Fail;
use std::thread::Threads;
use vp9_app::Status;

// Key frames whose every bool is 0, so that each sample is grey: by tools/vectors.py grey.
pub const GREY_4099_BY_3: &[u8] = b"\x83I\x83B\x01\0 \0 \0\0\0\0\x02\0\0\0\0\x01\0\0";

const GREY_60001_BY_1: &[u8] =
    b"\x83I\x83B\x0e\xa6\0\0\0\0\0\0\0\x02\0\0\0\0\x01\0\0\0\0\x01\0\0\0\0\x01\0\0\0\0\x01\0\0\0\0\
\x01\0\0\0\0\x01\0\0\0\0\x01\0\0\0\0\x01\0\0\0\0\x01\0\0\0\0\x01\0\0\0\0\x01\0\0\0\0\x01\0\0\0\0\
\x01\0\0\0\0\x01\0\0\0\0\x01\0\0";

// A packet of two such frames of 1x1, of which the first is hidden, and their index.
pub const HIDDEN_THEN_SHOWN: &[u8] =
    b"\x81I\x83B\0\0\0\0\0\0\0\0\0\x04\0\0\x83I\x83B\0\0\0\0\0\0\0\0\0\x04\0\0\xc1\x10\x10\xc1";

// A drawn key frame of 357x50 in 4:4:0, and the digest of what another decoder writes of it.
const KEY_440: &[u8] =
    b"DKIF\0\0 \0VP90e\x011\0\x1e\0\0\0\x01\0\0\0\x01\0\0\0\0\0\0\0\xf6\x01\0\0\0\0\0\0\0\0\0\0\xa2I\x83B\
\x04\x02\xc8\0`\xd0\x19\x88\0\x08\x80o\x9a\xe4\x0c\xae\x91\xb4\x9b\xc5V\x18\xd6\xe8\xa7\x83~\xab1\
\x83\x05s/Yr4\xb1\xd2:\xc6I:W\xef\x17;\xd3H\xe7o\xe0\x8a\xfb\x8a!\x97\xc6\xac$\xa5\xb9\x1e\xad\x83\
\xe4\xd2\xbb\xdb\xed\xae\xe0\xe9\xb5\xe4\xe3\x1f:0\0};\xa2\xb9\x81&\xfc\xc5\xfc\xad\xb3\06a\xca?J\
\x85\x04\xb6G\xb7\xbd~?\xf1\xd2\xbd\x14\xce\xb3\x15d\xce\xd8\xdf\x04P\x7f\xe9m\xb1\xebWd\xa7\xd3\
\xba\xba\xab\x7fw#\xcb-\xe6c\xd1c\xdeuG\xd33\xea\xff\xff&,\xad\xda\x8a}\xf0\n\xd6\xf2\xe7\xff\xc1g\
\x14q!\xe3\xf4_\xb8\x7f\xffPQ\xb3%\x0f\xff\xc7\\\xb7\xaa\xb4A\xf7WVUL\xa0.9\xde<\xbb\x18\xdb\x80\
\x01\xff\xc8\x1a\ns\x9c\xba\x1ei\x0e\xb9[\xe61\\\xbe\xaf\xb5\xe3\x0eC\xd5c\x07\xaa{\xd5x\xd1r\x85\
\xc4\xe5\xf6\xae\xee\xd9x\x1eMq\x14\xa4\xec'\r\xf0J\x96d3&jb\xdd\xf7\xe3\x87\xf8\xc3w\x8f\xa1M7\x0f\
\xc8M\xc0g\xfe]@o\xbf\xe2k_aQ\0\xeeW} \xba\x93\xe54)\r\x9d\x9b&\x1fV\xad1-\xf9\xfd9&\x834\x02\xd22\
\xa0\xcb\xc8b\x80@\0\x0f\x07\x84?b[\0\xf9\xf23(Y\xcd=KGX0\x02\x83\xba\xbc\xac\xe6\xcf\xff\x1e\xfcq2\
\x92\xa8M\0\x87\xe4\x17V\xff\x97K\xe2\n \xbc\xce\xb3\xdf\x846\xc6\xf8\xf1\xabd\x7f\xfc\xdfv{\xc0\
\x1cV\x9c\x90\xf9\xde\xfe\xb9\x13\x9a\xb5\x8e*\xff4\x026W\xbf\xc0\xa2\x1a\\\xdeF\x112K\xfc(\xcbN\
\xbe\xe4u\xb0\n:\x9a\xc7\x9d\xdd\x1d\x96\x83\x83\xcdm\xa2Db\xb47\xc7\xbb\xe8\xabY\x8f3\xd0.[^\xe8\
\x99\x7f\xd6\xe3\x9b\xfc\x1a\x0b\0\xe4p\0\0\x89\xff\xe3K{\xdfQX?\xf5\xdd\x04\x0c\xe7\xff\x99\xaa\
\x8f\xc6~@\x0c\xbf\xd7\x0br\xc7>\xdc\0\0\x1b`\x1cK\xfb\xfa4\xe0\x8b_\x0b\xe7\x8f]e\x80\0";

const KEY_440_SHOWN: [u8; 16] = [
    0x3c, 0xd4, 0xa0, 0x0f, 0x3c, 0x79, 0xbc, 0x6b, 0x3b, 0xdc, 0x6f, 0x85, 0x01, 0xed, 0xf1, 0x76,
];

#[test]
fn frames_of_4099x3_are_decoded(rt: HostRuntime) -> Result<(), Fail> {
    assert!(rt; decodes_to_grey(&rt, rt.alloc(), GREY_4099_BY_3, 2, 40_994)?);
    Ok(())
}

#[test]
fn rows_of_60001_are_decoded(rt: HostRuntime) -> Result<(), Fail> {
    assert!(rt; decodes_to_grey(&rt, rt.alloc(), GREY_60001_BY_1, 2, 240_006)?);
    Ok(())
}

#[test]
fn hidden_frames_are_not_written(rt: HostRuntime) -> Result<(), Fail> {
    assert!(rt; decodes_to_grey(&rt, rt.alloc(), HIDDEN_THEN_SHOWN, 79, 237)?);
    Ok(())
}

// So many frames of 1x1, and nine of 4099x3 behind them.
fn file_of_7777(alloc: Global) -> Result<Vec<u8>, AllocError> {
    let mut file = file_of(alloc, GREY_1_BY_1, 266)?;
    put_packets(&mut file, GREY_4099_BY_3, 9)?;
    Ok(file)
}

#[test]
fn a_file_of_7777_bytes_is_decoded(rt: HostRuntime) -> Result<(), Fail> {
    let file = file_of_7777(rt.alloc())?;
    assert_eq!(rt; file.len(), 7777);
    let ran = run_words(&rt, rt.alloc(), &["decode"], &file, &NONE)?;
    assert_eq!(rt; ran.status, Status::Done);
    assert_eq!(rt; ran.out.bytes().len(), 185_271);
    assert!(rt; ran.out.bytes().iter().all(|byte| *byte == 0x80));
    Ok(())
}

fn put_lines(text: &mut String, from: u32, to: u32, what: &str) -> Result<(), AllocError> {
    for frame in from..to {
        writeln!(text, "frame {frame}: key {what}")?;
    }
    Ok(())
}

const LINE_OF_1_BY_1: &str =
    "1x1 profile 0 depth 8 ss 11 show 1 refresh ff q 0 level 0 tiles 1x1 size 16";

const LINE_OF_4099_BY_3: &str =
    "4099x3 profile 0 depth 8 ss 11 show 1 refresh ff q 0 level 0 tiles 2x1 size 21";

#[test]
fn a_file_of_7777_bytes_is_listed(rt: HostRuntime) -> Result<(), Fail> {
    let file = file_of_7777(rt.alloc())?;
    let mut text = String::new(rt.alloc());
    put_lines(&mut text, 0, 266, LINE_OF_1_BY_1)?;
    put_lines(&mut text, 266, 275, LINE_OF_4099_BY_3)?;
    let ran = run_words(&rt, rt.alloc(), &["list"], &file, &NONE)?;
    assert_eq!(rt; ran.status, Status::Done);
    assert!(rt; text.len() > 7777);
    assert!(rt; ran.out.bytes() == text.as_bytes());
    Ok(())
}

// A file of frames of 1x1, and one frame behind them that has another marker than a frame.
fn run_broken<R: Threads + Wait + Sync>(
    rt: &R,
    alloc: Global,
    word: &'static str,
    count: u32,
) -> Result<MemRan, AllocError> {
    let mut file = file_of(alloc, GREY_1_BY_1, count)?;
    put_packets(&mut file, b"@", 1)?;
    run_words(rt, alloc, &[word], &file, &NONE)
}

const BROKEN: [(u32, usize, &[u8]); 2] = [
    (79, 237, b"frame 79: rule 7 FrameMarker\n"),
    (1234, 3702, b"frame 1234: rule 7 FrameMarker\n"),
];

#[test]
fn a_late_frame_ends_a_decode(rt: HostRuntime) -> Result<(), Fail> {
    for (number, samples, note) in BROKEN {
        let ran = run_broken(&rt, rt.alloc(), "decode", number)?;
        assert_eq!(rt; ran.status.code(), 3, "frame {number}");
        assert_eq!(rt; ran.out.bytes().len(), samples, "frame {number}");
        assert!(rt; ran.out.bytes().iter().all(|byte| *byte == 0x80));
        assert_eq!(rt; ran.note.bytes(), note, "frame {number}");
    }
    Ok(())
}

#[test]
fn a_late_frame_ends_a_listing(rt: HostRuntime) -> Result<(), Fail> {
    for (number, _, note) in BROKEN {
        let ran = run_broken(&rt, rt.alloc(), "list", number)?;
        let mut text = String::new(rt.alloc());
        put_lines(&mut text, 0, number, LINE_OF_1_BY_1)?;
        assert_eq!(rt; ran.status.code(), 3, "frame {number}");
        assert!(rt; ran.out.bytes() == text.as_bytes(), "frame {number}");
        assert_eq!(rt; ran.note.bytes(), note, "frame {number}");
    }
    Ok(())
}

#[test]
fn a_frame_of_440_is_decoded(rt: HostRuntime) -> Result<(), Fail> {
    let ran = run_words(&rt, rt.alloc(), &["decode"], KEY_440, &NONE)?;
    assert_eq!(rt; ran.status, Status::Done);
    assert!(rt; Md5::digest(ran.out.bytes()) == KEY_440_SHOWN);
    Ok(())
}

// Forty of its frames take 22,346 bytes.
#[test]
fn a_stream_of_79_frames_is_made(rt: HostRuntime) -> Result<(), Fail> {
    let made = run_words(&rt, rt.alloc(), &["make", "7", "79"], &[], &NONE)?;
    assert_eq!(rt; made.status, Status::Done);
    assert!(rt; made.out.bytes().len() > 22_346);
    Ok(())
}
