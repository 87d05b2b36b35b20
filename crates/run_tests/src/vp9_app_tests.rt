pub mod rows;

use crate::runs::{Fails, MemRan, NONE, run_words};
use md5::{Digest, Md5};
use rows::{
    Row, drawn_streams, formats, inter_decode, intra_decode, list, long_runs, overflow_frames, webm,
};
use std::alloc::{AllocError, Global};
use std::sync::Wait;
use std::test::Fail;
use std::thread::Threads;

fn run_row<R: Threads + Wait + Sync>(
    rt: &R,
    alloc: Global,
    row: &Row,
    fails: &Fails,
) -> Result<MemRan, AllocError> {
    run_words(rt, alloc, row.words, row.input, fails)
}

fn ends_as(ran: &MemRan, row: &Row) -> bool {
    ran.status.code() == row.status
        && ran.out.bytes() == row.output
        && ran.note.bytes() == row.note.as_bytes()
}

// The first row that ends otherwise than it is to.
fn first_other<R: Threads + Wait + Sync>(
    rt: &R,
    alloc: Global,
    tables: &[&'static [Row]],
) -> Result<Option<&'static str>, AllocError> {
    for table in tables {
        for row in *table {
            let ran = run_row(rt, alloc, row, &NONE)?;
            if !ends_as(&ran, row) {
                return Ok(Some(row.name));
            }
        }
    }
    Ok(None)
}

// The first row of those of a decode without options that ends otherwise with these words.
fn first_other_as<R: Threads + Wait + Sync>(
    rt: &R,
    alloc: Global,
    words: &[&'static str],
    tables: &[&'static [Row]],
) -> Result<Option<&'static str>, AllocError> {
    for table in tables {
        for row in *table {
            if row.words.len() > 1 {
                continue;
            }
            let ran = run_words(rt, alloc, words, row.input, &NONE)?;
            if !ends_as(&ran, row) {
                return Ok(Some(row.name));
            }
        }
    }
    Ok(None)
}

fn row_named(tables: &[&'static [Row]], name: &str) -> Option<&'static Row> {
    for table in tables {
        for row in *table {
            if row.name == name {
                return Some(row);
            }
        }
    }
    None
}

#[test]
fn listings_end_as_they_are_to(rt: HostRuntime) -> Result<(), Fail> {
    assert_eq!(rt;
        first_other(&rt, rt.alloc(), list::TABLES.as_slice())?,
        None
    );
    Ok(())
}

#[test]
fn decodes_end_as_they_are_to(rt: HostRuntime) -> Result<(), Fail> {
    assert_eq!(rt;
        first_other(&rt, rt.alloc(), intra_decode::TABLES.as_slice())?,
        None
    );
    Ok(())
}

#[test]
fn inter_frames_end_as_they_are_to(rt: HostRuntime) -> Result<(), Fail> {
    assert_eq!(rt;
        first_other(&rt, rt.alloc(), inter_decode::TABLES.as_slice())?,
        None
    );
    Ok(())
}

// Whether bytes are so many of each of these, one run after another.
fn are_runs(bytes: &[u8], runs: &[(usize, u8)]) -> bool {
    let mut left = bytes;
    for (count, byte) in runs {
        if left.len() < *count {
            return false;
        }
        let (run, rest) = left.split_at(*count);
        if run.iter().any(|b| *b != *byte) {
            return false;
        }
        left = rest;
    }
    left.is_empty()
}

#[test]
fn long_runs_end_as_they_are_to(rt: HostRuntime) -> Result<(), Fail> {
    let options: [&[&'static str]; 6] = [
        &["decode"],
        &["decode", "--plain"],
        &["decode", "--window", "2"],
        &["decode", "--window", "16"],
        &["decode", "--workers", "1", "--window", "2"],
        &["decode", "--workers", "4", "--window", "2"],
    ];
    for words in options {
        for row in &long_runs::LONG {
            let ran = run_words(&rt, rt.alloc(), words, row.input, &NONE)?;
            assert_eq!(rt; (row.name, ran.status.code()), (row.name, row.status));
            assert_eq!(rt;
                (row.name, are_runs(ran.out.bytes(), row.runs)),
                (row.name, true)
            );
            assert_eq!(rt;
                (row.name, ran.note.bytes()),
                (row.name, row.note.as_bytes())
            );
        }
    }
    Ok(())
}

#[test]
fn formats_are_written(rt: HostRuntime) -> Result<(), Fail> {
    assert_eq!(rt;
        first_other(&rt, rt.alloc(), formats::TABLES.as_slice())?,
        None
    );
    Ok(())
}

#[test]
fn webm_files_are_read(rt: HostRuntime) -> Result<(), Fail> {
    assert_eq!(rt;
        first_other(&rt, rt.alloc(), webm::TABLES.as_slice())?,
        None
    );
    Ok(())
}

// How a front of a WebM file ends.
fn note_of_a_front(length: usize) -> &'static str {
    if length < 4 {
        "frame 0: rule 2 IvfHeader\n"
    } else if length == webm::WITHOUT_A_TRACK {
        "frame 0: rule 26 WebmTrack\n"
    } else if webm::WITHOUT_A_FRAME.contains(&length) {
        ""
    } else {
        "frame 0: rule 25 WebmElement\n"
    }
}

#[test]
fn a_webm_file_may_be_cut_anywhere(rt: HostRuntime) -> Result<(), Fail> {
    for length in 0..webm::ONE_FRAME.len() {
        let front = webm::ONE_FRAME.split_at(length).0;
        let ran = run_words(&rt, rt.alloc(), &["decode"], front, &NONE)?;
        assert_eq!(rt;
            (length, ran.note.bytes()),
            (length, note_of_a_front(length).as_bytes())
        );
        assert_eq!(rt; ran.out.bytes().len(), 0);
    }
    Ok(())
}

fn behind_the_header(file: &[u8]) -> &[u8] {
    if file.len() < 32 {
        file
    } else {
        file.split_at(32).1
    }
}

// Files of depth 8, 10, 12, and 8 again.
const DEPTHS: [&str; 4] = [
    "one key frame of 8x8",
    "depth 10",
    "depth 12 in 4:4:4",
    "two key frames",
];

#[test]
fn the_depth_changes_at_key_frames(rt: HostRuntime) -> Result<(), Fail> {
    let mut file = Vec::new(rt.alloc());
    let mut text = Vec::new(rt.alloc());
    for name in DEPTHS {
        let Some(row) = row_named(intra_decode::TABLES.as_slice(), name) else {
            return Err(Fail::new(name));
        };
        let more = if file.is_empty() {
            row.input
        } else {
            behind_the_header(row.input)
        };
        file.extend_from_slice(more)?;
        text.extend_from_slice(row.output)?;
    }
    let ran = run_words(&rt, rt.alloc(), &["decode"], &file, &NONE)?;
    assert_eq!(rt; (ran.status.code(), ran.out.bytes()), (0, text.as_slice()));
    Ok(())
}

// What vpxdec writes of them.
#[test]
fn drawn_streams_are_decoded(rt: HostRuntime) -> Result<(), Fail> {
    assert_eq!(rt;
        first_other(&rt, rt.alloc(), drawn_streams::TABLES.as_slice())?,
        None
    );
    Ok(())
}

#[test]
fn levels_that_do_not_fit_end_a_decode(rt: HostRuntime) -> Result<(), Fail> {
    assert_eq!(rt;
        first_other(&rt, rt.alloc(), overflow_frames::TABLES.as_slice())?,
        None
    );
    Ok(())
}

#[test]
fn faults_end_a_listing(rt: HostRuntime) -> Result<(), Fail> {
    let cases: [(&str, Fails, u8, &[u8]); 3] = [
        (
            "one key frame",
            Fails {
                source: &[1],
                ..NONE
            },
            4,
            b"read fault\n",
        ),
        (
            "one key frame",
            Fails { out: &[1], ..NONE },
            5,
            b"write fault\n",
        ),
        ("wrong signature", Fails { note: &[1], ..NONE }, 5, b""),
    ];
    for (name, fails, status, note) in cases {
        let row = row_named(list::TABLES.as_slice(), name).ok_or("no such row")?;
        let ran = run_row(&rt, rt.alloc(), row, &fails)?;
        assert_eq!(rt; ran.status.code(), status, "{name}");
        assert_eq!(rt; ran.out.bytes().len(), 0, "{name}");
        assert_eq!(rt; ran.note.bytes(), note, "{name}");
    }
    Ok(())
}

// The second put is that of the next plane or of the next frame, as the writer cuts them.
#[test]
fn a_write_fault_leaves_a_front(rt: HostRuntime) -> Result<(), Fail> {
    let row = row_named(intra_decode::TABLES.as_slice(), "two key frames").ok_or("no such row")?;
    let failing = Fails { out: &[2], ..NONE };
    let ran = run_row(&rt, rt.alloc(), row, &failing)?;
    assert_eq!(rt; ran.status.code(), 5);
    assert_eq!(rt; ran.note.bytes(), b"write fault\n".as_slice());
    assert!(rt; !ran.out.bytes().is_empty() && ran.out.bytes().len() < row.output.len());
    assert!(rt; row.output.starts_with(ran.out.bytes()));
    Ok(())
}

#[test]
fn a_read_fault_leaves_no_frame(rt: HostRuntime) -> Result<(), Fail> {
    let row = row_named(intra_decode::TABLES.as_slice(), "two key frames").ok_or("no such row")?;
    let failing = Fails {
        source: &[1],
        ..NONE
    };
    let ran = run_row(&rt, rt.alloc(), row, &failing)?;
    assert_eq!(rt; ran.status.code(), 4);
    assert_eq!(rt; ran.note.bytes(), b"read fault\n".as_slice());
    assert_eq!(rt; ran.out.bytes().len(), 0);
    Ok(())
}

// The digest of another generator's file.
const THREE_FRAMES: [u8; 16] = [
    0x97, 0x89, 0x89, 0xf5, 0x86, 0xe0, 0x33, 0x6d, 0x93, 0x32, 0x68, 0xc7, 0x1c, 0xa6, 0xda, 0x4c,
];

#[test]
fn a_stream_is_made_without_a_source(rt: HostRuntime) -> Result<(), Fail> {
    let failing = Fails {
        source: &[1],
        ..NONE
    };
    let ran = run_words(&rt, rt.alloc(), &["make", "7", "3"], &[], &failing)?;
    assert_eq!(rt; ran.status.code(), 0);
    assert_eq!(rt; ran.note.bytes(), b"".as_slice());
    assert!(rt; Md5::digest(ran.out.bytes()) == THREE_FRAMES);
    Ok(())
}

// What another generator and decoder come to.
const TRIALS: [(&str, &str); 3] = [
    ("1", "frames 1 bytes 106080 sum a4a6587ac0e64811\n"),
    ("3", "frames 3 bytes 318240 sum c9c3bf55fcdf6f30\n"),
    ("40", "frames 28 bytes 2970240 sum 27a6521e5b16b378\n"),
];

#[test]
fn trials_are_told_without_a_source(rt: HostRuntime) -> Result<(), Fail> {
    let failing = Fails {
        source: &[1],
        ..NONE
    };
    for (frames, line) in TRIALS {
        let ran = run_words(&rt, rt.alloc(), &["trial", "7", frames], &[], &failing)?;
        assert_eq!(rt; ran.status.code(), 0, "{frames}");
        assert_eq!(rt; ran.note.bytes(), b"".as_slice(), "{frames}");
        assert_eq!(rt; ran.out.bytes(), line.as_bytes(), "{frames}");
    }
    Ok(())
}

#[test]
fn a_trial_has_a_frame(rt: HostRuntime) -> Result<(), Fail> {
    let ran = run_words(&rt, rt.alloc(), &["trial", "7", "0"], &[], &NONE)?;
    assert_eq!(rt; ran.status.code(), 2);
    assert_eq!(rt; ran.out.bytes().len(), 0);
    Ok(())
}

#[test]
fn a_write_fault_ends_a_trial(rt: HostRuntime) -> Result<(), Fail> {
    let failing = Fails { out: &[1], ..NONE };
    let ran = run_words(&rt, rt.alloc(), &["trial", "7", "1"], &[], &failing)?;
    assert_eq!(rt; ran.status.code(), 5);
    assert_eq!(rt; ran.note.bytes(), b"write fault\n".as_slice());
    assert_eq!(rt; ran.out.bytes().len(), 0);
    Ok(())
}

#[test]
fn a_write_fault_ends_a_stream(rt: HostRuntime) -> Result<(), Fail> {
    let failing = Fails { out: &[1], ..NONE };
    let ran = run_words(&rt, rt.alloc(), &["make", "7", "1"], &[], &failing)?;
    assert_eq!(rt; ran.status.code(), 5);
    assert_eq!(rt; ran.note.bytes(), b"write fault\n".as_slice());
    assert_eq!(rt; ran.out.bytes().len(), 0);
    Ok(())
}

#[test]
fn options_change_nothing(rt: HostRuntime) -> Result<(), Fail> {
    let options: [&[&'static str]; 6] = [
        &["decode", "--workers", "1"],
        &["decode", "--window", "16"],
        &["decode", "--workers", "64", "--window", "2"],
        &["decode", "--workers", "7"],
        &["decode", "--workers", "61", "--window", "13"],
        &["decode", "--plain", "--window", "5"],
    ];
    let tables: [&[&'static [Row]]; 4] = [
        &drawn_streams::TABLES,
        &inter_decode::TABLES,
        &intra_decode::TABLES,
        &overflow_frames::TABLES,
    ];
    for words in options {
        for rows in tables {
            assert_eq!(rt; first_other_as(&rt, rt.alloc(), words, rows)?, None);
        }
    }
    Ok(())
}
