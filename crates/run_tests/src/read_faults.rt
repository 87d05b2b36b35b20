//! Runs whose source fails as it is read, or gives its bytes in pieces.

use crate::files::{GREY_1_BY_1, are_grey, file_of, put_packets};
use crate::odd_values::{GREY_4099_BY_3, HIDDEN_THEN_SHOWN};
use crate::runs::{NONE, run_source};
use crate::vp9_app_tests::rows::{Row, drawn_streams, webm};
use edge_io::{Failed, MemSource, OpenGate, Source};
use std::alloc::{AllocError, Global};
use std::sync::Wait;
use std::test::Fail;
use std::thread::Threads;

// A crew with the usual window, the least and the greatest one.
const CREWS: [&[&'static str]; 3] = [
    &["decode"],
    &["decode", "--window", "2"],
    &["decode", "--window", "16"],
];

// Frames of 1x1 and of 4099x3, then one of 1x1 behind a hidden one, and one of 1x1: a packet for each that is shown.
fn file_of_four(alloc: Global) -> Result<Vec<u8>, Fail> {
    let mut file = file_of(alloc, GREY_1_BY_1, 1)?;
    put_packets(&mut file, GREY_4099_BY_3, 1)?;
    put_packets(&mut file, HIDDEN_THEN_SHOWN, 1)?;
    put_packets(&mut file, GREY_1_BY_1, 1)?;
    Ok(file)
}

// The samples of the first so many of them.
const SAMPLES: [usize; 5] = [0, 3, 20_500, 20_503, 20_506];

// Four bytes are a call of the source, the rest of the header is one, and each packet two.
#[test]
fn a_read_fault_leaves_the_frames_of_whole_packets(rt: HostRuntime) -> Result<(), Fail> {
    let file = file_of_four(rt.alloc())?;
    for words in CREWS {
        for call in 1..12u64 {
            let source = MemSource::new(rt.alloc(), &file, &[call])?;
            let ran = run_source(&rt, rt.alloc(), words, source, &NONE, &OpenGate)?;
            let whole = (call.saturating_sub(3) / 2) as usize;
            let length = ran.out.bytes().len();
            assert_eq!(rt; SAMPLES.get(whole), Some(&length), "at call {call}");
            assert!(rt; are_grey(ran.out.bytes(), length));
            let ending = (ran.status.code(), ran.note.bytes());
            assert_eq!(rt; ending, (4, b"read fault\n".as_slice()));
        }
    }
    Ok(())
}

// Whether what is written before a fault at each call is a front of what is shown, and no less than before a fault at an earlier one.
fn fronts_grow<R: Threads + Wait + Sync>(
    rt: &R,
    alloc: Global,
    words: &[&'static str],
    row: &Row,
) -> Result<bool, Fail> {
    let mut written = 0;
    for call in 1..100u64 {
        let source = MemSource::new(alloc, row.input, &[call])?;
        let ran = run_source(rt, alloc, words, source, &NONE, &OpenGate)?;
        let out = ran.out.bytes();
        if !row.output.starts_with(out) || out.len() < written {
            return Ok(false);
        }
        written = out.len();
        if ran.status.code() != 4 {
            return Ok(ran.status.code() == row.status && written == row.output.len());
        }
    }
    Ok(false)
}

#[test]
fn later_faults_leave_more(rt: HostRuntime) -> Result<(), Fail> {
    for words in CREWS {
        for table in drawn_streams::TABLES {
            for row in table {
                assert!(rt; fronts_grow(&rt, rt.alloc(), words, row)?, "{}", row.name);
            }
        }
    }
    Ok(())
}

#[test]
fn a_source_that_is_read_whole_leaves_no_frame(rt: HostRuntime) -> Result<(), Fail> {
    let file = file_of_four(rt.alloc())?;
    let cases: [(&[&'static str], &[u8]); 2] = [
        (&["decode"], webm::ONE_FRAME),
        (&["decode", "--plain"], &file),
    ];
    for (words, input) in cases {
        let source = MemSource::new(rt.alloc(), input, &[2])?;
        let ran = run_source(&rt, rt.alloc(), words, source, &NONE, &OpenGate)?;
        assert_eq!(rt; (ran.status.code(), ran.out.bytes().len()), (4, 0));
    }
    Ok(())
}

// Gives at most so many bytes at a call, and tells none beforehand.
#[derive(Drop)]
struct Pieces {
    source: MemSource,
    size: usize,
}

impl Source for Pieces {
    ghost use Rattle.std.specs.Prelude.{None};
    ghost use Rattle.edge_io.specs.Memory.{source_faults, source_given};

    ghost rest = { λ _. None };

    ghost given = { λ pieces. source_given pieces.source };

    ghost faults = { λ pieces. source_faults pieces.source };

    ghost can_fill = { λ _. Unit {0} };

    fn fill(&mut self, buf: &mut [u8]) -> Result<usize, Failed> {
        let n = self.size.min(buf.len());
        self.source.fill(&mut buf[..n])
    }

    fn at_hand(&self) -> &[u8] {
        &[]
    }
}

// Whether a row ends as it is to with these words, from a source that gives so many bytes at a call.
fn ends_in_pieces<R: Threads + Wait + Sync>(
    rt: &R,
    alloc: Global,
    words: &[&'static str],
    row: &Row,
    size: usize,
) -> Result<bool, AllocError> {
    let source = MemSource::new(alloc, row.input, &[])?;
    let pieces = Pieces { source, size };
    let ran = run_source(rt, alloc, words, pieces, &NONE, &OpenGate)?;
    Ok(ran.status.code() == row.status && ran.out.bytes() == row.output)
}

#[test]
fn pieces_change_nothing(rt: HostRuntime) -> Result<(), Fail> {
    for size in [1, 7, 4096] {
        for words in CREWS {
            for table in drawn_streams::TABLES {
                for row in table {
                    assert!(rt;
                        ends_in_pieces(&rt, rt.alloc(), words, row, size)?,
                        "{} in pieces of {size}",
                        row.name
                    );
                }
            }
        }
    }
    Ok(())
}
