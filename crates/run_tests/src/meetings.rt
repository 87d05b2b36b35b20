//! Runs in which two jobs have to be at work at the same time.

use crate::files::{are_grey, file_of};
use crate::odd_values::GREY_4099_BY_3;
use crate::runs::{NONE, run_source};
use crate::sizes::GREY_130_BY_132;
use edge_io::{Gate, MemSource};
use std::alloc::Global;
use std::sync::Wait;
use std::sync::atomic::{AtomicBool, AtomicU64, Ordering};
use std::test::Fail;
use std::thread::{self, Threads};
use vp9_app::Status;
use vp9_types::JobName;

// Holds two jobs until both are at work, or for so many looks.
#[derive(Drop)]
struct Meeting {
    jobs: [JobName; 2],
    looks: u32,
    at_work: AtomicU64,
    met: AtomicBool,
}

impl Meeting {
    fn new(jobs: [JobName; 2], looks: u32) -> Meeting {
        Meeting {
            jobs,
            looks,
            at_work: AtomicU64::new(0),
            met: AtomicBool::new(false),
        }
    }

    // Whether both were at work at the same time.
    fn has_met(&self) -> bool {
        self.met.load(Ordering::SeqCst)
    }

    // What a job at work counts: both are at work where that adds up to 3.
    fn weight(&self, job: JobName) -> u64 {
        if job == self.jobs[0] {
            1
        } else if job == self.jobs[1] {
            2
        } else {
            0
        }
    }
}

impl Gate for Meeting {
    fn enter(&self, job: JobName) {
        let weight = self.weight(job);
        if weight == 0 {
            return;
        }
        let others = self.at_work.fetch_add(weight, Ordering::SeqCst);
        if others.saturating_add(weight) == 3 {
            self.met.store(true, Ordering::SeqCst);
        }
        for _ in 0..self.looks {
            if self.has_met() {
                return;
            }
            thread::yield_now();
        }
    }

    fn leave(&self, job: JobName) {
        self.at_work.fetch_sub(self.weight(job), Ordering::SeqCst);
    }
}

// A file of so many frames that are the same, the grey samples that it shows, and two jobs of its decode.
struct Pair {
    frame: &'static [u8],
    count: u32,
    samples: usize,
    jobs: [JobName; 2],
}

// The frames of a job are numbered from that behind the first of the file, which a crew decodes alone.

// The tile columns of a frame.
const COLUMNS: Pair = Pair {
    frame: GREY_4099_BY_3,
    count: 3,
    samples: 61_491,
    jobs: [
        JobName::Column {
            frame: 1,
            column: 0,
        },
        JobName::Column {
            frame: 1,
            column: 1,
        },
    ],
};

// A superblock row of a frame, and the tile column of the next one.
const ROW_AND_COLUMN: Pair = Pair {
    frame: GREY_130_BY_132,
    count: 4,
    samples: 102_960,
    jobs: [
        JobName::Rows {
            frame: 1,
            column: 0,
            row: 0,
        },
        JobName::Column {
            frame: 2,
            column: 0,
        },
    ],
};

// Whether both jobs are at work at the same time in a decode with these words, if each looks so often for the other.
fn meet<R: Threads + Wait + Sync>(
    rt: &R,
    alloc: Global,
    pair: &Pair,
    words: &[&'static str],
    looks: u32,
) -> Result<bool, Fail> {
    let file = file_of(alloc, pair.frame, pair.count)?;
    let source = MemSource::new(alloc, &file, &[])?;
    let gate = Meeting::new(pair.jobs, looks);
    let ran = run_source(rt, alloc, words, source, &NONE, &gate)?;
    if ran.status != Status::Done || !are_grey(ran.out.bytes(), pair.samples) {
        return Err(Fail::new("not decoded to grey samples"));
    }
    Ok(gate.has_met())
}

// No jobs meet that are done one after the other, on one thread.
fn meet_nowhere_alone<R: Threads + Wait + Sync>(
    rt: &R,
    alloc: Global,
    pair: &Pair,
) -> Result<bool, Fail> {
    Ok(
        !meet(rt, alloc, pair, &["decode", "--workers", "1"], 1_000)?
            && !meet(rt, alloc, pair, &["decode", "--plain"], 1_000)?,
    )
}

const LOOKS: u32 = 20_000_000;

#[test]
fn columns_of_a_frame_are_parsed_at_the_same_time(rt: HostRuntime) -> Result<(), Fail> {
    let words = &["decode", "--workers", "2"];
    assert!(rt; meet(&rt, rt.alloc(), &COLUMNS, words, LOOKS)?);
    assert!(rt; meet_nowhere_alone(&rt, rt.alloc(), &COLUMNS)?);
    Ok(())
}

#[test]
fn a_row_is_rebuilt_while_the_next_frame_is_parsed(rt: HostRuntime) -> Result<(), Fail> {
    let words = &["decode", "--workers", "4"];
    assert!(rt; meet(&rt, rt.alloc(), &ROW_AND_COLUMN, words, LOOKS)?);
    assert!(rt; meet_nowhere_alone(&rt, rt.alloc(), &ROW_AND_COLUMN)?);
    Ok(())
}
