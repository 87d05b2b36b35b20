ghost use Rattle.std.specs.Prelude.{◌≤◌, ◌≡◌};

use super::*;
use edge_io::{Gate, OpenGate};
use job_crew::{Ending, FrameResults, Run, run_jobs};
use std::alloc::Global;
use std::sync::Wait;
use std::sync::atomic::{AtomicU64, Ordering};
use std::test::Fail;
use std::thread::Threads;
use vp9_types::JobName;

const NEVER: u64 = 1_000_000;

// Two columns of a frame.
const COLUMNS: [JobName; 2] = [
    JobName::Column {
        frame: 5,
        column: 0,
    },
    JobName::Column {
        frame: 5,
        column: 1,
    },
];

// A row of a frame, and a column of the next one.
const ROW_AND_COLUMN: [JobName; 2] = [
    JobName::Rows {
        frame: 5,
        column: 1,
        row: 0,
    },
    JobName::Column {
        frame: 6,
        column: 0,
    },
];

fn last_of(ending: &Ending<Number<'_>>) -> u64 {
    match ending {
        Ending::Whole { frame, .. } | Ending::Refused { frame, .. } => *frame,
    }
}

// Whether the numbers are those below `all`, in order.
fn are_below(numbers: &[u64], all: u64) -> bool {
    if numbers.len() as u64 != all {
        return false;
    }
    for at in 0..numbers.len() {
        if numbers[at] != at as u64 {
            return false;
        }
    }
    true
}

// How many results a run keeps at most: the rows that later frames may ask for of those in the window and of ten before them, all of those that
// aren't written with head and close, of which the next frame has some too, and what each worker is letting go.
fn most_of(columns: u32, rows: u32, workers: u8, window: u8) -> u64 {
    let (columns, rows, window) = (u64::from(columns), u64::from(rows), u64::from(window));
    let workers = u64::from(workers);
    let lasting = (window + 10) * (rows + 1);
    let heads = 2 * (window + 2 + workers);
    let at_work = (window + 1) * (rows + 1);
    let going = 3 * workers;
    columns
        .saturating_mul(at_work + going)
        .saturating_add(lasting + heads)
}

fn are_there(results: &[Option<Number<'_>>]) -> bool {
    for at in 0..results.len() {
        if results[at].is_none() {
            return false;
        }
    }
    true
}

// Whether these are results of a frame, with those of its close and of so many rows.
fn are_of(results: &FrameResults<Number<'_>>, frame: u64, rows: u32) -> bool {
    results.frame == frame
        && results.close.is_some()
        && results.filters.len() == rows as usize
        && are_there(&results.filters)
}

// Whether a run leaves the results of this frame.
fn leaves(left: &Option<Vec<FrameResults<Number<'_>>>>, frame: u64, rows: u32) -> bool {
    let Some(left) = left else {
        return false;
    };
    for at in 0..left.len() {
        if are_of(&left[at], frame, rows) {
            return true;
        }
    }
    false
}

// Whether a run writes the numbers of all frames below the one at which it ends, keeps the results of few frames, and leaves those of the
// last one.
fn is_right<
    const FRAMES: u64,
    const COLUMNS: u32,
    const ROWS: u32,
    G: Gate + Sync,
    R: Threads + Wait + Sync,
>(rt: &R, alloc: Global, jobs: &NumberJobs<'_>, gate: &G, workers: u8, window: u8) -> bool
    requires workers { (1 ≤ workers) × (workers ≤ 64) }
    requires window { (2 ≤ window) × (window ≤ 16) }
{
    let run = Run {
        alloc,
        jobs,
        gate,
        workers,
        window,
    };
    let output = Paper {
        numbers: Vec::new(alloc),
        is_torn: false,
    };
    let Ok(told) = run_jobs::<
        Number<'_>,
        Numbers<FRAMES, COLUMNS, ROWS>,
        Paper,
        NumberJobs<'_>,
        G,
        R,
    >(rt, &run, output) else {
        return false;
    };
    let all = FRAMES.min(jobs.refused).min(jobs.starved);
    let is_refused = matches!(&told.ending, Ending::Refused { .. });
    let kept = most_of(COLUMNS, ROWS, workers, window);
    last_of(&told.ending) == all
        && is_refused == told.output.is_torn
        && are_below(&told.output.numbers, all)
        && jobs.tally.most() <= kept
        && (all == 0 || all < FRAMES || leaves(&told.results, all - 1, ROWS))
}

fn until(tally: &Tally, refused: u64, starved: u64) -> NumberJobs<'_> {
    NumberJobs {
        refused,
        starved,
        tally,
    }
}

// Whether a run by some workers is right to its end, and leaves no result behind.
fn goes_to_the_end<
    const FRAMES: u64,
    const COLUMNS: u32,
    const ROWS: u32,
    R: Threads + Wait + Sync,
>(rt: &R, alloc: Global, workers: u8, window: u8) -> bool
    requires workers { (1 ≤ workers) × (workers ≤ 64) }
    requires window { (2 ≤ window) × (window ≤ 16) }
{
    let tally = Tally::new();
    let jobs = until(&tally, NEVER, NEVER);
    is_right::<FRAMES, COLUMNS, ROWS, OpenGate, R>(rt, alloc, &jobs, &OpenGate, workers, window)
        && tally.there() == 0
}

#[test]
fn tiny_frames_by_some_workers(rt: HostRuntime) -> Result<(), Fail> {
    for workers in [1, 2, 4, 7u8] {
        assert!(rt;
            goes_to_the_end::<300, 2, 3, HostRuntime>(&rt, rt.alloc(), workers, 4),
            "by {workers}"
        );
        assert!(rt;
            goes_to_the_end::<500, 1, 1, HostRuntime>(&rt, rt.alloc(), workers, 2),
            "by {workers}"
        );
    }
    Ok(())
}

// A long run keeps no more than a short one.
#[test]
fn many_frames(rt: HostRuntime) -> Result<(), Fail> {
    for workers in [1, 4u8] {
        assert!(rt;
            goes_to_the_end::<3000, 1, 2, HostRuntime>(&rt, rt.alloc(), workers, 4),
            "by {workers}"
        );
    }
    Ok(())
}

// More workers than jobs that are ready, and more jobs in a frame than the pool has room for.
#[test]
fn many_workers_and_wide_frames(rt: HostRuntime) -> Result<(), Fail> {
    assert!(rt; goes_to_the_end::<40, 4, 17, HostRuntime>(&rt, rt.alloc(), 64, 16));
    assert!(rt; goes_to_the_end::<3, 79, 17, HostRuntime>(&rt, rt.alloc(), 3, 3));
    Ok(())
}

// Whether two jobs of a run by some workers are at work at the same time, if each looks so often for the other.
fn meet<R: Threads + Wait + Sync>(
    rt: &R,
    alloc: Global,
    jobs: [JobName; 2],
    workers: u8,
    looks: u32,
) -> bool
    requires { (1 ≤ workers) × (workers ≤ 64) }
{
    let tally = Tally::new();
    let numbers = until(&tally, NEVER, NEVER);
    let gate = Meeting::new(jobs[0], jobs[1], looks);
    is_right::<20, 2, 3, Meeting, R>(rt, alloc, &numbers, &gate, workers, 4) && gate.has_met()
}

// With several workers they are. One worker, who does one after the other, never lets them meet.
#[test]
fn jobs_run_at_the_same_time(rt: HostRuntime) -> Result<(), Fail> {
    for jobs in [COLUMNS, ROW_AND_COLUMN] {
        assert!(rt; meet(&rt, rt.alloc(), jobs, 4, 20_000_000));
        assert!(rt; !meet(&rt, rt.alloc(), jobs, 1, 1_000));
    }
    Ok(())
}

// A gate sees each job once: 14 of each frame, and those of the last head and of the end.
#[test]
fn a_gate_sees_each_job(rt: HostRuntime) -> Result<(), Fail> {
    for workers in [1, 4u8] {
        let tally = Tally::new();
        let jobs = until(&tally, NEVER, NEVER);
        let gate = Counter {
            begun: AtomicU64::new(0),
            ended: AtomicU64::new(0),
        };
        assert!(rt;
            is_right::<100, 2, 3, Counter, HostRuntime>(&rt, rt.alloc(), &jobs, &gate, workers, 4,),
            "by {workers}"
        );
        assert_eq!(rt; gate.begun.load(Ordering::SeqCst), 1402, "by {workers}");
        assert_eq!(rt; gate.ended.load(Ordering::SeqCst), 1402, "by {workers}");
    }
    Ok(())
}

#[test]
fn a_refusal_ends_the_run(rt: HostRuntime) -> Result<(), Fail> {
    for workers in [1, 2, 16u8] {
        for refused in [0, 1, 7, 40u64] {
            let tally = Tally::new();
            let jobs = until(&tally, refused, NEVER);
            assert!(rt;
                is_right::<50, 2, 3, OpenGate, HostRuntime>(
                    &rt,
                    rt.alloc(),
                    &jobs,
                    &OpenGate,
                    workers,
                    4,
                ),
                "by {workers} at {refused}"
            );
        }
    }
    Ok(())
}

#[test]
fn no_frames(rt: HostRuntime) -> Result<(), Fail> {
    for workers in [1, 2, 16u8] {
        assert!(rt;
            goes_to_the_end::<0, 1, 1, HostRuntime>(&rt, rt.alloc(), workers, 2),
            "by {workers}"
        );
    }
    Ok(())
}

// A frame has more results than there is memory for.
#[test]
fn want_of_memory_ends_the_run(rt: HostRuntime) -> Result<(), Fail> {
    for workers in [1, 2, 16u8] {
        for starved in [0, 2u64] {
            let tally = Tally::new();
            let jobs = until(&tally, NEVER, starved);
            assert!(rt;
                is_right::<50, 2000, 1, OpenGate, HostRuntime>(
                    &rt,
                    rt.alloc(),
                    &jobs,
                    &OpenGate,
                    workers,
                    4,
                ),
                "by {workers} at {starved}"
            );
        }
    }
    Ok(())
}
