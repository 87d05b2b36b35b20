ghost use Rattle.std.specs.Prelude.{◌≡◌};
ghost use Rattle.job_order.specs.Worlds.{IsReached};
ghost use Rattle.job_order.specs.Example.{example_rules};

use super::{Order, Three, job_of, play};
use job_order::{Event, Meaning, Needs, Segment, World, job_at, needs_of};
use std::alloc::{AllocError, Global};
use std::marker::Brand;
use std::rt::HostRuntime;
use vp9_types::JobName;

// By the table of jobs, a frame has Head, 2 of Column, Close, in each of 2 superblock rows 2 of Rows and a Filter, and Write: 11 jobs. Three
// frames have 33. Behind them stand Head(3), whose result ends the run, and End(3): 35.
const JOBS: usize = 35;

// The jobs are finished in the order of their tickets.
fn is_in_turn(world: &World<u64, Three>) -> bool
    requires { IsReached example_rules 2 world.now }
{
    let finished = world.finished();
    let mut place = 0;
    while place < finished.len() {
        if job_of(world, place as u64) != Some(finished[place].job) {
            return false;
        }
        place += 1;
    }
    true
}

// How many frames are written, if in the order of their numbers; None if not.
fn written(world: &World<u64, Three>) -> Option<u64> {
    let finished = world.finished();
    let mut place = 0;
    let mut frames = 0;
    while place < finished.len() {
        if let JobName::Write { frame } = finished[place].job {
            if frame != frames || finished[place].result != frames {
                return None;
            }
            frames += 1;
        }
        place += 1;
    }
    Some(frames)
}

// The number of bands of frame 0, by a meaning.
fn first_frame<M: Meaning<u64>>(bands: u64) -> u64
    requires { M.truth.bands 0 ≡ bands }
    ensures { result ≡ M.truth.bands 0 }
{
    bands
}

#[test]
fn a_call_picks_its_meaning(rt: HostRuntime) {
    assert_eq!(rt; first_frame::<Brand>(3), 3);
}

#[test]
fn an_opening_world_has_one_head(rt: HostRuntime) -> Result<(), AllocError> {
    let alloc = Global::new(rt.memory());
    let mut world: World<u64, Brand> = World::new(alloc, 2)?;
    world.step(Event::Draw)?;
    world.step(Event::Stop)?;
    assert_eq!(rt; world.drawn(), 1);
    assert!(rt; world.is_stopped());
    assert_eq!(rt; world.segments().len(), 1);
    Ok(())
}

// By the table of jobs: Parse has a Column for each column, and Close; Build has the Head of the next frame, in each superblock row one of
// Rows for each column and a Filter, and Write.
#[test]
fn jobs_stand_in_ticket_order(rt: HostRuntime) {
    let parse = Segment::Parse {
        frame: 3,
        columns: 2,
    };
    assert_eq!(rt; parse.jobs(), 3);
    assert_eq!(rt;
        parse.job(1),
        JobName::Column {
            frame: 3,
            column: 1
        }
    );
    assert_eq!(rt; parse.job(2), JobName::Close { frame: 3 });
    let build = Segment::Build {
        frame: 3,
        columns: 2,
        rows: 2,
        shown: None,
    };
    assert_eq!(rt; build.jobs(), 8);
    assert_eq!(rt; build.job(0), JobName::Head { frame: 4 });
    assert_eq!(rt;
        build.job(5),
        JobName::Rows {
            frame: 3,
            column: 1,
            row: 1
        }
    );
    assert_eq!(rt; build.job(6), JobName::Filter { frame: 3, row: 1 });
    assert_eq!(rt; build.job(7), JobName::Write { frame: 3 });
}

#[test]
fn the_first_job_needs_nothing(rt: HostRuntime) {
    let segments = [Segment::Opening];
    let head = JobName::Head { frame: 0 };
    assert_eq!(rt; job_at(&segments, 0), Some(head));
    assert_eq!(rt; job_at(&segments, 1), None);
    let nothing = Needs {
        jobs: [None, None],
        bands: [None, None, None],
    };
    assert_eq!(rt; needs_of(&segments, 2, head, [None, None, None]), nothing);
}

#[test]
fn jobs_are_done_in_ticket_order(rt: HostRuntime) -> Result<(), AllocError> {
    let world = play(Global::new(rt.memory()), Order::Forwards, false)?;
    assert_eq!(rt; world.finished().len(), JOBS);
    assert_eq!(rt; world.finished()[JOBS - 1].job, JobName::End { frame: 3 });
    assert!(rt; is_in_turn(&world));
    assert_eq!(rt; written(&world), Some(3));
    assert!(rt; !world.is_stopped());
    Ok(())
}

#[test]
fn jobs_are_done_backwards(rt: HostRuntime) -> Result<(), AllocError> {
    let world = play(Global::new(rt.memory()), Order::Backwards, false)?;
    assert_eq!(rt; world.finished().len(), JOBS);
    assert_eq!(rt; world.finished()[JOBS - 1].job, JobName::End { frame: 3 });
    // Behind Head(0) the greater of the two columns comes first.
    assert_eq!(rt;
        world.finished()[1].job,
        JobName::Column {
            frame: 0,
            column: 1
        }
    );
    assert!(rt; !is_in_turn(&world));
    assert_eq!(rt; written(&world), Some(3));
    Ok(())
}

#[test]
fn jobs_are_done_though_it_is_stopped(rt: HostRuntime) -> Result<(), AllocError> {
    let forwards = play(Global::new(rt.memory()), Order::Forwards, true)?;
    assert!(rt; forwards.is_stopped());
    assert_eq!(rt; forwards.finished().len(), JOBS);
    assert!(rt; is_in_turn(&forwards));
    assert_eq!(rt; written(&forwards), Some(3));
    let backwards = play(Global::new(rt.memory()), Order::Backwards, true)?;
    assert!(rt; backwards.is_stopped());
    assert_eq!(rt; backwards.finished().len(), JOBS);
    assert!(rt; !is_in_turn(&backwards));
    assert_eq!(rt; written(&backwards), Some(3));
    Ok(())
}
