ghost use Rattle.std.specs.Prelude.{◌≡◌, true, Some, IfOk};
ghost use Rattle.vp9_types.specs.declared.job.JobName.{JobName};
ghost use Rattle.vp9_types.specs.declared.job.JobName.TheVariants.{Head};
ghost use Rattle.job_order.specs.JobSegments.{job_at};
ghost use Rattle.job_order.specs.Worlds.{published, IsAllowed, IsReached, IsReady};
ghost use Rattle.job_order.specs.Sound.{frame_of};
ghost use Rattle.job_order.specs.Example.{example_rules, both_before, reads_before};

use job_order::{
    Event, Meaning, Segment, Shown, World, job_at, reached_worlds_are_sound, some_rules_are_true,
};
use std::alloc::{AllocError, Global};
use vp9_types::{BandSpan, JobName};

/// Three frames of two columns and two superblock rows.
pub struct Three;

impl Meaning<u64> for Three {
    ghost use Rattle.job_order.specs.Example.{example_rules, example_truth};

    ghost rules = { example_rules };

    ghost truth = { example_truth };
}

/// Which jobs come first.
#[derive(Clone, Copy, Debug, PartialEq, Eq)]
pub enum Order {
    /// A ticket is drawn, and its job is finished.
    Forwards,
    /// All published tickets are drawn, and the ready job of the greatest is finished.
    Backwards,
}

/// The run in this order, with a Stop after each event or none.
pub fn play(alloc: Global, order: Order, stops: bool) -> Result<World<u64, Three>, AllocError>
    ensures { IfOk result (λ w. IsReached example_rules 2 w) }
{
    reached_worlds_are_sound::<u64, Three>();
    let mut world = World::new(alloc, 2)?;
    let mut rounds: u32 = 0;
    while rounds < 100 {
        draw_some(&mut world, order, stops)?;
        match next(&world, order) {
            Some(job) => finish(&mut world, job, stops)?,
            None => return Ok(world),
        }
        rounds += 1;
    }
    Ok(world)
}

fn draw_some(world: &mut World<u64, Three>, order: Order, stops: bool) -> Result<(), AllocError>
    requires { IsReached example_rules 2 world.old }
    ensures { IsReached example_rules 2 world.new }
{
    match order {
        Order::Forwards => draw(world, stops),
        Order::Backwards => draw_all(world, stops),
    }
}

fn draw_all(world: &mut World<u64, Three>, stops: bool) -> Result<(), AllocError>
    requires { IsReached example_rules 2 world.old }
    ensures { IsReached example_rules 2 world.new }
{
    let mut rounds: u32 = 0;
    while rounds < 100 && has_ticket(world) {
        draw(world, stops)?;
        rounds += 1;
    }
    Ok(())
}

// The next ticket is published.
fn has_ticket(world: &World<u64, Three>) -> bool
    requires { IsReached example_rules 2 world.now }
    ensures { result ≡ true → (job : JobName) × (job_at world.now.segments world.now.drawn ≡ Some job) }
{
    job_of(world, world.drawn()).is_some()
}

/// The job of a ticket.
pub fn job_of(world: &World<u64, Three>, ticket: u64) -> Option<JobName>
    requires { IsReached example_rules 2 world.now }
    ensures { result ≡ job_at world.now.segments ticket }
{
    reached_worlds_are_sound::<u64, Three>();
    some_rules_are_true();
    job_at(world.segments(), ticket)
}

fn draw(world: &mut World<u64, Three>, stops: bool) -> Result<(), AllocError>
    requires { IsReached example_rules 2 world.old }
    ensures { IsReached example_rules 2 world.new }
{
    step(world, Event::Draw)?;
    stop(world, stops)
}

fn stop(world: &mut World<u64, Three>, stops: bool) -> Result<(), AllocError>
    requires { IsReached example_rules 2 world.old }
    ensures { IsReached example_rules 2 world.new }
{
    if stops {
        step(world, Event::Stop)
    } else {
        Ok(())
    }
}

fn step(world: &mut World<u64, Three>, event: Event<u64>) -> Result<(), AllocError>
    requires reached { IsReached example_rules 2 world.old }
    requires allowed { IsAllowed example_rules world.old event }
    ensures { IsReached example_rules 2 world.new }
{
    reached_worlds_are_sound::<u64, Three>();
    world.step(event)
}

fn finish(world: &mut World<u64, Three>, job: JobName, stops: bool) -> Result<(), AllocError>
    requires reached { IsReached example_rules 2 world.old }
    requires ready { IsReady example_rules world.old job }
    ensures { IsReached example_rules 2 world.new }
{
    reached_worlds_are_sound::<u64, Three>();
    some_rules_are_true();
    let event = Event::Finish {
        job,
        result: frame_of(job),
        publishes: publishes(job),
    };
    step(world, event)?;
    stop(world, stops)
}

// A drawn job that is ready: that of the smallest ticket, or of the greatest.
fn next(world: &World<u64, Three>, order: Order) -> Option<JobName>
    requires { IsReached example_rules 2 world.now }
    ensures { (job : JobName) → result ≡ Some job → IsReady example_rules world.now job }
{
    reached_worlds_are_sound::<u64, Three>();
    some_rules_are_true();
    let drawn = world.drawn();
    let mut passed = 0;
    while passed < drawn {
        let ticket = match order {
            Order::Forwards => passed,
            Order::Backwards => drawn - 1 - passed,
        };
        if let Some(job) = job_of(world, ticket) {
            if world.is_ready(job, reads_of(job)) {
                return Some(job);
            }
        }
        passed += 1;
    }
    None
}

fn frame_of(job: JobName) -> u64
    ensures { result ≡ frame_of job }
{
    match job {
        JobName::Head { frame } => frame,
        JobName::Column { frame, .. } => frame,
        JobName::Close { frame } => frame,
        JobName::Rows { frame, .. } => frame,
        JobName::Filter { frame, .. } => frame,
        JobName::Write { frame } => frame,
        JobName::End { frame } => frame,
    }
}

fn reads_of(job: JobName) -> [Option<BandSpan>; 3]
    ensures { result ≡ reads_before job }
{
    match job {
        JobName::Rows { frame, .. } => [both_before(frame), None, None],
        _ => [None, None, None],
    }
}

fn both_before(frame: u64) -> Option<BandSpan>
    ensures { result ≡ both_before frame }
{
    if 0 < frame {
        Some(BandSpan {
            frame: frame - 1,
            first: 0,
            last: 1,
        })
    } else {
        None
    }
}

fn publishes(job: JobName) -> Option<Segment>
    ensures { result ≡ published example_rules job (frame_of job) }
{
    match job {
        JobName::Head { frame } => Some(parsed(frame)),
        JobName::Close { frame } => Some(Segment::Build {
            frame,
            columns: 2,
            rows: 2,
            shown: Some(Shown { frame, bands: 2 }),
        }),
        _ => None,
    }
}

fn parsed(frame: u64) -> Segment
    ensures { Some result ≡ published example_rules (Head frame) frame }
{
    if frame < 3 {
        Segment::Parse { frame, columns: 2 }
    } else {
        Segment::Last { frame }
    }
}
