ghost use Rattle.std.specs.Prelude.{◌≡◌, ◌≤◌, List};
ghost use Rattle.job_order.specs.Code.{IsMark};
ghost use Rattle.job_order.specs.JobSegments.{InOrder, job_at};
ghost use Rattle.job_order.specs.declared.segment.Segment.{Segment};

use crate::segment::Segment;
use vp9_types::JobName;

/// A place in ticket order: a segment, and the first ticket behind those before it.
#[derive(Clone, Copy, Debug, PartialEq, Eq)]
pub struct Mark {
    segment: usize,
    ticket: u64,
}

impl Mark {
    /// The first ticket.
    pub fn first() -> Mark
        ensures mark { (segments : List Segment) → IsMark segments result }
        ensures first { result.ticket ≡ 0 }
    {
        Mark {
            segment: 0,
            ticket: 0,
        }
    }
}

/// The job of a ticket. There is none exactly past the last segment.
pub fn job_at(segments: &[Segment], ticket: u64) -> Option<JobName>
    requires { InOrder segments.now }
    ensures { result ≡ job_at segments.now ticket }
{
    let mut mark = Mark::first();
    job_from(segments, &mut mark, ticket)
}

/// The same for a ticket that doesn't stand before the mark, which is moved up to the ticket's segment: who asks for one
/// ticket after another goes over the segments once.
pub fn job_from(segments: &[Segment], mark: &mut Mark, ticket: u64) -> Option<JobName>
    requires order { InOrder segments.now }
    requires mark { IsMark segments.now mark.old }
    requires later { mark.old.ticket ≤ ticket }
    ensures job { result ≡ job_at segments.now ticket }
    ensures mark { IsMark segments.now mark.new }
    ensures later { mark.new.ticket ≤ ticket }
{
    while mark.segment < segments.len() {
        let segment = segments[mark.segment];
        let jobs = segment.jobs();
        if ticket - mark.ticket < jobs {
            return Some(segment.job(ticket - mark.ticket));
        }
        mark.segment += 1;
        mark.ticket += jobs;
    }
    None
}
