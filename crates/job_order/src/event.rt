use crate::segment::Segment;
use vp9_types::JobName;

/// A job that is done, and its result.
#[derive(Clone, Copy, Debug, PartialEq, Eq)]
pub struct Done<X> {
    pub job: JobName,
    pub result: X,
}

/// A band of a frame.
#[derive(Clone, Copy, Debug, PartialEq, Eq)]
pub struct BandName {
    pub frame: u64,
    pub band: u32,
}

/// One step of the world.
#[derive(Clone, Copy, Debug, PartialEq, Eq)]
pub enum Event<X> {
    /// A ticket is drawn.
    Draw,
    /// A job has its result, which publishes these jobs.
    Finish {
        job: JobName,
        result: X,
        publishes: Option<Segment>,
    },
    /// A band may be read.
    Announce {
        frame: u64,
        band: u32,
    },
    /// The decode is to stop.
    Stop,
}
