ghost use Rattle.std.specs.Prelude.{◌≡◌, ◌+◌, ◌*◌, ◌<◌, ◌^◌, Some, None, length, slice_get};
ghost use Rattle.job_order.specs.declared.segment.Segment.TheVariants.{Parse, Build};
ghost use Rattle.job_order.specs.Code.{HasNext};
ghost use Rattle.job_order.specs.JobSegments.{jobs_of};

use vp9_types::JobName;

/// The picture that a frame shows: that of a frame, with its number of bands.
#[derive(Clone, Copy, Debug, PartialEq, Eq)]
pub struct Shown {
    pub frame: u64,
    pub bands: u32,
}

/// Jobs that are published at once. They stand in ticket order.
#[derive(Clone, Copy, Debug, PartialEq, Eq)]
pub enum Segment {
    /// What a decode begins with: the head of frame 0.
    Opening,
    /// The columns of a frame, and its close.
    Parse {
        frame: u64,
        columns: u32,
    },
    /// The head of the next frame, the superblock rows of this one, each with its columns, and its write.
    Build {
        frame: u64,
        columns: u32,
        rows: u32,
        shown: Option<Shown>,
    },
    /// The end of the run, at this frame.
    Last {
        frame: u64,
    },
}

impl Segment {
    /// How many jobs it has.
    pub fn jobs(&self) -> u64
        ensures { result ≡ length (jobs_of self.now) }
    {
        match *self {
            Segment::Opening | Segment::Last { .. } => 1,
            Segment::Parse { columns, .. } => columns as u64 + 1,
            Segment::Build { columns, rows, .. } => rows as u64 * (columns as u64 + 1) + 2,
        }
    }

    /// The job at a place in it.
    pub fn job(&self, place: u64) -> JobName
        requires inside { place < length (jobs_of self.now) }
        requires next { HasNext self.now }
        ensures { slice_get (jobs_of self.now) place ≡ Some result }
    {
        match *self {
            Segment::Opening => JobName::Head { frame: 0 },
            Segment::Parse { frame, columns } => parse_job(frame, columns, place),
            Segment::Build {
                frame,
                columns,
                rows,
                ..
            } => build_job(frame, columns, rows, place),
            Segment::Last { frame } => JobName::End { frame },
        }
    }
}

fn parse_job(frame: u64, columns: u32, place: u64) -> JobName
    requires { place < columns + 1 }
    ensures { slice_get (jobs_of (Parse frame columns)) place ≡ Some result }
{
    if place < columns as u64 {
        JobName::Column {
            frame,
            column: place as u32,
        }
    } else {
        JobName::Close { frame }
    }
}

fn build_job(frame: u64, columns: u32, rows: u32, place: u64) -> JobName
    requires inside { place < rows * (columns + 1) + 2 }
    requires next { frame + 1 < 2 ^ 64 }
    ensures { slice_get (jobs_of (Build frame columns rows None)) place ≡ Some result }
{
    if place == 0 {
        return JobName::Head { frame: frame + 1 };
    }
    let wide = columns as u64 + 1;
    let row = (place - 1) / wide;
    let column = (place - 1) % wide;
    if row >= rows as u64 {
        JobName::Write { frame }
    } else if column == columns as u64 {
        JobName::Filter {
            frame,
            row: row as u32,
        }
    } else {
        JobName::Rows {
            frame,
            column: column as u32,
            row: row as u32,
        }
    }
}
