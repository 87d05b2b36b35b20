//! The results of jobs.

use crate::any_planes::AnyPlanes;
use crate::reads::RowReads;
use edge_io::PutFault;
use frame_steps::tile_syntax::Unplanned;
use frame_steps::{BegunFrame, Kept, PlannedColumn};
use numbered_frames::seq_decoder::OutputForm;
use vp9_types::{Outcome, Shape};

/// The frame of this number and shape is shown.
#[derive(Clone, Copy, Debug, PartialEq, Eq)]
pub struct ShownFrame {
    pub frame: u64,
    pub shape: Shape,
}

/// A frame whose tile columns are joined: what is kept behind it, of how many tile columns and rows of superblocks it is, which bands of
/// other frames these rows read, what it shows, and how that is put.
#[derive(Drop)]
pub struct ClosedFrame {
    pub kept: Kept,
    pub columns: u32,
    pub rows: u32,
    pub reads: RowReads,
    pub shown: Option<ShownFrame>,
    pub form: OutputForm,
}

/// What a job leaves.
#[derive(Drop)]
pub enum JobResult<'a> {
    /// A head: the frame is coded, and its headers are read.
    Begun(Box<BegunFrame<'a>>),
    /// A head: the frame shows what this slot holds.
    Existing(u8),
    /// A tile column.
    Column(Result<PlannedColumn, Unplanned>),
    /// A close.
    Closed(Box<ClosedFrame>),
    /// A row of superblocks of a tile column, before the loop filter.
    Strip(AnyPlanes),
    /// A row of superblocks of the frame and the rows above it, filtered.
    Filtered(AnyPlanes),
    /// A row of superblocks for which there was no memory.
    Starved,
    /// A write.
    Written,
    /// A write that the sink refused.
    Refused(PutFault),
    /// A head, a close or an end: so the run ends at the frame.
    Ended(Outcome),
}
