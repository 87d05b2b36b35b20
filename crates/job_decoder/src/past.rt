//! What is kept of frames that are decoded.

ghost use Rattle.std.specs.Prelude.{◌≡◌, ℕ, []};
ghost use Rattle.frame_output.specs.declared.rendering.Format.{Format};
ghost use Rattle.job_decoder.specs.Pasts.{IsPast, frames_behind};

use boxcar::tag::{Names, Tag};
use job_crew::FrameResults;
use job_rows::job_results::JobResult;
use std::alloc::Global;

/// Frames that are decoded: how many they are, and those of their results that jobs of later frames ask for. Which frames they were is
/// told by a tag, which takes no memory.
#[derive(Drop)]
pub struct Past {
    pub(crate) count: u64,
    pub(crate) kept: Vec<FrameResults<JobResult<'static>>>,
    pub(crate) frames: Tag,
}

impl Past {
    /// Before the first frame.
    pub fn none(alloc: Global) -> Past
        ensures frames { frames_behind result ≡ [] }
        ensures past { (format : Format) (rate : ℕ × ℕ) → IsPast format rate result }
    {
        Past {
            count: 0,
            kept: Vec::new(alloc),
            frames: Tag::empty(),
        }
    }

    /// How many frames are decoded.
    pub fn count(&self) -> u64
        ensures { result ≡ self.now.count }
    {
        self.count
    }
}

/// Frames that are decoded, and those behind them.
#[derive(Clone, Copy)]
pub(crate) struct FramesBehind<'b, 'f> {
    pub(crate) before: &'b Tag,
    pub(crate) frames: &'b [&'f [u8]],
}

/// The numbers of all of them.
pub(crate) struct Appended;

impl<'b, 'f> Names<FramesBehind<'b, 'f>> for Appended {
    ghost use Rattle.std.specs.Prelude.{◌++◌, map};
    ghost use Rattle.job_decoder.specs.Pasts.{numbers_of};

    ghost numbers = { λ behind. behind.before.now.numbers ++ numbers_of (map (λ frame. frame.now) behind.frames.now) };
}
