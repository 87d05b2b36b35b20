//! What a frame shows, written.

ghost use Rattle.std.specs.Prelude.{◌≡◌, Some};
ghost use Rattle.frame_output.specs.Formats.{output_text};
ghost use Rattle.job_rows.specs.numbered_frames.FrameNumbers.{text};
ghost use Rattle.job_rows.specs.numbered_frames.NumberedPictures.{pictures};
ghost use Rattle.job_rows.specs.seq_decoder.Code.{Shows};
ghost use Rattle.job_rows.specs.seq_decoder.Outputs.{is_first};
ghost use Rattle.job_rows.specs.job_results.JobResults.{IsShown};

use edge_io::{PutFault, Sink};
use frame_output::render_as;
use job_rows::filtered_rows::FilteredFrame;
use job_rows::job_results::{Decode, DecodeRun, JobResult, Lookup, ShownFrame, closed};
use job_rows::seq_decoder::{LEAST_BUFFER, OutputForm, lengthen};
use job_rows::{PlaneSample, rows_of};
use std::alloc::Global;
use vp9_types::{Depth, Sample};

/// Writes a frame whose samples are kept so, by a room for its text that is used again.
fn write_shown<'a, P: PlaneSample, B: DecodeRun, K: Sink, R: Lookup<JobResult<'a>, Decode<B>>>(
    alloc: Global,
    results: &R,
    form: &OutputForm,
    shown: &ShownFrame,
    room: &mut Vec<u8>,
    sink: &mut K,
) -> Result<(), PutFault>
    requires shown { IsShown B.format B.film (Some shown.now) }
    requires keeps { P.keeps shown.now.shape.depth }
    requires sink { K.can_put sink.old }
    ensures shows { Shows (output_text form.now.format form.now.rate (is_first form.now.first) shown.now.shape (pictures B.format B.film shown.now.frame).map)
        (K.taken sink.old) (K.taken sink.new) (K.faults sink.old) (K.faults sink.new) result }
    ensures grows { K.grows sink.new ≡ K.grows sink.old }
    ensures again { K.faults sink.new ≡ K.faults sink.old → K.can_put sink.new }
{
    let rows = rows_of::<P, B, R>(
        alloc,
        results,
        shown.frame,
        0,
        shown.shape.superblock_rows(),
    )?;
    let least = LEAST_BUFFER.max(2 * shown.shape.w as usize);
    lengthen(alloc, room, least)?;
    let frame: FilteredFrame<'_, P, Decode<B>> = FilteredFrame::new(
        shown.frame,
        shown.shape,
        0,
        &rows,
    );
    render_as(&form.rendering(), &shown.shape, &frame, room, sink)
}

/// Writes what a frame shows, if it shows something.
pub fn write<'a, B: DecodeRun, K: Sink, R: Lookup<JobResult<'a>, Decode<B>>>(
    alloc: Global,
    number: u64,
    results: &R,
    room: &mut Vec<u8>,
    sink: &mut K,
) -> Result<(), PutFault>
    requires { K.can_put sink.old }
    ensures shows { Shows (text B.format B.film number) (K.taken sink.old) (K.taken sink.new) (K.faults sink.old) (K.faults sink.new) result }
    ensures grows { K.grows sink.new ≡ K.grows sink.old }
    ensures again { K.faults sink.new ≡ K.faults sink.old → K.can_put sink.new }
{
    let closed = closed::<B, R>(results, number);
    let Some(shown) = &closed.shown else {
        return Ok(());
    };
    match shown.shape.depth {
        Depth::Eight => write_shown::<u8, B, K, R>(alloc, results, &closed.form, shown, room, sink),
        Depth::Ten | Depth::Twelve => {
            write_shown::<u16, B, K, R>(alloc, results, &closed.form, shown, room, sink)
        }
    }
}
