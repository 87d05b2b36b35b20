//! A trial of the decoder.

ghost use Rattle.std.specs.Prelude.{◌≡◌, IfOk, IfErr, string_bytes};
ghost use Rattle.frame_output.specs.declared.rendering.Format.TheVariants.{Raw};
ghost use Rattle.job_decoder.specs.seq_decoder.Outputs.{output_of};
ghost use Rattle.stream_trial.specs.Code.{HasNoLine, IsNoFault, Sums, Tells};
ghost use Rattle.stream_trial.specs.Trials.{IsTrialLine};
ghost use Rattle.stream_trial.specs.declared.trial.NoLine.TheVariants as no_line;

use crate::count::count_shown;
use crate::line::line_of;
use crate::sink::Kept;
use crate::sum::sum_of;
use edge_io::Gate;
use frame_output::Format;
use job_decoder::seq_decoder::decode_plain;
use job_decoder::{Crew, decode_by_jobs};
use std::alloc::{AllocError, Global};
use std::sync::Wait;
use std::thread::Threads;
use stream_forge::{NotMade, make_stream};
use vp9_types::{Outcome, Stop};

/// How many frames a crew has at work at once.
const WINDOW: u8 = 4;

/// Why a trial has no line.
#[derive(Clone, Copy, Debug, PartialEq, Eq)]
pub enum NoLine {
    /// A frame of the stream breaks a rule.
    Broken(Stop),
    OutOfMemory,
}

impl From<AllocError> for NoLine {
    ghost from_gives = { λ _ e. e ≡ no_line.OutOfMemory };

    fn from(_: AllocError) -> Self {
        NoLine::OutOfMemory
    }
}

/// How many bytes a text has, and their sum.
#[derive(Clone, Copy)]
struct Sum {
    bytes: usize,
    sum: u64,
}

/// The sum of what a sink has taken of a decode that ended so.
fn sum_in(outcome: Outcome, sink: &Kept) -> Result<Sum, NoLine>
    requires { IsNoFault outcome }
    ensures { Sums outcome sink.now.bytes.items result }
{
    match outcome {
        Outcome::Done => Ok(Sum {
            bytes: sink.bytes.len(),
            sum: sum_of(&sink.bytes),
        }),
        Outcome::Broken(stop) => Err(NoLine::Broken(stop)),
        Outcome::OutOfMemory => Err(NoLine::OutOfMemory),
        Outcome::ReadFault | Outcome::WriteFault => unreachable!(),
    }
}

/// Decodes a file on this thread.
fn try_plain(alloc: Global, file: &[u8]) -> Result<Sum, NoLine>
    ensures { Tells (output_of Raw file.now) result }
{
    let mut sink = Kept::new(alloc);
    let outcome = decode_plain(alloc, Format::Raw, file, &mut sink);
    sum_in(outcome, &sink)
}

/// Decodes a file by a crew of so many workers.
fn try_crew<R: Threads + Wait + Sync, G: Gate + Sync>(
    rt: &R,
    alloc: Global,
    workers: u8,
    file: &[u8],
    gate: &G,
) -> Result<Sum, NoLine>
    ensures { Tells (output_of Raw file.now) result }
{
    let crew = Crew {
        workers,
        window: WINDOW,
        gate,
    };
    let decoded = decode_by_jobs(rt, alloc, &crew, Format::Raw, file, Kept::new(alloc));
    sum_in(decoded.outcome, &decoded.sink)
}

/// Makes the stream of so many frames that is made from a number, decodes it on one thread, by one worker and by four, and gives
/// the line of what it shows. The three are the same by their contracts, so the last is told.
pub fn trial_line<R: Threads + Wait + Sync, G: Gate + Sync>(
    rt: &R,
    alloc: Global,
    number: u32,
    frames: u32,
    gate: &G,
) -> Result<String, NoLine>
    ensures line { IfOk result (λ line. IsTrialLine number frames (string_bytes line)) }
    ensures none { IfErr result (λ why. HasNoLine number frames why) }
{
    let file = match make_stream(alloc, number, frames) {
        Ok(file) => file,
        Err(NotMade::OutOfMemory) => return Err(NoLine::OutOfMemory),
    };
    try_plain(alloc, &file)?;
    try_crew(rt, alloc, 1, &file, gate)?;
    let told = try_crew(rt, alloc, 4, &file, gate)?;
    let shown = count_shown(&file);
    Ok(line_of(alloc, shown, told.bytes, told.sum)?)
}
