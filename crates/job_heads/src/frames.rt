//! The frames of a film, one after another.

ghost use Rattle.std.specs.Prelude.{◌≡◌, ◌<◌, ◌≤◌, ◌^◌, IfOk, drop, length, map};
ghost use Rattle.std.specs.Option.{option_map};
ghost use Rattle.job_results.specs.numbered_frames.FrameNumbers.{file_ending, frame_at};
ghost use Rattle.job_results.specs.seq_decoder.Outputs.{form_from};
ghost use Rattle.job_heads.specs.FrameLists.{AreFrames};
ghost use Rattle.job_results.specs.JobResults.{outcome_of};

use file_frames::FrameCursor;
use job_results::DecodeRun;
use job_results::seq_decoder::{OutputForm, outcome_at};
use std::alloc::{AllocError, Global};
use std::marker::PhantomData;
use vp9_types::{Outcome, Rule};

/// Frames, one after another, and the rule that is broken behind them, if one is.
#[derive(Drop)]
pub struct FoundFrames<'a> {
    pub frames: Vec<&'a [u8]>,
    pub ending: Option<Rule>,
}

/// The frames of a file.
pub fn find_frames(alloc: Global, bytes: &[u8]) -> Result<FoundFrames<'_>, AllocError>
    ensures { IfOk result (λ f. AreFrames bytes.now (map (λ frame. frame.now) f.frames.items) f.ending) }
{
    let mut cursor = FrameCursor::new(bytes);
    let mut frames = Vec::new(alloc);
    'frames: loop {
        match cursor.next_frame() {
            Ok(Some(frame)) => frames.push(frame.bytes)?,
            Ok(None) => return Ok(FoundFrames {
                frames,
                ending: None,
            }),
            Err(stop) => return Ok(FoundFrames {
                frames,
                ending: Some(stop.rule),
            }),
        }
    }
}

/// The frames of a film from one on: their bytes in order, how the film ends behind them, and how frames are put.
#[derive(Drop)]
pub struct FrameList<'a, B: DecodeRun> {
    first: u64,
    frames: Vec<&'a [u8]>,
    ending: Option<Rule>,
    form: OutputForm,
    of: PhantomData<B>,
    ghost first_is: { first ≡ B.first },
    ghost frames_are: { map (λ frame. frame.now) frames.items ≡ drop B.first B.film.frames },
    ghost few: { length B.film.frames < 2 ^ 64 },
    ghost ending_is: { ending ≡ B.film.ending },
    ghost form_is: { form ≡ form_from B.format B.film.rate },
}

impl<'a, B: DecodeRun> FrameList<'a, B> {
    /// The frames that a run decodes, from the one of this number on, and how they are put.
    pub fn new(first: u64, found: FoundFrames<'a>, form: OutputForm) -> FrameList<'a, B>
        requires first { first ≡ B.first }
        requires frames { map (λ frame. frame.now) found.frames.items ≡ drop B.first B.film.frames }
        requires few { length B.film.frames < 2 ^ 64 }
        requires ending { found.ending ≡ B.film.ending }
        requires form { form ≡ form_from B.format B.film.rate }
    {
        let FoundFrames { frames, ending } = found;
        FrameList {
            first,
            frames,
            ending,
            form,
            of: PhantomData,
        }
    }

    /// The number of the first frame.
    pub fn first(&self) -> u64
        ensures is { result ≡ B.first }
        ensures few { length B.film.frames < 2 ^ 64 }
    {
        self.first
    }

    /// How frames are put, before the first one of the film.
    pub(crate) fn form(&self) -> OutputForm
        ensures { result ≡ form_from B.format B.film.rate }
    {
        self.form
    }

    /// The bytes of a frame, none behind the last one.
    pub(crate) fn frame(&self, number: u64) -> Option<&'a [u8]>
        requires { B.first ≤ number }
        ensures { option_map (λ bytes. bytes.now) result ≡ frame_at B.film number }
    {
        match self.frames.get((number - self.first) as usize) {
            Some(bytes) => Some(*bytes),
            None => None,
        }
    }

    /// How the run ends at a frame that isn't there.
    pub(crate) fn outcome(&self, number: u64) -> Outcome
        ensures { result ≡ outcome_of (file_ending number B.film.ending) }
    {
        match self.ending {
            None => Outcome::Done,
            Some(rule) => outcome_at(number, rule),
        }
    }
}
