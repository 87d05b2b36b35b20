//! How many frames a file shows, by the headers of its frames.

ghost use Rattle.std.specs.Prelude.{◌≡◌, ◌≤◌, None};
ghost use Rattle.job_decoder.specs.seq_decoder.Runs.{run_of};
ghost use Rattle.stream_trial.specs.Code.{IsCounted};
ghost use Rattle.stream_trial.specs.TrialLines.{shown_count};

use file_frames::FrameCursor;
use frame_headers::{FrameHead, Persist, read};

/// How many frames a frame shows, by its header alone. What headers read is then what it leaves.
fn count_frame(persist: &mut Persist, frame: &[u8]) -> u64
    ensures counts { IsCounted frame.now persist.old persist.new result }
    ensures one { result ≤ 1 }
{
    match read(frame, persist) {
        Ok(FrameHead::Coded { header, .. }) => {
            *persist = header.next(persist);
            if header.show_frame { 1 } else { 0 }
        }
        Ok(FrameHead::ShowExisting { .. }) => 1,
        Err(_) => 0,
    }
}

/// How many frames a file shows that breaks no rule.
pub(crate) fn count_shown(file: &[u8]) -> u64
    ensures { (run_of file.now).ending ≡ None → result ≡ shown_count file.now }
{
    let mut persist = Persist::START;
    let mut frames = FrameCursor::new(file);
    let mut count: u64 = 0;
    'frames: loop {
        let frame = match frames.next_frame() {
            Ok(Some(frame)) => frame,
            Ok(None) => return count,
            Err(_) => return count,
        };
        count += count_frame(&mut persist, frame.bytes);
    }
}
