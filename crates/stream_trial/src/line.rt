//! The line that tells what a stream shows.

ghost use Rattle.std.specs.Prelude.{◌≡◌, IfOk, string_bytes};
ghost use Rattle.stream_trial.specs.TrialLines.{line_of};

use std::alloc::{AllocError, Global};

/// The line of so many frames, of so many bytes with this sum.
#[tactic(auto, unfolding(crate::specs::TrialLines::line_of))]
pub(crate) fn line_of(
    alloc: Global,
    shown: u64,
    bytes: usize,
    sum: u64,
) -> Result<String, AllocError>
    ensures { IfOk result (λ line. string_bytes line ≡ line_of shown bytes sum) }
{
    let digits = hex::encode(alloc, sum.to_be_bytes())?;
    let mut line = String::new(alloc);
    writeln!(line, "frames {shown} bytes {bytes} sum {digits}")?;
    Ok(line)
}
