//! How a decode ends at a frame.

ghost use Rattle.std.specs.Prelude.{◌≡◌};
ghost use Rattle.seq_decoder.specs.Code.{halt_outcome, refusal_outcome};
ghost use Rattle.seq_decoder.specs.Outcomes.{outcome_at};

use edge_io::PutFault;
use frame_state::Halt;
use vp9_types::{Outcome, Rule, Stop};

/// At one that breaks a rule.
pub fn outcome_at(frame: u64, rule: Rule) -> Outcome
    ensures { result ≡ outcome_at frame rule }
{
    Outcome::Broken(Stop { frame, rule })
}

pub fn halt_outcome(frame: u64, halt: Halt) -> Outcome
    ensures { result ≡ halt_outcome frame halt }
{
    match halt {
        Halt::Broken(rule) => outcome_at(frame, rule),
        Halt::OutOfMemory => Outcome::OutOfMemory,
    }
}

pub fn refusal_outcome(refusal: PutFault) -> Outcome
    ensures { result ≡ refusal_outcome refusal }
{
    match refusal {
        PutFault::Failed => Outcome::WriteFault,
        PutFault::OutOfMemory => Outcome::OutOfMemory,
    }
}
