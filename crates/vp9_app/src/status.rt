ghost use Rattle.std.specs.Prelude.{◌≡◌};
ghost use Rattle.vp9_app.specs.Statuses.{code_of, status_of_ending};
ghost use Rattle.vp9_app.specs.Code.{ending_of};

use vp9_types::{Outcome, Stop};

/// How a run of the program ends.
#[derive(Clone, Copy, Debug, PartialEq, Eq)]
pub enum Status {
    /// All is written.
    Done,
    /// The words are no command.
    Usage,
    /// A frame breaks a rule; what comes before it is written.
    Broken(Stop),
    /// The source failed.
    ReadFault,
    /// A sink failed.
    WriteFault,
    OutOfMemory,
}

impl Status {
    /// The exit status of the program.
    pub fn code(self) -> u8
        ensures { result ≡ code_of self }
    {
        match self {
            Status::Done => 0,
            Status::Usage => 2,
            Status::Broken(_) => 3,
            Status::ReadFault => 4,
            Status::WriteFault => 5,
            Status::OutOfMemory => 6,
        }
    }
}

/// How a listing ends, by the frame that breaks a rule, if one does.
pub fn listing_status(ending: Option<Stop>) -> Status
    ensures { result ≡ status_of_ending (ending_of ending) }
{
    match ending {
        None => Status::Done,
        Some(stop) => Status::Broken(stop),
    }
}

impl From<Outcome> for Status {
    ghost use Rattle.std.specs.Prelude.{◌≡◌};
    ghost use Rattle.vp9_app.specs.Statuses.{decode_ended};

    ghost from_gives = { λ outcome status. status ≡ decode_ended outcome };

    fn from(outcome: Outcome) -> Status {
        match outcome {
            Outcome::Done => Status::Done,
            Outcome::Broken(stop) => Status::Broken(stop),
            Outcome::ReadFault => Status::ReadFault,
            Outcome::WriteFault => Status::WriteFault,
            Outcome::OutOfMemory => Status::OutOfMemory,
        }
    }
}
