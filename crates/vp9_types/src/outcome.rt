use crate::rule::Rule;

/// Where a run ends that breaks a rule: the frame's number in the file, and the first rule that it breaks.
#[derive(Clone, Copy, Debug, PartialEq, Eq)]
pub struct Stop {
    pub frame: u64,
    pub rule: Rule,
}

/// How a decode ends.
#[derive(Clone, Copy, Debug, PartialEq, Eq)]
pub enum Outcome {
    Done,
    Broken(Stop),
    ReadFault,
    WriteFault,
    OutOfMemory,
}
