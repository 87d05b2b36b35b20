use vp9_types::JobName;

/// Who is told of each job as it begins and as it ends. It has no meaning: it can't change an answer.
pub trait Gate {
    /// The job begins.
    fn enter(&self, job: JobName);

    /// The job has ended.
    fn leave(&self, job: JobName);
}

/// A gate that holds no job.
#[derive(Clone, Copy, Debug, PartialEq, Eq)]
pub struct OpenGate;

impl Gate for OpenGate {
    fn enter(&self, _job: JobName) {}

    fn leave(&self, _job: JobName) {}
}
