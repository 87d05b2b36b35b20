use edge_io::Gate;
use std::sync::atomic::{AtomicU64, Ordering};
use vp9_types::JobName;

/// Counts the jobs that have begun, and those that have ended.
#[derive(Drop)]
pub struct Counter {
    pub begun: AtomicU64,
    pub ended: AtomicU64,
}

impl Gate for Counter {
    fn enter(&self, _job: JobName) {
        self.begun.fetch_add(1, Ordering::SeqCst);
    }

    fn leave(&self, _job: JobName) {
        self.ended.fetch_add(1, Ordering::SeqCst);
    }
}
