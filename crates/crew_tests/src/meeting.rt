use edge_io::Gate;
use std::sync::atomic::{AtomicBool, Ordering};
use std::thread;
use vp9_types::JobName;

/// Holds two jobs until both are at work, or for so many looks.
#[derive(Drop)]
pub struct Meeting {
    first: JobName,
    second: JobName,
    looks: u32,
    has_first: AtomicBool,
    has_second: AtomicBool,
    met: AtomicBool,
}

impl Meeting {
    pub fn new(first: JobName, second: JobName, looks: u32) -> Meeting {
        Meeting {
            first,
            second,
            looks,
            has_first: AtomicBool::new(false),
            has_second: AtomicBool::new(false),
            met: AtomicBool::new(false),
        }
    }

    /// Whether both were at work at the same time.
    pub fn has_met(&self) -> bool {
        self.met.load(Ordering::SeqCst)
    }

    fn wait_for(&self, other: &AtomicBool) {
        for _ in 0..self.looks {
            if self.has_met() || other.load(Ordering::SeqCst) {
                self.met.store(true, Ordering::SeqCst);
                return;
            }
            thread::yield_now();
        }
    }
}

impl Gate for Meeting {
    fn enter(&self, job: JobName) {
        if job == self.first {
            self.has_first.store(true, Ordering::SeqCst);
            self.wait_for(&self.has_second);
        } else if job == self.second {
            self.has_second.store(true, Ordering::SeqCst);
            self.wait_for(&self.has_first);
        }
    }

    fn leave(&self, job: JobName) {
        if job == self.first {
            self.has_first.store(false, Ordering::SeqCst);
        } else if job == self.second {
            self.has_second.store(false, Ordering::SeqCst);
        }
    }
}
