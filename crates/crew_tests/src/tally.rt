ghost use Rattle.std.specs.Prelude.{◌≡◌};

use std::marker::Model;
use std::sync::atomic::{AtomicU64, Ordering};

/// How many numbers are there, and the most that there were at once.
#[derive(Drop)]
pub struct Tally {
    there: AtomicU64,
    most: AtomicU64,
}

impl Tally {
    pub fn new() -> Tally {
        Tally {
            there: AtomicU64::new(0),
            most: AtomicU64::new(0),
        }
    }

    pub fn there(&self) -> u64 {
        self.there.load(Ordering::SeqCst)
    }

    pub fn most(&self) -> u64 {
        self.most.load(Ordering::SeqCst)
    }

    fn gain(&self) {
        let before = self.there.fetch_add(1, Ordering::SeqCst);
        self.most
            .fetch_max(before.saturating_add(1), Ordering::SeqCst);
    }

    fn lose(&self) {
        self.there.fetch_sub(1, Ordering::SeqCst);
    }
}

/// A number that a tally counts as long as it is there.
pub struct Number<'a> {
    value: u64,
    tally: &'a Tally,
}

impl<'a> Model for Number<'a> {
    ghost use Rattle.std.specs.Prelude.{ℕ};

    ghost Value = { ℕ };

    ghost view = { λ n. n.value };
}

impl<'a> Number<'a> {
    pub fn new(tally: &'a Tally, value: u64) -> Number<'a>
        ensures { result ≡ value }
    {
        tally.gain();
        Number { value, tally }
    }

    pub fn value(&self) -> u64
        ensures { result ≡ self.now }
    {
        self.value
    }
}

impl Drop for Number<'_> {
    fn drop(self) {
        self.tally.lose();
        let Number { value: _, tally: _ } = self;
    }
}
