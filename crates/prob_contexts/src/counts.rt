ghost use Rattle.std.specs.Prelude.{◌≡◌, ◌+◌, ◌*◌, ◌<◌, ◌≤◌, ◌^◌, ℕ, List, length, IfOk};

use crate::kind::ProbKind;
use std::alloc::{AllocError, Global};
use std::marker::Model;

/// How often each node of the probabilities was left by a 0 and by a 1.
#[derive(Drop)]
pub struct Counts {
    counters: Box<[u64; 3790]>,
}

impl Model for Counts {
    ghost use Rattle.std.specs.Prelude.{List, ℕ};

    ghost Value = { List ℕ };

    ghost view = { λ c. c.counters.value };
}

impl Counts {
    ghost use Rattle.prob_contexts.specs.Code.{no_counts, with_bool, joined_counts, counter_of};
    ghost use Rattle.prob_contexts.specs.Kinds.{kind_size};

    /// Nothing is counted.
    pub fn new(alloc: Global) -> Result<Self, AllocError>
        ensures { IfOk result (λ counts. counts ≡ no_counts) }
    {
        Ok(Counts {
            counters: Box::new(alloc, [0; 3790])?,
        })
    }

    /// Counts a bool that left the node at a place of its kind. A counter stands still at its type's end.
    #[inline(always)]
    pub fn count(&mut self, kind: ProbKind, place: u16, one: bool)
        requires { place < kind_size kind }
        ensures { self.new ≡ with_bool self.old (record { kind = kind; place = place; one = one }) }
    {
        let at = counter_at(kind, place, one);
        let counters = &mut *self.counters;
        counters[at] = counters[at].saturating_add(1);
    }

    /// Adds the counts of another part of the frame. A counter stands still at its type's end.
    pub fn add(&mut self, other: &Self)
        ensures { self.new ≡ joined_counts self.old other.now }
    {
        add_each(&mut *self.counters, &*other.counters);
    }

    /// How often the node at a place of its kind was left by a 0 or by a 1.
    pub fn counter(&self, kind: ProbKind, place: u16, one: bool) -> u64
        requires { place < kind_size kind }
        ensures { result ≡ counter_of self.now (record { kind = kind; place = place; one = one }) }
    {
        let counters = &*self.counters;
        counters[counter_at(kind, place, one)]
    }
}

ghost use Rattle.prob_contexts.specs.Code.{counter_place, joined_counts};
ghost use Rattle.prob_contexts.specs.Kinds.{kind_size};

#[inline(always)]
fn counter_at(kind: ProbKind, place: u16, one: bool) -> usize
    requires { place < kind_size kind }
    ensures value { result ≡ counter_place (record { kind = kind; place = place; one = one }) }
    ensures within { result < 3790 }
{
    2 * (kind.start() + place as usize) + usize::from(one)
}

fn add_each(counters: &mut [u64], more: &[u64])
    requires { length more.now ≡ length counters.old }
    ensures { counters.new ≡ joined_counts counters.old more.now }
{
    for i in 0..counters.len() {
        counters[i] = counters[i].saturating_add(more[i]);
    }
}
