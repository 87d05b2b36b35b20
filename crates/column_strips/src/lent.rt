//! Strips that lie apart.

ghost use Rattle.std.specs.Prelude.{◌≡◌};

use crate::side_by_side::{RawFrame, first_own, put_strip};
use filter_rows::Strips;
use planes::{FramePlanes, SamplePlane};
use std::marker::PhantomData;
use vp9_types::{Plane, Sample, Shape};

/// As `ColumnStrips`, of strips that lie apart, as the results of the jobs that made them, each of which is lent.
#[derive(Drop)]
pub struct LentStrips<'a, P: Sample, F> {
    pub strips: &'a [&'a FramePlanes<P>],
    of: PhantomData<F>,
}

impl<'a, P: Sample, F> LentStrips<'a, P, F> {
    pub fn new(strips: &'a [&'a FramePlanes<P>]) -> LentStrips<'a, P, F>
        ensures { result.strips.now ≡ strips.now }
    {
        LentStrips {
            strips,
            of: PhantomData,
        }
    }
}

impl<'a, P: Sample, F: RawFrame> Strips for LentStrips<'a, P, F> {
    type Kept = P;

    ghost use Rattle.std.specs.Prelude.{map};
    ghost use Rattle.column_strips.specs.StripRows.{AreRow};

    ghost raw = { λ s. F.raw };

    ghost holds = { λ s shape sr. AreRow shape F.raw sr (map (λ b. b.now) s.strips.now) };

    fn put_row(&self, to: &mut SamplePlane<P>, shape: &Shape, plane: Plane, sr: u32) {
        let first_row = first_own(shape, plane, sr);
        for k in 0..self.strips.len() {
            put_strip(to, self.strips[k].plane(plane), first_row);
        }
    }
}
