//! Checksums of blocks and of counts.

ghost use Rattle.std.specs.Prelude.{◌≤◌};
ghost use Rattle.prob_contexts.specs.Kinds.{kind_size};

use block_plan::{BlockInfo, InterPrediction, IntraPrediction, Mv, Prediction};
use prob_contexts::{Counts, ProbKind};

#[derive(Drop)]
struct Digest {
    sum: u32,
}

impl Digest {
    fn add(&mut self, number: u32) {
        let shifted = number.wrapping_add(65536);
        self.sum = self.sum.wrapping_mul(31).wrapping_add(shifted);
    }

    fn add_number(&mut self, number: i16) {
        let shifted = (i32::from(number) + 65536) as u32;
        self.sum = self.sum.wrapping_mul(31).wrapping_add(shifted);
    }

    fn add_vector(&mut self, v: Mv) {
        self.add_number(v.row);
        self.add_number(v.column);
    }

    fn add_block(&mut self, block: &BlockInfo) {
        self.add(block.row);
        self.add(block.col);
        self.add(block.size as u32);
        self.add(u32::from(block.skip));
        self.add(block.tx as u32);
        match &block.prediction {
            Prediction::Inter(p) => self.add_inter(p),
            Prediction::Intra(p) => self.add_intra(p),
        }
    }

    fn add_intra(&mut self, p: &IntraPrediction) {
        for mode in p.luma {
            self.add(mode as u32);
        }
        self.add(p.chroma as u32);
    }

    fn add_inter(&mut self, p: &InterPrediction) {
        for mode in p.modes {
            self.add(mode as u32);
        }
        self.add(p.references.first as u32);
        match p.references.second {
            Some(reference) => self.add(reference as u32),
            None => self.add(3),
        }
        self.add(p.filter as u32);
        for quarter in p.vectors {
            self.add_vector(quarter[0]);
            self.add_vector(quarter[1]);
        }
    }

    /// The counters of a kind, of which there are so many.
    fn add_counts(&mut self, counts: &Counts, kind: ProbKind, size: u16)
        requires { size ≤ kind_size kind }
    {
        for place in 0..size {
            self.add((counts.counter(kind, place, false) & 65535) as u32);
            self.add((counts.counter(kind, place, true) & 65535) as u32);
        }
    }
}

pub fn of_blocks(blocks: &[BlockInfo]) -> u32 {
    let mut digest = Digest { sum: 0 };
    for block in blocks {
        digest.add_block(block);
    }
    digest.sum
}

/// The counters of all kinds but coefficients.
pub fn of_counts(counts: &Counts) -> u32 {
    let mut digest = Digest { sum: 0 };
    digest.add_counts(counts, ProbKind::Tx8x8, 2);
    digest.add_counts(counts, ProbKind::Tx16x16, 4);
    digest.add_counts(counts, ProbKind::Tx32x32, 6);
    digest.add_counts(counts, ProbKind::Skip, 3);
    digest.add_counts(counts, ProbKind::InterMode, 21);
    digest.add_counts(counts, ProbKind::Filter, 8);
    digest.add_counts(counts, ProbKind::IsInter, 4);
    digest.add_counts(counts, ProbKind::CompoundFlag, 5);
    digest.add_counts(counts, ProbKind::SingleReference, 10);
    digest.add_counts(counts, ProbKind::CompoundReference, 5);
    digest.add_counts(counts, ProbKind::YMode, 36);
    digest.add_counts(counts, ProbKind::UvMode, 90);
    digest.add_counts(counts, ProbKind::Partition, 48);
    digest.add_counts(counts, ProbKind::VectorJoint, 3);
    digest.add_counts(counts, ProbKind::VectorSign, 2);
    digest.add_counts(counts, ProbKind::VectorClass, 20);
    digest.add_counts(counts, ProbKind::VectorClass0, 2);
    digest.add_counts(counts, ProbKind::VectorBit, 20);
    digest.add_counts(counts, ProbKind::VectorClass0Fraction, 12);
    digest.add_counts(counts, ProbKind::VectorFraction, 6);
    digest.add_counts(counts, ProbKind::VectorClass0High, 2);
    digest.add_counts(counts, ProbKind::VectorHigh, 2);
    digest.sum
}
