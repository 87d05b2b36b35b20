//! Values that tools/vectors.py adaptation works out.

ghost use Rattle.std.specs.Prelude.{◌≤◌};
ghost use Rattle.prob_contexts.specs.Kinds.{kind_size};

mod rows;

use backward_adapt::{AdaptKind, InterKind, Rate, adapt, contexts_have_sizes};
use prob_contexts::{Contexts, Counts, ProbKind, default_contexts};
use std::alloc::{AllocError, Global};
use test_draws::{Digest, Draws};

pub struct Row {
    pub before: u8,
    pub zeros: u64,
    pub ones: u64,
    pub rate: Rate,
    pub after: u8,
}

/// Counts of one node of a kind, the highest bits first.
fn counts_of(alloc: Global, kind: ProbKind, zeros: u64, ones: u64) -> Result<Counts, AllocError>
    requires { 1 ≤ kind_size kind }
{
    let mut counts = Counts::new(alloc)?;
    for bit in 0..64u32 {
        let mut same = Counts::new(alloc)?;
        same.add(&counts);
        counts.add(&same);
        if (zeros >> (63 - bit)) % 2 == 1 {
            counts.count(kind, 0, false);
        }
        if (ones >> (63 - bit)) % 2 == 1 {
            counts.count(kind, 0, true);
        }
    }
    Ok(counts)
}

/// What becomes of the first probability of coefficients or of skipped blocks, as the rate is.
fn after(alloc: Global, row: &Row) -> Result<u8, AllocError> {
    let mut contexts = default_contexts();
    let before = row.before.max(1);
    if row.rate == Rate::Others {
        contexts.skip[0] = before;
        let counts = counts_of(alloc, ProbKind::Skip, row.zeros, row.ones)?;
        let adapted = adapt(&contexts, &contexts, &counts, &inter(false, true));
        return Ok(adapted.skip[0]);
    }
    let mut coefs = contexts.coef;
    coefs.of_4x4[0] = before;
    contexts.coef = coefs;
    let counts = counts_of(alloc, ProbKind::Coef, row.zeros, row.ones)?;
    let after_key = row.rate == Rate::CoefsAfterKey;
    let adapted = adapt(&contexts, &contexts, &counts, &inter(after_key, true));
    Ok(adapted.coef.of_4x4[0])
}

#[test]
fn one_probability(rt: HostRuntime) -> Result<(), AllocError> {
    for row in &rows::MERGED {
        assert_eq!(rt; after(rt.alloc(), row)?, row.after);
    }
    Ok(())
}

/// Counts at each node of a kind, as often as is drawn, but not at all where the kind isn't coded.
fn fill(counts: &mut Counts, kind: ProbKind, size: u16, coded: bool, draws: &mut Draws)
    requires { size ≤ kind_size kind }
{
    for place in 0..size {
        for one in [false, true] {
            let drawn = draws.byte() % 19;
            let times = if coded { drawn } else { 0 };
            for _ in 0..times {
                counts.count(kind, place, one);
            }
        }
    }
}

/// What a frame codes.
#[derive(Clone, Copy)]
struct Coded {
    anything: bool,
    sizes: bool,
    filters: bool,
    compound: bool,
}

const ALL: Coded = Coded {
    anything: true,
    sizes: true,
    filters: true,
    compound: true,
};

const FEW: Coded = Coded {
    anything: true,
    sizes: false,
    filters: false,
    compound: false,
};

const NONE: Coded = Coded {
    anything: false,
    ..FEW
};

fn drawn_counts(alloc: Global, seed: u32, coded: Coded) -> Result<Counts, AllocError> {
    let mut counts = Counts::new(alloc)?;
    let mut draws = Draws::new(seed);
    let any = coded.anything;
    fill(&mut counts, ProbKind::Tx8x8, 2, coded.sizes, &mut draws);
    fill(&mut counts, ProbKind::Tx16x16, 4, coded.sizes, &mut draws);
    fill(&mut counts, ProbKind::Tx32x32, 6, coded.sizes, &mut draws);
    fill(&mut counts, ProbKind::Coef, 1584, any, &mut draws);
    fill(&mut counts, ProbKind::Skip, 3, any, &mut draws);
    fill(&mut counts, ProbKind::InterMode, 21, any, &mut draws);
    fill(&mut counts, ProbKind::Filter, 8, coded.filters, &mut draws);
    fill(&mut counts, ProbKind::IsInter, 4, any, &mut draws);
    fill(
        &mut counts,
        ProbKind::CompoundFlag,
        5,
        coded.compound,
        &mut draws,
    );
    fill(&mut counts, ProbKind::SingleReference, 10, any, &mut draws);
    fill(
        &mut counts,
        ProbKind::CompoundReference,
        5,
        coded.compound,
        &mut draws,
    );
    fill(&mut counts, ProbKind::YMode, 36, any, &mut draws);
    fill(&mut counts, ProbKind::UvMode, 90, any, &mut draws);
    fill(&mut counts, ProbKind::Partition, 48, any, &mut draws);
    fill(&mut counts, ProbKind::VectorJoint, 3, any, &mut draws);
    fill(&mut counts, ProbKind::VectorSign, 2, any, &mut draws);
    fill(&mut counts, ProbKind::VectorClass, 20, any, &mut draws);
    fill(&mut counts, ProbKind::VectorClass0, 2, any, &mut draws);
    fill(&mut counts, ProbKind::VectorBit, 20, any, &mut draws);
    fill(
        &mut counts,
        ProbKind::VectorClass0Fraction,
        12,
        any,
        &mut draws,
    );
    fill(&mut counts, ProbKind::VectorFraction, 6, any, &mut draws);
    fill(&mut counts, ProbKind::VectorClass0High, 2, any, &mut draws);
    fill(&mut counts, ProbKind::VectorHigh, 2, any, &mut draws);
    Ok(counts)
}

fn mark(probs: &[u8]) -> u32 {
    let mut digest = Digest::from_sum(7);
    for p in probs {
        digest.add(u64::from(*p));
    }
    digest.sum_32()
}

fn marks(c: &Contexts) -> [u32; 26] {
    [
        mark(&c.tx.of_8x8),
        mark(&c.tx.of_16x16),
        mark(&c.tx.of_32x32),
        mark(&c.coef.of_4x4),
        mark(&c.coef.of_8x8),
        mark(&c.coef.of_16x16),
        mark(&c.coef.of_32x32),
        mark(&c.skip),
        mark(&c.inter.modes),
        mark(&c.inter.filters),
        mark(&c.inter.is_inter),
        mark(&c.inter.compound_flag),
        mark(&c.inter.single_references),
        mark(&c.inter.compound_references),
        mark(&c.inter.y_modes),
        mark(&c.uv_modes),
        mark(&c.partitions),
        mark(&c.vectors.joints),
        mark(&c.vectors.signs),
        mark(&c.vectors.classes),
        mark(&c.vectors.class0),
        mark(&c.vectors.bits),
        mark(&c.vectors.class0_fractions),
        mark(&c.vectors.fractions),
        mark(&c.vectors.class0_high),
        mark(&c.vectors.high),
    ]
}

fn inter(after_key: bool, high_precision: bool) -> AdaptKind {
    AdaptKind::Inter(InterKind {
        after_key,
        high_precision,
    })
}

/// Contexts that aren't the saved ones, as a compressed header leaves them.
fn forward_contexts(alloc: Global) -> Result<Contexts, AllocError> {
    let saved = default_contexts();
    let counts = drawn_counts(alloc, 1, ALL)?;
    Ok(adapt(&saved, &saved, &counts, &inter(true, true)))
}

#[test]
fn whole_frames(rt: HostRuntime) -> Result<(), AllocError> {
    let saved = default_contexts();
    let forward = forward_contexts(rt.alloc())?;
    contexts_have_sizes(forward);
    assert!(rt; marks(&forward) == rows::FORWARD);
    let counts = drawn_counts(rt.alloc(), 2, ALL)?;
    let intra = adapt(&saved, &forward, &counts, &AdaptKind::Intra);
    assert!(rt; marks(&intra) == rows::INTRA);
    let after_key = adapt(&saved, &forward, &counts, &inter(true, false));
    assert!(rt; marks(&after_key) == rows::AFTER_KEY);
    let later = adapt(&saved, &forward, &counts, &inter(false, true));
    assert!(rt; marks(&later) == rows::LATER);
    Ok(())
}

#[test]
fn what_is_not_coded(rt: HostRuntime) -> Result<(), AllocError> {
    let saved = default_contexts();
    let forward = forward_contexts(rt.alloc())?;
    let mut changed = forward;
    changed.tx = saved.tx;
    changed.inter.filters = saved.inter.filters;
    changed.inter.compound_flag = saved.inter.compound_flag;
    changed.inter.compound_references = saved.inter.compound_references;
    let counts = drawn_counts(rt.alloc(), 3, FEW)?;
    let few = adapt(&saved, &changed, &counts, &inter(false, true));
    assert!(rt; marks(&few) == rows::FEW_CODED);
    let counts = drawn_counts(rt.alloc(), 4, NONE)?;
    let none = adapt(&saved, &forward, &counts, &inter(true, false));
    assert!(rt; marks(&none) == rows::NOTHING_COUNTED);
    Ok(())
}
