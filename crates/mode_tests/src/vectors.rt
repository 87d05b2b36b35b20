//! New vectors, as tools/vectors.py inter_modes reads them.

ghost use Rattle.std.specs.Prelude.{◌<◌, ◌≤◌};

use crate::counted::add_vector_counts;
use block_plan::Mv;
use counting_reader::CountingReader;
use mv_syntax::read_new_vector;
use prob_contexts::{Counts, default_contexts};
use std::alloc::Global;
use std::test::Fail;
use test_draws::{Digest, Draws};
use vp9_types::Rule;

fn add_vector(digest: &mut Digest, read: Result<Mv, Rule>) {
    match read {
        Ok(v) => {
            digest.add_signed(v.row);
            digest.add_signed(v.column);
        }
        Err(rule) => digest.add_shifted(u64::from(rule.number())),
    }
}

fn digest_counts(counts: &Counts) -> u32 {
    let mut digest = Digest::new();
    add_vector_counts(&mut digest, counts);
    digest.sum_32()
}

/// Digests of forty vectors and of their counts.
fn read(alloc: Global, seed: u32, ones: u8, high_precision: bool) -> Result<(u32, u32), Fail> {
    let mut draws = Draws::new(seed);
    let mut bytes = [0; 3000];
    draws.fill_bytes(&mut bytes, ones);
    let mut reader: CountingReader<'_, true> = CountingReader::start(&bytes, Counts::new(alloc)?)?;
    let contexts = default_contexts();
    let mut digest = Digest::new();
    for i in 0..40u8 {
        let best = if i % 2 == 0 {
            Mv {
                row: -900,
                column: 16000,
            }
        } else {
            Mv { row: 3, column: -5 }
        };
        let vector = read_new_vector(&mut reader, &contexts.vectors, high_precision, best);
        add_vector(&mut digest, vector);
    }
    Ok((digest.sum_32(), digest_counts(&reader.into_counts())))
}

#[test]
fn new_vectors(rt: HostRuntime) -> Result<(), Fail> {
    assert_eq!(rt; read(rt.alloc(), 31, 0, true)?, (2978193822, 4119833382));
    assert_eq!(rt; read(rt.alloc(), 32, 240, false)?, (516232506, 1939732278));
    Ok(())
}
