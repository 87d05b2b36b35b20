//! Blocks from outside, as tools/vectors.py residue writes them. Among them: a first level alone gives one residue
//! everywhere; the WHT of a first level 4 gives ones; at the largest quantisers a first level of 24 fits, 25 doesn't, and
//! 24 with 17 at the next place of the scan fits before the transforms alone.

ghost use Rattle.std.specs.Prelude.{◌≡◌, ◌≤◌, ◌<◌, length, All};
ghost use Rattle.std.specs.Bool.{OnTrue};
ghost use Rattle.vp9_tables.specs.Scans.{area};
ghost use Rattle.residue_transforms.specs.Residue.{IsLevel};

mod vectors;

use residue_transforms::residue;
use std::process::Abort;
use vectors::{
    HEADS_4, HEADS_8, HEADS_16, HEADS_32, Head, LEVELS_4, LEVELS_8, LEVELS_16, LEVELS_32, PLACES_4,
    PLACES_8, PLACES_16, PLACES_32, RESIDUE_4, RESIDUE_8, RESIDUE_16, RESIDUE_32,
};
use vp9_types::{Rule, TxSize};

const MOST: i32 = 1 << 19;

fn are_levels(xs: &[i32]) -> bool
    ensures { OnTrue result (All IsLevel xs.now) }
{
    for x in xs {
        if *x < -MOST || MOST < *x {
            return false;
        }
    }
    true
}

fn area_of(tx: TxSize) -> usize
    ensures value { result ≡ area tx }
    ensures most { result ≤ 1024 }
{
    match tx {
        TxSize::T4x4 => 16,
        TxSize::T8x8 => 64,
        TxSize::T16x16 => 256,
        TxSize::T32x32 => 1024,
    }
}

fn put_levels(rt: &impl Abort, block: &mut [i32], places: &[usize], levels: &[i32]) {
    for (place, level) in places.iter().zip(levels) {
        assert!(rt; *place < block.len());
        block[*place] = *level;
    }
}

fn residue_of(rt: &impl Abort, block: &mut [i32], tx: TxSize, head: &Head) -> Result<(), Rule> {
    assert_eq!(rt; block.len(), area_of(tx));
    assert!(rt; are_levels(block));
    residue(block, tx, head.kind, head.quant)
}

fn try_block(
    rt: &impl Abort,
    tx: TxSize,
    head: &Head,
    places: &[usize],
    levels: &[i32],
    wanted: &[i32],
) {
    let mut block = [0; 1024];
    let size = area_of(tx);
    let block = &mut block[..size];
    put_levels(rt, block, places, levels);
    let answer = residue_of(rt, block, tx, head);
    match head.rule {
        Some(rule) => assert_eq!(rt; answer, Err(rule)),
        None => {
            assert_eq!(rt; answer, Ok(()));
            assert_eq!(rt; &*block, wanted);
        }
    }
}

fn try_all(
    rt: &impl Abort,
    tx: TxSize,
    heads: &[Head],
    places: &[usize],
    levels: &[i32],
    wanted: &[i32],
) {
    let size = area_of(tx);
    let mut places = places;
    let mut levels = levels;
    let mut wanted = wanted;
    for head in heads {
        assert!(rt; head.levels <= places.len() && head.levels <= levels.len());
        assert!(rt; size <= wanted.len());
        let (these_places, more_places) = places.split_at(head.levels);
        let (these_levels, more_levels) = levels.split_at(head.levels);
        let (this_wanted, more_wanted) = wanted.split_at(size);
        try_block(rt, tx, head, these_places, these_levels, this_wanted);
        places = more_places;
        levels = more_levels;
        wanted = more_wanted;
    }
}

#[test]
fn blocks_of_4(rt: HostRuntime) {
    try_all(
        &rt,
        TxSize::T4x4,
        &HEADS_4,
        &PLACES_4,
        &LEVELS_4,
        &RESIDUE_4,
    );
}

#[test]
fn blocks_of_8(rt: HostRuntime) {
    try_all(
        &rt,
        TxSize::T8x8,
        &HEADS_8,
        &PLACES_8,
        &LEVELS_8,
        &RESIDUE_8,
    );
}

#[test]
fn blocks_of_16(rt: HostRuntime) {
    try_all(
        &rt,
        TxSize::T16x16,
        &HEADS_16,
        &PLACES_16,
        &LEVELS_16,
        &RESIDUE_16,
    );
}

#[test]
fn blocks_of_32(rt: HostRuntime) {
    try_all(
        &rt,
        TxSize::T32x32,
        &HEADS_32,
        &PLACES_32,
        &LEVELS_32,
        &RESIDUE_32,
    );
}
