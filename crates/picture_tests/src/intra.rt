//! Blocks and planes that tools/vectors.py intra computes, and the first block of a frame.

ghost use Rattle.std.specs.Prelude.{◌≡◌, ℕ, pos, ◌*◌, ◌^◌, ◌<◌, ◌≤◌, length, slice_index, slice_index_or, unsigned_abs};
ghost use Rattle.vp9_types.specs.Maps.{IsAtMost};
ghost use Rattle.planes.specs.Planes.{plane_map, whole_area};
ghost use Rattle.intra_predict.specs.Laws.{IsUpTo};
ghost use Rattle.intra_predict.specs.Code.{samples_of};

mod drawn_rows;
mod extreme_rows;
mod rows;

use drawn_rows::DRAWN;
use extreme_rows::EXTREME;
use intra_predict::{
    CodedBlock, Edges, IntraBlock, IntraPlace, Scratch, place_of, predict, put_predicted,
    put_rebuilt, read_edges, side_of,
};
use planes::{Area, SamplePlane};
use rows::{STEPS, Step, Summed, WHOLE};
use std::test::Fail;
use test_draws::{Digest, Draws};
use vp9_types::{Depth, IntraMode, Sample, TxSize};

const WIDTH: usize = 40;

const HEIGHT: usize = 24;

const SAMPLES: usize = WIDTH * HEIGHT;

fn fill(draws: &mut Draws, samples: &mut [u16], most: u16, extreme: bool)
    ensures { (k : ℕ) → slice_index samples.new k ≤ most }
{
    if extreme {
        draws.fill_extreme(samples, most);
    } else {
        draws.fill(samples, most);
    }
}

fn drawn_edges(seed: u32, most: u16, extreme: bool, has_above: bool, has_left: bool) -> Edges
    ensures { (size : ℕ) → IsUpTo most (samples_of size result) }
{
    let mut edges = Edges::new();
    let mut draws = Draws::new(seed);
    fill(&mut draws, &mut edges.above, most, extreme);
    fill(&mut draws, &mut edges.left, most, extreme);
    edges.corner = if extreme {
        draws.extreme(most)
    } else {
        draws.sample(most)
    };
    edges.has_above = has_above;
    edges.has_left = has_left;
    edges
}

fn checksum(plane: &SamplePlane<u16>) -> u64
    requires { plane.now.area ≡ whole_area HEIGHT WIDTH }
{
    let mut digest = Digest::new();
    for row in 0..HEIGHT {
        digest.add_samples(plane.row(row, 0, WIDTH));
    }
    digest.sum()
}

fn sum_of(row: &Summed) -> u64 {
    let most = row.depth.greatest();
    let edges = drawn_edges(row.seed, most, row.extreme, row.has_above, row.has_left);
    let side = side_of(row.size);
    let mut block = [0; 1024];
    predict(
        row.mode,
        &edges,
        row.size,
        row.depth,
        &mut block[..side * side],
    );
    let mut digest = Digest::new();
    digest.add_samples(&block[..side * side]);
    digest.sum()
}

#[test]
fn whole_blocks(rt: HostRuntime) -> Result<(), Fail> {
    let edges = drawn_edges(9, 255, false, true, true);
    for row in WHOLE.iter() {
        let mut block = [0; 16];
        predict(row.mode, &edges, TxSize::T4x4, Depth::Eight, &mut block);
        assert_eq!(rt; block, row.samples);
    }
    Ok(())
}

#[test]
fn drawn_blocks(rt: HostRuntime) {
    for row in DRAWN.iter() {
        assert_eq!(rt; sum_of(row), row.sum);
    }
}

#[test]
fn extreme_blocks(rt: HostRuntime) {
    for row in EXTREME.iter() {
        assert_eq!(rt; sum_of(row), row.sum);
    }
}

fn draw_residue(residue: &mut [i32], seed: u32)
    ensures { (k : ℕ) → unsigned_abs (slice_index_or residue.new k (pos 0)) < 2 ^ 24 }
{
    let mut draws = Draws::new(seed);
    for change in residue.iter_mut() {
        *change = draws.below(1024) as i32 - 512;
    }
}

fn take_step(plane: &mut SamplePlane<u16>, step: &Step, scratch: &mut Scratch)
    requires whole { plane.old.area ≡ whole_area HEIGHT WIDTH }
    requires small { IsAtMost 1023 (plane_map plane.old) }
    requires high { step.now.row < HEIGHT }
    requires wide { step.now.column < WIDTH }
    ensures whole { plane.new.area ≡ whole_area HEIGHT WIDTH }
    ensures small { IsAtMost 1023 (plane_map plane.new) }
{
    let place = IntraPlace {
        row: step.row,
        column: step.column,
        tile_from: step.tile_from,
        block_end: step.block_end,
    };
    let block = IntraBlock {
        place,
        size: step.size,
        mode: step.mode,
    };
    if step.seed == 0 {
        put_predicted(plane, &block, Depth::Ten, scratch);
    } else {
        let mut residue = [0; 1024];
        draw_residue(&mut residue, step.seed);
        put_rebuilt(plane, &block, Depth::Ten, &residue, scratch);
    }
}

fn fill_plane(plane: &mut SamplePlane<u16>)
    requires whole { plane.old.area ≡ whole_area HEIGHT WIDTH }
    requires small { IsAtMost 1023 (plane_map plane.old) }
    ensures whole { plane.new.area ≡ whole_area HEIGHT WIDTH }
    ensures small { IsAtMost 1023 (plane_map plane.new) }
{
    let mut samples = [0; SAMPLES];
    Draws::new(7).fill(&mut samples, 1023);
    plane.put_block(0, 0, HEIGHT, WIDTH, &samples);
}

#[test]
fn planes(rt: HostRuntime) -> Result<(), Fail> {
    let mut plane = SamplePlane::new(rt.alloc(), Area::whole(HEIGHT, WIDTH))?;
    fill_plane(&mut plane);
    let mut scratch = Scratch::new();
    for step in STEPS.iter() {
        assert!(rt; step.row < HEIGHT && step.column < WIDTH);
        take_step(&mut plane, step, &mut scratch);
        assert_eq!(rt; checksum(&plane), step.sum);
    }
    Ok(())
}

/// The sample that fills the first block of a frame of 8x8 samples.
fn first_block<P: Sample>(plane: &SamplePlane<P>, mode: IntraMode) -> u16
    requires whole { plane.now.area ≡ whole_area 8 8 }
    requires small { IsAtMost 255 (plane_map plane.now) }
{
    let place = place_of(
        &CodedBlock {
            row: 0,
            column: 0,
            columns: 1,
            tile_column: 0,
            ss_x: false,
            ss_y: false,
        },
        0,
        0,
    );
    let mut edges = Edges::new();
    let mut block = [0; 64];
    read_edges(&mut edges, plane, &place, TxSize::T8x8, Depth::Eight);
    predict(mode, &edges, TxSize::T8x8, Depth::Eight, &mut block);
    block[63]
}

#[test]
fn corner(rt: HostRuntime) -> Result<(), Fail> {
    let plane: SamplePlane<u8> = SamplePlane::new(rt.alloc(), Area::whole(8, 8))?;
    assert_eq!(rt; first_block(&plane, IntraMode::V), 0x7f);
    assert_eq!(rt; first_block(&plane, IntraMode::H), 0x81);
    assert_eq!(rt; first_block(&plane, IntraMode::Tm), 0x81);
    assert_eq!(rt; first_block(&plane, IntraMode::Dc), 0x80);
    Ok(())
}
