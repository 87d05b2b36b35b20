//! Intra prediction: a line, as `dc 8 1000`, names a mode, a size and how many blocks to predict and put into a plane of
//! 1920x1080 samples, in raster order. The checksum is of the plane. A sample is kept in two bytes, and in one where the line
//! begins with `bytes`.

ghost use Rattle.std.specs.Prelude.{◌≡◌, ℕ, ◌≤◌, length, map, slice_index};
ghost use Rattle.vp9_types.specs.Maps.{IsAtMost};
ghost use Rattle.planes.specs.Planes.{plane_map, whole_area};

use crate::numbers::{SEED, drawn};
use intra_predict::{IntraBlock, IntraPlace, Scratch, put_predicted, side_of};
use planes::{Area, SamplePlane};
use std::alloc::{AllocError, Global};
use vp9_types::{Depth, IntraMode, Sample, TxSize};

const WIDTH: usize = 1920;

const HEIGHT: usize = 1080;

const SAMPLES: usize = WIDTH * HEIGHT;

/// Pseudo-random samples of 8 bits.
fn draw<P: Sample>(samples: &mut [P])
    requires fits { 255 ≤ P.greatest }
    ensures small { (k : ℕ) → slice_index (map P.value samples.new) k ≤ 255 }
    ensures long { length samples.new ≡ length samples.old }
{
    let mut state = SEED;
    for k in 0..samples.len() {
        state = drawn(state);
        samples[k] = P::narrow((state >> 24) as u16);
    }
}

fn fill<P: Sample>(plane: &mut SamplePlane<P>, samples: &mut [P])
    requires fits { 255 ≤ P.greatest }
    requires whole { plane.old.area ≡ whole_area HEIGHT WIDTH }
    requires small { IsAtMost 255 (plane_map plane.old) }
    requires room { SAMPLES ≤ length samples.old }
    ensures whole { plane.new.area ≡ whole_area HEIGHT WIDTH }
    ensures small { IsAtMost 255 (plane_map plane.new) }
{
    draw(samples);
    plane.put_block(0, 0, HEIGHT, WIDTH, samples);
}

fn mode_of(name: &str) -> IntraMode {
    match name {
        "v" => IntraMode::V,
        "h" => IntraMode::H,
        "tm" => IntraMode::Tm,
        "d45" => IntraMode::D45,
        "d63" => IntraMode::D63,
        "d117" => IntraMode::D117,
        "d135" => IntraMode::D135,
        "d153" => IntraMode::D153,
        "d207" => IntraMode::D207,
        _ => IntraMode::Dc,
    }
}

fn size_of(name: &str) -> TxSize {
    match name {
        "4" => TxSize::T4x4,
        "8" => TxSize::T8x8,
        "16" => TxSize::T16x16,
        _ => TxSize::T32x32,
    }
}

/// Predicts blocks one after another, from the second row of blocks on.
fn predict_blocks<P: Sample>(plane: &mut SamplePlane<P>, mode: IntraMode, size: TxSize, count: u64)
    requires fits { 255 ≤ P.greatest }
    requires whole { plane.old.area ≡ whole_area HEIGHT WIDTH }
    requires small { IsAtMost 255 (plane_map plane.old) }
    ensures { plane.new.area ≡ whole_area HEIGHT WIDTH }
{
    let side = side_of(size);
    let mut scratch = Scratch::new();
    let mut row = side;
    let mut column = 0;
    'predicting: for _ in 0..count {
        let place = IntraPlace {
            row,
            column,
            tile_from: 0,
            block_end: column + side,
        };
        let block = IntraBlock { place, size, mode };
        put_predicted(plane, &block, Depth::Eight, &mut scratch);
        column += side;
        if column >= WIDTH {
            column = 0;
            row += side;
        }
        if row >= HEIGHT {
            row = side;
        }
    }
}

fn checksum<P: Sample>(plane: &SamplePlane<P>) -> u64
    requires { plane.now.area ≡ whole_area HEIGHT WIDTH }
{
    let mut sum = 0u64;
    for row in 0..HEIGHT {
        for sample in plane.row(row, 0, WIDTH) {
            sum = sum.wrapping_mul(31).wrapping_add(u64::from(sample.widen()));
        }
    }
    sum
}

/// The checksum of a plane once so many blocks are predicted.
fn sum_of<P: Sample>(
    alloc: Global,
    mode: IntraMode,
    size: TxSize,
    count: u64,
) -> Result<u64, AllocError>
    requires fits { 255 ≤ P.greatest }
{
    let mut samples = P::zeros(alloc, SAMPLES)?;
    let mut plane = SamplePlane::new(alloc, Area::whole(HEIGHT, WIDTH))?;
    fill(&mut plane, &mut samples);
    predict_blocks(&mut plane, mode, size, count);
    Ok(checksum(&plane))
}

/// What is printed for a line.
pub fn describe(alloc: Global, line: &str) -> Result<String, AllocError> {
    let bytes = line.starts_with("bytes ");
    let words = line.strip_prefix("bytes ").unwrap_or(line);
    let Some((kind, rest)) = words.split_once(' ') else {
        return format!(in alloc; "{line}: no size");
    };
    let Some((size, number)) = rest.split_once(' ') else {
        return format!(in alloc; "{line}: no number");
    };
    let Ok(count) = number.parse::<u64>() else {
        return format!(in alloc; "{line}: not a number");
    };
    let (mode, size) = (mode_of(kind), size_of(size));
    let sum = if bytes {
        sum_of::<u8>(alloc, mode, size, count)?
    } else {
        sum_of::<u16>(alloc, mode, size, count)?
    };
    format!(in alloc; "{line}: {sum}")
}
