//! What is predicted, and its checksums.

ghost use Rattle.std.specs.Prelude.{◌≡◌, ℕ, ◌≤◌, ◌<◌, ◌*◌, ◌/◌, length, slice_index};
ghost use Rattle.vp9_types.specs.Maps.{IsAtMost};
ghost use Rattle.planes.specs.Planes.{plane_map, whole_area};
ghost use Rattle.inter_places.specs.Axes.{IsPlace};

use super::luma::Luma;
use crate::numbers::{SEED, drawn};
use inter_places::{Axis, Place};
use inter_predict::{LINES, predict};
use planes::{Area, SamplePlane};
use std::alloc::{AllocError, Global};
use vp9_types::{InterpFilter, Plane};

const SIDE: usize = 512;

const SAMPLES: usize = SIDE * SIDE;

/// Pseudo-random samples of 8 bits.
fn draw(samples: &mut [u8])
    ensures { (k : ℕ) → slice_index samples.new k ≤ 255 }
{
    let mut state = SEED;
    for sample in samples.iter_mut() {
        state = drawn(state);
        *sample = (state >> 24) as u8;
    }
}

fn fill(plane: &mut SamplePlane<u8>, samples: &mut [u8])
    requires whole { plane.old.area ≡ whole_area SIDE SIDE }
    requires small { IsAtMost 255 (plane_map plane.old) }
    requires room { SAMPLES ≤ length samples.old }
    ensures whole { plane.new.area ≡ whole_area SIDE SIDE }
    ensures small { IsAtMost 255 (plane_map plane.new) }
{
    draw(samples);
    plane.put_block(0, 0, SIDE, SIDE, samples);
}

/// Phases across and down, in sixteenths, and the step.
fn phases(name: &str) -> (u8, u8, u8)
    ensures across { result.0 < 16 }
    ensures down { result.1 < 16 }
    ensures forward { 1 ≤ result.2 }
    ensures slow { result.2 ≤ 32 }
{
    match name {
        "whole" => (0, 0, 16),
        "across" => (8, 0, 16),
        "down" => (0, 13, 16),
        "scaled" => (8, 13, 26),
        _ => (8, 13, 16),
    }
}

fn size_of(name: &str) -> usize
    ensures some { 4 ≤ result }
    ensures few { result ≤ 64 }
    ensures fours { result ≡ 4 * (result / 4) }
{
    match name {
        "4" => 4,
        "8" => 8,
        "16" => 16,
        "32" => 32,
        _ => 64,
    }
}

/// Where block k is predicted from.
fn place_of(k: u64, size: usize, phases: (u8, u8, u8)) -> Place
    requires some { 4 ≤ size }
    requires few { size ≤ 64 }
    requires fours { size ≡ 4 * (size / 4) }
    requires across { phases.0 < 16 }
    requires down { phases.1 < 16 }
    requires forward { 1 ≤ phases.2 }
    requires slow { phases.2 ≤ 32 }
    ensures fits { IsPlace result }
    ensures rows { result.rows ≡ size }
    ensures columns { result.columns ≡ size }
    ensures high { result.down.size ≡ SIDE }
    ensures wide { result.across.size ≡ SIDE }
{
    let across = (64 + 24 * (k % 10)) as i32;
    let down = (64 + 8 * (k % 30)) as i32;
    Place {
        plane: Plane::Y,
        row: 0,
        column: 0,
        rows: size,
        columns: size,
        down: Axis {
            start: 16 * down + i32::from(phases.1),
            step: phases.2,
            size: 512,
        },
        across: Axis {
            start: 16 * across + i32::from(phases.0),
            step: phases.2,
            size: 512,
        },
    }
}

fn predict_one(luma: &Luma, place: &Place, lines: &mut [u8], out: &mut [u8])
    requires whole { luma.now.plane.area ≡ whole_area SIDE SIDE }
    requires small { IsAtMost 255 (plane_map luma.now.plane) }
    requires place { IsPlace place.now }
    requires high { place.now.down.size ≡ SIDE }
    requires wide { place.now.across.size ≡ SIDE }
    requires lines { LINES ≤ length lines.old }
    requires room { place.now.rows * place.now.columns ≤ length out.old }
{
    predict(luma, place, InterpFilter::Regular, 255, lines, out);
}

/// The checksum of so many blocks.
fn predict_blocks(luma: &Luma, size: usize, phases: (u8, u8, u8), count: u64) -> u64
    requires whole { luma.now.plane.area ≡ whole_area SIDE SIDE }
    requires small { IsAtMost 255 (plane_map luma.now.plane) }
    requires some { 4 ≤ size }
    requires few { size ≤ 64 }
    requires fours { size ≡ 4 * (size / 4) }
    requires across { phases.0 < 16 }
    requires down { phases.1 < 16 }
    requires forward { 1 ≤ phases.2 }
    requires slow { phases.2 ≤ 32 }
{
    let mut lines = [0u8; LINES];
    let mut out = [0u8; 4096];
    let mut sum = 0u64;
    let mut at = 0;
    for k in 0..count {
        let place = place_of(k, size, phases);
        predict_one(luma, &place, &mut lines, &mut out);
        sum = sum.wrapping_mul(31).wrapping_add(u64::from(out[at]));
        at = (at + 5) % 16;
    }
    for sample in out {
        sum = sum.wrapping_mul(31).wrapping_add(u64::from(sample));
    }
    sum
}

/// What is printed for a line.
pub fn describe(alloc: Global, line: &str) -> Result<String, AllocError> {
    let Some((kind, rest)) = line.split_once(' ') else {
        return format!(in alloc; "{line}: no size");
    };
    let Some((size, number)) = rest.split_once(' ') else {
        return format!(in alloc; "{line}: no number");
    };
    let Ok(count) = number.parse::<u64>() else {
        return format!(in alloc; "{line}: not a number");
    };
    let mut samples = vec![in alloc; 0u8; SAMPLES]?;
    let mut plane = SamplePlane::new(alloc, Area::whole(SIDE, SIDE))?;
    fill(&mut plane, &mut samples);
    let luma = Luma { plane };
    let sum = predict_blocks(&luma, size_of(size), phases(kind), count);
    format!(in alloc; "{line}: {sum}")
}
