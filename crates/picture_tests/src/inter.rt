//! Blocks that tools/vectors.py inter computes.

ghost use Rattle.std.specs.Prelude.{◌≡◌, ℕ, ◌*◌, ◌/◌, ◌<◌, ◌≤◌, ◌^◌, ◌-◌, IfOk, length, map, slice_index};
ghost use Rattle.std.specs.Bool.{OnTrue};
ghost use Rattle.inter_places.specs.Axes.{IsAxis, IsPlace};
ghost use Rattle.vp9_types.specs.Maps.{IsAtMost};
ghost use Rattle.planes.specs.Planes.{HasRow, plane_map, whole_area};

mod rows;

use inter_places::{Axis, Place};
use inter_predict::{LINES, average, predict};
use planes::{Area, SamplePlane};
use rows::{BlockRow, DEPTH_8, DEPTH_10, DEPTH_12, Line};
use std::alloc::{AllocError, Global};
use std::test::Fail;
use tap_filter::FilterSample;
use test_draws::{Digest, Draws};
use vp9_types::{InterpFilter, Plane, Sample, Samples};

const ROWS: usize = 80;

const COLUMNS: usize = 96;

const SAMPLES: usize = ROWS * COLUMNS;

/// The same samples in each plane.
#[derive(Drop)]
struct Luma<P: Sample> {
    plane: SamplePlane<P>,
}

impl<P: Sample> Samples for Luma<P> {
    type Kept = P;

    ghost holds = { λ f p y. HasRow f.plane.area y 0 f.plane.area.columns };

    ghost width = { λ f p. f.plane.area.columns };

    ghost map = { λ f p. plane_map f.plane };

    fn row(&self, plane: Plane, y: u32) -> &[P] {
        self.plane.row(y as usize, 0, self.plane.area().columns)
    }

    fn rows(&self, plane: Plane, y: u32, count: usize) -> Option<(&[P], usize)> {
        Some(self.plane.rows(y as usize, count))
    }
}

/// Puts a number among samples.
fn put<P: Sample>(samples: &mut [P], at: usize, number: u16)
    requires inside { at < length samples.old }
    requires kept { number ≤ P.greatest }
    ensures { (most : ℕ) → number ≤ most → ((k : ℕ) → slice_index (map P.value samples.old) k ≤ most) → (k : ℕ) → slice_index (map P.value samples.new) k ≤ most }
{
    samples[at] = P::narrow(number);
}

fn draw<P: Sample>(samples: &mut [P], seed: u32, most: u16)
    requires kept { most ≤ P.greatest }
    requires small { (k : ℕ) → slice_index (map P.value samples.old) k ≤ most }
    ensures { (k : ℕ) → slice_index (map P.value samples.new) k ≤ most }
{
    let mut draws = Draws::new(seed);
    for k in 0..samples.len() {
        put(samples, k, draws.sample(most));
    }
}

fn fill<P: Sample>(plane: &mut SamplePlane<P>, samples: &mut [P], seed: u32, most: u16)
    requires whole { plane.old.area ≡ whole_area ROWS COLUMNS }
    requires blank { IsAtMost most (plane_map plane.old) }
    requires room { SAMPLES ≤ length samples.old }
    requires kept { most ≤ P.greatest }
    requires small { (k : ℕ) → slice_index (map P.value samples.old) k ≤ most }
    ensures whole { plane.new.area ≡ whole_area ROWS COLUMNS }
    ensures small { IsAtMost most (plane_map plane.new) }
{
    draw::<P>(samples, seed, most);
    plane.put_block(0, 0, ROWS, COLUMNS, samples);
}

fn luma_of<P: Sample>(alloc: Global, seed: u32, most: u16) -> Result<Luma<P>, AllocError>
    requires kept { most ≤ P.greatest }
    ensures whole { IfOk result (λ l. l.plane.area ≡ whole_area ROWS COLUMNS) }
    ensures small { IfOk result (λ l. IsAtMost most (plane_map l.plane)) }
{
    let mut samples = P::zeros(alloc, SAMPLES)?;
    let mut plane = SamplePlane::new(alloc, Area::whole(ROWS, COLUMNS))?;
    fill::<P>(&mut plane, &mut samples, seed, most);
    Ok(Luma { plane })
}

fn axis_of(row: Line) -> Axis
    ensures { result ≡ record { start = row.0; step = row.1; size = row.2 } }
{
    Axis {
        start: row.0,
        step: row.1,
        size: row.2,
    }
}

/// Whether an axis is one in a plane of so many samples.
fn is_axis(axis: Axis, size: u32) -> bool
    requires { size ≤ 65536 }
    ensures fits { OnTrue result (IsAxis axis) }
    ensures inside { OnTrue result (axis.size ≤ size) }
{
    0 < axis.size
        && axis.size <= size
        && -(1 << 24) <= axis.start
        && axis.start <= 1 << 24
        && 1 <= axis.step
        && axis.step <= 32
}

fn is_length(n: usize) -> bool
    ensures some { OnTrue result (0 < n) }
    ensures few { OnTrue result (n ≤ 64) }
    ensures fours { OnTrue result (n ≡ 4 * (n / 4)) }
{
    0 < n && n <= 64 && n % 4 == 0
}

fn kind_of(number: u8) -> InterpFilter {
    match number {
        0 => InterpFilter::Regular,
        1 => InterpFilter::Smooth,
        2 => InterpFilter::Sharp,
        _ => InterpFilter::Bilinear,
    }
}

/// The checksum of a block.
fn sum_of<P: FilterSample>(
    luma: &Luma<P>,
    place: &Place,
    kind: InterpFilter,
    most: u16,
    lines: &mut [P],
    block: &mut [P],
) -> u32
    requires whole { luma.now.plane.area ≡ whole_area ROWS COLUMNS }
    requires small { IsAtMost most (plane_map luma.now.plane) }
    requires most { P.takes most }
    requires place { IsPlace place.now }
    requires high { place.now.down.size ≤ ROWS }
    requires wide { place.now.across.size ≤ COLUMNS }
    requires few { place.now.rows * place.now.columns ≤ 4096 }
    requires lines { LINES ≤ length lines.old }
    requires block { 4096 ≤ length block.old }
{
    predict::<P, Luma<P>>(luma, place, kind, most, lines, block);
    let mut digest = Digest::new();
    for sample in &block[..place.rows * place.columns] {
        digest.add(u64::from(sample.widen()));
    }
    digest.sum_32()
}

fn place_in(rows: usize, columns: usize, down: Line, across: Line) -> Place
    ensures rows { result.rows ≡ rows }
    ensures columns { result.columns ≡ columns }
    ensures down { result.down ≡ record { start = down.0; step = down.1; size = down.2 } }
    ensures across { result.across ≡ record { start = across.0; step = across.1; size = across.2 } }
{
    Place {
        plane: Plane::U,
        row: 0,
        column: 0,
        rows,
        columns,
        down: axis_of(down),
        across: axis_of(across),
    }
}

/// Whether a block is what its row says.
fn is_right<P: FilterSample>(
    luma: &Luma<P>,
    row: &BlockRow,
    most: u16,
    lines: &mut [P],
    block: &mut [P],
) -> bool
    requires whole { luma.now.plane.area ≡ whole_area ROWS COLUMNS }
    requires small { IsAtMost most (plane_map luma.now.plane) }
    requires most { P.takes most }
    requires lines { LINES ≤ length lines.old }
    requires block { 4096 ≤ length block.old }
{
    let (kind, height, width, down, across, sum) = *row;
    let place = place_in(height, width, down, across);
    if !is_axis(place.down, 80) || !is_axis(place.across, 96) {
        return false;
    }
    if !is_length(place.rows) || !is_length(place.columns) {
        return false;
    }
    sum_of::<P>(luma, &place, kind_of(kind), most, lines, block) == sum
}

/// Whether all blocks of a list are.
fn are_right<P: FilterSample>(
    luma: &Luma<P>,
    rows: &[BlockRow],
    most: u16,
    lines: &mut [P],
    block: &mut [P],
) -> bool
    requires whole { luma.now.plane.area ≡ whole_area ROWS COLUMNS }
    requires small { IsAtMost most (plane_map luma.now.plane) }
    requires most { P.takes most }
    requires lines { LINES ≤ length lines.old }
    requires block { 4096 ≤ length block.old }
{
    for row in rows {
        if !is_right::<P>(luma, row, most, lines, block) {
            return false;
        }
    }
    true
}

/// The same of samples that are drawn, by their depth.
fn drawn_are_right<P: FilterSample>(
    alloc: Global,
    rows: &[BlockRow],
    depth: u8,
    most: u16,
) -> Result<bool, AllocError>
    requires { P.takes most }
{
    let luma = luma_of::<P>(alloc, u32::from(depth), most)?;
    let mut lines = P::zeros(alloc, LINES)?;
    let mut block = P::zeros(alloc, 4096)?;
    Ok(are_right::<P>(&luma, rows, most, &mut lines, &mut block))
}

#[test]
fn blocks_of_8_bits(rt: HostRuntime) -> Result<(), Fail> {
    assert!(rt; drawn_are_right::<u16>(rt.alloc(), &DEPTH_8, 8, 255)?);
    Ok(())
}

#[test]
fn blocks_of_bytes(rt: HostRuntime) -> Result<(), Fail> {
    assert!(rt; drawn_are_right::<u8>(rt.alloc(), &DEPTH_8, 8, 255)?);
    Ok(())
}

#[test]
fn blocks_of_10_bits(rt: HostRuntime) -> Result<(), Fail> {
    assert!(rt; drawn_are_right::<u16>(rt.alloc(), &DEPTH_10, 10, 1023)?);
    Ok(())
}

#[test]
fn blocks_of_12_bits(rt: HostRuntime) -> Result<(), Fail> {
    assert!(rt; drawn_are_right::<u16>(rt.alloc(), &DEPTH_12, 12, 4095)?);
    Ok(())
}

#[test]
fn means(rt: HostRuntime) {
    let mut block = [0u16, 1, 2, 255, 4095, 7];
    average(&mut block, &[0, 2, 2, 254, 4095, 100], 5);
    assert_eq!(rt; block, [0, 2, 2, 255, 4095, 7]);
}

#[test]
fn means_of_bytes(rt: HostRuntime) {
    let mut block = [0u8, 1, 2, 255, 255, 7];
    average(&mut block, &[0, 2, 2, 254, 255, 100], 5);
    assert_eq!(rt; block, [0, 2, 2, 255, 255, 7]);
}
