//! Places that tools/vectors.py inter computes.

ghost use Rattle.std.specs.Prelude.{◌≡◌, ◌<◌, ◌≤◌};
ghost use Rattle.std.specs.Bool.{OnTrue};
ghost use Rattle.inter_places.specs.Places.{IsPart, IsReference};
ghost use Rattle.inter_places.specs.Scaling.{IsInScale};

mod rows;

use block_plan::{BlockInfo, InterPrediction, IntraPrediction, Mv, Prediction, ReferenceFrames};
use inter_places::{Axis, BlockPart, part_count, place};
use rows::{Line, PLACES, PlaceRow};
use test_draws::Draws;
use vp9_types::{
    BlockSize, Depth, InterMode, InterpFilter, IntraMode, Plane, ReferenceFrame, Shape, TxSize,
};

const SIZES: [BlockSize; 13] = [
    BlockSize::B4x4,
    BlockSize::B4x8,
    BlockSize::B8x4,
    BlockSize::B8x8,
    BlockSize::B8x16,
    BlockSize::B16x8,
    BlockSize::B16x16,
    BlockSize::B16x32,
    BlockSize::B32x16,
    BlockSize::B32x32,
    BlockSize::B32x64,
    BlockSize::B64x32,
    BlockSize::B64x64,
];

/// A drawn component.
fn component(draws: &mut Draws, most: u32) -> i16
    requires { most ≤ 16384 }
{
    let above_least = draws.below(2 * most + 1) as i32;
    (above_least - most as i32) as i16
}

/// Vectors of pseudo-random components.
fn vectors_of(seed: u32, most: u32) -> [[Mv; 2]; 4]
    requires { most ≤ 16384 }
{
    let mut draws = Draws::new(seed);
    let mut vectors = [[Mv { row: 0, column: 0 }; 2]; 4];
    for quarter in vectors.iter_mut() {
        for vector in quarter.iter_mut() {
            vector.row = component(&mut draws, most);
            vector.column = component(&mut draws, most);
        }
    }
    vectors
}

fn inter_of(vectors: [[Mv; 2]; 4]) -> InterPrediction {
    InterPrediction {
        modes: [InterMode::Zero; 4],
        references: ReferenceFrames {
            first: ReferenceFrame::Last,
            second: None,
        },
        filter: InterpFilter::Regular,
        vectors,
    }
}

fn block_of(row: u32, col: u32, size: BlockSize, inter: InterPrediction) -> BlockInfo
    ensures row { result.row ≡ row }
    ensures column { result.col ≡ col }
    ensures size { result.size ≡ size }
{
    BlockInfo {
        row,
        col,
        size,
        skip: false,
        segment: 0,
        segment_predicted: false,
        tx: TxSize::T4x4,
        prediction: Prediction::Inter(inter),
    }
}

fn is_in_scale(reference: u32, own: u32) -> bool
    requires { own ≤ 65536 }
    ensures { OnTrue result (IsInScale reference own) }
{
    0 < own && reference <= 65536 && reference <= 2 * own && own <= 16 * reference
}

fn line_of(first: usize, length: usize, axis: Axis) -> Line {
    (first, length, axis.start, axis.step, axis.size)
}

/// Where a row's part is predicted from, if there is such a part.
fn lines_of(row: &PlaceRow) -> Option<(Line, Line)> {
    let (frame, other, at, drawn_from, chosen, _, _) = *row;
    let (w, h, ss_x, ss_y) = frame;
    let shape = Shape {
        w,
        h,
        depth: Depth::Eight,
        ss_x,
        ss_y,
    };
    let reference = Shape {
        w: other.0,
        h: other.1,
        depth: Depth::Eight,
        ss_x,
        ss_y,
    };
    let size = *SIZES.get(at.2)?;
    let plane = if chosen.0 { Plane::V } else { Plane::Y };
    let part = BlockPart {
        plane,
        number: chosen.1,
        list: chosen.2,
    };
    if w > 65536 || h > 65536 || !is_in_scale(reference.w, w) || !is_in_scale(reference.h, h) {
        return None;
    }
    if drawn_from.1 > 16384 || at.0 >= h.div_ceil(8) || at.1 >= w.div_ceil(8) || part.list >= 2 {
        return None;
    }
    if part.number >= part_count(&shape, size, plane) {
        return None;
    }
    let inter = inter_of(vectors_of(drawn_from.0, drawn_from.1));
    let block = block_of(at.0, at.1, size, inter);
    let place = place(&shape, &block, &inter, part, &reference);
    Some((
        line_of(place.row, place.rows, place.down),
        line_of(place.column, place.columns, place.across),
    ))
}

#[test]
fn places(rt: HostRuntime) {
    for row in PLACES.iter() {
        assert_eq!(rt; lines_of(row), Some((row.5, row.6)));
    }
}
