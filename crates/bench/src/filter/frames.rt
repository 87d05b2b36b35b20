//! Frames drawn and filtered, and their checksums.

ghost use Rattle.std.specs.Prelude.{◌≡◌, ℕ, ◌≤◌, length, map, slice_index};
ghost use Rattle.vp9_types.specs.Maps.{IsAtMost};
ghost use Rattle.vp9_types.specs.declared.shape.Depth.TheVariants.{Eight};
ghost use Rattle.planes.specs.Planes.{plane_map};
ghost use Rattle.planes.specs.Pictures.{FitsPlanes, HasSizes, IsInRange};
ghost use Rattle.loop_filter.specs.Code.{IsWholeGrid};

use super::blocks::grid_of;
use crate::numbers::drawn;
use block_plan::BlockGrid;
use frame_headers::{Features, LoopDeltas, LoopFilter, Segmentation};
use loop_edges::EdgeSetting;
use loop_filter::{EdgeSample, filter_frame};
use planes::{FramePlanes, SamplePlane};
use std::alloc::{AllocError, Global};
use vp9_types::{Depth, Sample, Shape};

const SPREADS: [u32; 8] = [1, 2, 3, 4, 6, 10, 30, 2];

fn setting_of(level: u8) -> EdgeSetting
    ensures w { result.shape.w ≡ 1920 }
    ensures h { result.shape.h ≡ 1080 }
    ensures depth { result.shape.depth ≡ Eight }
{
    EdgeSetting {
        shape: Shape {
            w: 1920,
            h: 1080,
            depth: Depth::Eight,
            ss_x: true,
            ss_y: true,
        },
        filter: LoopFilter {
            level,
            sharpness: 0,
            delta_enabled: false,
            deltas: LoopDeltas::DEFAULT,
        },
        segmentation: Segmentation {
            enabled: false,
            map: None,
            features: Features::NONE,
        },
    }
}

/// Draws a row of samples of 8 bits, and gives the state after the last.
fn draw_row<P: Sample>(line: &mut [P], y: usize, first: u32) -> u32
    requires y { y ≤ 65536 }
    requires kept { 255 ≤ P.greatest }
    ensures small { (k : ℕ) → slice_index (map P.value line.new) k ≤ 255 }
    ensures long { length line.new ≡ length line.old }
{
    let mut state = first;
    for x in 0..line.len() {
        state = drawn(state);
        let spread = SPREADS[(y / 16 + 3 * (x / 16)) % 8];
        let base = 100 + ((x / 8 * 5 + y / 8 * 3) % 11) as u32;
        line[x] = P::narrow(((base + (state >> 16) * spread / 65536) as u16).min(255));
    }
    state
}

fn fill<P: Sample>(plane: &mut SamplePlane<P>, seed: u32)
    requires kept { 255 ≤ P.greatest }
    requires small { IsAtMost 255 (plane_map plane.old) }
    ensures area { plane.new.area ≡ plane.old.area }
    ensures small { IsAtMost 255 (plane_map plane.new) }
{
    let area = plane.area();
    let mut state = seed;
    for y in 0..area.rows {
        let line = plane.row_mut(area.first_row + y, area.first_column, area.columns);
        state = draw_row(line, y, state);
    }
}

fn draw<P: Sample>(planes: &mut FramePlanes<P>, shape: &Shape, seed: u32)
    requires kept { 255 ≤ P.greatest }
    requires depth { shape.now.depth ≡ Eight }
    requires sizes { HasSizes shape.now planes.old }
    requires range { IsInRange shape.now.depth planes.old }
    ensures sizes { HasSizes shape.now planes.new }
    ensures range { IsInRange shape.now.depth planes.new }
{
    fill(&mut planes.y, seed.wrapping_add(1));
    fill(&mut planes.u, seed.wrapping_add(2));
    fill(&mut planes.v, seed.wrapping_add(3));
}

fn filter_frames<P: EdgeSample>(
    planes: &mut FramePlanes<P>,
    f: &EdgeSetting,
    grid: &BlockGrid,
    count: u32,
)
    requires kept { 255 ≤ P.greatest }
    requires size { FitsPlanes f.now.shape }
    requires depth { f.now.shape.depth ≡ Eight }
    requires whole { IsWholeGrid f.now.shape grid.now }
    requires sizes { HasSizes f.now.shape planes.old }
    requires range { IsInRange f.now.shape.depth planes.old }
{
    for number in 0..count {
        draw(planes, &f.shape, number);
        filter_frame(planes, f, grid);
    }
}

fn add_up<P: Sample>(sum: u64, plane: &SamplePlane<P>) -> u64 {
    let area = plane.area();
    let mut sum = sum;
    for y in 0..area.rows {
        for sample in plane.row(area.first_row + y, area.first_column, area.columns) {
            sum = sum.wrapping_mul(31).wrapping_add(u64::from(sample.widen()));
        }
    }
    sum
}

fn sum_of<P: EdgeSample>(alloc: Global, level: u8, count: u32) -> Result<u64, AllocError>
    requires kept { 255 ≤ P.greatest }
{
    let f = setting_of(level);
    let grid = grid_of(alloc, &f.shape)?;
    let mut planes: FramePlanes<P> = FramePlanes::new(alloc, &f.shape)?;
    filter_frames(&mut planes, &f, &grid, count);
    Ok(add_up(add_up(add_up(0, &planes.y), &planes.u), &planes.v))
}

/// What is printed for a line.
pub fn describe(alloc: Global, line: &str) -> Result<String, AllocError> {
    let bytes = line.starts_with("bytes ");
    let words = line.strip_prefix("bytes ").unwrap_or(line);
    let Some((first, second)) = words.split_once(' ') else {
        return format!(in alloc; "{line}: no number");
    };
    let Ok(level) = first.parse::<u8>() else {
        return format!(in alloc; "{line}: not a level");
    };
    let Ok(count) = second.parse::<u32>() else {
        return format!(in alloc; "{line}: not a number");
    };
    let sum = if bytes {
        sum_of::<u8>(alloc, level, count)?
    } else {
        sum_of::<u16>(alloc, level, count)?
    };
    format!(in alloc; "{line}: {sum}")
}
