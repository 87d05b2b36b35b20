//! Parts of a map of places, which is stored row by row.

ghost use Rattle.std.specs.Prelude.{◌≡◌, ℕ, ◌+◌, ◌*◌, ◌^◌, ◌<◌, ◌≤◌, ◌&&◌, length, slice_index_or, if◌then◌else◌};
ghost use Rattle.vp9_types.specs.Maps.{is_within};
ghost use Rattle.block_geometry.specs.Parts.{part_inside};

use crate::sizes::{height_8, width_8};
use crate::transform_blocks::FramePlaces;
use vp9_types::BlockSize;

/// Rows and columns of a map, from a row and column on.
#[derive(Clone, Copy, Debug, PartialEq, Eq)]
pub struct Part {
    pub row: usize,
    pub col: usize,
    pub rows: usize,
    pub cols: usize,
}

/// The part of a block inside a frame. The block starts there.
pub fn part_inside(frame: FramePlaces, row: u32, col: u32, size: BlockSize) -> Part
    requires row { row < frame.rows }
    requires col { col < frame.cols }
    ensures is { result ≡ part_inside frame row col size }
    ensures low { result.row + result.rows ≤ frame.rows }
    ensures left { result.col + result.cols ≤ frame.cols }
    ensures near { result.row + result.rows < 2 ^ 32 }
{
    Part {
        row: row as usize,
        col: col as usize,
        rows: u32::from(height_8(size)).min(frame.rows - row) as usize,
        cols: u32::from(width_8(size)).min(frame.cols - col) as usize,
    }
}

/// Puts a value at the `n` places from one on.
fn fill_run<T: Copy>(places: &mut [T], from: usize, n: usize, value: T)
    requires { from + n ≤ length places.old }
    ensures { (k : ℕ) → slice_index_or places.new k value ≡ (if is_within from n k then value else slice_index_or places.old k value) }
{
    for k in from..from + n {
        places[k] = value;
    }
}

/// Puts a value at each place of a part of a map, whose rows have `width` places.
pub fn fill_part<T: Copy>(places: &mut [T], width: usize, part: Part, value: T)
    requires wide { part.col + part.cols ≤ width }
    requires near { part.row + part.rows < 2 ^ 32 }
    requires high { (part.row + part.rows) * width ≤ length places.old }
    ensures { (r c : ℕ) → c < width → slice_index_or places.new (r * width + c) value
        ≡ (if is_within part.row part.rows r && is_within part.col part.cols c then value else slice_index_or places.old (r * width + c) value) }
{
    for i in 0..part.rows {
        fill_run(places, (part.row + i) * width + part.col, part.cols, value);
    }
}
