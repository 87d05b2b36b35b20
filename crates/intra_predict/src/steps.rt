//! A block predicted from its plane and put into it.

ghost use Rattle.std.specs.Prelude.{◌≡◌, ℕ, ◌*◌, ◌/◌, ◌≤◌, length, slice_index};
ghost use Rattle.std.specs.Option.{ForSome, option_copied};
ghost use Rattle.vp9_types.specs.Maps.{IsAtMost, Holds};
ghost use Rattle.vp9_types.specs.Sizes.{side, greatest};
ghost use Rattle.planes.specs.Planes.{lower_end, right_end, plane_map};
ghost use Rattle.intra_predict.specs.Laws.{IsUpTo};
ghost use Rattle.intra_predict.specs.Code.{LiesIn, samples_of};
ghost use Rattle.intra_predict.specs.PredictedModes.{predicted};
ghost use Rattle.intra_predict.specs.Residue.{IsResidue};
ghost use Rattle.intra_predict.specs.Steps.{with_predicted, with_rebuilt, with_square, with_any_residue, prediction};

use crate::block::IntraBlock;
use crate::edges::Edges;
use crate::prediction::predict_sized;
use crate::put::add_clipped;
use crate::reading::read_sized;
use crate::scratch::Scratch;
use crate::square::{put_inside, put_square};
use planes::SamplePlane;
use vp9_types::{Depth, IntraMode, Sample, TxSize};

/// Puts the prediction of a block without residue into its plane.
pub fn put_predicted<P: Sample>(
    plane: &mut SamplePlane<P>,
    block: &IntraBlock,
    depth: Depth,
    scratch: &mut Scratch,
)
    requires inside { LiesIn plane.old.area block.now.place }
    requires fits { greatest depth ≤ P.greatest }
    requires small { IsAtMost (greatest depth) (plane_map plane.old) }
    ensures area { plane.new.area ≡ plane.old.area }
    ensures map { plane_map plane.new
        ≡ with_predicted (right_end plane.old.area) (lower_end plane.old.area) depth block.now (plane_map plane.old) }
    ensures small { IsAtMost (greatest depth) (plane_map plane.new) }
{
    put_transform_block(plane, block, depth, None, scratch);
}

/// Puts a block with its residue, row after row, into its plane.
pub fn put_rebuilt<P: Sample>(
    plane: &mut SamplePlane<P>,
    block: &IntraBlock,
    depth: Depth,
    residue: &[i32],
    scratch: &mut Scratch,
)
    requires inside { LiesIn plane.old.area block.now.place }
    requires fits { greatest depth ≤ P.greatest }
    requires small { IsAtMost (greatest depth) (plane_map plane.old) }
    requires residue { IsResidue (side block.now.size * side block.now.size) residue.now }
    ensures area { plane.new.area ≡ plane.old.area }
    ensures map { plane_map plane.new
        ≡ with_rebuilt (right_end plane.old.area) (lower_end plane.old.area) depth block.now residue.now (plane_map plane.old) }
    ensures small { IsAtMost (greatest depth) (plane_map plane.new) }
{
    put_transform_block(plane, block, depth, Some(residue), scratch);
}

/// Puts a block, with its residue if it has some, into its plane.
#[inline(always)]
pub fn put_transform_block<P: Sample>(
    plane: &mut SamplePlane<P>,
    block: &IntraBlock,
    depth: Depth,
    residue: Option<&[i32]>,
    scratch: &mut Scratch,
)
    requires inside { LiesIn plane.old.area block.now.place }
    requires fits { greatest depth ≤ P.greatest }
    requires small { IsAtMost (greatest depth) (plane_map plane.old) }
    requires residue { ForSome (option_copied residue) (IsResidue (side block.now.size * side block.now.size)) }
    ensures area { plane.new.area ≡ plane.old.area }
    ensures map { plane_map plane.new ≡ with_square (right_end plane.old.area) (lower_end plane.old.area) (plane_map plane.old)
        block.now.place.row block.now.place.column (side block.now.size) (with_any_residue depth (side block.now.size)
        (prediction (right_end plane.old.area) (lower_end plane.old.area) depth block.now (plane_map plane.old)) (option_copied residue.entry)) }
    ensures small { IsAtMost (greatest depth) (plane_map plane.new) }
{
    match block.size {
        TxSize::T4x4 => put_four(plane, block, depth, residue, scratch),
        TxSize::T8x8 => put_sized::<P, 8>(plane, block, depth, residue, scratch),
        TxSize::T16x16 => put_sized::<P, 16>(plane, block, depth, residue, scratch),
        TxSize::T32x32 => put_sized::<P, 32>(plane, block, depth, residue, scratch),
    }
}

/// A 4x4 block. Far enough from the plane's ends its samples go by way of nothing that is kept, which costs less.
fn put_four<P: Sample>(
    plane: &mut SamplePlane<P>,
    block: &IntraBlock,
    depth: Depth,
    residue: Option<&[i32]>,
    scratch: &mut Scratch,
)
    requires size { side block.now.size ≡ 4 }
    requires inside { LiesIn plane.old.area block.now.place }
    requires fits { greatest depth ≤ P.greatest }
    requires small { IsAtMost (greatest depth) (plane_map plane.old) }
    requires residue { ForSome (option_copied residue) (IsResidue 16) }
    ensures area { plane.new.area ≡ plane.old.area }
    ensures map { plane_map plane.new ≡ with_square (right_end plane.old.area) (lower_end plane.old.area) (plane_map plane.old)
        block.now.place.row block.now.place.column 4 (with_any_residue depth 4
        (prediction (right_end plane.old.area) (lower_end plane.old.area) depth block.now (plane_map plane.old)) (option_copied residue.entry)) }
    ensures small { IsAtMost (greatest depth) (plane_map plane.new) }
{
    let place = block.place;
    let area = plane.area();
    let rows = area.lower_end() - place.row;
    let columns = area.right_end() - place.column;
    if rows >= 4 && columns >= 8 {
        let mut edges = Edges::new();
        let mut buffer = [0; 16];
        read_sized::<P, 4>(&mut edges, plane, &place, depth);
        rebuild::<4>(block.mode, &edges, depth, residue, &mut buffer);
        put_inside::<P, 4>(plane, place.row, place.column, 4, &buffer);
    } else {
        put_sized::<P, 4>(plane, block, depth, residue, scratch);
    }
}

/// There is one for each size, with loops of as many steps as are known where it is compiled.
#[inline(never)]
fn put_sized<P: Sample, const N: usize>(
    plane: &mut SamplePlane<P>,
    block: &IntraBlock,
    depth: Depth,
    residue: Option<&[i32]>,
    scratch: &mut Scratch,
)
    requires size { side block.now.size ≡ N }
    requires sixteens { N * N ≡ N * N / 16 * 16 }
    requires inside { LiesIn plane.old.area block.now.place }
    requires fits { greatest depth ≤ P.greatest }
    requires small { IsAtMost (greatest depth) (plane_map plane.old) }
    requires residue { ForSome (option_copied residue) (IsResidue (N * N)) }
    ensures area { plane.new.area ≡ plane.old.area }
    ensures map { plane_map plane.new ≡ with_square (right_end plane.old.area) (lower_end plane.old.area) (plane_map plane.old)
        block.now.place.row block.now.place.column N (with_any_residue depth N
        (prediction (right_end plane.old.area) (lower_end plane.old.area) depth block.now (plane_map plane.old)) (option_copied residue.entry)) }
    ensures small { IsAtMost (greatest depth) (plane_map plane.new) }
{
    let place = &block.place;
    let buffer = &mut scratch.block;
    read_sized::<P, N>(&mut scratch.edges, plane, place, depth);
    rebuild::<N>(block.mode, &scratch.edges, depth, residue, buffer);
    put_square::<P, N>(plane, place.row, place.column, buffer);
}

/// Predicts a block, and adds its residue if it has some. What is behind it in the buffer stays.
#[inline(always)]
fn rebuild<const N: usize>(
    mode: IntraMode,
    edges: &Edges,
    depth: Depth,
    residue: Option<&[i32]>,
    buffer: &mut [u16],
)
    requires some { 4 ≤ N }
    requires few { N ≤ 32 }
    requires twos { N ≡ 2 * (N / 2) }
    requires sixteens { N * N ≡ N * N / 16 * 16 }
    requires small { IsUpTo (greatest depth) (samples_of N edges.now) }
    requires residue { ForSome (option_copied residue) (IsResidue (N * N)) }
    requires room { N * N ≤ length buffer.old }
    ensures values { Holds buffer.new N (with_any_residue depth N (predicted mode N depth (samples_of N edges.now)) (option_copied residue.entry)) }
    ensures behind { (k : ℕ) → N * N ≤ k → slice_index buffer.new k ≡ slice_index buffer.old k }
{
    let samples = &mut buffer[..N * N];
    predict_sized::<N>(mode, edges, depth, samples);
    if let Some(residue) = residue {
        add_clipped(samples, residue, N * N, depth.greatest());
    }
}
