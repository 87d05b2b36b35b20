//! An intra block put into a plane.

ghost use Rattle.std.specs.Prelude.{◌≡◌, ◌<◌, ◌≤◌, ◌+◌, ◌*◌, ℕ, length};
ghost use Rattle.std.specs.List.{All, fold};
ghost use Rattle.std.specs.Option.{option_copied};
ghost use Rattle.vp9_types.specs.Maps.{IsAtMost};
ghost use Rattle.vp9_types.specs.Sizes.{greatest};
ghost use Rattle.vp9_tables.specs.Scans.{area};
ghost use Rattle.frame_headers.specs.FrameSizes.{HasFrameSize};
ghost use Rattle.block_geometry.specs.TransformBlocks.{grid_blocks, tx_step};
ghost use Rattle.block_geometry.specs.Code.{IsSmallGrid};
ghost use Rattle.block_plan.specs.Code.{IsSmall, AreSmall};
ghost use Rattle.block_plan.specs.InPlanes.{places_in, tx_in};
ghost use Rattle.intra_predict.specs.Code.{LiesIn};
ghost use Rattle.intra_predict.specs.Places.{place_in};
ghost use Rattle.planes.specs.Planes.{lower_end, right_end, plane_map};
ghost use Rattle.block_rebuild.specs.RebuiltBlocks.{coded_block, put_residue, put_intra};
ghost use Rattle.block_rebuild.specs.Code.{IsPlaced, IsPartOf, block_at, put_more};
ghost use Rattle.block_rebuild.specs.Residues.{IsWhole, residues_at, residues_of};

use crate::residues::TransformResidues;
use block_geometry::{
    FramePlaces, PlaneBlock, TransformGrid, TransformPlace, transform_grid, width_8,
};
use block_plan::{BlockInfo, IntraPrediction, mode_at, plane_block};
use intra_predict::{CodedBlock, IntraBlock, Scratch, place_of, put_transform_block};
use planes::SamplePlane;
use vp9_tables::area_of;
use vp9_types::{BlockSize, Depth, Plane, Sample, Shape, TxSize};

/// An intra block of a frame of this shape, in a tile whose columns begin at `tile_from`.
#[derive(Clone, Copy)]
pub(crate) struct IntraCoded<'a> {
    pub shape: &'a Shape,
    pub tile_from: u32,
    pub block: &'a BlockInfo,
    pub modes: &'a IntraPrediction,
}

/// An intra block in a plane: what its transform blocks share.
#[derive(Clone, Copy)]
pub struct IntraInPlane<'a> {
    pub plane: Plane,
    pub depth: Depth,
    pub size: BlockSize,
    pub tx: TxSize,
    pub coded: CodedBlock,
    pub modes: &'a IntraPrediction,
}

fn coded_block(tile_from: u32, block: &PlaneBlock) -> CodedBlock
    ensures { result ≡ coded_block tile_from block.now }
{
    CodedBlock {
        row: block.row as usize,
        column: block.col as usize,
        columns: width_8(block.size) as usize,
        tile_column: tile_from as usize,
        ss_x: block.ss_x,
        ss_y: block.ss_y,
    }
}

/// The transform block at a place.
fn block_at(b: &IntraInPlane<'_>, at: TransformPlace) -> IntraBlock
    requires low { b.now.coded.row ≤ 8192 }
    requires near { b.now.coded.column + b.now.coded.columns ≤ 65536 }
    requires tile { b.now.coded.tile_column ≤ b.now.coded.column }
    requires down { at.row < 16 }
    requires across { at.column < 16 }
    ensures { result ≡ block_at b.now at }
{
    IntraBlock {
        place: place_of(&b.coded, at.row, at.column),
        size: b.tx,
        mode: mode_at(b.modes, b.size, b.plane, at.row, at.column),
    }
}

/// Puts a transform block into its plane, with its values if it has residue.
#[inline(always)]
#[tactic(auto, using(crate::proofs::Puts::whole_residue, crate::proofs::Puts::residue_is))]
fn put_residue<P: Sample>(
    samples: &mut SamplePlane<P>,
    block: &IntraBlock,
    depth: Depth,
    residue: Option<&[i32]>,
    scratch: &mut Scratch,
)
    requires fits { greatest depth ≤ P.greatest }
    requires inside { LiesIn samples.old.area block.now.place }
    requires range { IsAtMost (greatest depth) (plane_map samples.old) }
    requires whole { IsWhole (area block.now.size) (option_copied residue) }
    requires small { IsSmall (option_copied residue) }
    ensures map { plane_map samples.new ≡ put_residue (right_end samples.old.area) (lower_end samples.old.area) depth block.now (option_copied residue.entry) (plane_map samples.old) }
    ensures area { samples.new.area ≡ samples.old.area }
    ensures range { IsAtMost (greatest depth) (plane_map samples.new) }
{
    put_transform_block(samples, block, depth, residue, scratch);
}

/// Puts all transform blocks of a block into its plane.
fn put_residues<P: Sample, R: TransformResidues>(
    samples: &mut SamplePlane<P>,
    b: &IntraInPlane<'_>,
    grid: &TransformGrid,
    residues: &R,
    scratch: &mut Scratch,
)
    requires fits { greatest b.now.depth ≤ P.greatest }
    requires small_grid { IsSmallGrid grid.now }
    requires step { grid.now.step ≡ tx_step b.now.tx }
    requires low { b.now.coded.row ≤ 8192 }
    requires near { b.now.coded.column + b.now.coded.columns ≤ 65536 }
    requires tile { b.now.coded.tile_column ≤ b.now.coded.column }
    requires inside { All (λ at. LiesIn samples.old.area (place_in b.now.coded at.row at.column)) (grid_blocks grid.now) }
    requires range { IsAtMost (greatest b.now.depth) (plane_map samples.old) }
    requires held { (k : ℕ) → k < length (grid_blocks grid.now) → R.holds residues.now b.now.plane (area b.now.tx) k }
    requires small { AreSmall (residues_at (R.residue residues.now b.now.plane (area b.now.tx)) (grid_blocks grid.now)) }
    ensures map { plane_map samples.new ≡ fold (put_more samples.old.area b.now) (plane_map samples.old) (residues_at (R.residue residues.now b.now.plane (area b.now.tx)) (grid_blocks grid.now)) }
    ensures area { samples.new.area ≡ samples.old.area }
    ensures range { IsAtMost (greatest b.now.depth) (plane_map samples.new) }
{
    let (plane, area) = (b.plane, area_of(b.tx));
    for k in 0..grid.count() {
        let block = block_at(b, grid.place(k));
        let residue = residues.get(plane, area, k as usize);
        put_residue(samples, &block, b.depth, residue, scratch);
    }
}

/// Puts an intra block into a plane, or a part of it that holds the block.
pub(crate) fn put_in_plane<P: Sample, R: TransformResidues>(
    samples: &mut SamplePlane<P>,
    b: &IntraCoded<'_>,
    plane: Plane,
    residues: &R,
    scratch: &mut Scratch,
)
    requires size { HasFrameSize b.now.shape.now }
    requires fits { greatest b.now.shape.now.depth ≤ P.greatest }
    requires placed { IsPlaced b.now.shape.now b.now.tile_from b.now.block.now }
    requires is { IsPartOf b.now.shape.now plane b.now.tile_from b.now.block.now samples.old }
    requires held { (k : ℕ) → k < length (places_in b.now.shape.now b.now.block.now plane) → R.holds residues.now plane (area (tx_in b.now.shape.now b.now.block.now plane)) k }
    requires small { AreSmall (residues_of (R.residue residues.now) b.now.shape.now b.now.block.now plane) }
    ensures map { plane_map samples.new ≡ put_intra b.now.shape.now b.now.tile_from b.now.block.now b.now.modes.now plane (residues_of (R.residue residues.now) b.now.shape.now b.now.block.now plane) (plane_map samples.old) }
    ensures area { samples.new.area ≡ samples.old.area }
    ensures range { IsAtMost (greatest b.now.shape.now.depth) (plane_map samples.new) }
{
    let block = plane_block(b.shape, b.block, plane);
    let grid = transform_grid(FramePlaces::of(b.shape), block);
    let in_plane = IntraInPlane {
        plane,
        depth: b.shape.depth,
        size: b.block.size,
        tx: block.tx,
        coded: coded_block(b.tile_from, &block),
        modes: b.modes,
    };
    put_residues(samples, &in_plane, &grid, residues, scratch);
}
