//! A block's part of its column's plan.

ghost use Rattle.std.specs.Prelude.{◌≡◌, ◌+◌, ◌≤◌, ◌<◌, length, drop};
ghost use Rattle.std.specs.Option.{option_copied};
ghost use Rattle.vp9_types.specs.declared.shape.Plane.TheVariants.{Y, U, V};
ghost use Rattle.vp9_types.specs.Sizes.{greatest};
ghost use Rattle.vp9_tables.specs.BlockTables.{greatest_of};
ghost use Rattle.vp9_tables.specs.Numbers.{tx_number};
ghost use Rattle.frame_headers.specs.FrameSizes.{HasFrameSize};
ghost use Rattle.block_geometry.specs.FrameShapes.{places_of};
ghost use Rattle.block_plan.specs.Code.{HoldsSmall};
ghost use Rattle.planes.specs.Pictures.{IsInRange, samples_of};
ghost use Rattle.column_plan.specs.Code.{HoldsWhole};
ghost use Rattle.column_plan.specs.PlannedBlocks.{count_in, count_of, planned_from};
ghost use Rattle.block_rebuild.specs.RebuiltBlocks.{put_planned};
ghost use Rattle.block_rebuild.specs.Code.{HasAreasOf, HoldsBlockIn, IsPlaced, AreServed, rebuilding_of};
ghost use Rattle.recon_rows.specs.BlockParts.{IsPartOf, piece_residue};

use block_geometry::FramePlaces;
use block_plan::BlockInfo;
use block_rebuild::{Rebuilding, RoomSample, TransformResidues, put_block_in_part};
use column_plan::{PlanResidues, transform_count};
use planes::FramePlanes;
use vp9_types::{Plane, Samples, Shape};

/// The residues of a block among those of its column, by the first of each plane, and the first behind them.
#[derive(Clone, Copy)]
pub struct PlanPart<'a> {
    pub residues: &'a PlanResidues,
    pub y: usize,
    pub u: usize,
    pub v: usize,
    pub end: usize,
}

impl<'a> PlanPart<'a> {
    ghost use Rattle.recon_rows.specs.BlockParts.{first_in};

    /// Those of a block, from the `first`-th piece on.
    pub(crate) fn of(
        residues: &'a PlanResidues,
        first: usize,
        places: FramePlaces,
        shape: &Shape,
        block: &BlockInfo,
    ) -> PlanPart<'a>
        requires size { HasFrameSize shape.now }
        requires whole { places ≡ places_of shape.now }
        requires row { block.now.row < places.rows }
        requires column { block.now.col < places.cols }
        requires fits { tx_number block.now.tx ≤ greatest_of block.now.size }
        requires room { first + count_of shape.now block.now ≤ length residues.now }
        ensures part { IsPartOf shape.now block.now residues.now first result }
        ensures end { result.end ≡ first + count_of shape.now block.now }
    {
        // Their number bounds the sums.
        let _all = residues.len();
        let luma = transform_count(places, shape, block, Plane::Y) as usize;
        // both chroma planes are alike
        let chroma = transform_count(places, shape, block, Plane::U) as usize;
        let u = first + luma;
        let v = u + chroma;
        let end = v + chroma;
        PlanPart {
            residues,
            y: first,
            u,
            v,
            end,
        }
    }

    #[inline(always)]
    fn first(&self, plane: Plane) -> usize
        ensures { result ≡ first_in self.now.y self.now.u self.now.v plane }
    {
        match plane {
            Plane::Y => self.y,
            Plane::U => self.u,
            Plane::V => self.v,
        }
    }
}

/// The `k`-th piece behind the first, if it has values.
#[inline(always)]
fn piece(residues: &PlanResidues, first: usize, k: usize) -> Option<&[i32]>
    requires { first + k < length residues.now }
    ensures { option_copied result ≡ piece_residue residues.now first k }
{
    // Their number bounds the sum.
    let _all = residues.len();
    let values = residues.get(first + k);
    if values.is_empty() {
        None
    } else {
        Some(values)
    }
}

impl<'a> TransformResidues for PlanPart<'a> {
    ghost use Rattle.recon_rows.specs.BlockParts.{first_in, has_piece, piece_residue};

    ghost holds = { λ r p area k. has_piece r.residues.now (first_in r.y r.u r.v p) area k };

    ghost residue = { λ r p area k. piece_residue r.residues.now (first_in r.y r.u r.v p) k };

    #[inline(always)]
    fn get(&self, plane: Plane, area: usize, k: usize) -> Option<&[i32]> {
        piece(self.residues, self.first(plane), k)
    }
}

/// Puts a block with its residues out of its column's plan.
pub(crate) fn put_planned_block<P: RoomSample, S: Samples<Kept = P>>(
    planes: &mut FramePlanes<P>,
    by: &Rebuilding<'_, S>,
    tile_from: u32,
    block: &BlockInfo,
    part: &PlanPart<'_>,
    room: &mut P::Room,
)
    requires size { HasFrameSize by.now.shape }
    requires takes { P.takes (greatest by.now.shape.depth) }
    requires placed { IsPlaced by.now.shape tile_from block.now }
    requires references { AreServed S.holds S.width S.map by.now block.now block.now.prediction }
    requires part { HoldsBlockIn by.now.shape tile_from block.now planes.old }
    requires range { IsInRange by.now.shape.depth planes.old }
    requires among { IsPartOf by.now.shape block.now part.now.residues.now part.now.y part.now }
    requires fits { part.now.y + count_of by.now.shape block.now ≤ length part.now.residues.now }
    requires whole { HoldsWhole by.now.shape (planned_from by.now.shape tile_from block.now (drop part.now.y part.now.residues.now)) }
    requires small { HoldsSmall (planned_from by.now.shape tile_from block.now (drop part.now.y part.now.residues.now)) }
    ensures map { samples_of planes.new ≡ put_planned (rebuilding_of S.map by.now) (planned_from by.now.shape tile_from block.now (drop part.now.y part.now.residues.now)) (samples_of planes.old) }
    ensures areas { HasAreasOf planes.old planes.new }
    ensures range { IsInRange by.now.shape.depth planes.new }
{
    put_block_in_part(planes, by, tile_from, block, part, room);
}
