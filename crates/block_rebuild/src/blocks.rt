//! A block put into all planes of its frame.

ghost use Rattle.std.specs.Prelude.{◌≡◌};
ghost use Rattle.vp9_types.specs.Sizes.{greatest};
ghost use Rattle.frame_headers.specs.FrameSizes.{HasFrameSize};
ghost use Rattle.block_plan.specs.Code.{HoldsSmall, planned_with};
ghost use Rattle.planes.specs.Pictures.{HasSizes, IsInRange, samples_of};
ghost use Rattle.block_rebuild.specs.RebuiltBlocks.{put_planned, put_by};
ghost use Rattle.block_rebuild.specs.Code.{HasAreasOf, HasReferences, HoldsBlockIn, IsPlaced, AreServed, rebuilding_of};
ghost use Rattle.block_rebuild.specs.Residues.{AreHeld, planned_by};

use crate::in_plane::{IntraCoded, put_in_plane};
use crate::inter_in_plane::{InterCoded, put_chroma, put_luma};
use crate::references::Rebuilding;
use crate::residues::TransformResidues;
use crate::room::{GREATEST_BLOCK, RoomSample};
use block_plan::{BlockInfo, BlockResidues, Prediction};
use planes::FramePlanes;
use vp9_types::{Plane, Samples};

/// Puts a block with its residue into the planes of its frame, or into parts of them that hold the block and what is around it
/// in its tile, such as a strip with the row above: an intra block transform block by transform block, an inter block predicted
/// first. `tile_from` is the first column of its tile, in places of 8x8 luma samples. Of the pictures that it
/// refers to only the rows that it is predicted from have to be there.
#[tactic(auto, unfolding(crate::specs::RebuiltBlocks::put_by))]
pub fn put_block_in_part<P: RoomSample, S: Samples<Kept = P>, R: TransformResidues>(
    planes: &mut FramePlanes<P>,
    by: &Rebuilding<'_, S>,
    tile_from: u32,
    block: &BlockInfo,
    residues: &R,
    room: &mut P::Room,
)
    requires size { HasFrameSize by.now.shape }
    requires fits { P.takes (greatest by.now.shape.depth) }
    requires placed { IsPlaced by.now.shape tile_from block.now }
    requires references { AreServed S.holds S.width S.map by.now block.now block.now.prediction }
    requires part { HoldsBlockIn by.now.shape tile_from block.now planes.old }
    requires range { IsInRange by.now.shape.depth planes.old }
    requires held { AreHeld (R.holds residues.now) by.now.shape block.now }
    requires small { HoldsSmall (planned_by (R.residue residues.now) by.now.shape tile_from block.now) }
    ensures map { samples_of planes.new ≡ put_planned (rebuilding_of S.map by.now) (planned_by (R.residue residues.now) by.now.shape tile_from block.now) (samples_of planes.old) }
    ensures areas { HasAreasOf planes.old planes.new }
    ensures range { IsInRange by.now.shape.depth planes.new }
{
    match block.prediction {
        Prediction::Intra(modes) => {
            let b = IntraCoded {
                shape: &by.shape,
                tile_from,
                block,
                modes: &modes,
            };
            let room = P::intra(room);
            put_in_plane(&mut planes.y, &b, Plane::Y, residues, room);
            put_in_plane(&mut planes.u, &b, Plane::U, residues, room);
            put_in_plane(&mut planes.v, &b, Plane::V, residues, room);
        }
        Prediction::Inter(modes) => {
            let b = InterCoded {
                by,
                block,
                modes: &modes,
            };
            let (first, rest) = P::buffer(room).split_at_mut(GREATEST_BLOCK);
            put_luma(&mut planes.y, &b, residues, first, rest);
            put_chroma(&mut planes.u, &mut planes.v, &b, residues, first, rest);
        }
    }
}

/// Puts a block, with its residue from its buffer, into whole planes, predicted from whole pictures.
pub fn put_block<P: RoomSample, S: Samples<Kept = P>>(
    planes: &mut FramePlanes<P>,
    by: &Rebuilding<'_, S>,
    tile_from: u32,
    block: &BlockInfo,
    residues: &BlockResidues,
    room: &mut P::Room,
)
    requires size { HasFrameSize by.now.shape }
    requires fits { P.takes (greatest by.now.shape.depth) }
    requires placed { IsPlaced by.now.shape tile_from block.now }
    requires references { HasReferences S.holds S.width S.map by.now block.now.prediction }
    requires sizes { HasSizes by.now.shape planes.old }
    requires range { IsInRange by.now.shape.depth planes.old }
    requires small { HoldsSmall (planned_with by.now.shape tile_from block.now block.now residues.now) }
    ensures map { samples_of planes.new ≡ put_planned (rebuilding_of S.map by.now) (planned_with by.now.shape tile_from block.now block.now residues.now) (samples_of planes.old) }
    ensures sizes { HasSizes by.now.shape planes.new }
    ensures range { IsInRange by.now.shape.depth planes.new }
{
    put_block_in_part(planes, by, tile_from, block, residues, room);
}
